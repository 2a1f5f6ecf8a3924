//! Handlers in Lua, by what their clients are sent (SAYS) and what is logged (FAILS); CASES of COUNTS show what runs share, LOST what becomes of a log line
//! that isn't written. Expected values of Lua are those of its reference manual, and texts of errors those of the manual of this server.

/// A site with one handler, which begins in line 2.
pub(super) const SITE: &str =
    "http { server { listen 8080;\nlocation / { content_by_lua_block { BODY } }\n} }\n";

/// A request, and what is done then.
pub(super) const CASE: &str =
    "arrive c1\nbytes c1 \"GET / HTTP/1.0\\r\\n\\r\\n\"\nDONE\"\n> close c1\nstop";

/// Handlers, and what is sent after the head of the reply.
pub(super) const SAYS: &str = r##"ngx.say("hi") => hi\n
ngx.say() => \n
ngx.print("a", 1, nil, true, {"b", {2, "c"}}) ngx.print() ngx.say("x", "y") => a1niltrueb2cxy\n
 => 
local n = 0 for i = 1, 10 do n = n + i end ngx.say(n) => 55\n
local t = {} for i = 3, 1, -1 do t[#t + 1] = i end ngx.say(t, #t) => 3213\n
local function count() local n = 0 return function() n = n + 1 return n end end local c = count() c() ngx.say(c()) => 2\n
local t = setmetatable({}, {__index = function(t, k) return k .. "!" end}) ngx.say(t.a, t.b) => a!b!\n
local t = setmetatable({}, {__add = function(a, b) return "sum" end}) ngx.say(t + 1) => sum\n
for k, v in pairs({x = 1}) do ngx.say(k, "=", v) end for i, v in ipairs({"a", "b"}) do ngx.print(i, v) end => x=1\n1a2b
ngx.say(pcall(function() return 99999999999999 + 1 end)) ngx.say(-7 % 3) => falset.conf:2: number out of range\n2\n
ngx.say(pcall(function() return 7/2 end)) => falset.conf:2: number has no whole result\n
ngx.say(pcall(function() return 1 % 0 end)) => falset.conf:2: attempt to divide by zero\n
ngx.say(pcall(error, {1})) ngx.say(select("#", 1, nil)) ngx.say(tostring(nil), type(ngx.say)) => false1\n2\nnilfunction\n
ngx.say(pcall(function() error("e", 0) end)) ngx.say((select(2, pcall(function() error("e") end)))) => falsee\nt.conf:2: e\n
local s = 0 local i = 0 while true do i = i + 1 if i > 100 then break end if i % 2 == 0 then s = s + i end end ngx.say(s) => 2550\n
local function fib(n) if n < 2 then return n end return fib(n - 1) + fib(n - 2) end ngx.say(fib(15)) => 610\n
ngx.say(_VERSION, _G == _G._G, string == nil, ngx.exit == nil) => Lua 5.1truetruetrue\n
local a, b = (function(...) return select("#", ...), ... end)(7, 8) ngx.say(a, b) return 1 => 27\n
ngx.say(unpack({1, 2, 3})) ngx.say(tonumber("ff", 16), tonumber("x"), rawequal("a", "a")) => 123\n255niltrue\n
ngx.say(pcall(function() local t = nil return t.x end)) => falset.conf:2: attempt to index a nil value\n
ngx.say(pcall(require, "none")) => falset.conf:2: module 'none' not found\n"##;

/// Handlers that fail: what is logged, and what is sent.
pub(super) const FAILS: &str = r#"error("e") => t.conf:2: e"|<500>
ngx.say("a") error("b") => t.conf:2: b"|<close>a\n
error({}) => unknown reason"|<500>
local s = "x" while true do s = s .. s end => t.conf:2: not enough memory (storage limit)"|<500>
local function f() return 1 + f() end f() => t.conf:2: stack overflow"|<500>
local t = nil t.x = 1 => t.conf:2: attempt to index a nil value"|<500>
nothing() => t.conf:2: attempt to call a nil value"|<500>"#;

/// A handler that counts in a global, and one that never ends.
pub(super) const COUNTS: &str = r#"http { init_by_lua_block { first = 1 shared = {} } server {
location / { content_by_lua_block { count = (count or 0) + first ngx.say(count) } }
location /loop { content_by_lua_block { pcall(function() while true do end end) } }
location /frozen { content_by_lua_block { shared.x = 1 } }
location /first { content_by_lua_block { first = 7 ngx.say(first) } } } }"#;

/// Each request has globals of its own, what init made can't be changed, and a run that has spent its steps disturbs nobody.
pub(super) const CASES: &str = r#"arrive c1
bytes c1 "<get><get>"
> put c1 "<keep>2\r\n1\n\r\n0\r\n\r\n"
> put c1 "<keep>2\r\n1\n\r\n0\r\n\r\n"
stop
> close c1

arrive c1
bytes c1 "GET /first HTTP/1.1\r\nHost: a\r\n\r\n<get>"
> put c1 "<keep>2\r\n7\n\r\n0\r\n\r\n"
> put c1 "<keep>2\r\n1\n\r\n0\r\n\r\n"
stop
> close c1

arrive c1
arrive c2
bytes c1 "GET /loop HTTP/1.0\r\n\r\n"
> log c1 "0 [error] lua run aborted: step budget of 1000000 spent"
> put c1 "<500>"
> close c1
bytes c2 "GET / HTTP/1.0\r\n\r\n"
> put c2 "<close>1\n"
> close c2
stop

arrive c1
bytes c1 "GET /frozen HTTP/1.0\r\n\r\n"
> log c1 "0 [error] lua entry thread aborted: runtime error: t.conf:4: attempt to modify a frozen table"
> put c1 "<500>"
> close c1
stop"#;
