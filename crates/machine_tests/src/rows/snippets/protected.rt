//! Faults and protected calls: small texts of plain Lua, and what Lua 5.1 itself makes of them.

/// Faults are caught as in lua.
pub(in crate::rows) const FAULTS: &str = "\
return pcall(function() return 1, 2 end) => Done true, 1, 2
return pcall(function() end) => Done true
return pcall(error) => Done false, nil
return pcall(error, nil) => Done false, nil
return select(\"#\", pcall(error)) => Done 2
local ok, e = pcall(error, {code = 7}) return ok, e.code => Done false, 7
local ok, e = pcall(function() error({1, 2}) end) return ok, #e => Done false, 2
return pcall(function() error(\"x\", 0) end) => Done false, \"x\"
return pcall(function() error(\"x\") end) => Done false, \"t.conf:1: x\"
return pcall(function() error(\"x\", 1) end) => Done false, \"t.conf:1: x\"
local function f() error(\"deep\", 2) end¶return pcall(function()¶f()¶end) => Done false, \"t.conf:3: deep\"
local function f() error(\"here\") end¶¶return pcall(f) => Done false, \"t.conf:1: here\"
error(\"at the top\") => Failed \"t.conf:1: at the top\"
¶¶error(\"third line\") => Failed \"t.conf:3: third line\"
error(\"no position\", 0) => Failed \"no position\"
error({}) => Failed table
error(nil) => Failed nil
error() => Failed nil
error(true) => Failed true
local t = setmetatable({}, {__index = function(t, k) error(\"no \" .. k, 2) end})¶local v¶v = t.x => Failed \"t.conf:3: no x\"
return pcall(pcall, function() error(\"e\", 0) end) => Done true, false, \"e\"
local ok, e = pcall(function() local ok, e = pcall(error, \"in\", 0) error(e .. \"!\", 0) end) return ok, e => Done false, \"in!\"
local ok, e = pcall(function() local ok, e = pcall(function() error({n = 1}) end) e.n = e.n + 1 error(e) end) return e.n => Done 2
return pcall(select, 2, \"a\", \"b\") => Done true, \"b\"
return pcall(function(...) return ... end, 1, nil, 3) => Done true, 1, nil, 3
local n = 0 for i = 1, 3 do local ok = pcall(function() if i == 2 then error(\"x\") end n = n + i end) end return n => Done 4
local ok = pcall(function() local x = nil return x.y end) return ok => Done false
local ok = pcall(function() return nil + 1 end) return ok => Done false
local ok = pcall(function() return {} .. \"\" end) return ok => Done false
local ok = pcall(function() return 1 < \"2\" end) return ok => Done false
local ok = pcall(function() return #5 end) return ok => Done false
local ok = pcall(function() return (\"x\")() end) return ok => Done false
local ok = pcall(function() local t = {} t[nil] = 1 end) return ok => Done false
local ok = pcall(function() undefined() end) return ok => Done false
local ok = pcall(function() return -{} end) return ok => Done false
local ok = pcall(function() return {} < {} end) return ok => Done false
local ok = pcall(function() for i = 1, \"x\" do end end) return ok => Done false
return xpcall(function() return 1, 2 end, function() return \"never\" end) => Done true, 1, 2
return xpcall(function() error(\"e\", 0) end, function(m) return m .. \"!\", 2 end) => Done false, \"e!\"
return xpcall(function() error(\"e\") end, function(m) return m end) => Done false, \"t.conf:1: e\"
return xpcall(function() error({5}) end, function(m) return m[1] end) => Done false, 5
return xpcall(function() error() end, function(m) return m == nil end) => Done false, true
return xpcall(function(...) return select(\"#\", ...) end, error) => Done true, 0
local ok, r = xpcall(function() return pcall(error, \"in\", 0) end, function() return \"out\" end) return ok, r => Done true, false
local ok, r = xpcall(function() local ok, e = xpcall(error, function() return \"a\" end) error(e .. \"b\", 0) end, function(m) return m .. \"c\" end) return \
ok, r => Done false, \"abc\"
return assert(1, 2, 3) => Done 1, 2, 3
return assert(\"text\"), assert(true, \"unused\") => Done \"text\", true, \"unused\"
return pcall(assert, true, 5) => Done true, true, 5
local ok = pcall(assert, nil) return ok => Done false
local ok, e = pcall(error, setmetatable({}, {__tostring = function() return \"err\" end})) return ok, tostring(e) => Done false, \"err\"
local function try(f, ...) local r = {pcall(f, ...)} if r[1] then return \"ok\", r[2] end return \"failed\", r[2] end return try(function(x) return x end, \
5), try(error, \"m\", 0) => Done \"ok\", \"failed\", \"m\"
local function f(n) if n == 0 then error(\"bottom\", 0) end f(n - 1) end return pcall(f, 50) => Done false, \"bottom\"
local x = 1 pcall(function() x = 2 error(\"e\") x = 3 end) return x => Done 2
local t = {} local ok = pcall(function() t.a = 1 t.b.c = 2 end) return ok, t.a => Done false, 1
return pcall(function() return pcall(function() return \"deep\" end) end) => Done true, true, \"deep\"
local cleanup = 0 local ok, e = pcall(function() local ok, e = pcall(error, \"first\", 0) cleanup = cleanup + 1 error(e, 0) end) return ok, e, cleanup => \
Done false, \"first\", 1
local f = function() error([[¶one]], 0) end return pcall(f) => Done false, \"one\"";
