//! Functions and their calls: small texts of plain Lua, and what Lua 5.1 itself makes of them.

/// Functions give what lua gives.
pub(in crate::rows) const FUNCTIONS: &str = "\
local function f(a, b) return b, a end return f(1), f(1, 2, 3) => Done nil, 2, 1
local function f(...) return select(\"#\", ...), ... end return f(nil, nil) => Done 2, nil, nil
local function f(a, ...) local b, c = ... return a, b, c end return f(1, 2, 3, 4) => Done 1, 2, 3
local function f(...) local t = {...} return #t, t[1], t[#t] end return f(5, 6, 7) => Done 3, 5, 7
local function f(...) return (...) end return f(7, 8), f() => Done 7, nil
local function f(...) return ... end return f(1, nil, 3) => Done 1, nil, 3
local function f(...) return {n = select(\"#\", ...), ...} end local t = f(\"a\", nil, \"c\") return t.n, t[1], t[2], t[3] => Done 3, \"a\", nil, \"c\"
local function fact(n) if n <= 1 then return 1 end return n * fact(n - 1) end return fact(14) => Done 87178291200
local function fib(n) if n < 2 then return n end return fib(n - 1) + fib(n - 2) end return fib(12) => Done 144
local even, odd local function e(n) if n == 0 then return true end return odd(n - 1) end even = e odd = function(n) if n == 0 then return false end return \
even(n - 1) end return even(10), even(7) => Done true, false
local function loop(n) if n == 0 then return \"done\" end return loop(n - 1) end return loop(6000) => Done \"done\"
local function depth(n) if n == 0 then return 0 end return 1 + depth(n - 1) end return depth(150) => Done 150
local function counter() local n = 0 return function() n = n + 1 return n end end local c, d = counter(), counter() return c(), c(), d(), c() => Done 1, 2, 1, 3
local n = 0 local function up() n = n + 1 end local function get() return n end up() up() return get(), n => Done 2, 2
local function f() local a = 1 local function g() a = a + 1 return a end local function h() return a end return g(), h(), g(), h() end return f() => Done 2, \
2, 3, 3
local function outer() local x = 1 return function() local y = 2 return function() x = x + y return x end end end local f = outer()() return f(), f() => Done \
3, 5
local function apply(f, ...) return f(...) end return apply(function(a, b) return a + b end, 3, 4) => Done 7
local compose = function(f, g) return function(...) return f(g(...)) end end return compose(function(x) return x * 2 end, function(x, y) return x + y end)(3, \
4) => Done 14
local function f() return end return f(), (f()), select(\"#\", f()) => Done nil, nil, 0
local t = {} function t.f(x) return x end function t:g(x) return self == t, x end return t.f(1), t:g(2) => Done 1, true, 2
local t = {a = {b = {}}} function t.a.b.f() return \"f\" end function t.a.b:m() return self == t.a.b end return t.a.b.f(), t.a.b:m() => Done \"f\", true
local t = {n = 1} function t:add(k) self.n = self.n + k return self end return t:add(2):add(3).n => Done 6
local function f(s) return s .. \"!\" end return f\"a\", f[[b]], f'c' => Done \"a!\", \"b!\", \"c!\"
local function f(t) return t.x or #t end return f{1, 2}, f{x = \"y\"} => Done 2, \"y\"
local o = {name = \"o\"} function o.hello(self, s) return s .. self.name end return o:hello\"hi \", o:hello[[ho ]] => Done \"hi o\", \"ho o\"
function g(a) return a and a + 1 end return g(1), g() => Done 2, nil
local f = function() return f end return f() => Done nil
local function f() return f end return f() == f => Done true
return (function(...) return select(\"#\", ...) end)(nil, nil, nil) => Done 3
return (function(a) return a end)(\"x\", \"y\") => Done \"x\"
local function f(a) a = a + 1 return a end local a = 1 return f(a), a => Done 2, 1
local function f(t) t.x = 1 end local t = {} f(t) return t.x => Done 1
local function swap(a, b) return b, a end return swap(swap(1, 2)) => Done 1, 2
local x = 10 local function f() return x end x = 20 return f() => Done 20
local fs = {} do local a = 1 fs.get = function() return a end fs.set = function(v) a = v end end fs.set(9) return fs.get() => Done 9
local function f(a, b, c, d, e) return e, d, c, b, a end return f(1, 2, 3, 4, 5) => Done 5, 4, 3, 2, 1
local function nest(n) return function() if n == 0 then return \"bottom\" end return nest(n - 1)() end end return nest(5)() => Done \"bottom\"
return select(2, \"a\", \"b\", \"c\"), select(-1, \"a\", \"b\"), select(\"#\"), (select(1, \"x\")) => Done \"b\", \"b\", 0, \"x\"
return unpack({1, 2, 3}), unpack({1, 2, 3}, 2), unpack({1, 2, 3}, 2, 3) => Done 1, 2, 2, 3
return unpack({}, 1, 3) => Done nil, nil, nil
return (unpack({1, 2})) => Done 1
return tostring(nil), tostring(true), tostring(false), tostring(12), tostring(-7), tostring(\"a\") => Done \"nil\", \"true\", \"false\", \"12\", \"-7\", \"a\"
return tostring(10) .. tostring(\"x\"), #tostring(12345), tostring(2) == \"2\" => Done \"10x\", 5, true
return tonumber(\"12\"), tonumber(\" 12 \"), tonumber(\"0x1F\"), tonumber(\"x\"), tonumber(\"\"), tonumber(\"1 2\"), tonumber(5) => Done 12, 12, 31, nil, \
nil, nil, 5
return tonumber(\"ff\", 16), tonumber(\"zz\", 36), tonumber(\"101\", 2), tonumber(\"8\", 8), tonumber(\"7\", 8) => Done 255, 1295, 5, nil, 7";
