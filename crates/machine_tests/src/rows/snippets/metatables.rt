//! Metatables: small texts of plain Lua, and what Lua 5.1 itself makes of them.

/// Metatables handle what lua handles.
pub(in crate::rows) const METATABLES: &str = "\
local t = setmetatable({}, {__index = {a = 1}}) return t.a, t.b, rawget(t, \"a\") => Done 1, nil, nil
local t = setmetatable({a = 1}, {__index = function(t, k) return k .. \"?\" end}) return t.a, t.b, t[1] => Done 1, \"b?\", \"1?\"
local a = {x = 1} local b = setmetatable({y = 2}, {__index = a}) local c = setmetatable({}, {__index = b}) return c.x, c.y, c.z => Done 1, 2, nil
local log = {} local t = setmetatable({}, {__newindex = function(t, k, v) rawset(t, k, v * 2) end}) t.a = 1 t.a = 5 return t.a, rawget(t, \"a\") => Done 5, 5
local store = {} local t = setmetatable({}, {__newindex = store, __index = store}) t.a = 7 return t.a, rawget(t, \"a\"), store.a => Done 7, nil, 7
local t = setmetatable({}, {__call = function(self, a, b) return a + b, self ~= nil end}) return t(3, 4) => Done 7, true
local mt = {__add = function(a, b) return a.v + b.v end, __sub = function(a, b) return a.v - b.v end} local a, b = setmetatable({v = 5}, mt), setmetatable({v \
= 3}, mt) return a + b, a - b => Done 8, 2
local mt = {__mul = function(a, b) return \"mul\" end, __div = function() return \"div\" end, __mod = function() return \"mod\" end, __pow = function() \
return \"pow\" end} local t = setmetatable({}, mt) return t * 1, 2 / t, t % t, 2 ^ t => Done \"mul\", \"div\", \"mod\", \"pow\"
local t = setmetatable({}, {__unm = function(t) return \"neg\" end}) return -t => Done \"neg\"
local t = setmetatable({}, {__concat = function(a, b) return (type(a) == \"table\" and \"T\" or a) .. \"+\" .. (type(b) == \"table\" and \"T\" or b) end}) \
return t .. \"x\", \"x\" .. t, 1 .. t, t .. t => Done \"T+x\", \"x+T\", \"1+T\", \"T+T\"
local mt = {__eq = function(a, b) return a.id == b.id end} local a, b, c = setmetatable({id = 1}, mt), setmetatable({id = 1}, mt), setmetatable({id = 2}, mt) \
return a == b, a ~= b, a == c, a ~= c, a == a => Done true, false, false, true, true
local a, b = setmetatable({}, {__eq = function() return true end}), setmetatable({}, {__eq = function() return true end}) return a == b, a == 1, rawequal(a, \
a) => Done false, false, true
local mt = {__lt = function(a, b) return a.v < b.v end} local a, b = setmetatable({v = 1}, mt), setmetatable({v = 2}, mt) return a < b, a > b, a <= b, a >= b \
=> Done true, false, true, false
local mt = {__lt = function(a, b) return a.v < b.v end, __le = function(a, b) return \"yes\" end} local a, b = setmetatable({v = 1}, mt), setmetatable({v = \
2}, mt) return a < b, a <= b, a >= b, b > a => Done true, true, true, true
local t = setmetatable({}, {__tostring = function(t) return \"obj\" end}) return tostring(t), tostring(t) .. \"!\" => Done \"obj\", \"obj!\"
local t = setmetatable({}, {__tostring = function(t) return 5, 6 end}) return tostring(t) => Done 5
local t = setmetatable({}, {__metatable = \"locked\"}) return getmetatable(t), pcall(setmetatable, t, {}) == false => Done \"locked\", true
local mt = {} local t = setmetatable({}, mt) return getmetatable(t) == mt, getmetatable({}), getmetatable(1) => Done true, nil, nil
local t = setmetatable({}, {}) return setmetatable(t, nil) == t, getmetatable(t) => Done true, nil
local t = setmetatable({1, 2}, {__len = function() return 10 end}) return #t => Done 2
local Account = {} Account.__index = Account function Account.new(b) return setmetatable({balance = b}, Account) end function Account:deposit(v) self.balance \
= self.balance + v return self.balance end local a = Account.new(10) return a:deposit(5), a:deposit(5), a.balance => Done 15, 20, 20
local Base = {} Base.__index = Base function Base:name() return \"base\" end function Base:hello() return \"I am \" .. self:name() end local Sub = \
setmetatable({}, {__index = Base}) Sub.__index = Sub function Sub:name() return \"sub\" end local o = setmetatable({}, Sub) return o:hello(), Base.name(o) => \
Done \"I am sub\", \"base\"
local V = {} V.__index = V V.__add = function(a, b) return setmetatable({x = a.x + b.x}, V) end V.__eq = function(a, b) return a.x == b.x end local a = \
setmetatable({x = 1}, V) local b = setmetatable({x = 2}, V) return (a + b + a).x, a + a == b, a == b => Done 4, true, false
local t = setmetatable({}, {__index = function(t, k) local v = k * k rawset(t, k, v) return v end}) return t[5], rawget(t, 5), rawget(t, 6) => Done 25, 25, nil
local n = 0 local t = setmetatable({}, {__index = function() n = n + 1 return n end}) local x = t.a + t.b return x, n, t.c => Done 3, 2, 3
local t = setmetatable({}, {__add = function(a, b) return type(a), type(b) end}) return 1 + t, t + \"x\", t + t => Done \"number\", \"table\", \"table\"
local mt = {__call = function(self, ...) return select(\"#\", ...), ... end} return setmetatable({}, mt)(nil, 2) => Done 2, nil, 2
local t = setmetatable({}, {__newindex = function() end}) t.x = 1 return t.x => Done nil
local a = setmetatable({}, {__lt = function() return nil end}) return a < a, not (a < a) => Done false, true
local mt = {__concat = function(a, b) return \"c\" end} local t = setmetatable({}, mt) return \"a\" .. \"b\" .. t, t .. \"a\" .. \"b\" => Done \"ac\", \"c\"
local d = setmetatable({}, {__index = function() return 0 end}) d.x = d.x + 1 d.x = d.x + 1 return d.x, d.y => Done 2, 0
local p = setmetatable({}, {__index = {n = 1}}) p.n = p.n + 1 return p.n, rawget(p, \"n\"), getmetatable(p).__index.n => Done 2, 2, 1
local mt = {__unm = function(a) return a.v * -1 end} return -setmetatable({v = 4}, mt), - -5 => Done -4, 5
local t = setmetatable({}, {__index = function(t, k) return function(self, x) return k .. x end end}) return t:foo(\"1\"), t.bar(t, \"2\") => Done \"foo1\", \
\"bar2\"";
