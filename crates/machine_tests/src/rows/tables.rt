//! What programs with tables come to.

/// Tables come to their values.
pub(super) const TABLES: &str = "\
local a = {} a.x = 1 return a.x, a.y => Done 1, nil | 15, 64
local a = {1, x = 2, 3, id(4, 5)} return #a, a[3], a[4] => Done 4, 4, 5 | 21, 192
local t = {f = function(self, x) return x end} return t:f(7) => Done 7 | 12, 96
local t = {f = id} local a, b = t:f(7) return a == t, b => Done true, 7 | 15, 64
local i, t = 1, {} i, t[i] = 2, 3 return i, t[1], t[2] => Done 2, 3, nil | 19, 64
local t = {} t[1], t[1] = 2, 3 return t[1] => Done 2 | 16, 64
error({}) => Failed table | 6, 32
return assert(nil, {}) == nil => Failed table | 8, 32
return {} <= {} => Failed \"t.conf:1: attempt to compare two table values\" | 5, 64
local t = {}¶t.x.y = 1 => Failed \"t.conf:2: attempt to index a nil value\" | 10, 32
local x = 5 return x.y => Failed \"t.conf:1: attempt to index a number value\" | 7, 0
local t = {[nil] = 1} => Failed \"t.conf:1: table index is nil\" | 5, 32
local t = {}¶t[nil] = 1 => Failed \"t.conf:2: table index is nil\" | 8, 32";

/// Handlers of keys that are lacking, and of calls of what is no function.
pub(super) const METATABLES: &str = "\
local t = setmetatable({}, {__index = {x = 1}}) return t.x, t.y => Done 1, nil | 20, 160
local t = setmetatable({}, {__index = function(t, k) return k .. \"!\", 2 end}) return t.a => Done \"a!\" | 19, 146
local m = {} local t = setmetatable({}, {__newindex = m}) t.a = 1 return rawget(t, \"a\"), m.a => Done nil, 1 | 26, 160
local t = setmetatable({a = 1}, {__newindex = error}) t.a = 2 return t.a => Done 2 | 20, 128
local t = setmetatable({}, {__call = function(self, a, b) return b, a end}) return t(1, 2) => Done 2, 1 | 19, 128
local c = setmetatable({}, {__call = id}) local d = setmetatable({}, {__call = c}) local r = {d(5)} return #r, r[3] => Done 3, 5 | 31, 320
local t = setmetatable({}, {__metatable = \"m\"}) return getmetatable(t), pcall(setmetatable, t, {}) => Done \"m\", false, \
\"t.conf:1: cannot change a protected metatable\" | 21, 128
local t = setmetatable({}, {__index = w}) return t.x <- 7 => Parked(0: table, \"x\") at 14; Done 7 | 14, 96";
