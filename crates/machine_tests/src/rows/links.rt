//! What a table gives that lacks a key: what the table has that its `__index` is, for a step, or else what comes of the long way.

/// Links lead to what tables have.
pub(super) const FOUND: &str = "\
local c = {x = 8} local t = setmetatable({}, {__index = c}) local y = t.x return y => Done 8 | 20, 160
local t = setmetatable({}, {__index = {5, 6}}) local y = t[2] + t[1] return y => Done 11 | 23, 192
local c = {x = 8} local t = setmetatable({x = 1}, {__index = c}) t.x = nil local y = t.x return y => Done 8 | 27, 192
local C = {k = 3} C.__index = C local o = setmetatable({n = 4}, C) local y = o.k * o.n return y => Done 12 | 29, 160";

/// By more links, by none, by a function, and of what no table has.
pub(super) const OTHERS: &str = "\
local b = {x = 8} local c = setmetatable({}, {__index = b}) local t = setmetatable({}, {__index = c}) local y = t.x return y => Done 8 | 29, 256
local t = setmetatable({}, {__index = {}}) local y = t.x return y => Done nil | 16, 128
local t = setmetatable({}, {}) local y = t.x return y => Done nil | 13, 64
local t = setmetatable({}, {__index = function(t, k) return k end}) local y = t.x return y => Done \"x\" | 18, 128
local t = setmetatable({}, {__index = 5}) local y = t.x return y => Failed \"t.conf:1: attempt to index a number value\" | 14, 96";

/// An `__index` that is set once the metatable is one, among more than eight keys, and that is set to nil.
pub(super) const LATER: &str = "\
local m = {a=1,b=2,c=3,d=4,e=5,f=6,g=7,h=8} local t = setmetatable({}, m) m.__index = {x = 9} local y = t.x return y => Done 9 | 39, 416
local m = {} local t = setmetatable({}, m) local a = t.x m.__index = {x = 1} local b = t.x m.__index = nil local c = t.x return a, b, c \
=> Done nil, 1, nil | 38, 160";

/// Loops of links that take all steps but the last, and one in which the last step is a link.
pub(super) const LAST_STEP: &str = "\
near: local t = setmetatable({}, {__index = {x = 1}}) local x for i = 1, 1426 do x = t.x end return x => Done 1 | 999999, 160
near: do end do end do end local t = setmetatable({}, {__index = {x = 1}}) local x for i = 1, 1426 do x = t.x end return x => Spent | 1000000, 160";
