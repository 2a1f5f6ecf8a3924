//! What operators come to that a metatable has handlers of.

/// Metatables handle operators.
pub(super) const ARITHMETIC: &str = "\
return \"10\" + 5, \"0x10\" * \"2\", 10 .. 20 => Done 15, 32, \"1020\" | 11, 20
return -{} => Failed \"t.conf:1: attempt to perform arithmetic on a table value\" | 4, 32
local t¶t = t ..¶\"a\" => Failed \"t.conf:2: attempt to concatenate a nil value\" | 7, 0
local t = setmetatable({}, {__add = function(a, b) return b end}) return 3 + t == t, t + \"4\" => Done true, \"4\" | 24, 128
local t = setmetatable({}, {__unm = function(...) return select(\"#\", ...) end}) return -t => Done 1 | 20, 128
local t = setmetatable({}, {__concat = function(a, b) return type(a) .. type(b) end}) return 1 .. t, t .. \"x\" .. \"y\" \
=> Done \"numbertable\", \"tablestring\" | 40, 286
local a, b = setmetatable({}, {__sub = function() return 1 end}), setmetatable({}, {__sub = function() return 2 end}) \
return a - b, b - a, 5 - b => Done 1, 2, 2 | 35, 256
local t = setmetatable({}, {__add = error}) return t + 1 => Failed table | 14, 96
local t = setmetatable({}, {__add = 5}) return t + 1 => Failed \"t.conf:1: attempt to call a number value\" | 14, 96";

pub(super) const COMPARISON: &str = "\
local m = {__eq = function() return 1 end} local a, b = setmetatable({}, m), setmetatable({}, m) return a == b, a ~= b, a == {} \
=> Done true, false, false | 32, 192
local a, b = setmetatable({}, {__eq = id}), setmetatable({}, {__eq = w}) return a == b, a ~= b => Done false, true | 23, 192
local m = {__lt = function(a, b) return nil end} local a, b = setmetatable({}, m), setmetatable({}, m) \
return a < b, a <= b, a > b, a >= b => Done false, true, false, true | 41, 160
local m = {__lt = function(a, b) return a.x end} local a, b = setmetatable({x = 1}, m), setmetatable({}, m) \
return a <= b, b <= a => Done true, false | 35, 192
local m = {__le = function(a, b) return a.x end} local a, b = setmetatable({x = 1}, m), setmetatable({}, m) \
return a <= b, b <= a, b >= a => Done true, false, true | 43, 192
local a, b = setmetatable({}, {__lt = id}), setmetatable({}, {__lt = w}) return a < b \
=> Failed \"t.conf:1: attempt to compare two table values\" | 20, 192";

/// `..` of what is there: texts, numbers, chains, and what is no operand.
pub(super) const JOINING: &str = "\
local s = \"ab\" s = s .. \"cd\" return s => Done \"abcd\" | 10, 20
local n = 10 - 13 local s = n .. \"|\" .. 4 .. n return s => Done \"-3|4-3\" | 15, 61
local a = \"12345678901234567890123456789012\" a = a .. a return a \
=> Done \"1234567890123456789012345678901212345678901234567890123456789012\" | 12, 80
local a = \"x\" local s = a .. a .. a .. a .. a .. a .. a .. a .. a .. a return s => Done \"xxxxxxxxxx\" | 25, 198
local t = setmetatable({}, {__concat = function(a, b) return \"c\" end}) local s = \"x\" s = s .. t return s => Done \"c\" | 21, 128
local s s = s .. \"a\" .. \"b\" => Failed \"t.conf:1: attempt to concatenate a nil value\" | 9, 18
local s s = \"a\" .. \"b\" .. s => Failed \"t.conf:1: attempt to concatenate a nil value\" | 9, 0
local s = \"a\" .. true => Failed \"t.conf:1: attempt to concatenate a boolean value\" | 5, 0
local s = \"a\" local f = function() return s end s = s .. \"b\" return f() => Done \"ab\" | 16, 74";

/// Steps that just suffice for `..`, steps that don't, and units that suffice for the inner text of a chain alone.
pub(super) const JOINING_LIMITS: &str = "\
near: local a = \"12345678901234567890123456789012\" do end do end local i = 0 while i < 1109 do i = i + 1 end a = a .. a => Done  | 999999, 80
near: local a = \"12345678901234567890123456789012\" do end do end do end local i = 0 while i < 1109 do i = i + 1 end a = a .. a \
=> Spent | 1000000, 0
local a = \"12345678901234567890123456789012\" for i = 1, 13 do a = a .. a end local s = a .. a .. \"x\" \
=> Failed \"t.conf:1: not enough memory (storage limit)\" | 41048, 786593";

pub(super) const PARKS: &str = "\
local t = setmetatable({}, {__index = w, __add = function(a, b) return w(b) end}) return t.x, t + 5 <- 7 8, 9 \
=> Parked(0: table, \"x\") at 16; Parked(0: 5) at 25; Done 7, 9 | 25, 160";
