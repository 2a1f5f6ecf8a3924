//! What protected calls, levels of faults, texts of values and the limits come to, with their steps and units.

/// Protected calls, and the handlers that take their faults.
pub(super) const PROTECTED: &str = "\
return pcall(pcall) => Done false, \"t.conf:1: bad argument #1 to 'pcall' (value expected, got no value)\" | 7, 0
return pcall(function() return 1, nil, 3 end) => Done true, 1, nil, 3 | 11, 32
return xpcall() => Failed \"t.conf:1: bad argument #1 to 'xpcall' (value expected, got no value)\" | 5, 0
return xpcall(id) => Failed \"t.conf:1: bad argument #2 to 'xpcall' (value expected, got no value)\" | 6, 0
return xpcall(function() error(\"in\") end, function(m) return m .. \"!\", 2 end) => Done false, \"t.conf:1: in!\" | 19, 93
return xpcall(function() error(\"in\") end, function(m) error(\"h\") end) => Done false, \"t.conf:1: h\" | 19, 64
return xpcall(function(...) return select(\"#\", ...) end, id) => Done true, 0 | 14, 32
return xpcall(function() return 1, nil, 3 end, id) => Done true, 1, nil, 3 | 12, 32
return xpcall(function() return pcall(error) end, id) => Done true, false, nil | 14, 32
return xpcall(error, error) => Done false, nil | 9, 0
return xpcall(error, nil) => Done false, \"t.conf:1: attempt to call a nil value\" | 9, 0
return xpcall(nil, id) => Done false, \"t.conf:1: attempt to call a nil value\" | 9, 0
return assert(nil, {}) == nil => Failed table | 8, 32";

/// The levels of `error`, and the positions of those that call.
pub(super) const LEVELS: &str = "\
error(\"m\", 1) => Failed \"t.conf:1: m\" | 7, 0
error(\"m\", \"2\") => Failed \"m\" | 7, 0
error(\"m\", {}) => Failed \"t.conf:1: bad argument #2 to 'error' (number expected, got table)\" | 7, 32
error(\"m\", -1) => Failed \"m\" | 8, 0
error(\"m\", nil) => Failed \"t.conf:1: m\" | 7, 0
local function f() error(\"m\", 1) end¶f() => Failed \"t.conf:1: m\" | 12, 32
local function f() error(\"m\", 3) end¶local function g() f() end¶g() => Failed \"t.conf:3: m\" | 17, 88
return pcall(error, \"m\", 2) => Done false, \"m\" | 9, 0
local function h(m) error(\"h\", 2) end¶return xpcall(function() error(\"in\") end,¶h) => Done false, \"t.conf:2: h\" | 21, 64
return pcall(error, \"1234567890123456789012345678901234567890123456789012345678901234\", 0) => Done false, \
\"1234567890123456789012345678901234567890123456789012345678901234\" | 11, 0";

/// The texts of values, each of which is made anew but for that of a text.
pub(super) const TEXTS: &str = "\
return tostring(nil), tostring(12), tostring(\"a\"), tostring(id) => Done \"nil\", \"12\", \"a\", \"function\" | 18, 61
return tostring(true), tostring(false), tostring({}), tostring(tostring) => Done \"true\", \"false\", \"table\", \"function\" | 18, 118
return tostring(7), tostring(7) => Done \"7\", \"7\" | 10, 34
return tostring(\"1234567890123456789012345678901234567890123456789012345678901234\") => Done \
\"1234567890123456789012345678901234567890123456789012345678901234\" | 7, 0
return tostring(1, \"1234567890123456789012345678901234567890123456789012345678901234\") => Done \"1\" | 8, 17
return tostring() => Failed \"t.conf:1: bad argument #1 to 'tostring' (value expected, got no value)\" | 5, 0
return tostring(setmetatable({}, {__tostring = function() return 5 end})) => Done 5 | 15, 128
return tostring(setmetatable({}, {__tostring = function() return 1, 2 end})) => Done 1 | 16, 128
return tostring(setmetatable({}, {__tostring = function() end})) => Done nil | 13, 128
return tostring(setmetatable({}, {})) => Done \"table\" | 10, 85
local t = setmetatable({}, {__tostring = error}) return pcall(tostring, t) => Done false, table | 17, 96";

/// The limit of steps, which nothing catches.
pub(super) const SPENT: &str = "\
near: xpcall(function() while true do end end, id) return 1 => Spent | 1000000, 32
near: tostring(setmetatable({}, {__tostring = function() while true do end end})) return 1 => Spent | 1000000, 128
return select(\"#\", unpack({}, 1, 90000000000000)) => Spent | 1000000, 32";

/// The limits of calls and of storage.
pub(super) const LIMITS: &str = "\
local function f() return 1 + f() end return xpcall(f, function(m) return m end) => Done false, \"t.conf:1: stack overflow\" | 30006, 88
local function f() return pcall(f) end return select(\"#\", f()) => Done 5000 | 30004, 56
local s = \"1234567890123456\" while true do s = s .. s end => Failed \"t.conf:1: not enough memory (storage limit)\" | 32876, 524480
local s = \"1234567890123456\" local ok, e = pcall(function() while true do s = s .. s end end) return ok, e => Done false, \
\"t.conf:1: not enough memory (storage limit)\" | 32885, 524536
local function fill() local s = \"1234567890123456\" while true do s = s .. s end end local n = 0 while n < 12 do pcall(fill) n = n + 1 end \
return tostring(\"x\"), pcall(tostring, 1) => Done \"x\", false, \"t.conf:1: not enough memory (storage limit)\" | 66380, 1047888";

/// Threads that park in protected calls and in handlers.
pub(super) const ASKED: &str = "\
return xpcall(function() return w(1) end, id) <- 5 => Parked(0: 1) at 13; Done true, 5 | 13, 32
return xpcall(function() return w(1) end, id) <- raise => Parked(0: 1) at 13; Done false, \"t.conf:1: refused\" | 14, 32
return xpcall(error, w) <- 7 => Parked(0: nil) at 9; Done false, 7 | 9, 0
return xpcall(error, w) <- raise => Parked(0: nil) at 9; Done false, \"t.conf:1: refused\" | 9, 0
return tostring(setmetatable({}, {__tostring = w})) <- 7 => Parked(0: table) at 13; Done 7 | 13, 96";
