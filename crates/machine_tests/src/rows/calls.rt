//! What calls come to, of functions that only give values, which are run at once, and of others: with the steps that each of their nodes counts.

/// Calls come to their values.
pub(super) const VALUES: &str = "\
local function f(a, b) return a + b end local x = f(1, f(2, 3)) return x => Done 6 | 22, 32
local function f() end for i = 1, 3 do f() end return 1 => Done 1 | 22, 32
local function f(a) local b = a * 2 return b end local x = f(f(f(1))) + f(2) return x => Done 12 | 44, 32
local n = 2 local function f(a) return a + n end local x = f(3) return x => Done 5 | 15, 56
function f(a) return a end local x = f(7) return x => Done 7 | 13, 64
local function f() end local x = f() return x => Done nil | 8, 32
local function f(a, b) return b end local x = f(1) return x => Done nil | 11, 32
local function f(a) return a end local x = 1 x = f(x) + f(x) * 2 return x => Done 3 | 23, 32
local t = {f = function(a) return a end} local x = t.f(5) return x => Done 5 | 16, 96
local function f(a) a = a + 1 local b b = a return b end local x = f(1) return x => Done 2 | 20, 32
local x local function f() return x end x = 5 local y = f() x = 6 local z = f() return y, z => Done 5, 6 | 24, 56
local function g(a) return a * 3 end local function f(a) return g(a) + 1 end local x = f(2) return x => Done 7 | 21, 88";

/// Calls that are not run at once: of more arguments, of other statements, of more calls within one another, with faults, and within other values.
pub(super) const OTHERS: &str = "\
local function f(a) return a end local x = f(1, 2) return x => Done 1 | 12, 32
local function f(...) return ... end local x = f(4) return x => Done 4 | 12, 32
local function f(a)¶return a % 0 end¶local x = f(1) return x => Failed \"t.conf:2: attempt to divide by zero\" | 11, 32
local function f(a) return a end local x = f(f(f(f(f(f(f(f(f(f(f(f(f(f(f(f(f(f(1)))))))))))))))))) return x => Done 1 | 96, 32
local function f() local y = 1 local g = function() return y end return g end local x = f() return x() => Done 1 | 18, 88
local function f(a) return a, a end local x = f(1) return x => Done 1 | 12, 32
local function f(a) local t = a return t.x end local x = f({x = 8}) return x => Done 8 | 17, 96
local function f(a) return a end local x = pcall(f, 1) local y = f(2) return x, y => Done true, 2 | 21, 32
local s = setmetatable({}, {__call = function(t, a) return a end}) local x = s(3) return x => Done 3 | 19, 128
local function f(a) return a end local x = f(\"a\") .. \"b\" return x => Done \"ab\" | 13, 50
local x = 5 x() return 1 => Failed \"t.conf:1: attempt to call a number value\" | 7, 0";

/// A call within as many others as there may be, and within one more.
pub(super) const INNERMOST: &str = "\
local function g() return 1 end local function f(n) if n == 0 then local x = g() return x end return 1 + f(n - 1) end return f(4998) => Done 4999 | 64994, 112
local function g() return 1 end local function f(n) if n == 0 then local x = g() return x end return 1 + f(n - 1) end \
return f(4999) => Failed \"t.conf:1: stack overflow\" | 65003, 112
local function g() return 1 end local function f(n) if n == 0 then local x = g() return x end return 1 + f(n - 1) end \
return pcall(f, 5000) => Done false, \"t.conf:1: stack overflow\" | 64997, 112";

/// Loops of calls that take all steps but the last, and the last too.
pub(super) const LAST_STEP: &str = "\
near: do end do end local function f() end for i = 1, 1998 do f() end return 1 => Done 1 | 999999, 32
near: do end do end do end local function f() end for i = 1, 1998 do f() end return 1 => Spent | 1000000, 32
near: local function f(a) return a end do end do end do end local x = 0 for i = 1, 1110 do x = f(x) end return x => Spent | 1000000, 32";
