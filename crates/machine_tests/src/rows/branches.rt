//! What `if` statements come to, which are run at once as far as that goes: with the steps that each of their nodes counts.

/// Branches come to their values.
pub(super) const ARMS: &str = "\
local n, i = 0, 0 while i < 4 do if i % 2 == 0 then n = n + 1 else n = n - 10 end i = i + 1 end return n, i => Done -18, 4 | 91, 0
local r = 0 for i = 1, 4 do if i == 1 then r = r + 1 elseif i > 3 then r = r + 100 elseif i == 2 then r = r + 10 end end return r => Done 111 | 58, 0
local n = 0 for i = 1, 3 do if i == 2 then local d = n * 2 n = d + 1 else n = n + 5 end end return n => Done 16 | 42, 0
local n = 0 for i = 1, 4 do if i < 3 then if i < 2 then n = n + 1 end else end end return n => Done 1 | 41, 0
local n = 0 local f = function() return n end for i = 1, 2 do if i == 1 then n = n + 1 end end return n, f() => Done 1, 1 | 30, 56
local n = 0 for i = 1, 2 do if i == 2 then n = n + w(i) end end return n <- 5 => Parked(0: 2) at 24; Done 5 | 26, 0";

/// Tests that are no comparisons: of what stands in variables and in tables, and with `not`.
pub(super) const TRUTHS: &str = "\
local n, t, f = 0, {x = 1}, false if t then n = n + 1 end if f then n = n + 10 end if not f then n = n + 100 end if t.x then n = n + 1000 end \
if t.y then n = 5 else n = n + 10000 end return n => Done 11101 | 44, 64
local t = {x = 3} while t.x do t.x = t.x - 1 if t.x == 0 then t.x = nil end end return t.x => Done nil | 75, 64
local done, n = false, 0 while not done do n = n + 1 done = n == 3 end return n => Done 3 | 48, 0";

/// Equality: of texts, whose bytes are counted, of tables, of which a metatable may say more, and of values of unlike types.
pub(super) const EQUALITIES: &str = "\
local n, s, t = 0, \"get\", {} if s == \"get\" then n = n + 1 end if s ~= \"put\" then n = n + 10 end if t == t then n = n + 100 end \
if t.x == nil then n = n + 1000 end if s == 1 then n = 7 end if nil == false then n = 7 end return n => Done 1111 | 53, 32
local s, n = \"0123456789012345678901234567890123456789012345678901234567890123\", 0 \
if s == \"012345678901234567890123456789012345678901234567890123456789012x\" then n = 1 \
elseif s == \"0123456789012345678901234567890123456789012345678901234567890123\" then n = 2 end return n => Done 2 | 20, 0
local m = {__eq = function() return true end} local a, b, n = setmetatable({}, m), setmetatable({}, m), 0 \
if a == b then n = 1 end return n => Done 1 | 29, 160";

/// Tests that are made of others.
pub(super) const MADE: &str = "\
local n = 0 for i = 1, 6 do if i > 1 and i < 4 or i == 6 then n = n + i end end return n => Done 11 | 92, 0
local a, b, n = {x = false}, nil, 0 if not (a.x or b) then n = n + 1 end if a and not b and not a.x then n = n + 10 end \
while not (n == 14) and n > 0 do n = n + 1 end return n => Done 14 | 89, 64";

/// Functions that return out of arms, and that go on after them.
pub(super) const RETURNS: &str = "\
local function max(a, b) if a > b then return a end return b end local x = max(3, 5) x = x + max(7, 2) return x => Done 12 | 31, 32
local function f(n) local r = 0 if n > 2 then r = n * 2 r = r + 1 elseif n == 2 then if r == 0 then r = 7 end end return r end \
local s = f(1) s = s * 100 + f(2) s = s * 100 + f(3) return s => Done 707 | 76, 32";

/// Faults of tests, each with its step and position.
pub(super) const FAULTS: &str = "\
local i = 0 while i < 3 do¶if i % 0 == 1 then i = 1 end end => Failed \"t.conf:2: attempt to divide by zero\" | 13, 0
local n = 1 if n < \"x\" then n = 2 end => Failed \"t.conf:1: attempt to compare number with string\" | 7, 0
local n = 1 if n > 0 and n < {} then n = 2 end => Failed \"t.conf:1: attempt to compare number with table\" | 11, 32
local t = {} if not t.x.y then t = 1 end => Failed \"t.conf:1: attempt to index a nil value\" | 10, 32";

/// Loops that take all steps but the last, that take the last too, and in which an `if` would take more than are left.
pub(super) const LAST_STEP: &str = "\
near: do end local n = 0 for i = 1, 999 do if i > 0 then n = n + 1 end end return n => Done 999 | 999999, 0
near: do end do end local n = 0 for i = 1, 999 do if i > 0 then n = n + 1 end end return n => Spent | 1000000, 0
near: local n = 0 for i = 1, 1000 do if i > 0 then n = n + 1 end end return n => Spent | 1000000, 0";
