//! What loops over numbers come to, which are run at once as far as that goes: with the steps that each of their nodes counts.

/// Loops over numbers come to their values.
pub(super) const LOOPS: &str = "\
local n, i = 0, 0 while i < 4 do n = n + i % 3 * 2 - 1 i = i + 1 end return n, i => Done 2, 4 | 91, 0
local i = 0 while i < 2 do local j = i * 2 i = j + 1 end return i => Done 3 | 35, 0
local i = 0 while true do i = i + 1 if i == 3 then break end end return i => Done 3 | 40, 0
local i = 0 while i < 1 do i = i + 1 + 0 + 0 + 0 + 0 + 0 + 0 + 0 + 0 + 0 + 0 + 0 end return i => Done 1 | 40, 0
local i = 0 while i < 20 do i = \"10\" + i + 1 end return i => Done 22 | 31, 0";

/// Loops in which a variable is captured.
pub(super) const CAPTURED: &str = "\
local i = 0 local f = function() i = i + 1 end while i < 3 do f() i = i + 1 end return i => Done 4 | 47, 56
local f local i = 0 while i < 2 do local j = i if i == 0 then f = function() return j end end i = i + 1 end return f(), i => Done 0, 2 | 48, 56";

/// Faults, each with its step and position.
pub(super) const FAULTS: &str = "\
local i = 0 while i < 3 do¶i = i + 1 % 0 end => Failed \"t.conf:2: attempt to divide by zero\" | 15, 0
local i = 99999999999998 while true do i = i + 1 end => Failed \"t.conf:1: number out of range\" | 18, 0
local i = 1 while i < \"x\" do end => Failed \"t.conf:1: attempt to compare number with string\" | 7, 0";

/// A loop that takes all steps but the last, and one that takes the last too.
pub(super) const LAST_STEP: &str = "\
near: local i = 0 while i < 1110 do i = i + 1 end return i => Done 1110 | 999999, 0
near: do end local i = 0 while i < 1110 do i = i + 1 end return i => Spent | 1000000, 0";
