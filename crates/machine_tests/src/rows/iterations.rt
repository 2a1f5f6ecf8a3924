//! What `repeat` and the two kinds of `for` come to, with the steps that each run of a body counts.

/// Repeats and counts come to their values.
pub(super) const REPEATS: &str = "\
local i = 0 repeat local j = i i = i + 1 until j == 2 return i => Done 3 | 39, 0
local i = 0 repeat i = i + 1 if i == 2 then break end until false return i => Done 2 | 28, 0
local f repeat local j = 7 f = function() return j end until j == 7 return f() => Done 7 | 18, 56
repeat do return 5 end until true => Done 5 | 6, 0";

pub(super) const COUNTED: &str = "\
local n = 0 for i = 1, 3 do n = n + i end return n => Done 6 | 26, 0
local n = 0 for i = 5, 1, -2 do n = n * 10 + i end return n => Done 531 | 34, 0
local n = 0 for i = \"3\", \"1\", \"-1\" do n = n * 10 + i end return n => Done 321 | 33, 0
for i = 1, 0 do end => Done  | 4, 0
for i = 1, 3 do if i == 2 then break end end return 5 => Done 5 | 17, 0
for i = 1, 9 do for j = i, 9 do if i + j == 5 then return i, j end end end => Done 1, 4 | 39, 0
for i = 1,¶\"x\" do end => Failed \"t.conf:1: 'for' limit must be a number\" | 4, 0
for i = {}, 1 do end => Failed \"t.conf:1: 'for' initial value must be a number\" | 4, 32
for i = 1, 2, nil do end => Failed \"t.conf:1: 'for' step must be a number\" | 5, 0
for i = \"1\", 2, 0 do end => Failed \"t.conf:1: 'for' step is zero\" | 5, 0
for i = 99999999999999, 99999999999999 do end => Failed \"t.conf:1: number out of range\" | 5, 0
local n = 0 for i = 99999999999998, 99999999999999 do n = i end return n => Failed \"t.conf:1: number out of range\" | 14, 0";

/// A loop that calls a function, which may park, for its values.
pub(super) const CALLED: &str = "\
local n = 0 for k, v in next, {10, 20} do n = n + v end return n => Done 30 | 25, 96
local function f(s, c) if c < s then return c + 1, c end end local n = 0 for a, b in f, 3, 0 do n = n + b if a == 2 then break end end return n \
=> Done 1 | 51, 32
local n = 0 for x in w do n = n + x end return n <- 4, 5, nil => Parked(0: nil, nil) at 6; Parked(0: nil, 4) at 13; Parked(0: nil, 5) at 20; Done 9 | 22, 0
for x in 5 do end => Failed \"t.conf:1: attempt to call a number value\" | 4, 0
for x in w do end <- raise => Parked(0: nil, nil) at 4; Failed \"t.conf:1: refused\" | 4, 0";

/// Each run of a body has variables of its own.
pub(super) const CAPTURED: &str = "\
local a = {} for i = 1, 2 do a[i] = function() return i end end return a[1](), a[2]() => Done 1, 2 | 33, 208
local f for i = 1, 2 do local j = i if i == 1 then f = function() return i + j end end end return f() => Done 2 | 30, 80
local t = {} for k in next, {5, 6} do t[k] = function() return k end end return t[1](), t[2]() => Done 1, 2 | 38, 304";

/// A loop that takes all steps but the last, and one that takes the last too.
pub(super) const LAST_STEP: &str = "\
near: do end do end do end do end do end do end do end local n = 0 for i = 1, 1248 do n = n + i % 7 end return n => Done 3741 | 999999, 0
near: do end do end do end do end do end do end do end do end local n = 0 for i = 1, 1248 do n = n + i % 7 end return n => Spent | 1000000, 0";
