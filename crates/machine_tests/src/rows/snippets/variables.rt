//! Variables, assignments and conditions: small texts of plain Lua, and what Lua 5.1 itself makes of them.

/// Variables hold what lua holds.
pub(in crate::rows) const VARIABLES: &str = "\
local a return a => Done nil
local a, b, c = 1, 2 return a, b, c => Done 1, 2, nil
local a, b = 1, 2, 3 return a, b => Done 1, 2
local a = 1 local a = a + 1 return a => Done 2
local a = 1 do local a = 2 end return a => Done 1
local a = 1 do local a = a + 5 x = a end return a, x => Done 1, 6
local a, b = 1, 2 a, b = b, a return a, b => Done 2, 1
local a, b, c = 0, 0, 0 a, b, c = 1, 2 return a, b, c => Done 1, 2, nil
local t = {1, 2} local i = 1 i, t[i] = i + 1, 20 return i, t[1], t[2] => Done 2, 20, 2
local t = {} t.x, t.y = 1, 2, 3 return t.x, t.y => Done 1, 2
local function two() return 1, 2 end local a, b, c = two() return a, b, c => Done 1, 2, nil
local function two() return 1, 2 end local a, b, c = two(), 10 return a, b, c => Done 1, 10, nil
local function two() return 1, 2 end local a, b, c = 10, two() return a, b, c => Done 10, 1, 2
local function two() return 1, 2 end local a, b = (two()) return a, b => Done 1, nil
x, y = 1 return x, y => Done 1, nil
x = 1 x = nil return x => Done nil
local a = 5; local b = 6; return a;  => Done 5
do end do do end end return 1 => Done 1
local a = {} local b = a b.x = 1 return a.x, a == b => Done 1, true
local a, a = 1, 2 return a => Done 2
local function f() return 1, 2, 3 end return f(), f() => Done 1, 1, 2, 3
local function f() return 1, 2, 3 end return (f()), {f()} ~= nil, #{f(), f()} => Done 1, true, 4
local a = nil if a then return \"yes\" else return \"no\" end => Done \"no\"
if false then elseif nil then else return 3 end return 4 => Done 3
local n = 5 if n > 3 then if n > 4 then return \"big\" end return \"some\" end => Done \"big\"
local n = 2 if n == 1 then return \"one\" elseif n == 2 then return \"two\" elseif n == 2 then return \"again\" else return \"many\" end => Done \"two\"
if 0 then return \"0 is true\" end => Done \"0 is true\"
if \"\" then return \"and so is a text\" end => Done \"and so is a text\"";
