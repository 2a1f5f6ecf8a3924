//! Loops: small texts of plain Lua, and what Lua 5.1 itself makes of them.

/// Loops run as in lua.
pub(in crate::rows) const LOOPS: &str = "\
local n = 0 while n < 5 do n = n + 1 end return n => Done 5
local n = 0 while true do n = n + 1 if n == 7 then break end end return n => Done 7
local n, s = 0, \"\" while n < 3 do n = n + 1 s = s .. n end return s => Done \"123\"
local n = 0 while false do n = 1 end return n => Done 0
local i, j, n = 0, 0, 0 while i < 3 do i = i + 1 j = 0 while j < 3 do j = j + 1 if j == 2 then break end n = n + 1 end end return i, n => Done 3, 3
local n = 0 repeat n = n + 1 until n == 3 return n => Done 3
local n = 0 repeat local done = n == 4 n = n + 1 until done return n => Done 5
local n = 0 repeat n = n + 1 if n == 2 then break end until false return n => Done 2
local n = 0 repeat n = n + 1 until true return n => Done 1
local s = 0 for i = 1, 10 do s = s + i end return s => Done 55
local s = \"\" for i = 3, 1, -1 do s = s .. i end return s => Done \"321\"
local s = \"\" for i = 1, 10, 3 do s = s .. i .. \",\" end return s => Done \"1,4,7,10,\"
local n = 0 for i = 1, 0 do n = n + 1 end return n => Done 0
local n = 0 for i = 1, 1 do n = n + 1 end return n => Done 1
local n = 0 for i = 0, -1 do n = n + 1 end for i = 1, 3, -1 do n = n + 1 end return n => Done 0
for i = 1, 5 do if i == 3 then return i end end => Done 3
local n = 0 for i = 1, 5 do n = n + i i = 100 end return n => Done 15
local i = \"outer\" for i = 1, 2 do end return i => Done \"outer\"
local n = 0 for i = 1, 3 do for j = 1, 3 do if j > i then break end n = n + 1 end end return n => Done 6
local fs = {} for i = 1, 3 do fs[i] = function() i = i + 1 return i end end return fs[1](), fs[1](), fs[2](), fs[3]() => Done 2, 3, 3, 4
local fs = {} for i = 1, 3 do local j = i * 10 fs[i] = function() j = j + 1 return j end end return fs[1](), fs[1](), fs[3]() => Done 11, 12, 31
local a, b = \"3\", \"1\" local s = \"\" for i = a, b, \"-1\" do s = s .. i end return s => Done \"321\"
local s = \"\" for i = -2, 2 do s = s .. i end return s => Done \"-2-1012\"
local function f() return 1, 3 end local n = 0 for i = f() - 1, 2 do n = n + 1 end return n => Done 3
local s = 0 for i, v in function(t, i) if t[i + 1] then return i + 1, t[i + 1] end end, {10, 20, 30}, 0 do s = s + i * v end return s => Done 140
local n = 0 for i, v in function(t, i) if t[i + 1] then return i + 1, t[i + 1] end end, {1, 2, nil, 4}, 0 do n = n + v end return n => Done 3
local n = 0 for k, v in next, {1, 2, x = 3} do n = n + v end return n => Done 6
local n = 0 for k in next, {} do n = n + 1 end return n => Done 0
local n = 0 for k, v in next, {5, 6} do n = n + k * v end return n => Done 17
local function iter(n, i) if i < n then return i + 1, i * i end end local s = \"\" for i, sq in iter, 4, 0 do s = s .. i .. \":\" .. sq .. \" \" end return s \
=> Done \"1:0 2:1 3:4 4:9 \"
local function range(n) local i = 0 return function() i = i + 1 if i <= n then return i end end end local s = 0 for i in range(5) do s = s + i end return s \
=> Done 15
local s = \"\" for a, b, c in function(t, k) if k == nil then return 1, 2 end end do s = s .. tostring(a) .. tostring(b) .. tostring(c) end return s => Done \
\"12nil\"
for k in next, {a = 1} do return k end => Done \"a\"
local t = {1, 2, 3} for i = 1, #t do t[i] = t[i] * 2 end return t[1], t[2], t[3] => Done 2, 4, 6
local t = {1, 2, 3, 4} for k in next, t do t[k] = nil end return next(t), #t => Done nil, 0
local t = {} for i = 1, 5 do t[#t + 1] = i * i end return #t, t[5] => Done 5, 25
local step, n = function(t, i) if t[i + 1] then return i + 1, t[i + 1] end end, 0 for _, row in step, {{1, 2}, {3}, {}}, 0 do \
for _, v in step, row, 0 do n = n + v end end return n => Done 6
local s = \"\" for i = 1, 3 do local x = i if x == 2 then x = \"two\" end s = s .. x end return s => Done \"1two3\"
local t = {3, 1, 2} for i = 1, #t do for j = i + 1, #t do if t[j] < t[i] then t[i], t[j] = t[j], t[i] end end end return t[1], t[2], t[3] => Done 1, 2, 3
local a, b = 48, 18 while b ~= 0 do a, b = b, a % b end return a => Done 6
local p, n = {}, 0 for i = 2, 30 do local prime = true for j = 2, i - 1 do if i % j == 0 then prime = false break end end if prime then n = n + 1 p[n] = i \
end end return n, p[10] => Done 10, 29
local s = \"\" for w in (function() local n = 3 return function() n = n - 1 if n >= 0 then return n end end end)() do s = s .. w end return s => Done \"210\"
local function f() for i = 1, 3 do for j = 1, 3 do if i * j == 4 then return i, j end end end end return f() => Done 2, 2
local function f() while true do local x = 1 do return x end end end return f() => Done 1
local n = 0 for i = 10, 1, -4 do n = n * 100 + i end return n => Done 100602";
