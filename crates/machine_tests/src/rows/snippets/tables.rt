//! Tables: small texts of plain Lua, and what Lua 5.1 itself makes of them.

/// Tables hold what lua holds.
pub(in crate::rows) const TABLES: &str = "\
local t = {1, 2, 3} return #t, t[1], t[3], t[4] => Done 3, 1, 3, nil
local t = {x = 1, [\"y z\"] = 2, [3] = \"three\"} return t.x, t[\"y z\"], t[3], t.z => Done 1, 2, \"three\", nil
local t = {1, x = 2, 3, [10] = 4, 5} return #t, t[1], t[2], t[3], t[10], t.x => Done 3, 1, 3, 5, 4, 2
local t = {{1, 2}, {3, {4}}} return t[1][2], t[2][2][1], #t => Done 2, 4, 2
local t = {} t[1] = \"a\" t[2] = \"b\" t[#t + 1] = \"c\" return #t, t[3] => Done 3, \"c\"
local t = {} t.a = 1 t[\"a\"] = 2 return t.a, t[\"a\"] => Done 2, 2
local t = {} t[1] = 1 t[\"1\"] = 2 return t[1], t[\"1\"] => Done 1, 2
local t = {[true] = \"t\", [false] = \"f\"} return t[true], t[false], t[1] => Done \"t\", \"f\", nil
local k = {} local t = {[k] = \"k\"} return t[k], t[{}] => Done \"k\", nil
local f = function() end local t = {[f] = 1} return t[f] => Done 1
local t = {1, 2, 3} t[#t] = nil return #t => Done 2
local t = {1, 2, 3; 4} return #t, t[4] => Done 4, 4
local t = {1, 2,} return #t => Done 2
local t = {} return t.a, t[1], t[{}], #t => Done nil, nil, nil, 0
local t = {x = {y = {z = 5}}} t.x.y.z = t.x.y.z + 1 return t.x.y.z => Done 6
local t = {} t.t = t return t.t.t.t == t => Done true
local t = {[1] = \"a\", [2] = \"b\"} return #t => Done 2
local t = {[\"a\"] = 1, b = 2} t.a, t.b = t.b, t.a return t.a, t.b => Done 2, 1
local function f() return 1, 2 end local t = {f(), f()} return #t, t[1], t[2], t[3] => Done 3, 1, 1, 2
local function f() return 1, 2 end local t = {f(), x = 3, f(), 4} return #t, t[1], t[2], t[3] => Done 3, 1, 1, 4
local function f() return 1, 2 end local t = {(f())} return #t => Done 1
local t = {f = function() return 5 end} return t.f(), t[\"f\"]() => Done 5, 5
return ({1, 2, 3})[2], ({x = 1}).x, #{1, 2} => Done 2, 1, 2
return next({}), next({7}), type(next) => Done nil, 1, \"function\"
local t = {7} local k, v = next(t) return k, v, next(t, k) => Done 1, 7, nil
return rawget({5}, 1), rawequal(\"a\", \"a\"), rawequal({}, {}), rawequal(1, 1) => Done 5, true, false, true
local t = rawset({}, \"a\", 1) return t.a => Done 1
local t = {10, 20, nil, 40} return t[1], t[2], t[3], t[4] => Done 10, 20, nil, 40
local a = {1} local b = {1} return a == b, a[1] == b[1] => Done false, true
local t = {1, 2, 3} local s = t[1] + t[2] * t[3] return s, t[t[1]], t[t[t[2]]] => Done 7, 1, 2
local t = {} t[-1] = \"m\" t[0] = \"z\" return t[-1], t[0], #t => Done \"m\", \"z\", 0
local t = {\"a\", \"b\"} t[3] = \"c\" t[5] = \"e\" return t[3], t[4], t[5] => Done \"c\", nil, \"e\"";
