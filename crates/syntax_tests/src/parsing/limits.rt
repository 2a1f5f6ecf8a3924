//! Where the faults of limits and contexts come: texts whose tokens that matter stand on lines of their own, so that a fault's
//! line says which token it is.

/// Each limit, and one more.
pub(super) const LIMITS: &str = "\
x = 1|198* .. 1 => read
x = 1|199* .. 1 => Depth(1)
x = |198*- |1 => read
x = |199*- |1 => Depth(1)
x = |199*( => At(1)
x = |1000000*( => Depth(1)
199*do |do end => Depth(1)
x = 1|3999* + 1 => read
x = 1|4000* + 1 => Depth(1)
x = 1|3999* and 1 => read
x = a|3999*.b => read
x = a|4000*.b => Depth(1)
x = f|3999*() => read
x = f|4000*{} => Depth(1)
function a|4000*.b|() end => Depth(1)
200*local a  => read
201*local a  => Locals(1)
local a|199*, a => read
local a|200*, a|¶= = 1 => Locals(1)
function f(a|199*, a|) end => read
function o:f(a|199*, a|) end => Locals(1)
300*do local a end  => read
60*local a@ |¶f = function() return function() return 0|60*, a@| end end => read
61*local a@ |¶f = function() return function() return 0|61*, a@| end end => Upvalues(2)";

/// 200 constructs may be open at once. The fault is at the first token of the one that is too many.
pub(super) const DEPTHS: &str = "\
x = |198*(|1|198*) => read
x = |198*(|¶(¶1¶|199*) => Depth(3)
199*a[|1|199*]| = 1 => read
200*a[|¶1|200*]| = 1 => Depth(2)
x = |198*a[|1|198*] => read
x = |199*a[|¶1|199*] => Depth(2)
199*do |199* end => read
199*do |¶do¶end|199* end => Depth(3)
199*do |¶do¶local¶a end|199* end => Depth(3)
199*do |¶do => At(2)
199*do |¶x¶=¶1|199* end => Depth(4)
199*do |f()|199* end => read
199*local function f() |199* end => read
199*local function f() |¶local¶function¶f¶(¶a¶,¶b¶)¶local c end|199* end => Depth(10)
199*local function f() |¶function f¶(¶...¶)¶end|199* end => Depth(6)
x = function() |98*return function() |return 1|99* end => read
x = function() |98*return function() |return¶function¶(¶)¶return 1|100* end => Depth(5)
199*do |¶while¶x¶do¶end|199* end => Depth(3)
198*do |while x do local a f() end|198* end => read
198*do |¶while¶(¶x¶)¶do end|198* end => Depth(4)
198*do |while x do¶f(¶1) end|198* end => Depth(3)
198*do |while x do¶while¶y¶do¶end end|198* end => Depth(3)
199*do |¶repeat¶until¶x|199* end => Depth(3)
198*do |repeat until¶-¶x|198* end => Depth(3)
198*do |repeat local a until a|198* end => read
199*do |¶if¶x¶then¶end|199* end => Depth(3)
198*do |if x then local a elseif y then local b else local c end|198* end => read
198*do |if x then elseif¶(¶not¶y) then end|198* end => Depth(3)
198*do |if x then else¶do¶end end|198* end => Depth(3)
199*do |for i =¶1¶, 2 do end|199* end => Depth(2)
199*do |for i in¶x¶do end|199* end => Depth(2)
198*do |for i = 1, 2, ¶-¶1 do end|198* end => Depth(3)
198*do |for i = 1, 2 do local a end|198* end => read
198*do |for i, j in x¶do¶do¶end end|198* end => Depth(4)
x = 1|198* .. 1 => read
x = 1|198* .. 1|¶..¶2 => Depth(3)
x = 1|198* ^ 1 => read
x = 1|198* ^ 1|¶^¶2 => Depth(3)
x = |197*(|1¶+¶(¶1 => Depth(4)
x = |198*- |¶not¶1 => Depth(3)
x = |198*{|1|198*} => read
x = |199*{|199*} => read
x = |199*{|¶1|199*} => Depth(2)
x = |199*{|¶a¶=¶1|199*} => Depth(2)
x = |199*{|¶[¶1¶]¶=¶1|199*} => Depth(2)
x = |198*{|{},¶(¶1)|198*} => Depth(3)
x = |198*f(|1|198*) => read
x = |199*f(|199*) => read
x = |199*f(|¶1|199*) => Depth(2)
x = |199*o:m(|¶1|199*) => Depth(2)
x = |198*f{|1|198*} => read
x = |199*f{|¶1|199*} => Depth(2)
199*f(|1|199*) => read
200*f(|¶1|200*) => Depth(2)
199*f(|1,¶(¶1|200*) => Depth(3)";

/// An expression may be 4,000 high. The fault is at the token that makes it higher.
pub(super) const HEIGHTS: &str = "\
x = a|3999*.b => read
x = a|3999*.b|¶.¶b => Depth(2)
x = a|3999*.b|¶+¶1 => Depth(2)
x = a|3999*.b|¶[¶1] => Depth(2)
x = a|3999*.b|¶:¶c¶() => Depth(2)
x = f|3999*{}|¶{¶} => Depth(2)
x = f|3999*'a'|¶'a' => Depth(2)
x = f|3998*()|¶.¶g() => Depth(3)
x = 1|3999* + 1 => read
x = 1|3999* + 1|¶+¶1 => Depth(2)
x = 1|3999* or 1|¶or¶1 => Depth(2)
x = 1|3999* - 1|¶..¶1 => Depth(2)
x = (a|3998*.b|) => read
x = (a|3998*.b|¶.¶b) => Depth(2)
x = (a|3998*.b|¶)¶.¶b => Depth(3)
x = 1 + a|3998*.b => read
x = 1 + a|3998*.b|¶.¶b => Depth(2)
x = -a|3998*.b|¶.¶b => Depth(2)
x = f(a|3998*.b|) => read
x = f(1, a|3998*.b|¶.¶b) => Depth(2)
x = {1, a|3998*.b|¶.¶b} => Depth(2)
x = f{a|3997*.b|} => read
x = f{a|3997*.b|¶.¶b} => Depth(2)
a|3999*.b| = 1 => read
a|3999*.b|¶.¶b = 1 => Depth(2)
c, a|3999*.b|¶.¶b = 1 => Depth(2)
function a|3999*.b|() end => read
function a|3999*.b|¶.¶b() end => Depth(2)
function a|3998*.b|:b() end => read
function a|3999*.b|¶:¶b() end => Depth(2)";

/// A function may have 200 locals in scope. The fault is at the name that is too many.
pub(super) const LOCALS: &str = "\
200*local a |¶local¶a => Locals(3)
local a|199*, a|¶,¶b¶= 1 => Locals(3)
199*local a |local¶a¶,¶b¶= 1 => Locals(4)
150*local a |do |50*local b |¶local¶c end => Locals(3)
150*local a |do |50*local b |end|50* local c => read
150*local a |do |50*local b |end|50* local c|¶local¶d => Locals(3)
function f(a|199*, a|, ...) end => read
function f(a|199*, a|¶,¶b¶) end => Locals(3)
function o:f(a|198*, a|) end => read
function o:f(a|198*, a|¶,¶b¶) end => Locals(3)
x = function(a|199*, a|¶,¶b¶) end => Locals(3)
200*local a |function f(b) end => read
function f(a|149*, a|) |50*local b |¶local¶c end => Locals(3)
199*local a |for i = 1, 2 do end => read
198*local a |for i, j in x do end => read
200*local a |¶for¶i¶= 1, 2 do end => Locals(3)
199*local a |for i¶,¶j¶in x do end => Locals(3)
199*local a |for i = 1, 2 do¶local¶b end => Locals(3)
repeat |200*local a |¶local¶b until x => Locals(3)
199*local a |local function f() end => read
200*local a |¶local¶function¶f¶() end => Locals(4)";

/// A function may have 60 captures. The fault is at the name that is too many, be it one of a function further in.
pub(super) const CAPTURES: &str = "\
61*local a@ |function f() return 0|60*, a@| end => read
61*local a@ |function f() return 0|60*, a@|60*, a@| end => read
61*local a@ |function f() return 0|60*, a@|¶,¶a60 end => Upvalues(3)
61*local a@ |function f() return 0|60*, a@|, {x¶=¶a60¶} end => Upvalues(3)
61*local a@ |function f() return 0|60*, a@|, {¶a60¶} end => Upvalues(2)
61*local a@ |function f() return 0|60*, a@|, {[¶a60¶] = 1} end => Upvalues(2)
61*local a@ |function f() return 0|60*, a@|, {a60 = 1}, b.a60, b:a60() end => read
61*local a@ |function f() |60*a@ = 1 |¶a60¶= 1 end => Upvalues(2)
61*local a@ |function f() |60*a@ = 1 |¶function¶a60¶.b() end end => Upvalues(3)
61*local a@ |function f() |60*function g() a@ = 1 end |function h() return¶a60¶end end => Upvalues(2)
61*local a@ |function f() |60*a@ = 1 |a61 = 1 local a60 a60 = 1 end => read
60*local a@ |local function f() return f|59*, a@|¶,¶a59 end => Upvalues(3)";

/// A `(` on another line, a `break` outside a loop and a `...` where there is none are themselves the token of the fault.
pub(super) const CONTEXTS: &str = "\
x = f¶(y) => Ambiguous(2)
x = f()¶(y) => Ambiguous(2)
local a = b[¶1]¶(y) => Ambiguous(3)
b [[¶v¶]] ( ) => Ambiguous(3)
x = {f¶()} => Ambiguous(2)
({x¶(23).f}) => Ambiguous(2)
return f¶:m¶(x) => Ambiguous(3)
f((g)¶(x)) => Ambiguous(2)
x = f¶{} f¶'a' f¶.g() => read
while x do¶f = function()¶break¶end end => BreakOutside(3)
repeat local f = function()¶break end until x => BreakOutside(2)
repeat until function()¶break end => BreakOutside(2)
while function()¶break end do end => BreakOutside(2)
for i = 1, 2 do function f()¶if x then¶break end end end => BreakOutside(3)
while x do end¶break => BreakOutside(2)
function f() do¶break end end => BreakOutside(2)
while x do if y then break end end => read
function f() for i in x do do break end end end => read
function f()¶x¶=¶...¶end => VarargOutside(4)
function o:f(a)¶return¶... end => VarargOutside(3)
local function f() f(1,¶...) end => VarargOutside(2)
function f(...) x = function() return {¶...} end end => VarargOutside(2)
function f(...) return {...} end return ... => read";

/// Of two faults the earlier one is returned. Where one `(` is both on another line and one too high, the first of these is.
pub(super) const BOTH: &str = "\
200*local a |local¶b¶= = 1 => Locals(2)
x = |199*(|¶1¶) + + 1 => Depth(2)
x =¶= 1 |201* local a => At(2)
x = 1¶) |200*do |break => At(2)
200*local a |¶local¶b = |199*(|¶1 => Locals(3)
x = |199*(|¶1|199*)|¶|201* local a => Depth(2)
199*local function f() |local function g(a|198*, a|,¶b¶,¶c¶)¶end|199* end => Locals(4)
x = 1¶break¶|201* local a => BreakOutside(2)
function f() return¶...¶+ break end => VarargOutside(2)
x = f¶|199*(|¶1 => Ambiguous(2)
x = a|3999*.b|¶(1) => Ambiguous(2)
x = |199*(|¶f¶(1) => Depth(2)
61*local a@ |function f() return 0|60*, a@|,¶a60¶(1) end => Upvalues(2)
61*local a@ |function f() return 0|60*, a@|, |198*(|¶1¶, a60 => Depth(2)
61*local a@ |function f() return 0|60*, a@|,¶a60¶, |198*(|1 => Upvalues(2)
function f()¶break¶end x = function() return ... end => BreakOutside(2)
function f() x =¶...¶while x do end break end => VarargOutside(2)
200* do => At(1)
x = |199*( => At(1)";
