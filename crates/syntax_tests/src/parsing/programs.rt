//! The programs of texts: each statement and expression, how operators group, and the heads of functions.

/// How operators group.
pub(super) const GROUPS: &str = "\
return 1 or 2 and 3 => return (1 Or (2 And 3));
return 1 and 2 or 3 => return ((1 And 2) Or 3);
return 1 and 2 == 3 => return (1 And (2 Eq 3));
return 1 < 2 == 3 ~= 4 => return (((1 Lt 2) Eq 3) Ne 4);
return 1 <= 2 .. 3 >= 4 => return ((1 Le (2 Concat 3)) Ge 4);
return 1 .. 2 .. 3 => return (1 Concat (2 Concat 3));
return 1 .. 2 + 3 .. 4 => return (1 Concat ((2 Add 3) Concat 4));
return 1 - 2 - 3 + 4 => return (((1 Sub 2) Sub 3) Add 4);
return 1 + 2 * 3 - 4 => return ((1 Add (2 Mul 3)) Sub 4);
return 1 / 2 % 3 * 4 => return (((1 Div 2) Mod 3) Mul 4);
return -2^2 => return (Minus (2 Pow 2));
return 2^-3^4 => return (2 Pow (Minus (3 Pow 4)));
return 2^3^4 => return (2 Pow (3 Pow 4));
return 2^-3 * 4 => return ((2 Pow (Minus 3)) Mul 4);
return not 1 == 2 => return ((Not 1) Eq 2);
return not not #1 * - - 2 => return ((Not (Not (Length 1))) Mul (Minus (Minus 2)));
return #1 .. -2 .. 3 => return ((Length 1) Concat ((Minus 2) Concat 3));
return (1 + 2) * 3 => return (<(1 Add 2)> Mul 3);
return 1 > 2 or 3 ~= 4 and not 5 => return ((1 Gt 2) Or ((3 Ne 4) And (Not 5)));";

/// Each statement and expression.
pub(super) const PROGRAMS: &str = "\
x = nil y = true; z = false => g'x' = nil;g'y' = true;g'z' = false;
 => 
a.b, c[1] = 'x', ... => g'a'['b'], g'c'[1] = 'x', ...;
a.b:c(1, 2).d = 1 => g'a'['b']:'c'(1, 2)['d'] = 1;
f() f{} f'x' f(1)(2) => g'f'();g'f'({});g'f'('x');g'f'(1)(2);
a:b'x' a:b{} => g'a':'b'('x');g'a':'b'({});
(a).b = 1 (f)() => <g'a'>['b'] = 1;<g'f'>();
return {1, 2; x = 3, [4] = 5, f(),} => return {1 2 'x'=3 4=5 g'f'() };
return {x}, {}, {x; y} => return {g'x' }, {}, {g'x' g'y' };
do local a end local b => do local s0 = ; end;local s0 = ;
local a, b = 1; a = b => local s0 s1 = 1;s0 = s1;
local a = 1 local a = a => local s0 = 1;local s1 = s0;
while a do break end => while g'a' do break; end;
repeat local a = 1 until a => repeat local s0 = 1; until s0;
if a then b() end => if g'a' then g'b'(); else  end;
if a then elseif b then c() else d() end => if g'a' then  if g'b' then g'c'(); else g'd'(); end;
for i = 1, 2 do i = 3 end => for s0 = 1, 2,  do s0 = 3; end;
for i = 1, 2, 3 do end i = 1 => for s0 = 1, 2, 3 do  end;g'i' = 1;
for a, b in f, g do b = a end => for s0 s1 in g'f', g'g' do s1 = s0; end;
return => return ;
return; => return ;
local function f() f() end => local s0 f1; | c0();
local f = function() f() end => local s0 = f1; | g'f'();
function f(a) return a end => g'f' = f1; | return s0;
function a.b.c(x) end => g'a'['b']['c'] = f1; | 
function a.b:c(x) return self, x end => g'a'['b']['c'] = f1; | return s0, s1;
function f(...) return ... end => g'f' = f1; | return ...;
local a, b f = function() return function() return b, a end, b end => local s0 s1 = ;g'f' = f1; | return f2, c0; | return c0, c1;
local a f = function() a() local a; a() end => local s0 = ;g'f' = f1; | c0();local s0 = ;s0();
f(function() end, function() end) => g'f'(f1, f2); |  | ";

/// The number of files, and the parameters, slots, lines and captures of functions.
pub(super) const HEADS: &str =
    "¶local a, b do local c end¶f = function(x, ...) local y return function()¶return b, y, a end end => 1 file; 0.../3@2; 1.../2@3 s1 s0; 0/0@3 c0 s1 c1";
