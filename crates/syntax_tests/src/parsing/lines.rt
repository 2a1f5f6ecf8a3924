//! The lines of statements, expressions and functions in texts whose tokens stand on lines of their own.

/// Expressions, each with its line after it.
pub(super) const EXPRESSIONS: &str = "\
return nil¶,¶true¶,¶false,¶1,¶'x'¶,¶...¶,x => 1: return nil@1, true@3, false@5, 1@6, 'x'@7, ...@9, g'x'@10;
return¶not¶#¶-¶1 => 1: return (Not (Length (Minus 1@5)@4)@3)@2;
return 1¶..¶2¶..¶3 => 1: return (1@1 Concat (2@3 Concat 3@5)@4)@2;
return 1¶+¶2¶-¶3 => 1: return ((1@1 Add 2@3)@2 Sub 3@5)@4;
return -¶1¶^¶2 => 1: return (Minus (1@2 Pow 2@4)@3)@1;
return¶(¶1¶) => 1: return <1@3>@2;
return a¶.¶b¶[¶c¶] => 1: return g'a'@1['b'@3]@2[g'c'@5]@4;
return a¶.¶b(¶1) => 1: return g'a'@1['b'@3]@2(1@4)@3;
return f¶'x' => 1: return g'f'@1('x'@2)@2;
return f¶{¶1} => 1: return g'f'@1({1@3 }@2)@2;
return f¶{}¶{¶} => 1: return g'f'@1({}@2)@2({}@3)@3;
return a¶:¶m(¶1¶) => 1: return g'a'@1:'m'(1@4)@3;
return a¶:¶m¶'x' => 1: return g'a'@1:'m'('x'@4)@4;
return a:m¶{¶} => 1: return g'a'@1:'m'({}@2)@2;
return¶{¶1¶;¶x¶=¶2¶,¶[¶3¶]¶=¶4¶} => 1: return {1@3 'x'@5=2@7 3@10=4@13 }@2;
return¶function¶(¶a¶)¶return¶a¶end => 1: return f1@2; | 6: return s0@7;
local a¶return function()¶return¶a end => 1: local s0 = ;2: return f1@2; | 3: return c0@4;";

/// Statements, each with the line of its first token before it.
pub(super) const STATEMENTS: &str = "\
¶local¶a¶,¶b¶=¶1¶¶local¶c => 2: local s0 s1 = 1@7;9: local s2 = ;
a¶.¶b¶,¶c¶=¶1 => 1: g'a'@1['b'@3]@2, g'c'@5 = 1@7;
(¶a¶)¶.¶b¶=¶1 => 1: <g'a'@2>@1['b'@5]@4 = 1@7;
a¶.¶b(¶1) => 1: g'a'@1['b'@3]@2(1@4)@3;
do¶f()¶end¶f() => 1: do 2: g'f'@2()@2; end;4: g'f'@4()@4;
while¶a¶do¶break¶end => 1: while g'a'@2 do 4: break; end;
repeat¶local a¶until¶a => 1: repeat 2: local s0 = ; until s0@4;
if¶a¶then¶f()¶elseif¶b¶then¶g()¶else¶h()¶end => 1: if g'a'@2 then 4: g'f'@4()@4; if g'b'@6 then 8: g'g'@8()@8; else 10: g'h'@10()@10; end;
for¶i¶=¶1¶,¶2¶,¶3¶do¶i¶=¶4¶end => 1: for s0 = 1@4, 2@6, 3@8 do 10: s0@10 = 4@12; end;
for¶a¶,¶b¶in¶f¶,¶g¶do¶break¶end => 1: for s0 s1 in g'f'@6, g'g'@8 do 10: break; end;
¶return¶1¶; => 2: return 1@3;
local¶function¶f¶(¶)¶end => 1: local s0 f1; | 
¶function¶a¶.¶b¶:¶c¶(¶)¶return¶self¶end => 2: g'a'@3['b'@5]@4['c'@7]@6 = f1@2; | 10: return s0@11;";

/// Functions, each with the line of its word.
pub(super) const FUNCTIONS: &str = "\
¶¶f() => 1 file; 0.../0@3
 => 1 file; 0.../0@1
¶local¶function¶f¶()¶end => 1 file; 0.../1@2; 0/0@3
¶function¶f¶(a)¶end => 1 file; 0.../0@2; 1/1@2
x¶=¶function¶()¶end => 1 file; 0.../0@1; 0/0@3";
