//! Tests of what works on its arguments alone: names of types, equality, `select`, numerals, and what the library's own texts ask.
//! The answers were worked out by hand; docs/DECISIONS.md says where the interpreter of Lua 5.1.5 gives others.

/// The name of a type is a text that is made; the texts that a call takes and makes are counted together.
pub(super) const TYPES: &str = "\
type(nil) => 'nil | 0 | 19
type(true) => 'boolean | 0 | 23
type(1) => 'number | 0 | 22
type('1) => 'string | 0 | 22
type(table:1) => 'table | 0 | 21
type(closure:1) => 'function | 0 | 24
type(native:138) => 'function | 0 | 24
type(thread:1) => 'thread | 0 | 22
type(null) => 'userdata | 0 | 24
type(socket:1) => 'userdata | 0 | 24
type(semaphore:1) => 'userdata | 0 | 24
type(zone:1) => 'userdata | 0 | 24
type(reader:1) => 'function | 0 | 24
type(x57) => 'string | 0 | 22
type(x58) => 'string | 1 | 22
type(nil, x60) => 'nil | 0 | 19
type(nil, x61) => 'nil | 1 | 19
type(nil, x64) => 'nil | 1 | 19
type(x57, x65) => 'string | 2 | 22
type() => fault: bad argument #1 to 'type' (value expected, got no value) | 0 | 0";

/// Values are equal that are one value: numbers, texts by their bytes, and others by their kind and number.
pub(super) const EQUALITY: &str = "\
rawequal('a, 'a) => true | 0 | 0
rawequal('a\0b, 'a\0b) => true | 0 | 0
rawequal('a\0b, 'a\0c) => false | 0 | 0
rawequal('a, 'a\0) => false | 0 | 0
rawequal(', nil) => false | 0 | 0
rawequal(x64, x64) => true | 2 | 0
rawequal(x64, x63) => false | 1 | 0
rawequal(1, 1) => true | 0 | 0
rawequal(1, -1) => false | 0 | 0
rawequal(1, '1) => false | 0 | 0
rawequal(1, true) => false | 0 | 0
rawequal(0, false) => false | 0 | 0
rawequal(nil, nil) => true | 0 | 0
rawequal(nil, false) => false | 0 | 0
rawequal(true, true, false) => true | 0 | 0
rawequal(table:1, table:1) => true | 0 | 0
rawequal(table:1, table:2) => false | 0 | 0
rawequal(table:1, closure:1) => false | 0 | 0
rawequal(closure:1, native:1) => false | 0 | 0
rawequal(native:1, native:1) => true | 0 | 0
rawequal(thread:1, thread:1) => true | 0 | 0
rawequal(null, null) => true | 0 | 0
rawequal(null, nil) => false | 0 | 0
rawequal(socket:1, socket:1) => true | 0 | 0
rawequal(socket:1, socket:2) => false | 0 | 0
rawequal(socket:1, zone:1) => false | 0 | 0
rawequal() => fault: bad argument #1 to 'rawequal' (value expected, got no value) | 0 | 0
rawequal(1) => fault: bad argument #2 to 'rawequal' (value expected, got no value) | 0 | 0
rawequal(table:1) => fault: bad argument #2 to 'rawequal' (value expected, got no value) | 0 | 0
rawequal(x64) => fault: bad argument #2 to 'rawequal' (value expected, got no value) | 1 | 0";

/// An index from 1, or from the end; a text that writes a number is one.
pub(super) const SELECTED: &str = "\
select('#) => 0 | 0 | 0
select('#, nil, nil) => 2 | 0 | 0
select('#, x64) => 1 | 1 | 0
select(1) =>  | 0 | 0
select(1, nil) => nil | 0 | 0
select(2, 7, 8, 9) => 8, 9 | 0 | 0
select(2, 'a, 'b, 'c) => 'b, 'c | 0 | 0
select(3, 7, 8, nil) => nil | 0 | 0
select(4, 7, 8, 9) =>  | 0 | 0
select(99999999999999, 7) =>  | 0 | 0
select(1, x64, x64) => x64, x64 | 2 | 0
select(-1, 7, 8) => 8 | 0 | 0
select(-1, 'a, 'b) => 'b | 0 | 0
select(-2, 7, 8) => 7, 8 | 0 | 0
select('1, 7) => 7 | 0 | 0
select(' 0x2 , 7, 8) => 8 | 0 | 0
select('-1, 7, 8) => 8 | 0 | 0
select(-3, 7, 8) => fault: bad argument #1 to 'select' (index out of range) | 0 | 0
select(-1) => fault: bad argument #1 to 'select' (index out of range) | 0 | 0
select(-99999999999999, 7) => fault: bad argument #1 to 'select' (index out of range) | 0 | 0
select(0) => fault: bad argument #1 to 'select' (index out of range) | 0 | 0
select(0, 1) => fault: bad argument #1 to 'select' (index out of range) | 0 | 0
select(0, x64) => fault: bad argument #1 to 'select' (index out of range) | 1 | 0
select() => fault: bad argument #1 to 'select' (number expected, got no value) | 0 | 0
select(nil, 1) => fault: bad argument #1 to 'select' (number expected, got nil) | 0 | 0
select('##) => fault: bad argument #1 to 'select' (number expected, got string) | 0 | 0
select('#\0) => fault: bad argument #1 to 'select' (number expected, got string) | 0 | 0
select(') => fault: bad argument #1 to 'select' (number expected, got string) | 0 | 0
select(table:1, 1) => fault: bad argument #1 to 'select' (number expected, got table) | 0 | 0";

/// In base 10, which is that of a call without a base, a number is itself and a text what it writes; nothing else has a number.
pub(super) const DECIMAL: &str = "\
tonumber(10) => 10 | 0 | 0
tonumber(-99999999999999) => -99999999999999 | 0 | 0
tonumber('10) => 10 | 0 | 0
tonumber(' 12 ) => 12 | 0 | 0
tonumber('\t\u{b}\u{c}\r7) => 7 | 0 | 0
tonumber('-5) => -5 | 0 | 0
tonumber('0x1F) => 31 | 0 | 0
tonumber('-0x10, nil) => -16 | 0 | 0
tonumber('007) => 7 | 0 | 0
tonumber('99999999999999) => 99999999999999 | 0 | 0
tonumber('100000000000000) => nil | 0 | 0
tonumber('-100000000000000) => nil | 0 | 0
tonumber('1e2) => nil | 0 | 0
tonumber('1.0) => nil | 0 | 0
tonumber('0x) => nil | 0 | 0
tonumber('+1) => nil | 0 | 0
tonumber('- 1) => nil | 0 | 0
tonumber('1 1) => nil | 0 | 0
tonumber('1\0) => nil | 0 | 0
tonumber(') => nil | 0 | 0
tonumber(' ) => nil | 0 | 0
tonumber('k) => nil | 0 | 0
tonumber(x64) => nil | 1 | 0
tonumber('99999999999999, 10) => 99999999999999 | 0 | 0
tonumber('0x10, 10) => 16 | 0 | 0
tonumber('7, '10) => 7 | 0 | 0
tonumber(nil) => nil | 0 | 0
tonumber(nil, 10) => nil | 0 | 0
tonumber(true) => nil | 0 | 0
tonumber(table:1) => nil | 0 | 0
tonumber(closure:1, nil) => nil | 0 | 0
tonumber(null) => nil | 0 | 0";

/// In another base a text of digits with blanks around them is read, without a sign, or a number as its text.
pub(super) const IN_A_BASE: &str = "\
tonumber(' 101\t, 2) => 5 | 0 | 0
tonumber('2, 2) => nil | 0 | 0
tonumber('102, 2) => nil | 0 | 0
tonumber('7, '8) => 7 | 0 | 0
tonumber('17, 8) => 15 | 0 | 0
tonumber('8, 8) => nil | 0 | 0
tonumber('ff, 16) => 255 | 0 | 0
tonumber('fF, 16) => 255 | 0 | 0
tonumber('fg, 16) => nil | 0 | 0
tonumber('0xff, 16) => 255 | 0 | 0
tonumber(' 0xFf , '16) => 255 | 0 | 0
tonumber('0x, 16) => nil | 0 | 0
tonumber('0x ff, 16) => nil | 0 | 0
tonumber('x, 16) => nil | 0 | 0
tonumber('0Xff, 16) => nil | 0 | 0
tonumber('0xff, 36) => 43323 | 0 | 0
tonumber('zz, 36) => 1295 | 0 | 0
tonumber('Zz, 36) => 1295 | 0 | 0
tonumber('-zz, 36) => nil | 0 | 0
tonumber('yy, 35) => 1224 | 0 | 0
tonumber('yz, 35) => nil | 0 | 0
tonumber('zzzzzzzz, 36) => 2821109907455 | 0 | 0
tonumber('zzzzzzzzz, 36) => nil | 0 | 0
tonumber('10110101111001100010000011110100011111111111111, 2) => 99999999999999 | 0 | 0
tonumber('10110101111001100010000011110100100000000000000, 2) => nil | 0 | 0
tonumber('5af3107a3fff, 16) => 99999999999999 | 0 | 0
tonumber('5af3107a4000, 16) => nil | 0 | 0
tonumber('99999999999999, 11) => nil | 0 | 0
tonumber('0000000000000000000000000000000000000000000000000000000000000001, 2) => 1 | 1 | 0
tonumber(x64, 36) => nil | 1 | 0
tonumber(', 2) => nil | 0 | 0
tonumber(' , 2) => nil | 0 | 0
tonumber('1 1, 2) => nil | 0 | 0
tonumber('+1, 2) => nil | 0 | 0
tonumber('-1, 2) => nil | 0 | 0
tonumber('1\0, 2) => nil | 0 | 0
tonumber('1.0, 2) => nil | 0 | 0
tonumber(12, 8) => 10 | 0 | 0
tonumber(12, 2) => nil | 0 | 0
tonumber(-5, 16) => nil | 0 | 0";

/// Arguments of `tonumber` that are refused, the first of them first; a base is from 2 to 36.
pub(super) const REFUSED_NUMERALS: &str = "\
tonumber() => fault: bad argument #1 to 'tonumber' (value expected, got no value) | 0 | 0
tonumber('1, true) => fault: bad argument #2 to 'tonumber' (number expected, got boolean) | 0 | 0
tonumber(nil, 'k) => fault: bad argument #2 to 'tonumber' (number expected, got string) | 0 | 0
tonumber(nil, 16) => fault: bad argument #1 to 'tonumber' (string expected, got nil) | 0 | 0
tonumber(true, 2) => fault: bad argument #1 to 'tonumber' (string expected, got boolean) | 0 | 0
tonumber(table:1, 16) => fault: bad argument #1 to 'tonumber' (string expected, got table) | 0 | 0
tonumber(table:1, 37) => fault: bad argument #1 to 'tonumber' (string expected, got table) | 0 | 0
tonumber('1, 1) => fault: bad argument #2 to 'tonumber' (base out of range) | 0 | 0
tonumber('1, 37) => fault: bad argument #2 to 'tonumber' (base out of range) | 0 | 0
tonumber('1, 0) => fault: bad argument #2 to 'tonumber' (base out of range) | 0 | 0
tonumber('1, -16) => fault: bad argument #2 to 'tonumber' (base out of range) | 0 | 0
tonumber(1, 99999999999999) => fault: bad argument #2 to 'tonumber' (base out of range) | 0 | 0
tonumber(x64, 37) => fault: bad argument #2 to 'tonumber' (base out of range) | 1 | 0";

/// What `_G` and `require` ask for: the present global table, the table before it, and a name as a text, which is made where it is a
/// number's.
pub(super) const OWN_TEXTS: &str = "\
globals() => table:0 | 0 | 0
globals(x64) => table:0 | 1 | 0
run_modules() => nil | 0 | 0
run_modules(x64) => nil | 1 | 0
globals 2
globals() => table:2 | 0 | 0
run_modules() => table:1 | 0 | 0
run_modules(x64) => table:1 | 1 | 0
globals 1
run_modules() => table:0 | 0 | 0
module_name('a) => 'a | 0 | 0
module_name('a\0b, 'c) => 'a\0b | 0 | 0
module_name(x64) => x64 | 1 | 0
module_name(1) => '1 | 0 | 17
module_name(12) => '12 | 0 | 18
module_name(-99999999999999) => '-99999999999999 | 0 | 31
module_name(1, x63) => '1 | 1 | 17
module_name() => fault: bad argument #1 to 'require' (string expected, got no value) | 0 | 0
module_name(nil) => fault: bad argument #1 to 'require' (string expected, got nil) | 0 | 0
module_name(false, x64) => fault: bad argument #1 to 'require' (string expected, got boolean) | 1 | 0
module_name(table:1) => fault: bad argument #1 to 'require' (string expected, got table) | 0 | 0";

/// What isn't built is left to the outside, and what the library has of it counts the texts that it takes. A function is found under
/// its number too, as that of `next`, and the one that `ipairs` gives.
pub(super) const NUMBERS: &str = "\
5(x64) => outside | 0 | 0
127(x64) => outside | 0 | 0
128(table:2) => 'locked | 0 | 0
131(table:1) => 1, 10 | 0 | 0
138(1) => 'number | 0 | 22
139(table:1) => 10, 20 | 2 | 0
140('a) => outside | 0 | 0
140(x130) => outside | 2 | 0
173() => outside | 0 | 0
174(table:1, 0) => 1, 10 | 0 | 0
175() => outside | 0 | 0
180(0, table:1) => outside | 0 | 0
181() => table:0 | 0 | 0
182(1) => '1 | 0 | 17
183() => nil | 0 | 0";
