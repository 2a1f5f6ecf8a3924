//! Tests of what reads and writes tables: metatables, raw calls, traversal and `unpack`. The answers were worked out by hand;
//! docs/DECISIONS.md says where the interpreter of Lua 5.1.5 gives others.

/// A metatable is shown, or else what its `__metatable` says, also false; what it says protects it.
pub(super) const METATABLES: &str = "\
getmetatable(table:1) => nil | 0 | 0
setmetatable(table:1, table:3) => table:1 | 0 | 0
getmetatable(table:1) => table:3 | 0 | 0
getmetatable(table:3) => nil | 0 | 0
setmetatable(table:1, table:1) => table:1 | 0 | 0
getmetatable(table:1, table:2) => table:1 | 0 | 0
setmetatable(table:1, nil) => table:1 | 0 | 0
setmetatable(table:1, nil) => table:1 | 0 | 0
getmetatable(table:1) => nil | 0 | 0
getmetatable(table:2) => 'locked | 0 | 0
setmetatable(table:2, nil) => fault: cannot change a protected metatable | 0 | 0
setmetatable(table:2, table:2) => fault: cannot change a protected metatable | 0 | 0
setmetatable(table:1, table:2, nil) => table:1 | 0 | 0
getmetatable(table:1) => 'locked | 0 | 0
setmetatable(table:1, nil) => fault: cannot change a protected metatable | 0 | 0
rawset(table:2, '__metatable, false) => table:2 | 0 | 0
getmetatable(table:1) => false | 0 | 0
setmetatable(table:1, nil) => fault: cannot change a protected metatable | 0 | 0
rawset(table:2, '__metatable, nil) => table:2 | 0 | 0
getmetatable(table:1) => table:2 | 0 | 0
rawset(table:2, '__metatable\0, 1) => table:2 | 0 | 32
getmetatable(table:1) => table:2 | 0 | 0
setmetatable(table:1, nil) => table:1 | 0 | 0
getmetatable(table:1) => nil | 0 | 0";

/// Texts have a metatable together, and so has each kind of object; others have none.
pub(super) const TYPES: &str = "\
getmetatable('a) => nil | 0 | 0
getmetatable(socket:1) => nil | 0 | 0
share 'a 3
share socket:1 1
share zone:1 2
getmetatable('a) => table:3 | 0 | 0
getmetatable(x64) => table:3 | 1 | 0
getmetatable(socket:2) => table:1 | 0 | 0
getmetatable(zone:2) => 'locked | 0 | 0
getmetatable(reader:1) => nil | 0 | 0
getmetatable(semaphore:1) => nil | 0 | 0
share reader:1 3
share semaphore:1 3
getmetatable(reader:1) => table:3 | 0 | 0
getmetatable(semaphore:1) => table:3 | 0 | 0
getmetatable(nil) => nil | 0 | 0
getmetatable(true) => nil | 0 | 0
getmetatable(1) => nil | 0 | 0
getmetatable(closure:1) => nil | 0 | 0
getmetatable(native:1) => nil | 0 | 0
getmetatable(thread:1) => nil | 0 | 0
getmetatable(null) => nil | 0 | 0";

/// Arguments of calls of metatables that are refused, the first of them first.
pub(super) const REFUSED_METATABLES: &str = "\
getmetatable() => fault: bad argument #1 to 'getmetatable' (value expected, got no value) | 0 | 0
setmetatable() => fault: bad argument #1 to 'setmetatable' (table expected, got no value) | 0 | 0
setmetatable(nil, nil) => fault: bad argument #1 to 'setmetatable' (table expected, got nil) | 0 | 0
setmetatable(x64, 1) => fault: bad argument #1 to 'setmetatable' (table expected, got string) | 1 | 0
setmetatable(null, nil) => fault: bad argument #1 to 'setmetatable' (table expected, got userdata) | 0 | 0
setmetatable(table:1) => fault: bad argument #2 to 'setmetatable' (nil or table expected, got no value) | 0 | 0
setmetatable(table:1, false) => fault: bad argument #2 to 'setmetatable' (nil or table expected, got boolean) | 0 | 0
setmetatable(table:2, 1) => fault: bad argument #2 to 'setmetatable' (nil or table expected, got number) | 0 | 0
setmetatable(table:2, x64) => fault: bad argument #2 to 'setmetatable' (nil or table expected, got string) | 1 | 0
getmetatable(table:1) => nil | 0 | 0
getmetatable(table:2) => 'locked | 0 | 0";

/// A key keeps its entry, whose units are counted once, also where nil is set; nil at a new key makes none.
pub(super) const ENTRIES: &str = "\
rawget(table:1, 1) => 10 | 0 | 0
rawget(table:1, 'k) => 30 | 0 | 0
rawget(table:1, 'k, 1) => 30 | 0 | 0
rawget(table:1, '1) => nil | 0 | 0
rawget(table:1, nil) => nil | 0 | 0
rawget(table:1, 3) => nil | 0 | 0
rawget(table:0, 'k) => nil | 0 | 0
rawset(table:1, 'k, nil) => table:1 | 0 | 0
rawget(table:1, 'k) => nil | 0 | 0
rawset(table:1, 'k, 31) => table:1 | 0 | 0
rawget(table:1, 'k) => 31 | 0 | 0
rawset(table:1, 'new, nil) => table:1 | 0 | 0
rawset(table:1, 'new, 7) => table:1 | 0 | 32
rawset(table:1, 'new, 8, 9) => table:1 | 0 | 0
rawset(table:1, 'new, nil) => table:1 | 0 | 0
rawset(table:1, 'new, false) => table:1 | 0 | 0
rawget(table:1, 'new) => false | 0 | 0
rawset(table:3, x64, x65) => table:3 | 2 | 32
rawget(table:3, x64) => x65 | 1 | 0
rawget(table:3, x65) => nil | 1 | 0
rawset(table:3, table:3, table:3) => table:3 | 0 | 32
rawget(table:3, table:3) => table:3 | 0 | 0
rawset(table:3, -1, 1) => table:3 | 0 | 32
rawset(table:3, '-1, 2) => table:3 | 0 | 32
rawset(table:3, false, 3) => table:3 | 0 | 32
rawset(table:3, ', 4) => table:3 | 0 | 32
rawget(table:3, -1) => 1 | 0 | 0
rawget(table:3, '-1) => 2 | 0 | 0
rawget(table:3, false) => 3 | 0 | 0
rawget(table:3, ') => 4 | 0 | 0
rawget(table:3, true) => nil | 0 | 0";

/// A zero byte is a byte of a key as any other.
pub(super) const ZERO_BYTES: &str = "\
rawset(table:3, 'a\0b, 1) => table:3 | 0 | 32
rawset(table:3, 'a\0c, 2) => table:3 | 0 | 32
rawset(table:3, 'a\0, 3) => table:3 | 0 | 32
rawset(table:3, '\0, 4) => table:3 | 0 | 32
rawget(table:3, 'a\0b) => 1 | 0 | 0
rawget(table:3, 'a\0c) => 2 | 0 | 0
rawget(table:3, 'a\0) => 3 | 0 | 0
rawget(table:3, '\0) => 4 | 0 | 0
rawget(table:3, 'a) => nil | 0 | 0
rawget(table:3, ') => nil | 0 | 0
rawget(table:3, '\0\0) => nil | 0 | 0
rawset(table:3, 'a\0b, nil) => table:3 | 0 | 0
next(table:3) => 'a\0c, 2 | 0 | 0
next(table:3, 'a\0c) => 'a\0, 3 | 0 | 0
next(table:3, 'a\0) => '\0, 4 | 0 | 0
next(table:3, 'a) => nil | 0 | 0";

/// No field of a metatable is asked.
pub(super) const WITHOUT_METATABLES: &str = "\
table 4
rawset(table:4, '__index, table:1) => table:4 | 0 | 32
rawset(table:4, '__newindex, table:1) => table:4 | 0 | 32
setmetatable(table:3, table:4) => table:3 | 0 | 0
rawget(table:3, 'k) => nil | 0 | 0
unpack(table:3, 1, 2) => nil, nil | 2 | 0
unpack(table:3) =>  | 0 | 0
next(table:3) => nil | 0 | 0
ipairs_step(table:3, 0) =>  | 0 | 0
rawset(table:3, 'k, 1) => table:3 | 0 | 32
rawget(table:3, 'k) => 1 | 0 | 0
rawget(table:1, 'k) => 30 | 0 | 0";

/// Arguments of raw calls that are refused, the first of them first; nil is no key.
pub(super) const REFUSED_RAW: &str = "\
rawget() => fault: bad argument #1 to 'rawget' (table expected, got no value) | 0 | 0
rawget(1, 1) => fault: bad argument #1 to 'rawget' (table expected, got number) | 0 | 0
rawget(x128, 1) => fault: bad argument #1 to 'rawget' (table expected, got string) | 2 | 0
rawget(nil) => fault: bad argument #1 to 'rawget' (table expected, got nil) | 0 | 0
rawget(thread:1) => fault: bad argument #1 to 'rawget' (table expected, got thread) | 0 | 0
rawget(table:1) => fault: bad argument #2 to 'rawget' (value expected, got no value) | 0 | 0
rawset() => fault: bad argument #1 to 'rawset' (table expected, got no value) | 0 | 0
rawset(closure:1) => fault: bad argument #1 to 'rawset' (table expected, got function) | 0 | 0
rawset(table:1) => fault: bad argument #2 to 'rawset' (value expected, got no value) | 0 | 0
rawset(table:1, 'k) => fault: bad argument #3 to 'rawset' (value expected, got no value) | 0 | 0
rawset(table:1, nil) => fault: bad argument #3 to 'rawset' (value expected, got no value) | 0 | 0
rawset(table:1, nil, x64) => fault: table index is nil | 1 | 0
rawset(table:1, nil, nil) => fault: table index is nil | 0 | 0
rawget(table:1, 'k) => 30 | 0 | 0";

/// `next` goes in the order in which keys were first set, past those whose value is nil; a key without an entry has nothing after it.
pub(super) const PAIRS: &str = "\
next(table:3) => nil | 0 | 0
next(table:3, 1) => nil | 0 | 0
next(table:0, nil) => nil | 0 | 0
next(table:1) => 1, 10 | 0 | 0
next(table:1, nil, 1) => 1, 10 | 0 | 0
next(table:1, 1) => 2, 20 | 0 | 0
next(table:1, 2) => 'k, 30 | 0 | 0
next(table:1, 'k) => nil | 0 | 0
next(table:1, '1) => nil | 0 | 0
next(table:1, 9) => nil | 0 | 0
next(table:1, x64) => nil | 1 | 0
rawset(table:1, 1, nil) => table:1 | 0 | 0
next(table:1) => 2, 20 | 0 | 0
next(table:1, 1) => 2, 20 | 0 | 0
rawset(table:1, 2, nil) => table:1 | 0 | 0
next(table:1, 1) => 'k, 30 | 0 | 0
rawset(table:1, 'k, false) => table:1 | 0 | 0
next(table:1, 2) => 'k, false | 0 | 0
rawset(table:1, 'new, 40) => table:1 | 0 | 32
rawset(table:1, 1, 11) => table:1 | 0 | 0
next(table:1) => 1, 11 | 0 | 0
next(table:1, 1) => 'k, false | 0 | 0
next(table:1, 'k) => 'new, 40 | 0 | 0
next(table:1, 'new) => nil | 0 | 0
rawset(table:1, 1, nil) => table:1 | 0 | 0
rawset(table:1, 'k, nil) => table:1 | 0 | 0
rawset(table:1, 'new, nil) => table:1 | 0 | 0
next(table:1) => nil | 0 | 0
next(table:1, 1) => nil | 0 | 0
pairs(table:1) => native:131, table:1, nil | 0 | 0
pairs(table:2, x64) => native:131, table:2, nil | 1 | 0";

/// The step of `ipairs` ends at the first index without a value, and behind the greatest number.
pub(super) const INDEXES: &str = "\
ipairs(table:1) => native:174, table:1, 0 | 0 | 0
ipairs(table:2, 5) => native:174, table:2, 0 | 0 | 0
ipairs_step(table:1, 0) => 1, 10 | 0 | 0
ipairs_step(table:1, 1) => 2, 20 | 0 | 0
ipairs_step(table:1, 2) =>  | 0 | 0
ipairs_step(table:1, '0x1) => 2, 20 | 0 | 0
ipairs_step(table:1, -1) =>  | 0 | 0
ipairs_step(table:1, 99999999999998) =>  | 0 | 0
ipairs_step(table:1, 99999999999999) =>  | 0 | 0
ipairs_step(table:1, -99999999999999) =>  | 0 | 0
ipairs_step(table:3, 0, x64) =>  | 1 | 0
rawset(table:1, 99999999999999, 1) => table:1 | 0 | 32
ipairs_step(table:1, 99999999999998) => 99999999999999, 1 | 0 | 0
rawset(table:1, 3, false) => table:1 | 0 | 32
ipairs_step(table:1, 2) => 3, false | 0 | 0
rawset(table:1, 2, nil) => table:1 | 0 | 0
ipairs_step(table:1, 1) =>  | 0 | 0";

/// Arguments of a traversal that are refused.
pub(super) const REFUSED_TRAVERSAL: &str = "\
next() => fault: bad argument #1 to 'next' (table expected, got no value) | 0 | 0
next(nil, 1) => fault: bad argument #1 to 'next' (table expected, got nil) | 0 | 0
next(x64) => fault: bad argument #1 to 'next' (table expected, got string) | 1 | 0
pairs() => fault: bad argument #1 to 'pairs' (table expected, got no value) | 0 | 0
pairs(socket:1) => fault: bad argument #1 to 'pairs' (table expected, got userdata) | 0 | 0
ipairs() => fault: bad argument #1 to 'ipairs' (table expected, got no value) | 0 | 0
ipairs(reader:1) => fault: bad argument #1 to 'ipairs' (table expected, got function) | 0 | 0
ipairs_step() => fault: bad argument #1 to 'ipairs' (table expected, got no value) | 0 | 0
ipairs_step(true, 'k) => fault: bad argument #1 to 'ipairs' (table expected, got boolean) | 0 | 0
ipairs_step(table:1) => fault: bad argument #2 to 'ipairs' (number expected, got no value) | 0 | 0
ipairs_step(table:1, nil) => fault: bad argument #2 to 'ipairs' (number expected, got nil) | 0 | 0
ipairs_step(table:1, 'k) => fault: bad argument #2 to 'ipairs' (number expected, got string) | 0 | 0";

/// Each value that is unpacked counts a step, nil too; without an end they are those to the first nil.
pub(super) const UNPACKED: &str = "\
unpack(table:1) => 10, 20 | 2 | 0
unpack(table:1, nil, nil, 1) => 10, 20 | 2 | 0
unpack(table:1, 2) => 20 | 1 | 0
unpack(table:1, nil, 1) => 10 | 1 | 0
unpack(table:1, 2, 2) => 20 | 1 | 0
unpack(table:1, 3) =>  | 0 | 0
unpack(table:1, 2, 1) =>  | 0 | 0
unpack(table:1, 2, -2) =>  | 0 | 0
unpack(table:1, -1, 1) => nil, nil, 10 | 3 | 0
unpack(table:1, 0, 3) => nil, 10, 20, nil | 4 | 0
unpack(table:1, '2, ' 0x3 ) => 20, nil | 2 | 0
unpack(table:1, 1, 2, x64) => 10, 20 | 3 | 0
unpack(table:1, 99999999999999, 99999999999999) => nil | 1 | 0
unpack(table:1, -99999999999999, -99999999999998) => nil, nil | 2 | 0
unpack(table:1, 99999999999999, -99999999999999) =>  | 0 | 0
unpack(table:3) =>  | 0 | 0
unpack(table:3, 1, 3) => nil, nil, nil | 3 | 0
rawset(table:3, 2, 'b) => table:3 | 0 | 32
unpack(table:3) =>  | 0 | 0
unpack(table:3, 1, 2) => nil, 'b | 2 | 0
rawset(table:3, 1, false) => table:3 | 0 | 32
unpack(table:3) => false, 'b | 2 | 0
rawset(table:1, 1, nil) => table:1 | 0 | 0
unpack(table:1) =>  | 0 | 0
unpack(table:1, 2) =>  | 0 | 0
rawset(table:1, 1, 10) => table:1 | 0 | 0
rawset(table:1, 3, x64) => table:1 | 1 | 32
unpack(table:1) => 10, 20, x64 | 3 | 0
rawset(table:1, 2, nil) => table:1 | 0 | 0
unpack(table:1) => 10 | 1 | 0
unpack(table:1, 1, 3) => 10, nil, x64 | 3 | 0";

/// Arguments of `unpack` that are refused, the first of them first.
pub(super) const REFUSED_UNPACK: &str = "\
unpack() => fault: bad argument #1 to 'unpack' (table expected, got no value) | 0 | 0
unpack(nil) => fault: bad argument #1 to 'unpack' (table expected, got nil) | 0 | 0
unpack(x64, 'k, 'k) => fault: bad argument #1 to 'unpack' (table expected, got string) | 1 | 0
unpack(table:1, 'k, 'k) => fault: bad argument #2 to 'unpack' (number expected, got string) | 0 | 0
unpack(table:1, 'x) => fault: bad argument #2 to 'unpack' (number expected, got string) | 0 | 0
unpack(table:1, false) => fault: bad argument #2 to 'unpack' (number expected, got boolean) | 0 | 0
unpack(table:1, 1, table:1) => fault: bad argument #3 to 'unpack' (number expected, got table) | 0 | 0
unpack(table:1, nil, ') => fault: bad argument #3 to 'unpack' (number expected, got string) | 0 | 0
unpack(table:1, 1, '100000000000000) => fault: bad argument #3 to 'unpack' (number expected, got string) | 0 | 0";
