//! Tests of calls where the units or the steps are at their limit, or the tables are frozen.

/// Calls where no unit is left, and where just enough are left or one is missing. A refused call counts what it took and not what
/// it would have made.
pub(super) const FULL: &str = "\
leave 0
type(1) => fault: not enough memory (storage limit) | 0 | 0
type(x63) => fault: not enough memory (storage limit) | 0 | 0
type(x64) => fault: not enough memory (storage limit) | 1 | 0
module_name(1) => fault: not enough memory (storage limit) | 0 | 0
module_name('a) => 'a | 0 | 0
rawset(table:1, 'new, 1) => fault: not enough memory (storage limit) | 0 | 0
rawget(table:1, 'new) => nil | 0 | 0
rawset(table:1, 'new, nil) => table:1 | 0 | 0
rawset(table:1, nil, 1) => fault: table index is nil | 0 | 0
rawset(table:1, 'k, 1) => table:1 | 0 | 0
rawset(table:1, 'k, nil) => table:1 | 0 | 0
rawset(table:1, 'k, 2) => table:1 | 0 | 0
rawget(table:1, 'k) => 2 | 0 | 0
setmetatable(table:1, table:2) => table:1 | 0 | 0
unpack(table:1, 1, 3) => 10, 20, nil | 3 | 0
select('#, 1) => 1 | 0 | 0
tonumber('10) => 10 | 0 | 0";

pub(super) const ALMOST_FULL: &str = "\
leave 31
rawset(table:1, 'new, 1) => fault: not enough memory (storage limit) | 0 | 0
type(closure:1) => 'function | 0 | 24
type(1) => fault: not enough memory (storage limit) | 0 | 0";

pub(super) const JUST_ENOUGH: &str = "\
leave 49
rawset(table:1, 'new, 1) => table:1 | 0 | 32
module_name(10) => fault: not enough memory (storage limit) | 0 | 0
module_name(1) => '1 | 0 | 17
rawset(table:1, 'newer, 1) => fault: not enough memory (storage limit) | 0 | 0";

/// Frozen tables are read and not written, whatever would be written; tables that are made later are written.
pub(super) const FROZEN: &str = "\
freeze
rawset(table:1, 'k, 1) => fault: attempt to modify a frozen table | 0 | 0
rawset(table:1, 'k, 30) => fault: attempt to modify a frozen table | 0 | 0
rawset(table:1, 'new, nil) => fault: attempt to modify a frozen table | 0 | 0
rawset(table:1, x64, x64) => fault: attempt to modify a frozen table | 2 | 0
rawset(table:1, nil, 1) => fault: table index is nil | 0 | 0
rawset(table:0, 1, 1) => fault: attempt to modify a frozen table | 0 | 0
setmetatable(table:1, nil) => fault: attempt to modify a frozen table | 0 | 0
setmetatable(table:1, table:2) => fault: attempt to modify a frozen table | 0 | 0
setmetatable(table:2, nil) => fault: cannot change a protected metatable | 0 | 0
rawget(table:1, 'k) => 30 | 0 | 0
getmetatable(table:1) => nil | 0 | 0
getmetatable(table:2) => 'locked | 0 | 0
next(table:1, 2) => 'k, 30 | 0 | 0
unpack(table:1) => 10, 20 | 2 | 0
ipairs_step(table:1, 0) => 1, 10 | 0 | 0
table 4
rawset(table:4, 1, 1) => table:4 | 0 | 32
setmetatable(table:4, table:1) => table:4 | 0 | 0
rawset(table:4, 1, 2) => table:4 | 0 | 0
rawget(table:4, 1) => 2 | 0 | 0
leave 0
rawset(table:1, 'new, 1) => fault: attempt to modify a frozen table | 0 | 0
rawset(table:4, 'new, 1) => fault: not enough memory (storage limit) | 0 | 0";

/// Where the steps aren't enough for what a call counts, it spends them, also where it would be refused; and where they are just
/// enough, it doesn't.
pub(super) const SPENT: &str = "\
unpack(table:1, 1, 99999999999999) => spent
type(1) => spent
clear
unpack(table:1, -99999999999999, 99999999999999) => spent
clear
unpack(table:1, 1, 1000000) => spent
clear
count 999997
unpack(table:1, 1, 1) => 10 | 1 | 0
unpack(table:1, 2, 1) =>  | 0 | 0
unpack(table:1, 1, 1) => 10 | 1 | 0
rawget(table:1, 1) => 10 | 0 | 0
rawget(table:1, x63) => nil | 0 | 0
unpack(table:1, 1, 1) => spent
clear
count 999997
unpack(table:1, 1, 3) => spent
clear
count 999998
unpack(table:1, 1, 2) => spent
clear
count 999998
unpack(table:1, 1, 99999999999999) => spent
clear
count 999999
type(x57) => 'string | 0 | 22
type(x58) => spent
clear
count 999999
rawget(x64) => spent
clear
count 999999
140(x64) => spent
clear
count 999998
rawget(x64) => fault: bad argument #1 to 'rawget' (table expected, got string) | 1 | 0";
