//! Tests of what a program says of the reply.

pub(super) const HEAD: &str = "GET / HTTP/1.0\r\n\r\n";

/// Fields of replies are set in any spelling.
pub(super) const SETS: &str = "\
set A=1, set B=2, lines => [set][set][A: 1;B: 2;]
set A=1, set B=2, set a=3|4, lines => [set][set][set][B: 2;a: 3;a: 4;]
set x_y=1, lines, set X-Y=2, lines => [set][x-y: 1;][set][X-Y: 2;]
set A=1, set B=2, set a, lines => [set][set][set][B: 2;]
set A=1, set none, lines => [set][set][A: 1;]
set X_A=1|2, read X-A, read x_a, read X_A, read x-b => [set][1;2;][1;2;][1;2;][]
set Content-Length=007, set content_length, lines => [set][set][]
set A=1, sent, set A=2, set Date, set =1, set A=\x01, lines => [set][][too late][too late][too late][too late][A: 1;]";

pub(super) const REFUSED: &str = "\
set Connection=close, set date, set transfer_encoding=x => [bad request][bad request][bad request]
set B=2, set a:=1, set B=1|a\r, set =1, lines => [set][bad request][bad request][bad request][B: 2;]
set content_length=, set Content-Length=1|2, set Content-Length=x => [bad request][bad request][bad request]
set Content-Length=1000000000000000, set Content-Length=999999999999999 => [bad request][set]
set Content-Length=3, set Content-Length=+4, lines => [set][bad request][Content-Length: 3;]";

/// A reply has a thousand fields at most.
pub(super) const MANY: &str = "\
set A=1, set B*999, set C=1 => [set][set][bad request]
set A=1, set B*1000, lines => [set][bad request][A: 1;]
set B*1000, set b*1000, set a=1, set b, set a=1, lines => [set][set][bad request][set][set][a: 1;]";

/// Statuses are set before the head.
pub(super) const STATUSES: &str = "\
status 201, var status => [ok][201]
status 200, status 599, var status => [ok][ok][599]
status 199, status 600, status -404, status 65736, var status => [bad request][bad request][bad request][bad request][200]
status 404, sent, status 201, status 600, var status => [ok][][ok][bad request][404]";

/// Output is counted.
pub(super) const PRINTS: &str = "\
given, print 3, given, print 0, given => [0][took][3][took][3]
print 4194304, print 0, print 1, given => [took][took][over limit][4194304]
print 4194305, given, print 4194302, print 3, print 2, given => [over limit][0][took][over limit][took][4194304]
print 2, eof, print 1, print 0, print 4194305, given => [took][][seen eof][seen eof][seen eof][2]";
