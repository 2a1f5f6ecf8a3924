//! Tests of what a program asks of a request and changes in it; the answers were worked out by hand from RFC 9110 and the
//! manual of lua-nginx-module.

pub(super) const HEAD: &str =
    "GET /p?a=1&b HTTP/1.1\r\nHost: h\r\nX-A: 1\r\nx_a: 2\r\nx-a: 3\r\n\r\n";

/// Fields of requests are set as written.
pub(super) const SETS: &str = "\
field B=1, fields => [ok][Host: h;X-A: 1;x_a: 2;x-a: 3;B: 1;]
field X-a=4|, fields => [ok][Host: h;x_a: 2;X-a: 4;X-a: ;]
field X_A=5, fields => [ok][Host: h;X-A: 1;x-a: 3;X_A: 5;]
field x-A, fields => [ok][Host: h;x_a: 2;]
field y, fields => [ok][Host: h;X-A: 1;x_a: 2;x-a: 3;]
field B=1, field b=2, field C=3, field B=4, fields => [ok][ok][ok][ok][Host: h;X-A: 1;x_a: 2;x-a: 3;C: 3;B: 4;]
field x-a=a b\t\u{e9}, fields => [ok][Host: h;x_a: 2;x-a: a b\t\u{e9};]
field Host, field X-A, field x_a, fields, list 0 => [ok][ok][ok][][]";

pub(super) const REFUSED: &str = "\
field =1, fields => [bad request][Host: h;X-A: 1;x_a: 2;x-a: 3;]
field a b=1 => [bad request]
field a:=1 => [bad request]
field a\u{e9}=1 => [bad request]
field a\x7f => [bad request]
field x-a=1|\r, fields => [bad request][Host: h;X-A: 1;x_a: 2;x-a: 3;]
field x-a=a\x7f => [bad request]
field x-a=\x01 => [bad request]";

/// A request has a thousand fields at most.
pub(super) const MANY: &str = "\
field b*999, count => [ok][1000]
field b*1000, count => [bad request][2]
field A, field B, field c*1000, count, field C*1000, field d=1, count => [ok][ok][ok][1000][ok][bad request][1000]
field b*999, field b, field b=1, count => [ok][ok][ok][2]";

/// Fields are listed with lower names.
pub(super) const LISTED: &str = "\
list 0 => [host: h;x-a: 1;x_a: 2;x-a: 3;]
list 2 => [host: h;x-a: 1;]
list 9 => [host: h;x-a: 1;x_a: 2;x-a: 3;]
field X-B=V, list 0 => [ok][host: h;x-a: 1;x_a: 2;x-a: 3;x-b: V;]";

/// Methods have numbers.
pub(super) const METHODS: &str = "\
method 2, var request_method => [ok][GET]
method 4, var request_method => [ok][HEAD]
method 8, var request_method => [ok][POST]
method 16, var request_method => [ok][PUT]
method 32, var request_method => [ok][DELETE]
method 1, method -2, method 0, method 6, method 64, var request_method => \
[bad request][bad request][bad request][bad request][bad request][OPTIONS]";

/// Arguments are read and set.
pub(super) const ARGUMENTS: &str = "\
args 0 => [a=1;b;]
args 1 => [a=1;]
form a&=1&b=%41+c => [a;b=A c;]
query c=1&d&e, args 0, args 2, var args => [][c=1;d;e;][c=1;d;][c=1&d&e]
query , args 0, var args => [][][nil]
path no?path, var uri, var request_uri, args 0 => [][no?path][/p?a=1&b][a=1;b;]";

/// A request with two fields.
pub(super) const TWO: &str = "GET / HTTP/1.0\r\nA: 1\r\nB: 1\r\n\r\n";

pub(super) const OPTIONS: &str = "OPTIONS / HTTP/1.0\r\n\r\n";
