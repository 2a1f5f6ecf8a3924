//! Each variable of a request; the values were worked out by hand from the documentation of nginx.

pub(super) const HEAD: &str =
    "GET /a%20b/../c?X=1&y=%41&Y&z&Z=2 HTTP/1.1\r\nHost: H:8\r\nA-b: 1\r\nA-B: 2\r\n\
Content-Length: 5\r\nContent-Type: t\r\nContent-Type: u\r\n\r\n";

/// Variables have names.
pub(super) const NAMES: &str = "\
var uri => [/c]
var request_uri => [/a%20b/../c?X=1&y=%41&Y&z&Z=2]
var args => [X=1&y=%41&Y&z&Z=2]
var query_string => [X=1&y=%41&Y&z&Z=2]
var is_args => [?]
var request_method => [GET]
var scheme => [http]
var server_port => [80]
var server_protocol => [HTTP/1.1]
var remote_addr => [127.0.0.1]
var content_type => [t]
var content_length => [5]
var status => [200]
var arg_x, var arg_X, var arg_Y, var arg_z => [1][1][%41][2]
var arg_c, var arg_ => [nil][nil]
var http_a_b, var http_A_B, var http_a-b => [1][1][1]
var http_host, var http_content_length, var http_content_type => [H:8][5][t]
var http_c, var http_ => [nil][nil]
var nope, var URI, var uri_, var ur, var , var ARG_x => [nil][nil][nil][nil][nil][nil]";

/// What is not there has no value.
pub(super) const ABSENT: &str = "\
var args, var query_string, var is_args => [nil][nil][]
var host => []
var server_protocol => [HTTP/1.0]
var content_type, var content_length => [nil][nil]
var arg_x => [nil]
status 404, var status => [ok][404]
method 16, var request_method => [ok][PUT]
query =5&x&x=1, var arg_, var arg_x => [][nil][1]
field Content_Type=a, var content_type, var http_content_type => [ok][nil][nil]
field content-type=a|b, var content_type => [ok][a]";

pub(super) const POST: &str = "POST /? HTTP/1.0\r\n\r\n";

/// The host is that of the target.
pub(super) const ABSOLUTE: &str = "GET http://H:2/a?b HTTP/1.1\r\nHost: c\r\n\r\n";

pub(super) const HOST: &str =
    "var host, var http_host, var uri, var request_uri, var args => [h][c][/a][http://H:2/a?b][b]";
