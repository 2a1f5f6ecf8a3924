//! Tests of the heads of replies: the lines but the date.

/// Requests of 1.0 and of 1.1, and one that asks for a head alone.
pub(super) const OLD: &str = "GET / HTTP/1.0\r\n\r\n";

pub(super) const NEW: &str = "GET / HTTP/1.1\r\nHost: a\r\n\r\n";

pub(super) const ASKS_HEAD: &str = "HEAD / HTTP/1.0\r\n\r\n";

/// Heads of handlers are written.
pub(super) const HANDLERS_OLD: &str = "\
head close text/plain => [HTTP/1.1 200 OK|Server: resty|Content-Type: text/plain|Connection: close||]
set X_A=1, head keep => [set][HTTP/1.1 200 OK|Server: resty|Connection: close|X-A: 1||]
set Content-Length=007, head keep => [set][HTTP/1.1 200 OK|Server: resty|Content-Length: 7|Connection: keep-alive||]
status 201, set server=r, set content_type=a, head close b => [ok][set][set][HTTP/1.1 201 Created|Server: r|Content-Type: a|Connection: close||]
set Server=r|s, set A=1, head close => [set][set][HTTP/1.1 200 OK|Server: s|Connection: close|A: 1||]";

pub(super) const HANDLERS_NEW: &str = "\
head keep b => [HTTP/1.1 200 OK|Server: resty|Content-Type: b|Transfer-Encoding: chunked|Connection: keep-alive||]
set Content-Length=3, head close b => [set][HTTP/1.1 200 OK|Server: resty|Content-Type: b|Content-Length: 3|Connection: close||]
status 204, set B=1, set A=2, set b=3, head keep => [ok][set][set][set][HTTP/1.1 204 No Content|Server: resty|Connection: keep-alive|A: 2|b: 3||]
status 500, set Content-Type=, head keep b => \
[ok][set][HTTP/1.1 500 Internal Server Error|Server: resty|Transfer-Encoding: chunked|Connection: keep-alive||]";

pub(super) const HANDLERS_HEAD: &str = "\
head keep b => [HTTP/1.1 200 OK|Server: resty|Content-Type: b|Connection: keep-alive||]";

/// Heads of built in replies are written.
pub(super) const BUILT_IN_OLD: &str = "\
status 404, built-in close 14 => [ok][HTTP/1.1 404 Not Found|Server: resty|Content-Type: text/plain|Content-Length: 14|Connection: close||]
status 302, set Location=/b, built-in keep 10 => \
[ok][set][HTTP/1.1 302 Found|Server: resty|Content-Type: text/plain|Content-Length: 10|Connection: keep-alive|Location: /b||]";

pub(super) const BUILT_IN_NEW: &str = "\
status 404, set Content-Type=a, set Content-Length=3, set Server=s, set X-A=1, built-in keep 14 => \
[ok][set][set][set][set][HTTP/1.1 404 Not Found|Server: s|Content-Type: text/plain|Content-Length: 14|Connection: keep-alive|X-A: 1||]
status 304, built-in keep 17 => [ok][HTTP/1.1 304 Not Modified|Server: resty|Content-Type: text/plain|Content-Length: 17|Connection: keep-alive||]";

/// The connection closes after some built in replies.
pub(super) const CONNECTIONS: &str = "\
status 400, connection, status 413, connection, status 431, connection => [ok][close][ok][close][ok][close]
status 500, connection, status 501, connection, status 505, connection => [ok][close][ok][close][ok][close]
status 401, connection, status 403, connection, status 404, connection => [ok][keep-alive][ok][keep-alive][ok][keep-alive]
status 408, connection, status 502, connection, status 503, connection => [ok][keep-alive][ok][keep-alive][ok][keep-alive]";
