//! Replies that the server makes itself, byte for byte (STATUSES of HI, FOUND of SMALL), and replies that are long (PIECES of LONG).

/// A head that is refused gets the reply of its status; one that doesn't end is refused at its limit.
pub(super) const STATUSES: &str = r#"arrive c1
bytes c1 "POST / HTTP/1.1\r\nHost: a\r\nContent-Length: 1\r\nTransfer-Encoding: chunked\r\n\r\n"
> put c1 "HTTP/1.1 400 Bad Request\r\nServer: resty\r\nDate: Thu, 01 Jan 1970 00:00:00 GMT\r\n
  Content-Type: text/plain\r\nContent-Length: 16\r\nConnection: close\r\n\r\n400 Bad Request\n"
> close c1
stop

arrive c1
bytes c1 "GET / HTTP/1.1\r\n\r\n"
> put c1 "<400>"
> close c1
stop

arrive c1
bytes c1 "GET / HTTP/1.1\r\nHost: a b\r\n\r\n"
> put c1 "<400>"
> close c1
arrive c2
bytes c2 "GET / HTTP/1.1\r\nHost: a,b\r\n\r\n"
> put c2 "<400>"
> close c2
arrive c3
bytes c3 "GET / HTTP/1.1\r\nHost: a@b\r\n\r\n"
> put c3 "<400>"
> close c3
arrive c4
bytes c4 "GET / HTTP/1.1\r\nHost: a/b\r\n\r\n"
> put c4 "<400>"
> close c4
arrive c5
bytes c5 "GET / HTTP/1.1\r\nHost: a:b\r\n\r\n"
> put c5 "<400>"
> close c5
arrive c6
bytes c6 "GET / HTTP/1.1\r\nHost: a:1:2\r\n\r\n"
> put c6 "<400>"
> close c6
arrive c7
bytes c7 "GET / HTTP/1.1\r\nHost: [::1\r\n\r\n"
> put c7 "<400>"
> close c7
arrive c8
bytes c8 "GET / HTTP/1.1\r\nHost: [::1]a\r\n\r\n"
> put c8 "<400>"
> close c8
arrive c9
bytes c9 "GET / HTTP/1.1\r\nHost: [::1]:a\r\n\r\n"
> put c9 "<400>"
> close c9
arrive c10
bytes c10 "GET / HTTP/1.1\r\nHost: \xe9\r\n\r\n"
> put c10 "<400>"
> close c10
stop

arrive c1
bytes c1 "GET / HTTP/1.1\r\nHost: \r\n\r\n"
> put c1 "<keep><hi>"
bytes c1 "GET / HTTP/1.1\r\nHost: a.b-c_d~%41:8080\r\n\r\n"
> put c1 "<keep><hi>"
bytes c1 "GET / HTTP/1.1\r\nHost: a:\r\n\r\n"
> put c1 "<keep><hi>"
bytes c1 "GET / HTTP/1.1\r\nHost: [::1]\r\n\r\n"
> put c1 "<keep><hi>"
bytes c1 "GET / HTTP/1.1\r\nHost: [::1]:80\r\n\r\n"
> put c1 "<keep><hi>"
stop
> close c1

arrive c1
bytes c1 "GET /.. HTTP/1.1\r\nHost: a\r\n\r\n"
> put c1 "<400>"
> close c1
stop

arrive c1
bytes c1 "<get>X Y\r\n\r\n"
> put c1 "<keep><hi>"
> put c1 "<400>"
> close c1
stop

arrive c1
bytes c1 "<post>Transfer-Encoding: gzip, chunked\r\n\r\n"
> put c1 "HTTP/1.1 501 Not Implemented\r\nServer: resty\r\nDate: Thu, 01 Jan 1970 00:00:00 GMT\r\n
  Content-Type: text/plain\r\nContent-Length: 20\r\nConnection: close\r\n\r\n501 Not Implemented\n"
> close c1
stop

arrive c1
bytes c1 "GET / HTTP/2.0\r\n\r\n"
> put c1 "HTTP/1.1 505 HTTP Version Not Supported\r\nServer: resty\r\nDate: Thu, 01 Jan 1970 00:00:00 GMT\r\n
  Content-Type: text/plain\r\nContent-Length: 31\r\nConnection: close\r\n\r\n505 HTTP Version Not Supported\n"
> close c1
stop

arrive c1
bytes c1 "<16k>"
> put c1 "<431>"
> close c1
stop

arrive c1
bytes c1 "<8k><4k><2k><1k><512><256><128><64>aaaaaaaaaaaaaaaaaaaaaaaaaaaaaaaaaaaaaaaaaaaaaaaaaaaaaaaaaaaaaaa"
stop
> close c1"#;

/// A site whose `/a` takes bodies of at most two bytes, and has a type of its own; there is nothing else.
pub(super) const SMALL: &str = r#"http { server {
location /a { client_max_body_size 2; default_type application/x; content_by_lua_block { ngx.say("a") } }
location /a/in { internal; default_type application/x; content_by_lua_block { ngx.say("in") } }
} }"#;

/// What isn't there, and what is too large, is refused.
pub(super) const FOUND: &str = r#"arrive c1
bytes c1 "GET /b HTTP/1.1\r\nHost: a\r\n\r\n"
> put c1 "HTTP/1.1 404 Not Found\r\nServer: resty\r\nDate: Thu, 01 Jan 1970 00:00:00 GMT\r\n
  Content-Type: text/plain\r\nContent-Length: 14\r\nConnection: keep-alive\r\n\r\n404 Not Found\n"
bytes c1 "GET /b HTTP/1.0\r\nConnection: keep-alive\r\n\r\n"
> put c1 "<404>"
bytes c1 "HEAD /b HTTP/1.1\r\nHost: a\r\n\r\n"
> put c1 "HTTP/1.1 404 Not Found\r\nServer: resty\r\nDate: Thu, 01 Jan 1970 00:00:00 GMT\r\n
  Content-Type: text/plain\r\nContent-Length: 14\r\nConnection: keep-alive\r\n\r\n"
bytes c1 "GET /a/in HTTP/1.1\r\nHost: a\r\n\r\n"
> put c1 "<404>"
bytes c1 "POST /a HTTP/1.1\r\nHost: a\r\nContent-Length: 3\r\n\r\nabc"
> put c1 "HTTP/1.1 413 Content Too Large\r\nServer: resty\r\nDate: Thu, 01 Jan 1970 00:00:00 GMT\r\n
  Content-Type: text/plain\r\nContent-Length: 22\r\nConnection: close\r\n\r\n413 Content Too Large\n"
> close c1
arrive c2
bytes c2 "POST /a HTTP/1.0\r\nContent-Length: 2\r\n\r\nab"
> put c2 "HTTP/1.1 200 OK\r\nServer: resty\r\nDate: Thu, 01 Jan 1970 00:00:00 GMT\r\nContent-Type: application/x\r\nConnection: close\r\n\r\na\n"
> close c2
stop"#;

/// A site that says texts of as many bytes as the path says; the head before them has 116.
pub(super) const LONG: &str = r#"http { server {
location /16266 { content_by_lua_block { ngx.say("<8k><4k><2k><1k><512><256><128>aaaaaaaaaa") } }
location /16267 { content_by_lua_block { ngx.say("<8k><4k><2k><1k><512><256><128>aaaaaaaaaaa") } }
location /16268 { content_by_lua_block { ngx.say("<8k><4k><2k><1k><512><256><128>aaaaaaaaaaaa") } }
location /32650 { content_by_lua_block { ngx.say("<16k><8k><4k><2k><1k><512><256><128>aaaaaaaaaa") } }
location /32651 { content_by_lua_block { ngx.say("<16k><8k><4k><2k><1k><512><256><128>aaaaaaaaaaa") } }
location /32652 { content_by_lua_block { ngx.say("<16k><8k><4k><2k><1k><512><256><128>aaaaaaaaaaaa") } }
} }"#;

/// Long replies are taken up to each multiple of 16,384 bytes.
pub(super) const PIECES: &str = r#"arrive c1
bytes c1 "GET /16266 HTTP/1.0\r\n\r\n"
> put c1 "<close><8k><4k><2k><1k><512><256><128>aaaaaaaaaa\n"
> close c1
stop

arrive c1
bytes c1 "GET /16267 HTTP/1.0\r\n\r\n"
> put c1 "<close><8k><4k><2k><1k><512><256><128>aaaaaaaaaaa\n"
> close c1
stop

arrive c1
bytes c1 "GET /16268 HTTP/1.0\r\n\r\n"
> put c1 "<close><8k><4k><2k><1k><512><256><128>aaaaaaaaaaaa"
> put c1 "\n"
> close c1
stop

arrive c1
bytes c1 "GET /32650 HTTP/1.0\r\n\r\n"
> put c1 "<close><8k><4k><2k><1k><512><256><128>aaaaaaaaaaaa"
> put c1 "<8k><4k><2k><1k><512><256><128><64>aaaaaaaaaaaaaaaaaaaaaaaaaaaaaaaaaaaaaaaaaaaaaaaaaaaaaaaaaaaaaa\n"
> close c1
stop

arrive c1
bytes c1 "GET /32651 HTTP/1.0\r\n\r\n"
> put c1 "<close><8k><4k><2k><1k><512><256><128>aaaaaaaaaaaa"
> put c1 "<8k><4k><2k><1k><512><256><128><64>aaaaaaaaaaaaaaaaaaaaaaaaaaaaaaaaaaaaaaaaaaaaaaaaaaaaaaaaaaaaaaa\n"
> close c1
stop

arrive c1
bytes c1 "GET /32652 HTTP/1.0\r\n\r\n"
> put c1 "<close><8k><4k><2k><1k><512><256><128>aaaaaaaaaaaa"
> put c1 "<16k>"
> put c1 "\n"
> close c1
stop"#;
