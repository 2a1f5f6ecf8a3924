//! Clients that end, break or take few bytes (ENDS, of HI), and connections that are too many (TURNED of ONE, STOPPED of THREE).

/// A client that ends gets what it asked for; a connection that breaks is hung up; a write that would wait goes on when the client is ready.
pub(super) const ENDS: &str = r#"arrive c1
bytes c1 "GET / HT"
ended c1
> close c1
stop

arrive c1
ended c1
> close c1
stop

arrive c1
bytes c1 "<get>"
> put c1 "<keep><hi>"
ended c1
> close c1
stop

arrive c1
bytes c1 "<post>Content-Length: 3\r\n\r\na"
> put c1 "<keep><hi>"
ended c1
> close c1
stop

arrive c1
< room c1 10
bytes c1 "GET / HTTP/1.0\r\n\r\n"
> put c1 "HTTP/1.1 2"
> later c1
ended c1
< room c1 all
ready c1
> put c1 "00 OK\r\nServer: resty\r\nDate: Thu, 01 Jan 1970 00:00:00 GMT\r\nContent-Type: text/plain\r\nConnection: close\r\n\r\nhi\n"
> close c1
stop

arrive c1
< room c1 10
bytes c1 "<get><get>"
> put c1 "HTTP/1.1 2"
> later c1
ended c1
< room c1 all
ready c1
> put c1 "00 OK\r\nServer: resty\r\nDate: Thu, 01 Jan 1970 00:00:00 GMT\r\n
  Content-Type: text/plain\r\nTransfer-Encoding: chunked\r\nConnection: keep-alive\r\n\r\n<hi>"
> put c1 "<keep><hi>"
> close c1
stop

arrive c1
broken c1
> close c1
stop

arrive c1
< fail put c1
bytes c1 "GET / HTTP/1.0\r\n\r\n"
> lost c1
> close c1
stop

arrive c1
< room c1 10
bytes c1 "<get>"
> put c1 "HTTP/1.1 2"
> later c1
broken c1
> close c1
stop

arrive c1
bytes c1 "<post>Content-Length: 3\r\n\r\n"
> put c1 "<keep><hi>"
broken c1
> close c1
< bytes c1 "abc"
< ended c1
stop

arrive c1
< room c1 0
bytes c1 "<get><get>"
> later c1
ready c1
> later c1
< room c1 all
ready c1
> put c1 "<keep><hi>"
> put c1 "<keep><hi>"
ready c1
stop
> close c1

arrive c1
arrive c2
< room c1 3
bytes c1 "GET / HTTP/1.0\r\n\r\n"
> put c1 "HTT"
> later c1
bytes c2 "GET / HTTP/1.0\r\n\r\n"
> put c2 "<close>hi\n"
> close c2
stop
> close c1"#;

/// A site that takes one connection at a time.
pub(super) const ONE: &str =
    r#"events { worker_connections 1; } http { server { location / { content_by_lua_block { ngx.say("hi") } } } }"#;

pub(super) const TURNED: &str = r#"arrive c1
arrive c2
> turned c2
> close c2
stop
> close c1

arrive c1
bytes c1 "GET / HTTP/1.0\r\n\r\n"
> put c1 "<close>hi\n"
> close c1
arrive c2
arrive c3
> turned c3
> close c3
< bytes c3 "<get>"
bytes c2 "<get>"
> put c2 "<keep><hi>"
stop
> close c2"#;

/// A site that takes three connections at a time.
pub(super) const THREE: &str =
    r#"events { worker_connections 3; } http { server { location / { content_by_lua_block { ngx.say("hi") } } } }"#;

/// Stop closes those that are open in the order in which they came.
pub(super) const STOPPED: &str = r#"arrive c1
arrive c2
arrive c3
arrive c4
> turned c4
> close c4
bytes c1 "GET / HTTP/1.0\r\n\r\n"
> put c1 "<close>hi\n"
> close c1
arrive c5
stop
> close c2
> close c3
> close c5"#;
