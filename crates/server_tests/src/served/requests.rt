//! Requests that are answered: in turn, of both versions, kept and closed (TURNS, of HI), with and without a body of the reply (SAID, of SAYS).

/// Requests are answered in turn; connections are kept by version and header.
pub(super) const TURNS: &str = r#"moment 1000
arrive c1
bytes c1 "GET / HTTP/1.0\r\n\r\n"
> put c1 "HTTP/1.1 200 OK\r\nServer: resty\r\nDate: Thu, 01 Jan 1970 00:00:01 GMT\r\nContent-Type: text/plain\r\nConnection: close\r\n\r\nhi\n"
> close c1
stop

stop

arrive c1
bytes c1 "<get><get>"
> put c1 "<keep><hi>"
> put c1 "<keep><hi>"
bytes c1 "GET /"
ended c1
> close c1
stop

arrive c1
bytes c1 "<get>"
> put c1 "<keep><hi>"
bytes c1 "\r\n<get>"
> put c1 "<keep><hi>"
stop
> close c1

arrive c1
arrive c2
bytes c1 "GET / HTTP/1.1\r\n"
bytes c2 "<get>"
> put c2 "<keep><hi>"
bytes c1 "Host: a\r\n\r\n"
> put c1 "<keep><hi>"
stop
> close c1
> close c2

arrive c1
bytes c1 "GET / HTTP/1.0\r\nConnection: keep-alive\r\n\r\n"
> put c1 "<close>hi\n"
> close c1
stop

arrive c1
bytes c1 "GET / HTTP/1.1\r\nHost: a\r\nConnection: close\r\n\r\n<get>"
> put c1 "<last><hi>"
> close c1
stop

arrive c1
bytes c1 "HEAD / HTTP/1.1\r\nHost: a\r\n\r\n<get>"
> put c1 "HTTP/1.1 200 OK\r\nServer: resty\r\nDate: Thu, 01 Jan 1970 00:00:00 GMT\r\nContent-Type: text/plain\r\nConnection: keep-alive\r\n\r\n"
> put c1 "<keep><hi>"
stop
> close c1

arrive c1
bytes c1 "HEAD / HTTP/1.0\r\n\r\n"
> put c1 "<close>"
> close c1
stop

arrive c1
bytes c1 "GET http://b:8080/a/../?x=1 HTTP/1.1\r\nHost: a\r\n\r\n"
> put c1 "<keep><hi>"
stop
> close c1"#;

/// A block that says nothing, one that says twice, and one that says an empty text; and a type of replies.
pub(super) const SAYS: &str = r#"http { server {
location /none { content_by_lua_block { } }
location /two { content_by_lua_block { ngx.say("a") ngx.say("b c") } }
location /empty { default_type application/x; content_by_lua_block { ngx.say("") } }
} }"#;

/// Each text is a chunk.
pub(super) const SAID: &str = r#"arrive c1
bytes c1 "GET /none HTTP/1.1\r\nHost: a\r\n\r\n"
> put c1 "<keep>0\r\n\r\n"
bytes c1 "GET /two HTTP/1.1\r\nHost: a\r\n\r\n"
> put c1 "<keep>2\r\na\n\r\n4\r\nb c\n\r\n0\r\n\r\n"
bytes c1 "GET /empty HTTP/1.0\r\n\r\n"
> put c1 "HTTP/1.1 200 OK\r\nServer: resty\r\nDate: Thu, 01 Jan 1970 00:00:00 GMT\r\nContent-Type: application/x\r\nConnection: close\r\n\r\n\n"
> close c1
arrive c2
bytes c2 "GET /two HTTP/1.0\r\n\r\n"
> put c2 "<close>a\nb c\n"
> close c2
stop"#;
