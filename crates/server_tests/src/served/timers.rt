//! Timers of connections, each one millisecond before it runs out, and at its moment: those by default (HEADERS, of HI), and a site's own (OWN, of TIMES).

/// A head has its time, a kept connection, each piece of a body, and a client its time to take bytes.
pub(super) const HEADERS: &str = r#"arrive c1
moment 59999
moment 60000
> close c1
stop

moment 5000
arrive c1
moment 30000
bytes c1 "GET / HTTP"
moment 64999
moment 65000
> close c1
stop

arrive c1
bytes c1 "<get>"
> put c1 "<keep><hi>"
moment 1000
bytes c1 "G"
moment 60999
moment 61000
> close c1
stop

arrive c1
bytes c1 "<get>GE"
> put c1 "<keep><hi>"
moment 59999
moment 60000
> close c1
stop

arrive c1
bytes c1 "<get>"
> put c1 "<keep><hi>"
moment 74999
moment 75000
> close c1
stop

arrive c1
bytes c1 "<get>"
> put c1 "<keep><hi>"
moment 74999
bytes c1 "G"
moment 134998
moment 134999
> close c1
stop

arrive c1
bytes c1 "<post>Content-Length: 3\r\n\r\n"
> put c1 "<keep><hi>"
moment 59999
moment 60000
> close c1
stop

arrive c1
bytes c1 "<post>Content-Length: 3\r\n\r\n"
> put c1 "<keep><hi>"
moment 59999
bytes c1 "a"
moment 119998
moment 119999
> close c1
stop

arrive c1
< room c1 0
bytes c1 "GET / HTTP/1.0\r\n\r\n"
> later c1
moment 59999
moment 60000
> close c1
stop

arrive c1
< room c1 10
bytes c1 "GET / HTTP/1.0\r\n\r\n"
> put c1 "HTTP/1.1 2"
> later c1
moment 59999
< room c1 5
ready c1
> put c1 "00 OK"
> later c1
moment 119998
moment 119999
> close c1
stop"#;

/// A site with times of its own: those of a head are of the default server, the others of the location.
pub(super) const TIMES: &str = r#"http { client_header_timeout 1; server {
location / { keepalive_timeout 2; client_body_timeout 3000ms; send_timeout 4; content_by_lua_block { ngx.say("hi") } }
location /last { keepalive_timeout 0; content_by_lua_block { ngx.say("hi") } }
} server { client_header_timeout 5; } }"#;

pub(super) const OWN: &str = r#"arrive c1
moment 999
moment 1000
> close c1
stop

arrive c1
bytes c1 "<get>"
> put c1 "<keep><hi>"
moment 1999
moment 2000
> close c1
stop

arrive c1
bytes c1 "<post>Content-Length: 3\r\n\r\n"
> put c1 "<keep><hi>"
moment 2999
moment 3000
> close c1
stop

arrive c1
< room c1 0
bytes c1 "<get>"
> later c1
moment 3999
moment 4000
> close c1
stop

arrive c1
bytes c1 "GET /last HTTP/1.1\r\nHost: a\r\n\r\n<get>"
> put c1 "<last><hi>"
> close c1
stop"#;
