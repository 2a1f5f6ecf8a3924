//! Bodies of requests, which no handler reads: they are dropped after the reply (HI); above a limit they are refused (LIMITED, of SMALL).

/// A body is dropped after the reply; a fault in one closes; a reply before a body that waits for leave is the last.
pub(super) const DROPPED: &str = r#"arrive c1
bytes c1 "<post>Content-Length: 3\r\n\r\nabc<get>"
> put c1 "<keep><hi>"
> put c1 "<keep><hi>"
stop
> close c1

arrive c1
bytes c1 "<post>Content-Length: 3\r\n\r\na"
> put c1 "<keep><hi>"
bytes c1 "b"
bytes c1 "c<get>"
> put c1 "<keep><hi>"
stop
> close c1

arrive c1
bytes c1 "<post>Transfer-Encoding: chunked\r\n\r\n3\r\nabc\r\n"
> put c1 "<keep><hi>"
bytes c1 "1;x=y\r\nd\r\n0\r\nA: b\r\n\r\n<get>"
> put c1 "<keep><hi>"
stop
> close c1

arrive c1
bytes c1 "POST / HTTP/1.0\r\nContent-Length: 9\r\n\r\n"
> put c1 "<close>hi\n"
> close c1
stop

arrive c1
bytes c1 "<post>Transfer-Encoding: chunked\r\n\r\n"
> put c1 "<keep><hi>"
bytes c1 "zz\r\n"
> close c1
stop

arrive c1
bytes c1 "<post>Transfer-Encoding: chunked\r\n\r\n3\r\nabcd<get>"
> put c1 "<keep><hi>"
> close c1
stop

arrive c1
bytes c1 "<post>Expect: 100-continue\r\nContent-Length: 3\r\n\r\n"
> put c1 "<last><hi>"
> close c1
stop

arrive c1
bytes c1 "POST / HTTP/1.0\r\nExpect: 100-continue\r\nContent-Length: 3\r\n\r\n"
> put c1 "<close>hi\n"
> close c1
stop"#;

/// A site that takes bodies of at most two bytes.
pub(super) const SMALL: &str =
    r#"http { client_max_body_size 2; server { location / { content_by_lua_block { ngx.say("hi") } } } }"#;

pub(super) const LIMITED: &str = r#"arrive c1
bytes c1 "<post>Content-Length: 3\r\n\r\n"
> put c1 "<413>"
> close c1
arrive c2
bytes c2 "<post>Expect: 100-continue\r\nContent-Length: 3\r\n\r\n"
> put c2 "<413>"
> close c2
arrive c3
bytes c3 "<post>Content-Length: 2\r\n\r\nab<get>"
> put c3 "<keep><hi>"
> put c3 "<keep><hi>"
stop
> close c3"#;
