//! Which location answers a request: by server name (HOSTS of NAMED, OTHER_HOSTS of DEFAULT), and by the path (ASKED of PATHS).

/// The first server of a name answers.
pub(super) const NAMED: &str = r#"http {
server { server_name a.example A2; location / { content_by_lua_block { ngx.say("a") } } }
server { server_name b.example a.example; location / { content_by_lua_block { ngx.say("b") } } }
}"#;

pub(super) const HOSTS: &str = r#"arrive c1
bytes c1 "GET / HTTP/1.1\r\nHost: a.example\r\n\r\n"
> put c1 "<keep>2\r\na\n\r\n0\r\n\r\n"
bytes c1 "GET / HTTP/1.1\r\nHost: B.Example:8080\r\n\r\n"
> put c1 "<keep>2\r\nb\n\r\n0\r\n\r\n"
bytes c1 "GET / HTTP/1.1\r\nHost: a2\r\n\r\n"
> put c1 "<keep>2\r\na\n\r\n0\r\n\r\n"
bytes c1 "GET / HTTP/1.1\r\nHost: c\r\n\r\n"
> put c1 "<keep>2\r\na\n\r\n0\r\n\r\n"
bytes c1 "GET http://b.example/ HTTP/1.1\r\nHost: a.example\r\n\r\n"
> put c1 "<keep>2\r\nb\n\r\n0\r\n\r\n"
bytes c1 "GET / HTTP/1.0\r\n\r\n"
> put c1 "<close>a\n"
> close c1
stop"#;

/// Other names are answered by the default server.
pub(super) const DEFAULT: &str = r#"http {
server { server_name a; location / { content_by_lua_block { ngx.say("a") } } }
server { listen 8080 default_server; location / { content_by_lua_block { ngx.say("b") } } }
}"#;

pub(super) const OTHER_HOSTS: &str = r#"arrive c1
bytes c1 "GET / HTTP/1.1\r\nHost: a\r\n\r\n"
> put c1 "<keep>2\r\na\n\r\n0\r\n\r\n"
bytes c1 "GET / HTTP/1.1\r\nHost: c\r\n\r\n"
> put c1 "<keep>2\r\nb\n\r\n0\r\n\r\n"
stop
> close c1"#;

/// The location of a path answers.
pub(super) const PATHS: &str = r#"http { server {
location /x { content_by_lua_block { ngx.say("prefix") } }
location = /x { content_by_lua_block { ngx.say("exact") } }
location ^~ /x/y { content_by_lua_block { ngx.say("longer") } }
location /x { content_by_lua_block { ngx.say("second") } }
location /in { internal; content_by_lua_block { ngx.say("inside") } }
location /bare { }
location @named { content_by_lua_block { ngx.say("named") } }
} }"#;

pub(super) const ASKED: &str = r#"arrive c1
bytes c1 "GET /x HTTP/1.1\r\nHost: a\r\n\r\n"
> put c1 "<keep>6\r\nexact\n\r\n0\r\n\r\n"
bytes c1 "GET /x? HTTP/1.1\r\nHost: a\r\n\r\n"
> put c1 "<keep>6\r\nexact\n\r\n0\r\n\r\n"
bytes c1 "GET /x/ HTTP/1.1\r\nHost: a\r\n\r\n"
> put c1 "<keep>7\r\nprefix\n\r\n0\r\n\r\n"
bytes c1 "GET /xx HTTP/1.1\r\nHost: a\r\n\r\n"
> put c1 "<keep>7\r\nprefix\n\r\n0\r\n\r\n"
bytes c1 "GET /x/yz HTTP/1.1\r\nHost: a\r\n\r\n"
> put c1 "<keep>7\r\nlonger\n\r\n0\r\n\r\n"
bytes c1 "GET /x/z/../y HTTP/1.1\r\nHost: a\r\n\r\n"
> put c1 "<keep>7\r\nlonger\n\r\n0\r\n\r\n"
bytes c1 "GET /%78 HTTP/1.1\r\nHost: a\r\n\r\n"
> put c1 "<keep>6\r\nexact\n\r\n0\r\n\r\n"
bytes c1 "GET /X HTTP/1.1\r\nHost: a\r\n\r\n"
> put c1 "<404>"
bytes c1 "GET /in HTTP/1.1\r\nHost: a\r\n\r\n"
> put c1 "<404>"
bytes c1 "GET /bare HTTP/1.1\r\nHost: a\r\n\r\n"
> put c1 "<404>"
bytes c1 "GET /@named HTTP/1.1\r\nHost: a\r\n\r\n"
> put c1 "<404>"
stop
> close c1"#;
