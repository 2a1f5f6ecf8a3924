//! Tests of the faults of a configuration; the expected ones were worked out by hand from nginx's documentation.
use conf::site_text_of;
use std::alloc::{AllocError, Global};

/// The fault of a text with its line, or `ok`.
pub(crate) fn fault(alloc: Global, text: &str) -> Result<String, AllocError> {
    match site_text_of(alloc, text.as_bytes()) {
        Ok(_) => format!(in alloc; "ok"),
        Err(fault) => format!(in alloc; "{fault:?}"),
    }
}

/// Texts have faults.
pub(super) const BLOCKS: &str = "\
fault  => At(1)
fault http {|} => At(2)
fault http {|server { } => At(2)
fault http { server { } }|}| => At(2)
fault http { server { } }; => At(1)
fault http { server { } } { => At(1)
fault \"http\"|{ server{}}#x => ok
fault http { server {|listen \"80| => At(2)
fault http { server { }|server; } => At(2)
fault http { server { }|server x { } } => Value(2)
fault http { server { }|listen|0; } => Place(2)
fault http { server { } }\r|http { }\r| => Twice(2)
fault http { server { } } events => At(1)
fault http { server { }|# }| => At(1)
fault worker_connections 5; http { server { } } => Place(1)
fault events { worker_connections 9999999999; } http { server { } } => ok
fault events { worker_connections 0; } http { server { } } => Value(1)
fault events { }|events { } http { server { } } => Twice(2)
fault events { http { } } => Place(1)
fault pid a; user a b; http { server { } } => ok
fault pid; http { server { } } => Value(1)
fault user a b c; http { server { } } => Value(1)
fault worker_processes 1|http { server { } } => At(2)
fault error_log x crit; http { error_log y debug; server { } } => ok";

pub(super) const PORTS: &str = "\
fault http { server { listen 81; }|server { } } => Value(2)
fault http { server { }|server {|listen 81; } } => Value(3)
fault http { server { listen 81; }|server { listen 81; } } => ok
fault http { server { listen 81;|listen 82; } } => Value(2)
fault http { server { listen 8080; listen 8080; } server { listen localhost:8080 default_server; } } => ok
fault http { server { listen 1 default_server; }|server { listen 1 default_server; } } => Value(2)
fault http { server { listen 1 default_server; listen 1 default_server; } } => ok
fault http { lua_shared_dict a 1m;|lua_shared_dict a 2m; server { } } => Twice(2)
fault http { lua_shared_dict a 1m;|lua_shared_dict a 0; server { } } => Value(2)
fault http { lua_shared_dict a 1m; lua_shared_dict b 1m; server { } } => ok";

pub(super) const ORDER: &str = r#"in-server |server_name "a"b; => At(2)
in-server server_name a'b#C; => ok
in-server |Frob 1 2 => Unknown(2)
in-server |frob_by_lua_block { '} => Unknown(2)
in-server |user => Place(2)
in-server |listen 80 81 82| => At(3)
in-server listen|{ } => At(2)
in-server error_log x; => Place(1)
in-server client_header_timeout 5; client_header_timeout x => Twice(1)
in-server listen 65536; => Value(1)
in-server server_name; => Value(1)
in-server content_by_lua_block { } => Place(1)
in-server location ~ /a { } => Value(1)
in-server location =/a { } => Value(1)
in-server location /a { } location /a { } => ok
in-server location /a; => At(1)
in-server location / { internal; }|send_timeout 1;|send_timeout 1; => Twice(3)"#;

pub(super) const LUA: &str = r#"in-location content_by_lua_block { "}" --}| } => ok
in-location |content_by_lua_block { "} => Block(2)
in-location content_by_lua_block; => At(1)
in-location content_by_lua_block x { } => Value(1)
in-location content_by_lua_block x { ' => Value(1)
in-location content_by_lua_block { }|content_by_lua_block { } => Twice(2)
in-location client_header_timeout 5; => Place(1)
in-location internal on; => Value(1)
in-location location /a { } => Place(1)
in-location send_timeout 100000000; => Value(1)"#;
