//! Tests of what configurations say, and of the choice of servers and locations.
use conf::{Conf, LocationConf, ServerConf, Settings, named_location, route_for, site_text_of};
use std::alloc::{AllocError, Global};

const NESTED: &str =
    "http { send_timeout 1; log_by_lua_block { a } server { send_timeout 2; location / { log_by_lua_block { b } } \
    location /a { send_timeout 3; } } server { } default_type x; }";

const ALL: &str =
    "http { client_max_body_size 8k; server { keepalive_timeout 1; client_body_timeout 2; location / { send_timeout 3ms; \
    lua_socket_pool_size 4; lua_socket_connect_timeout 5ms; lua_socket_send_timeout 6ms; lua_socket_read_timeout 7ms; \
    lua_socket_keepalive_timeout 8ms; rewrite_by_lua_block { } access_by_lua_block { } content_by_lua_block { } \
    header_filter_by_lua_block { } body_filter_by_lua_block { } log_by_lua_block { } } } init_by_lua_block { } }";

const LISTED: &str =
    "http { lua_shared_dict a.b_C-9 64m; lua_shared_dict c 1; client_header_timeout 5; server { server_name A b; \
    location = /x { } location ^~ /y { internal; } location @N { } server_name C; }\n\
    server { client_header_timeout 6s; location / { content_by_lua_block\n{ \"}\" --}\n } } }\ninit_by_lua_block { x } }";

/// A configuration of a real site.
const WHOLE: &str = "worker_processes 1;
error_log logs/error.log warn;
events { worker_connections 1024; }
http {
  lua_shared_dict hits 10m;
  server {
    listen 127.0.0.1:8080;
    server_name localhost;
    location /api {
      access_by_lua_block { if ngx.req.get_headers()[\"X-Key\"] ~= \"k1\" then return ngx.exit(403) end }
      content_by_lua_block {
        ngx.say({ {\"/one?q=7\"}, {\"/up\"} })
      }
    }
    location = /one { content_by_lua_block { ngx.print(\"one:\", ngx.var.arg_q) } }
  }
}
";

const SITE: &str =
    "http { server { server_name a B; location /x { } location = /x { } location /xy/ { } location ^~ /x/y { } \
    location / { } location /x { } } server { server_name b; listen 8080 default_server; location @n { } location /q { } } }";

/// The text of a name, or the text as it is.
fn text_of(name: &str) -> &str {
    match name {
        "NESTED" => NESTED,
        "ALL" => ALL,
        "LISTED" => LISTED,
        "WHOLE" => WHOLE,
        "SITE" => SITE,
        text => text,
    }
}

/// What a text says of the whole site.
pub(crate) fn site(alloc: Global, text: &str) -> Result<String, AllocError> {
    match site_text_of(alloc, text_of(text).as_bytes()) {
        Ok(conf) => in_words(alloc, &conf),
        Err(fault) => format!(in alloc; "{fault:?}"),
    }
}

fn in_words(alloc: Global, conf: &Conf) -> Result<String, AllocError> {
    let package = str::from_utf8(&conf.package).unwrap_or("?");
    format!(in alloc;
        "{} {} {} {package} {}",
        conf.port, conf.connections, conf.log_level, conf.default_server
    )
}

/// A site has defaults.
pub(super) const DEFAULTS: &str = r#"site http { server { } } => 8080 512 4 lua/?.lua 0
site error_log x emerg; http { server { listen 81; } } => 81 512 1 lua/?.lua 0
site error_log x; http { error_log y debug; server { } } => 8080 512 8 lua/?.lua 0
site events { worker_connections 7; } http { server { } } => 8080 7 4 lua/?.lua 0
site http { server { } server { listen 8080 default_server; } lua_package_path "x/?.lua;;"; } => 8080 512 4 x/?.lua 1
site WHOLE => 8080 512 5 lua/?.lua 0"#;

/// The sizes, the times and the handlers of settings.
fn settings_in_words(alloc: Global, settings: &Settings) -> Result<String, AllocError> {
    let Settings {
        max_body: body,
        keepalive_timeout: keep,
        body_timeout: wait,
        send_timeout: send,
        pool_size: pool,
        ..
    } = settings;
    let kind = str::from_utf8(&settings.default_type).unwrap_or("?");
    let limits = format!(in alloc; "{kind} {body} {} {} {} {pool}", keep.0, wait.0, send.0)?;
    let sockets = sockets_in_words(alloc, settings)?;
    let handlers = [
        settings.rewrite,
        settings.access,
        settings.content,
        settings.header_filter,
        settings.body_filter,
        settings.log,
    ];
    format!(in alloc; "{} {} {handlers:?}", limits.as_str(), sockets.as_str())
}

/// The times of sockets.
fn sockets_in_words(alloc: Global, settings: &Settings) -> Result<String, AllocError> {
    let connect = settings.sock_connect.0;
    let send = settings.sock_send.0;
    let read = settings.sock_read.0;
    let keep = settings.sock_keepalive.0;
    format!(in alloc; "{connect} {send} {read} {keep}")
}

/// The settings of a location of the server, or those of the server where it has none of this number.
fn settings_at(server: &ServerConf, location: usize) -> &Settings {
    match server.locations.as_slice().get(location) {
        Some(location) => &location.settings,
        None => &server.settings,
    }
}

/// The settings of `TEXT SERVER LOCATION`.
pub(crate) fn settings(alloc: Global, given: &str) -> Result<String, AllocError> {
    let (name, after) = given.split_once(' ').unwrap_or((given, ""));
    let (server, location) = after.split_once(' ').unwrap_or((after, ""));
    let Ok(conf) = site_text_of(alloc, text_of(name).as_bytes()) else {
        return format!(in alloc; "refused");
    };
    match conf
        .servers
        .as_slice()
        .get(server.parse().unwrap_or(usize::MAX))
    {
        Some(server) => {
            let location = location.parse().unwrap_or(usize::MAX);
            settings_in_words(alloc, settings_at(server, location))
        }
        None => format!(in alloc; "no server"),
    }
}

/// Texts, servers and locations: the type, sizes and times, and the handlers in the order of the phases.
pub(super) const SETTINGS: &str = "\
settings NESTED 0 0 => x 1048576 75000 60000 2000 30 60000 60000 60000 60000 [None, None, None, None, None, Some(1)]
settings NESTED 0 1 => x 1048576 75000 60000 3000 30 60000 60000 60000 60000 [None, None, None, None, None, Some(0)]
settings NESTED 0 2 => x 1048576 75000 60000 2000 30 60000 60000 60000 60000 [None, None, None, None, None, Some(0)]
settings NESTED 1 0 => x 1048576 75000 60000 1000 30 60000 60000 60000 60000 [None, None, None, None, None, Some(0)]
settings NESTED 2 0 => no server
settings ALL 0 0 => text/plain 8192 1000 2000 3 4 5 6 7 8 [Some(0), Some(1), Some(2), Some(3), Some(4), Some(5)]
settings ALL 0 1 => text/plain 8192 1000 2000 60000 30 60000 60000 60000 60000 [None, None, None, None, None, None]
settings WHOLE 0 0 => text/plain 1048576 75000 60000 60000 30 60000 60000 60000 60000 [None, Some(0), Some(1), None, None, None]";

fn put_location(
    alloc: Global,
    out: &mut String,
    location: &LocationConf,
) -> Result<(), AllocError> {
    let internal = if location.internal { "!" } else { "" };
    out.push_str(format!(in alloc; " {:?}{internal}", location.kind)?.as_str())
}

/// Writes a server with its names and locations.
fn put_server(alloc: Global, out: &mut String, server: &ServerConf) -> Result<(), AllocError> {
    let header = server.header_timeout.0;
    let names = server.names.as_slice();
    out.push_str(format!(in alloc; "[{header} {names:?}")?.as_str())?;
    for location in server.locations.as_slice() {
        put_location(alloc, out, location)?;
    }
    out.push(']')
}

/// The servers of a text.
pub(crate) fn servers(alloc: Global, text: &str) -> Result<String, AllocError> {
    let mut out = String::new(alloc);
    let Ok(conf) = site_text_of(alloc, text_of(text).as_bytes()) else {
        return Ok(out);
    };
    for server in conf.servers.as_slice() {
        put_server(alloc, &mut out, server)?;
    }
    Ok(out)
}

/// The dictionaries, the block that runs first, and the blocks of Lua of a text.
pub(crate) fn lists(alloc: Global, text: &str) -> Result<String, AllocError> {
    let Ok(conf) = site_text_of(alloc, text_of(text).as_bytes()) else {
        return format!(in alloc; "refused");
    };
    let zones = conf.zones.as_slice();
    let blocks = conf.blocks.as_slice();
    format!(in alloc; "{zones:?} {:?} {blocks:?}", conf.init)
}

/// Lists are in order.
pub(super) const LISTS: &str = "\
servers LISTED => \
[5000 [b\"a\", b\"b\", b\"c\"] Exact(b\"/x\") Prefix(b\"/y\")! Named(b\"@N\")][6000 [] Prefix(b\"/\")]
servers WHOLE => [60000 [b\"localhost\"] Prefix(b\"/api\") Exact(b\"/one\")]
lists LISTED => \
[ZoneConf { name: b\"a.b_C-9\", size: 67108864 }, ZoneConf { name: b\"c\", size: 1 }] Some(1) \
[Block { text: b\" \\\"}\\\" --}\\n \", line: 3 }, Block { text: b\" x \", line: 5 }]";

/// The server and the location for `HOST PATH`.
pub(crate) fn route(alloc: Global, given: &str) -> Result<String, AllocError> {
    let (host, path) = given.split_once(' ').unwrap_or((given, ""));
    let Ok(conf) = site_text_of(alloc, SITE.as_bytes()) else {
        return format!(in alloc; "refused");
    };
    let route = route_for(&conf, host.as_bytes(), path.as_bytes());
    format!(in alloc; "{} {:?}", route.server, route.location)
}

/// Requests have routes.
pub(super) const ROUTES: &str = "\
route a /x => 0 Some(1)
route b /xy => 0 Some(0)
route A /xy/z => 0 Some(2)
route a /x/yz => 0 Some(3)
route a /X => 0 Some(4)
route b /q => 0 Some(4)
route c /q => 1 Some(1)
route  / => 1 None
route c @n => 1 None";

/// The location for `SERVER NAME`; a server that isn't there has none.
pub(crate) fn named(alloc: Global, given: &str) -> Result<String, AllocError> {
    let (server, name) = given.split_once(' ').unwrap_or((given, ""));
    let server = server.parse().unwrap_or(u32::MAX);
    let Ok(conf) = site_text_of(alloc, SITE.as_bytes()) else {
        return format!(in alloc; "refused");
    };
    if server >= conf.servers.len() {
        return format!(in alloc; "no server");
    }
    format!(in alloc; "{:?}", named_location(&conf, server, name.as_bytes()))
}

/// Locations have names.
pub(super) const NAMES: &str = "\
named 1 @n => Some(0)
named 1 /q => None
named 0 @n => None";
