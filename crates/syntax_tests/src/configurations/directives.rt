//! Tests of directives and of the values of their words; the expected ones are those of nginx's documentation.
use conf_rules::*;
use conf_text::items_of;
use std::alloc::{AllocError, Global};

/// What the directive that a text begins with says, None where its words are no value of it.
pub(crate) fn said(alloc: Global, text: &str) -> Result<String, AllocError> {
    let items = items_of(alloc, text.as_bytes())?;
    let Some(item) = items.first() else {
        return format!(in alloc; "no item");
    };
    let Some((name, words)) = item.words.as_slice().split_first() else {
        return format!(in alloc; "no name");
    };
    match directive_of(name) {
        Some(directive) => format!(in alloc; "{:?}", effect_of(alloc, directive, words)?),
        None => format!(in alloc; "unknown"),
    }
}

/// Words have values.
pub(super) const WORDS: &str = r#"says frob 1 2; => unknown
says Listen 80; => unknown
says user a b; => Some(Nothing)
says user a b c; => None
says access_log a b c; => Some(Nothing)
says pid; => None
says internal on; => None
says http { => Some(Opens(Http))
says server x { => None
says content_by_lua_block x { } => None
says error_log x; => Some(Level(4))
says error_log x emerg; => Some(Level(1))
says error_log x debug; => Some(Level(8))
says error_log; => None
says error_log x error y; => None
says worker_connections 9999999999; => Some(Count(512))
says worker_connections 1; => Some(Count(1))
says worker_connections 0; => None
says lua_socket_pool_size 4294967295; => Some(Count(4294967295))
says lua_socket_pool_size 4294967296; => None
says server_name; => None
says server_name a B; => Some(Names(ByteLists { items: [b"a", b"b"] }))"#;

pub(super) const UNITS: &str = "\
says client_max_body_size 8k; => Some(Size(8192))
says client_max_body_size 0; => Some(Size(16777216))
says client_max_body_size 17m; => Some(Size(16777216))
says client_max_body_size 8K; => None
says client_max_body_size k; => None
says client_max_body_size 18446744073709551615; => Some(Size(16777216))
says client_max_body_size 18446744073709551616; => None
says client_max_body_size 18014398509481984k; => None
says send_timeout 2h; => Some(Time(7200000))
says send_timeout 1500ms; => Some(Time(1500))
says send_timeout 5m; => Some(Time(300000))
says send_timeout 07s; => Some(Time(7000))
says send_timeout 99999999; => Some(Time(99999999000))
says send_timeout 99999999999ms; => Some(Time(99999999999))
says send_timeout 100000000; => None
says send_timeout 1d; => None
says send_timeout 1.5m; => None
says send_timeout -1; => None
says send_timeout +1; => None
says send_timeout 5 6; => None
says send_timeout; => None
says send_timeout ''; => None";

pub(super) const FORMS: &str = "\
says listen 80; => Some(Listen(80, false))
says listen localhost:65535 default_server; => Some(Listen(65535, true))
says listen 127.0.0.1:1; => Some(Listen(1, false))
says listen 0; => None
says listen 65536; => None
says listen *:80; => None
says listen 80 ssl; => None
says listen 80 default_server x; => None
says lua_shared_dict a.b_C-9 64m; => Some(Dictionary(b\"a.b_C-9\", 67108864))
says lua_shared_dict a 65m; => None
says lua_shared_dict a 0; => None
says lua_shared_dict '' 1m; => None
says lua_shared_dict a/b 1m; => None
says lua_shared_dict a; => None
says lua_package_path \"x/?.lua;;\"; => Some(Text(b\"x/?.lua\"))
says lua_package_path \"a/?;b\"; => None
says lua_package_path a/??; => None
says lua_package_path \"a\t?\"; => None
says default_type \"\"; => Some(Text(b\"\"))
says default_type \"a\tb\"; => None
says location /a { => Some(Location(Prefix(b\"/a\")))
says location ^~ /a { => Some(Location(Prefix(b\"/a\")))
says location = /a { => Some(Location(Exact(b\"/a\")))
says location @a { => Some(Location(Named(b\"@a\")))
says location @ { => None
says location a { => None
says location =/a { => None
says location ~ /a { => None";

/// Where a directive may stand, its form, and whether it may stand more often.
pub(crate) fn stands(alloc: Global, name: &str) -> Result<String, AllocError> {
    let mut all = String::new(alloc);
    let Some(directive) = directive_of(name.as_bytes()) else {
        return Ok(all);
    };
    for place in [
        Place::Main,
        Place::Events,
        Place::Http,
        Place::Server,
        Place::Location,
    ] {
        if may_stand(directive, place) {
            all.push_str(format!(in alloc; "{place:?} ")?.as_str())?;
        }
    }
    let form = form_of(directive);
    all.push_str(format!(in alloc; "{form:?}")?.as_str())?;
    all.push_str(if may_repeat(directive) {
        " repeats"
    } else {
        ""
    })?;
    Ok(all)
}

/// Directives have places and forms.
pub(super) const PLACES: &str = "\
stands pid => Main Simple
stands error_log => Main Http Simple
stands worker_connections => Events Simple
stands server => Http Block repeats
stands client_header_timeout => Http Server Simple
stands listen => Server Simple repeats
stands content_by_lua_block => Location Lua
stands send_timeout => Http Server Location Simple";

/// Whether directives are themselves, and words are numbers, sizes and times.
pub(super) fn words_are_read() -> bool {
    same(Directive::Listen, Directive::Listen)
        && !same(Directive::Listen, Directive::Server)
        && number_of(b"10") == Some(10)
        && size_of(b"1m") == Some(1_048_576)
        && time_of(b"1") == Some(1000)
}
