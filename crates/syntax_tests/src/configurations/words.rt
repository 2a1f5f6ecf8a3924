//! Tests of every directive with too few and with too many words (ENOUGH to TOO_MANY), and with the ends of its values (ENDS, PAST_ENDS, TIMES); the expected
//! ones are those of the manual.
use super::directives::said;
use crate::rows::put;
use std::alloc::Global;
use std::process::Abort;

/// Directives with as few words as they may have.
const ENOUGH: &str = "\
worker_processes x;
daemon x;
pid x;
user x;
access_log x;
sendfile x;
tcp_nopush x;
tcp_nodelay x;
error_log x;
events {
worker_connections 1;
http {
server {
listen 1;
server_name x;
lua_shared_dict x 1;
lua_package_path ?;
init_by_lua_block { }
content_by_lua_block { }
location / {
internal;
default_type x;
client_max_body_size 0;
lua_socket_pool_size 0;
log_by_lua_block { }";

/// Directives with one word too few.
const TOO_FEW: &str = "\
worker_processes;
daemon;
pid;
user;
access_log;
sendfile;
tcp_nopush;
tcp_nodelay;
error_log;
worker_connections;
listen;
server_name;
lua_shared_dict x;
lua_package_path;
location {
default_type;
client_max_body_size;
lua_socket_pool_size;";

/// Directives with one word too many.
const TOO_MANY: &str = "\
worker_processes x y;
daemon x y;
pid x y;
user x y z;
sendfile x y;
tcp_nopush x y;
tcp_nodelay x y;
error_log x warn y;
events x {
worker_connections 1 2;
http x {
server x {
listen 1 default_server x;
lua_shared_dict x 1 2;
lua_package_path ? ?;
init_by_lua_block x { }
rewrite_by_lua_block x { }
access_by_lua_block x { }
content_by_lua_block x { }
header_filter_by_lua_block x { }
body_filter_by_lua_block x { }
log_by_lua_block x { }
location = / x {
internal x;
default_type x y;
client_max_body_size 1 2;
lua_socket_pool_size 1 2;";

/// The greatest and the least values of directives.
const ENDS: &str = "\
worker_connections 18446744073709551615;
listen 65535;
listen 1;
lua_shared_dict x 64m;
lua_shared_dict x 65536k;
lua_shared_dict x 67108864;
client_max_body_size 18446744073709551615;
client_max_body_size 17592186044415m;
lua_socket_pool_size 4294967295;
error_log x emerg;
error_log x debug;
default_type ' ~';";

/// Values right behind them.
const PAST_ENDS: &str = "\
worker_connections 0;
worker_connections 18446744073709551616;
listen 65536;
listen 0;
lua_shared_dict x 65537k;
lua_shared_dict x 67108865;
lua_shared_dict x 0;
client_max_body_size 18446744073709551616;
client_max_body_size 17592186044416m;
lua_socket_pool_size 4294967296;
error_log x stderr;
default_type '\x7f';";

/// Whether the words of the directive that a text begins with are a value of it.
fn has_value(alloc: Global, text: &str) -> bool {
    match said(alloc, text) {
        Ok(seen) => seen.as_str().starts_with("Some("),
        Err(_) => false,
    }
}

/// The words of these directives are values of them, or aren't.
fn expect(rt: &impl Abort, alloc: Global, directives: &str, expected: bool) {
    for directive in directives.lines() {
        assert!(rt; has_value(alloc, directive) == expected, "{directive}");
    }
}

/// Directives that say a time.
const TIMES: &str = "\
keepalive_timeout
client_body_timeout
send_timeout
client_header_timeout
lua_socket_connect_timeout
lua_socket_send_timeout
lua_socket_read_timeout
lua_socket_keepalive_timeout";

/// Times, with a `,` between.
const WITHIN: &str = " 0, 99999999999ms, 99999999s, 1666666m, 27777h";

const BEYOND: &str = ", 1 2, 100000000000ms, 100000000, 1666667m, 27778h";

/// Whether a directive with one of these words, or without one, has a value.
fn is_any_time(alloc: Global, name: &str, words: &str) -> bool {
    for word in words.split(',') {
        let mut text = String::new(alloc);
        put(&mut text, name);
        put(&mut text, word);
        put(&mut text, ";");
        if has_value(alloc, text.as_str()) {
            return true;
        }
    }
    false
}

/// Whether a directive with each of these words has a value.
fn is_each_time(alloc: Global, name: &str, words: &str) -> bool {
    for word in words.split(',') {
        if !is_any_time(alloc, name, word) {
            return false;
        }
    }
    true
}

#[test]
fn directives_have_their_words_and_ends(rt: HostRuntime) {
    expect(&rt, rt.alloc(), ENOUGH, true);
    expect(&rt, rt.alloc(), TOO_FEW, false);
    expect(&rt, rt.alloc(), TOO_MANY, false);
    expect(&rt, rt.alloc(), ENDS, true);
    expect(&rt, rt.alloc(), PAST_ENDS, false);
    for name in TIMES.lines() {
        assert!(rt; is_each_time(rt.alloc(), name, WITHIN), "{name}");
        assert!(rt; !is_any_time(rt.alloc(), name, BEYOND), "{name}");
    }
}
