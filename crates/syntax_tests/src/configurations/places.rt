//! Tests of every directive in every block, once and twice; the expected ones are those of the documentation of nginx and of the lua-nginx-module.
use super::faults::fault;
use crate::rows::put;
use std::alloc::Global;
use std::process::Abort;

/// Directives after the letters of the places where they may stand, and a `+` where they may stand more often; `http` is tried below.
const DIRECTIVES: &str = "\
M worker_processes 1;
M daemon off;
M pid x;
M user x y;
M events { }
MH error_log x;
E worker_connections 1;
H lua_package_path x/?.lua;
H init_by_lua_block { }
H+ server { }
H lua_shared_dict x 1;
HS client_header_timeout 1;
S+ listen 8080;
S+ server_name x;
S+ location /x { }
L content_by_lua_block { }
L internal;
HSL access_log x;
HSL sendfile on;
HSL tcp_nopush on;
HSL tcp_nodelay on;
HSL rewrite_by_lua_block { }
HSL access_by_lua_block { }
HSL header_filter_by_lua_block { }
HSL body_filter_by_lua_block { }
HSL log_by_lua_block { }
HSL default_type x;
HSL client_max_body_size 1;
HSL keepalive_timeout 1;
HSL client_body_timeout 1;
HSL send_timeout 1;
HSL lua_socket_connect_timeout 1;
HSL lua_socket_send_timeout 1;
HSL lua_socket_read_timeout 1;
HSL lua_socket_keepalive_timeout 1;
HSL lua_socket_pool_size 1;";

/// A configuration in which this stands in the main part, in `events`, `http`, `server` or `location`, by its first letter.
fn placed(alloc: Global, place: char, said: &str) -> String {
    let (before, after) = match place {
        'M' => ("", "http { server { } }"),
        'E' => ("events {", "} http { server { } }"),
        'H' => ("http { server { }", "}"),
        'S' => ("http { server {", "} }"),
        _ => ("http { server { location / {", "} } }"),
    };
    let mut all = String::new(alloc);
    put(&mut all, before);
    put(&mut all, said);
    put(&mut all, after);
    all
}

/// Whether what stands in this place has this fault.
fn has(alloc: Global, place: char, said: &str, expected: &str) -> bool {
    match fault(alloc, placed(alloc, place, said).as_str()) {
        Ok(seen) => seen.as_str() == expected,
        Err(_) => false,
    }
}

/// A directive has its places: elsewhere it isn't allowed.
fn expect_places(rt: &impl Abort, alloc: Global, places: &str, said: &str, once: &str) {
    for place in "MEHSL".chars() {
        let expected = if places.contains(place) {
            once
        } else {
            "Place(1)"
        };
        assert!(rt; has(alloc, place, said, expected), "{place}: {said}");
    }
}

/// Where a directive stands twice in its places, the second has this fault.
fn expect_twice(rt: &impl Abort, alloc: Global, places: &str, said: &str, expected: &str) {
    let mut twice = String::new(alloc);
    put(&mut twice, said);
    put(&mut twice, "\n");
    put(&mut twice, said);
    for place in places.chars() {
        assert!(rt;
            has(alloc, place, twice.as_str(), expected),
            "{place}: {said}"
        );
    }
}

/// A row of directives has its places.
fn hold(rt: &impl Abort, alloc: Global, row: &str) {
    let (places, said) = row.split_once(' ').unwrap_or((row, ""));
    let (places, expected) = match places.strip_suffix('+') {
        Some(places) => (places, "ok"),
        None => (places, "Twice(2)"),
    };
    expect_places(rt, alloc, places, said, "ok");
    expect_twice(rt, alloc, places, said, expected);
}

/// `http` stands in the main part alone, and once.
const HTTP: &str = "http { server { } }";

#[test]
fn every_directive_has_its_places(rt: HostRuntime) {
    for row in DIRECTIVES.lines() {
        hold(&rt, rt.alloc(), row);
    }
    expect_places(&rt, rt.alloc(), "M", HTTP, "Twice(1)");
}
