//! Which server and which location a request is for.

ghost use Rattle.std.specs.Prelude.{◌≡◌, ◌<◌, ◌^◌, length, position, slice_get, IfSome, Some};
ghost use Rattle.conf.specs.Reading.{IsWhole};
ghost use Rattle.conf.specs.Routes as spec;

use crate::{Conf, LocationConf, ServerConf};
use conf_rules::LocationKind;
use http_base::same_name;

/// The server and the location that a request is for, by their numbers.
#[derive(Clone, Copy)]
pub struct Route {
    pub server: u32,
    /// None where no location of the server fits the path.
    pub location: Option<u32>,
}

/// Whether the server has the name, in any case.
fn has_name(server: &ServerConf, host: &[u8]) -> bool
    ensures { result ≡ spec.has_name host.now server.now }
{
    server
        .names
        .as_slice()
        .iter()
        .any(|name| same_name(name, host))
}

/// The first server that has the name.
fn server_named(servers: &[ServerConf], host: &[u8]) -> Option<usize>
    ensures value { result ≡ position (spec.has_name host.now) servers.now }
    ensures there { IfSome result (λ index. index < length servers.now) }
{
    servers.iter().position(|server| has_name(server, host))
}

/// How well the path itself fits, 0 where it is another one.
fn exact_rank(path: &[u8], exact: &[u8]) -> usize
    ensures { result ≡ spec.exact_rank path.now exact.now }
{
    if exact == path { path.len() + 2 } else { 0 }
}

/// How well a prefix fits a path, 0 where it is none of it.
fn prefix_rank(path: &[u8], prefix: &[u8]) -> usize
    ensures { result ≡ spec.prefix_rank path.now prefix.now }
{
    if path.starts_with(prefix) {
        prefix.len() + 1
    } else {
        0
    }
}

/// How well a location fits a path, 0 where it doesn't: a longer prefix fits better, the path itself best.
fn rank(path: &[u8], kind: &LocationKind) -> usize
    ensures { result ≡ spec.rank path.now kind.now }
{
    match kind {
        LocationKind::Exact(exact) => exact_rank(path, exact),
        LocationKind::Prefix(prefix) => prefix_rank(path, prefix),
        LocationKind::Named(_) => 0,
    }
}

/// The location that fits a path best, the first of those that fit as well.
fn location_for(locations: &[LocationConf], path: &[u8]) -> Option<u32>
    requires { length locations.now < 2 ^ 32 }
    ensures { spec.IsLocationFor locations.now path.now result }
{
    let mut best = 0;
    let mut found = None;
    for (index, location) in locations.iter().enumerate() {
        let rank = rank(path, &location.kind);
        if best < rank {
            best = rank;
            found = Some(index as u32);
        }
    }
    found
}

/// Whether this is the name of the location.
fn is_named(location: &LocationConf, name: &[u8]) -> bool
    ensures { result ≡ spec.is_named name.now location.now }
{
    match &location.kind {
        LocationKind::Named(other) => other.as_slice() == name,
        _ => false,
    }
}

/// The first location that has the name.
fn location_named(locations: &[LocationConf], name: &[u8]) -> Option<usize>
    ensures value { result ≡ position (spec.is_named name.now) locations.now }
    ensures there { IfSome result (λ index. index < length locations.now) }
{
    locations
        .iter()
        .position(|location| is_named(location, name))
}

/// The server whose name is the host in any case, and the location there that fits the path best. Takes no memory.
pub fn route_for(conf: &Conf, host: &[u8], path: &[u8]) -> Route
    requires { IsWhole conf.now }
    ensures { spec.IsRoute conf.now host.now path.now result }
{
    let servers = conf.servers.as_slice();
    let server = match server_named(servers, host) {
        Some(index) => index as u32,
        None => conf.default_server,
    };
    let location = location_for(servers[server as usize].locations.as_slice(), path);
    Route { server, location }
}

/// The location of a server that has this name, which begins with `@`. Takes no memory.
pub fn named_location(conf: &Conf, server: u32, name: &[u8]) -> Option<u32>
    requires { server < length conf.now.servers }
    ensures { spec.IsNamed conf.now server name.now result }
{
    let servers = conf.servers.as_slice();
    let locations = servers[server as usize].locations.as_slice();
    match location_named(locations, name) {
        Some(index) => Some(index as u32),
        None => None,
    }
}
