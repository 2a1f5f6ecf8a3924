//! What a configuration says, by its blocks.

ghost use Rattle.std.specs.Prelude.{◌≡◌, ◌<◌, ◌^◌, IfOk, IfSome, length, map, position};
ghost use Rattle.conf.specs.Blocks as blocks;
ghost use Rattle.conf.specs.Meaning as spec;
ghost use Rattle.conf.specs.Reading.{IsWhole};

use crate::blocks::{DEFAULT_PORT, LocationBlock, Nest, Said, ServerBlock, effect_in, is_said};
use crate::inheritance::{Scope, block_of, count_or, level_or, text_or};
use crate::{Conf, Listing, LocationConf, ServerConf};
use conf_rules::Directive;
use resty_base::ByteLists;
use std::alloc::{AllocError, Global};

/// The default of `worker_connections`.
const DEFAULT_CONNECTIONS: u32 = 512;

/// The default of `error_log`: `error`.
const DEFAULT_LEVEL: u8 = 4;

/// A location of a server.
fn location_conf(
    server: &[Said],
    http: &[Said],
    location: LocationBlock,
) -> Result<LocationConf, AllocError>
    ensures { IfOk result (λ made. made ≡ spec.location_conf server.now http.now location) }
{
    let LocationBlock { kind, said } = location;
    let scope = Scope {
        location: said.as_slice(),
        server,
        http,
    };
    let settings = scope.settings()?;
    Ok(LocationConf {
        kind,
        internal: is_said(said.as_slice(), Directive::Internal),
        settings,
    })
}

/// The locations of a server.
fn location_confs(
    alloc: Global,
    server: &[Said],
    http: &[Said],
    locations: Listing<LocationBlock>,
) -> Result<Listing<LocationConf>, AllocError>
    ensures { IfOk result (λ made. made ≡ map (spec.location_conf server.now http.now) locations) }
{
    let mut made = Listing::new(alloc);
    for location in locations.into_vec() {
        made.push(location_conf(server, http, location)?)?;
    }
    Ok(made)
}

/// A server.
fn server_conf(alloc: Global, http: &[Said], server: ServerBlock) -> Result<ServerConf, AllocError>
    ensures { IfOk result (λ made. made ≡ spec.server_conf http.now server) }
{
    let ServerBlock {
        names,
        said,
        locations,
        ..
    } = server;
    let scope = Scope {
        location: &[],
        server: said.as_slice(),
        http,
    };
    Ok(ServerConf {
        header_timeout: scope.time(Directive::ClientHeaderTimeout),
        locations: location_confs(alloc, said.as_slice(), http, locations)?,
        settings: scope.settings()?,
        names: ByteLists::of(names.into_vec()),
    })
}

/// The servers.
fn server_confs(
    alloc: Global,
    http: &[Said],
    servers: Listing<ServerBlock>,
) -> Result<Listing<ServerConf>, AllocError>
    ensures { IfOk result (λ made. made ≡ map (spec.server_conf http.now) servers) }
{
    let mut made = Listing::new(alloc);
    for server in servers.into_vec() {
        made.push(server_conf(alloc, http, server)?)?;
    }
    Ok(made)
}

/// The number of the server with `default_server`.
fn marked_server(servers: &[ServerBlock]) -> Option<usize>
    ensures value { result ≡ position (λ server. server.is_default) servers.now }
    ensures there { IfSome result (λ index. index < length servers.now) }
{
    servers.iter().position(|server| server.is_default)
}

/// The number of the default server.
fn default_server(servers: &[ServerBlock]) -> u32
    requires { length servers.now < 2 ^ 32 }
    ensures value { result ≡ spec.default_server servers.now }
    ensures there { 0 < length servers.now → result < length servers.now }
{
    match marked_server(servers) {
        Some(index) => index as u32,
        None => 0,
    }
}

/// What `error_log` says in `http`, else in the main part.
fn log_level(http: &[Said], main: &[Said]) -> u8
    ensures { result ≡ spec.log_level http.now main.now }
{
    match effect_in(http, Directive::ErrorLog) {
        Some(effect) => level_or(DEFAULT_LEVEL, Some(effect)),
        None => level_or(DEFAULT_LEVEL, effect_in(main, Directive::ErrorLog)),
    }
}

/// What a configuration says by numbers.
#[derive(Clone, Copy)]
struct Numbers {
    port: u16,
    connections: u32,
    log_level: u8,
    init: Option<u32>,
    default_server: u32,
}

/// The numbers of a configuration.
fn numbers_of(nest: &Nest) -> Numbers
    ensures port { result.port ≡ (spec.conf_of nest.now).port }
    ensures connections { result.connections ≡ (spec.conf_of nest.now).connections }
    ensures level { result.log_level ≡ (spec.conf_of nest.now).log_level }
    ensures init { result.init ≡ (spec.conf_of nest.now).init }
    ensures default { result.default_server ≡ (spec.conf_of nest.now).default_server }
    ensures there { 0 < length nest.now.servers → result.default_server < length nest.now.servers }
{
    let http = nest.http.as_slice();
    Numbers {
        port: nest.port.unwrap_or(DEFAULT_PORT),
        connections: count_or(
            DEFAULT_CONNECTIONS,
            effect_in(nest.events.as_slice(), Directive::WorkerConnections),
        ),
        log_level: log_level(http, nest.main.as_slice()),
        init: block_of(effect_in(http, Directive::InitByLua)),
        default_server: default_server(nest.servers.as_slice()),
    }
}

/// The whole configuration, whose dictionaries, blocks of Lua and servers are taken out of the nest.
pub(crate) fn conf_of(alloc: Global, nest: &mut Nest) -> Result<Conf, AllocError>
    requires { 0 < length nest.old.servers }
    ensures value { IfOk result (λ conf. conf ≡ spec.conf_of nest.old) }
    ensures whole { IfOk result IsWhole }
{
    let numbers = numbers_of(nest);
    let http = nest.http.as_slice();
    let servers = server_confs(alloc, http, nest.servers.take(alloc))?;
    let zones = nest.zones.take_listing(alloc)?;
    let package = text_or(b"lua/?.lua", effect_in(http, Directive::LuaPackagePath))?;
    Ok(Conf {
        port: numbers.port,
        connections: numbers.connections,
        log_level: numbers.log_level,
        zones,
        package,
        blocks: nest.blocks.take(alloc),
        init: numbers.init,
        default_server: numbers.default_server,
        servers,
    })
}
