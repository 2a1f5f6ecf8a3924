//! The contract of a site that serves connections, met.

ghost use Rattle.std.specs.Prelude.{◌≡◌, slice_get, Some};
ghost use Rattle.connection_plan.specs.Serving.{times};
ghost use Rattle.conf.specs.Reading.{IsWhole};
ghost use Rattle.lua_run.specs.Services as spec;

use crate::{LuaRun, Site};
use conf::{Conf, ServerConf, Settings};
use connection_plan::{ServiceContract, Times};
use http_in::Head;
use lua_machine::Machine;
use reply_stages::{refusal, scope_of};
use resty_base::{Bytes, Ms};
use std::alloc::{AllocError, Global};
use uri_args::Target;

/// The times of these settings, with that of the default server for heads.
fn times_by(header: Ms, settings: &Settings) -> Times
    ensures { times result ≡ spec.times_by header.0 settings.now }
{
    Times {
        header,
        keepalive: settings.keepalive_timeout,
        body: settings.body_timeout,
        send: settings.send_timeout,
    }
}

/// The server of requests whose host no server names.
fn default_server(conf: &Conf) -> &ServerConf
    requires { IsWhole conf.now }
    ensures { slice_get conf.now.servers conf.now.default_server ≡ Some result.now }
{
    &conf.servers.as_slice()[conf.default_server as usize]
}

/// The times of that server.
fn default_times(conf: &Conf) -> Times
    requires { IsWhole conf.now }
    ensures { times result ≡ spec.default_times conf.now }
{
    let server = default_server(conf);
    times_by(server.header_timeout, &server.settings)
}

/// The times of a request.
fn times_of(conf: &Conf, target: &Target) -> Times
    requires { IsWhole conf.now }
    ensures { times result ≡ spec.times_of conf.now target.now }
{
    let header = default_times(conf).header;
    let scope = scope_of(conf, target);
    times_by(header, scope.settings())
}

impl<M: Machine> ServiceContract for LuaRun<M> {
    ghost use Rattle.lua_run.specs.Services.{lua_serving};
    ghost use Rattle.lua_run.specs.Views.{site_seen};
    ghost use Rattle.lua_run.specs.RunLaws.{seven};

    ghost serving = { λ site. lua_serving (site_seen M.life site) };

    ghost bound = { 7 };

    ghost bounded = { λ site. seven };

    fn default_times(site: &Site<M>) -> Times {
        default_times(&site.conf)
    }

    fn times_of(site: &Site<M>, _head: &Head, target: &Target) -> Times {
        times_of(&site.conf, target)
    }

    fn refusal(alloc: Global, _site: &Site<M>, code: u16, now: Ms) -> Result<Bytes, AllocError> {
        refusal(alloc, code, now)
    }

    fn connections(site: &Site<M>) -> u32 {
        site.conf.connections
    }
}
