//! What holds for a request to a site: its server, its location there, and their settings.

ghost use Rattle.std.specs.Prelude.{◌≡◌, ◌<◌, [], length, option_copied, unwrap_or, Some};
ghost use Rattle.conf.specs.Reading.{IsWhole};
ghost use Rattle.reply_stages.specs.Scopes as spec;
ghost use Rattle.reply_stages.specs.Views.{scope_seen};

use conf::{Conf, LocationConf, Route, ServerConf, Settings, a_request_has_one_route, route_for};
use uri_args::Target;

/// The host of the target, empty where it names none.
fn host_of(target: &Target) -> &[u8]
    ensures { result.now ≡ unwrap_or target.now.host [] }
{
    match &target.host {
        Some(host) => host.as_slice(),
        None => &[],
    }
}

/// The route of the target, by its host and its path.
fn route_to(conf: &Conf, target: &Target) -> Route
    requires { IsWhole conf.now }
    ensures value { result ≡ spec.route_to conf.now target.now }
    ensures there { result.server < length conf.now.servers }
{
    a_request_has_one_route();
    route_for(conf, host_of(target), &target.path)
}

/// The location of this number.
fn location_at(server: &ServerConf, number: Option<u32>) -> Option<&LocationConf>
    ensures { option_copied result ≡ spec.location_at server.now number }
{
    match number {
        Some(number) => server.locations.as_slice().get(number as usize),
        None => None,
    }
}

/// The server that a request is for, and its location there.
#[derive(Drop)]
pub struct Scope<'a> {
    pub server: &'a ServerConf,
    pub location: Option<&'a LocationConf>,
}

impl Scope<'_> {
    /// The settings of the location, else of the server.
    pub fn settings(&self) -> &Settings
        ensures { result.now ≡ spec.settings_of (scope_seen self.now) }
    {
        match self.location {
            Some(location) => &location.settings,
            None => &self.server.settings,
        }
    }
}

/// The server and the location that a target is for.
pub fn scope_of<'a>(conf: &'a Conf, target: &Target) -> Scope<'a>
    requires { IsWhole conf.now }
    ensures { spec.scope_of conf.now target.now ≡ Some (scope_seen result) }
{
    let route = route_to(conf, target);
    let server = &conf.servers.as_slice()[route.server as usize];
    Scope {
        server,
        location: location_at(server, route.location),
    }
}
