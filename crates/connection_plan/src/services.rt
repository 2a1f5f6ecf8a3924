//! The contract that a run's site meets.

use http_in::Head;
use resty_base::{Bytes, Ms};
use run_contract::RunContract;
use std::alloc::{AllocError, Global};
use uri_args::Target;

/// How long is waited: for a head, for the next request, for more of a body, until the client takes bytes.
#[derive(Clone, Copy, Debug, PartialEq, Eq)]
pub struct Times {
    pub header: Ms,
    pub keepalive: Ms,
    pub body: Ms,
    pub send: Ms,
}

/// A run, whose site serves the connections that it answers.
pub trait ServiceContract: RunContract {
    ghost use Rattle.std.specs.Prelude.{◌≡◌, ◌≤◌, ℕ, IfOk};
    ghost use Rattle.connection_plan.specs.Serving.{Serving, times};

    /// What the site is to its connections, beside its runs.
    ghost serving: { Self.Site → Serving };

    /// The most that a run of any site can do from its beginning, until it waits for a socket or the client.
    ghost bound: { ℕ };

    /// The times of the default server.
    fn default_times(site: &Self::Site) -> Times
        ensures { times result ≡ (serving site.now).default_times };

    /// The times of a request.
    fn times_of(site: &Self::Site, head: &Head, target: &Target) -> Times
        ensures { times result ≡ (serving site.now).times_of head.now target.now };

    /// The reply to a head that is refused with this status now.
    fn refusal(alloc: Global, site: &Self::Site, code: u16, now: Ms) -> Result<Bytes, AllocError>
        ensures { IfOk result (λ reply. reply ≡ (serving site.now).refusal code now.0) };

    /// How many connections may be open at a time.
    fn connections(site: &Self::Site) -> u32
        ensures { result ≡ (serving site.now).connections };

    /// No run can do more than that.
    ghost bounded: { (site : Self.Site) → Self.most site ≤ bound };
}
