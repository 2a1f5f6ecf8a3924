//! The site whose replies are kept in a dictionary meets the contract, so each of its calls can be made.

ghost use Rattle.std.specs.Prelude.{◌≡◌};
ghost use Rattle.connection_plan.specs.Serving.{times};
ghost use Rattle.connection_plan.specs.Stored.{minute};

use crate::{ServiceContract, Times};
use http_in::Head;
use resty_base::{Bytes, Ms};
use run_contract::{StoredReply, StoredSite};
use std::alloc::{AllocError, Global};
use uri_args::Target;

/// A minute for all.
fn minute() -> Times
    ensures { times result ≡ minute }
{
    let time = Ms(60_000);
    Times {
        header: time,
        keepalive: time,
        body: time,
        send: time,
    }
}

impl ServiceContract for StoredReply {
    ghost use Rattle.connection_plan.specs.Stored.{stored_serving, eight};

    ghost serving = { λ site. stored_serving site.otherwise };

    ghost bound = { 8 };

    ghost bounded = { λ site. eight };

    fn default_times(_site: &StoredSite) -> Times {
        minute()
    }

    fn times_of(_site: &StoredSite, _head: &Head, _target: &Target) -> Times {
        minute()
    }

    fn refusal(
        _alloc: Global,
        site: &StoredSite,
        _code: u16,
        _now: Ms,
    ) -> Result<Bytes, AllocError> {
        site.otherwise.clone()
    }

    fn connections(_site: &StoredSite) -> u32 {
        512
    }
}
