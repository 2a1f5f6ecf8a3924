//! A script is what its site's connections go by, with a minute for all that is waited for.

ghost use Rattle.std.specs.Prelude.{◌≡◌};
ghost use Rattle.connection_plan.specs.Serving.{times};
ghost use Rattle.connection_plan.specs.Stored.{minute};

use crate::run::ScriptedRun;
use crate::script::Script;
use connection_plan::{ServiceContract, Times};
use http_in::Head;
use resty_base::{Bytes, Ms};
use std::alloc::{AllocError, Global};
use uri_args::Target;

/// A minute for all.
fn minute() -> Times
    ensures { times result ≡ minute }
{
    let time = Ms(60_000);
    Times {
        header: time,
        keepalive: time,
        body: time,
        send: time,
    }
}

impl ServiceContract for ScriptedRun {
    ghost use Rattle.run_scripts.specs.Scripted.{scripted_serving, most};

    ghost serving = { λ site. scripted_serving };

    ghost bound = { 41 };

    ghost bounded = { λ site. most };

    fn default_times(_site: &Script) -> Times {
        minute()
    }

    fn times_of(_site: &Script, _head: &Head, _target: &Target) -> Times {
        minute()
    }

    fn refusal(_alloc: Global, _site: &Script, _code: u16, _now: Ms) -> Result<Bytes, AllocError> {
        Ok(Bytes::from_static(b"refused"))
    }

    fn connections(_site: &Script) -> u32 {
        512
    }
}
