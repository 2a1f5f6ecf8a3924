//! Why a call on a request is refused.

use std::alloc::AllocError;
use thiserror::Error;

/// Why a call on a request is refused. The request is as it was then.
#[derive(Clone, Copy, Debug, PartialEq, Eq, Error)]
pub enum ReqFault {
    /// What was asked for may not be.
    #[error("bad request")]
    BadRequest,
    /// Out of memory.
    #[error("out of memory")]
    Memory,
}

impl From<AllocError> for ReqFault {
    ghost use Rattle.std.specs.Prelude.{◌≡◌};
    ghost use Rattle.request_api.specs.declared.faults.ReqFault.TheVariants.{Memory};

    ghost from_gives = { λ _ fault. fault ≡ Memory };

    fn from(_error: AllocError) -> ReqFault {
        ReqFault::Memory
    }
}
