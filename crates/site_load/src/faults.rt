//! Why files hold no site.

use resty_base::Bytes;
use site_check::CheckFault;
use std::alloc::{AllocError, AllocFailed};

/// Why files hold no site. A file is told by its name, and a line is numbered from 1.
#[derive(Drop)]
pub enum SiteFault {
    /// There is no such file.
    Missing(Bytes),
    /// The file has more bytes than it may.
    TooLong(Bytes),
    /// The file can't be read.
    Unreadable(Bytes),
    /// The text of the file is refused.
    Refused(Bytes, CheckFault),
    /// The block of Lua that begins in this line of the file is a handler of a phase in which none is run yet.
    NotBuilt(Bytes, u32),
    /// More than 256 modules are required.
    TooManyModules,
    /// A prelude or the init block failed, with this message.
    Init(Bytes),
    /// Memory ran out.
    Memory,
}

impl From<AllocError> for SiteFault {
    ghost use Rattle.std.specs.Prelude.{◌≡◌};
    ghost use Rattle.site_load.specs.declared.faults.SiteFault.TheVariants.{Memory};

    ghost from_gives = { λ _ fault. fault ≡ Memory };

    fn from(_error: AllocError) -> SiteFault {
        SiteFault::Memory
    }
}

impl<T: Drop> From<AllocFailed<T>> for SiteFault {
    ghost use Rattle.std.specs.Prelude.{◌≡◌};
    ghost use Rattle.site_load.specs.declared.faults.SiteFault.TheVariants.{Memory};

    ghost from_gives = { λ _ fault. fault ≡ Memory };

    fn from(_error: AllocFailed<T>) -> SiteFault {
        SiteFault::Memory
    }
}
