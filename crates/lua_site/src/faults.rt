//! Why a site of Lua doesn't start.

ghost use Rattle.std.specs.Prelude.{◌≡◌};
ghost use Rattle.lua_site.specs.Making.{cause_text};

use lua_operators::Fault;
use lua_values::StoreFault;
use resty_base::Bytes;
use std::alloc::{AllocError, AllocFailed};

/// Why a site of Lua doesn't start.
#[derive(Debug, Drop)]
pub enum LuaSiteFault {
    /// A prelude or the init block failed, or there was no room for what the start makes: the message.
    Init(Bytes),
    /// Out of memory.
    Memory,
}

impl From<StoreFault> for LuaSiteFault {
    ghost use Rattle.std.specs.Prelude.{◌≡◌};
    ghost use Rattle.lua_site.specs.Making.{of_store};

    ghost from_gives = { λ below fault. fault ≡ of_store below };

    fn from(fault: StoreFault) -> LuaSiteFault {
        match fault {
            StoreFault::Memory => LuaSiteFault::Memory,
            cause => LuaSiteFault::Init(cause_text(cause)),
        }
    }
}

impl From<AllocError> for LuaSiteFault {
    ghost use Rattle.std.specs.Prelude.{◌≡◌};
    ghost use Rattle.lua_site.specs.declared.faults.LuaSiteFault.TheVariants.{Memory};

    ghost from_gives = { λ below fault. fault ≡ Memory };

    fn from(_fault: AllocError) -> LuaSiteFault {
        LuaSiteFault::Memory
    }
}

impl<T: Drop> From<AllocFailed<T>> for LuaSiteFault {
    ghost use Rattle.std.specs.Prelude.{◌≡◌};
    ghost use Rattle.lua_site.specs.declared.faults.LuaSiteFault.TheVariants.{Memory};

    ghost from_gives = { λ below fault. fault ≡ Memory };

    fn from(_fault: AllocFailed<T>) -> LuaSiteFault {
        LuaSiteFault::Memory
    }
}

/// The text of a refusal of the store.
fn cause_text(cause: StoreFault) -> Bytes
    ensures { result ≡ cause_text cause }
{
    let fault = match cause {
        StoreFault::BadKey => Fault::NilKey,
        StoreFault::Frozen => Fault::FrozenTable,
        StoreFault::Full | StoreFault::Memory => Fault::StorageLimit,
    };
    Bytes::from_static(fault.text())
}
