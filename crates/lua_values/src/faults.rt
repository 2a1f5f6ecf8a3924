//! Why a call of a store is refused.

use std::alloc::{AllocError, AllocFailed};
use thiserror::Error;

/// Why a call of a store is refused. Where several causes stand together, `BadKey` comes before `Frozen`, that before
/// `Full`, and that before `Memory`. `Display` writes the message of Lua, or the variant's name where Lua has none.
#[derive(Clone, Copy, Debug, Error)]
pub enum StoreFault {
    /// The units would pass 1,048,576.
    #[error("not enough memory (storage limit)")]
    Full,
    /// The table or the cell is frozen.
    #[error("Frozen")]
    Frozen,
    /// The key is nil.
    #[error("table index is nil")]
    BadKey,
    /// Out of memory.
    #[error("Memory")]
    Memory,
}

impl From<AllocError> for StoreFault {
    ghost use Rattle.std.specs.Prelude.{◌≡◌};
    ghost use Rattle.lua_values.specs.declared.faults.StoreFault.TheVariants.{Memory};

    ghost from_gives = { λ _ fault. fault ≡ Memory };

    fn from(_error: AllocError) -> StoreFault {
        StoreFault::Memory
    }
}

impl<T: Drop> From<AllocFailed<T>> for StoreFault {
    ghost use Rattle.std.specs.Prelude.{◌≡◌};
    ghost use Rattle.lua_values.specs.declared.faults.StoreFault.TheVariants.{Memory};

    ghost from_gives = { λ _ fault. fault ≡ Memory };

    fn from(_error: AllocFailed<T>) -> StoreFault {
        StoreFault::Memory
    }
}
