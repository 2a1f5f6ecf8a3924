//! Why the modules of a site can't be read.

ghost use Rattle.std.specs.Prelude.{◌≡◌};

use crate::ModuleFault;
use resty_base::Bytes;
use std::alloc::{AllocError, AllocFailed};

/// Why the modules of a site can't be read; of a file its name.
#[derive(Debug, PartialEq, Eq, Drop)]
pub enum ModuleFileFault {
    Missing(Bytes),
    /// The file has more than 1,048,576 bytes.
    TooLong(Bytes),
    /// The file can't be read.
    Unreadable(Bytes),
    /// The file's text is no chunk of Lua.
    Refused(Bytes, ModuleFault),
    /// More than 256 modules are required that aren't built in.
    TooMany,
    /// Out of memory.
    Memory,
}

impl From<AllocError> for ModuleFileFault {
    ghost use Rattle.std.specs.Prelude.{◌≡◌};
    ghost use Rattle.lua_modules.specs.declared.file_faults.ModuleFileFault.TheVariants.{Memory};

    ghost from_gives = { λ below fault. fault ≡ Memory };

    fn from(_fault: AllocError) -> ModuleFileFault {
        ModuleFileFault::Memory
    }
}

impl<T: Drop> From<AllocFailed<T>> for ModuleFileFault {
    ghost use Rattle.std.specs.Prelude.{◌≡◌};
    ghost use Rattle.lua_modules.specs.declared.file_faults.ModuleFileFault.TheVariants.{Memory};

    ghost from_gives = { λ below fault. fault ≡ Memory };

    fn from(_fault: AllocFailed<T>) -> ModuleFileFault {
        ModuleFileFault::Memory
    }
}
