//! Why a text is no configuration.

use std::alloc::{AllocError, AllocFailed};
use std::fmt;

/// Why a text is no configuration. Lines are numbered from 1; that of `At` is the line of what stands at the wrong place,
/// or of the last token where the text ends too soon, and the other ones are those of the directive's name.
#[derive(Clone, Copy)]
pub enum ConfFault {
    At(usize),
    Unknown(usize),
    Twice(usize),
    Value(usize),
    Place(usize),
    Block(usize),
    /// Out of memory, or there is more of a kind than numbers of 32 bits count.
    Memory,
}

impl fmt::Debug for ConfFault {
    fn fmt<W: fmt::Write>(&self, f: &mut fmt::Formatter<W>) -> fmt::Result {
        let (name, line) = match self {
            ConfFault::At(line) => ("At", line),
            ConfFault::Unknown(line) => ("Unknown", line),
            ConfFault::Twice(line) => ("Twice", line),
            ConfFault::Value(line) => ("Value", line),
            ConfFault::Place(line) => ("Place", line),
            ConfFault::Block(line) => ("Block", line),
            ConfFault::Memory => return f.write_str("Memory"),
        };
        f.debug_tuple(name).field(line).finish()
    }
}

impl From<AllocError> for ConfFault {
    ghost use Rattle.std.specs.Prelude.{◌≡◌};
    ghost use Rattle.conf.specs.declared.faults.ConfFault.TheVariants.{Memory};

    ghost from_gives = { λ _ fault. fault ≡ Memory };

    fn from(_error: AllocError) -> ConfFault {
        ConfFault::Memory
    }
}

impl<T: Drop> From<AllocFailed<T>> for ConfFault {
    ghost use Rattle.std.specs.Prelude.{◌≡◌};
    ghost use Rattle.conf.specs.declared.faults.ConfFault.TheVariants.{Memory};

    ghost from_gives = { λ _ fault. fault ≡ Memory };

    fn from(_error: AllocFailed<T>) -> ConfFault {
        ConfFault::Memory
    }
}
