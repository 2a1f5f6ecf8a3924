//! What a search gives: a match, how many tests it made, and the faults.

use crate::captures::Cap;
use std::alloc::{AllocError, AllocFailed};
use thiserror::Error;

/// A match: the indices of its first byte and of the byte after its last, and its captures in the order of their
/// opening parentheses. Indices count from 0.
#[derive(Debug, PartialEq, Eq, Drop)]
pub struct Found {
    pub start: usize,
    pub end: usize,
    pub captures: Vec<Cap>,
}

/// How many tests a search made, and what it found.
#[derive(Debug, PartialEq, Eq, Drop)]
pub struct Searched {
    pub tests: u64,
    pub found: Option<Found>,
}

/// Why a search has no answer. `Display` writes the message of Lua, or the variant's name where Lua has none.
#[derive(Clone, Copy, Debug, PartialEq, Eq, Error)]
pub enum PatFault {
    /// A wrong item was reached, which begins at this index of the pattern; so many tests were made before.
    #[error("malformed pattern")]
    Malformed { at: usize, tests: u64 },
    /// More than 32 captures; so many tests were made before.
    #[error("too many captures")]
    Captures { tests: u64 },
    /// More tests than were allowed.
    #[error("pattern too complex")]
    Tests,
    /// Out of memory.
    #[error("Memory")]
    Memory,
}

impl From<AllocError> for PatFault {
    ghost use Rattle.std.specs.Prelude.{◌≡◌};
    ghost use Rattle.lua_patterns.specs.declared.answers.PatFault.TheVariants.{Memory};

    ghost from_gives = { λ _ fault. fault ≡ Memory };

    fn from(_error: AllocError) -> PatFault {
        PatFault::Memory
    }
}

impl<T: Drop> From<AllocFailed<T>> for PatFault {
    ghost use Rattle.std.specs.Prelude.{◌≡◌};
    ghost use Rattle.lua_patterns.specs.declared.answers.PatFault.TheVariants.{Memory};

    ghost from_gives = { λ _ fault. fault ≡ Memory };

    fn from(_error: AllocFailed<T>) -> PatFault {
        PatFault::Memory
    }
}
