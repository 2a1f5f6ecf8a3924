//! Why tokens are no program.
use std::alloc::{AllocError, AllocFailed};
use std::error::Error;
use std::fmt::{self, Debug, Display, Formatter, Write};

/// Why tokens are no program, with the line of a token. `Display` writes the variant's name alone.
#[derive(Clone, Copy, PartialEq, Eq)]
pub enum ParseFault {
    /// The first token that fits nothing, or the last one where the text ends too soon.
    At(u32),
    /// More than 200 constructs are open here, or the expression is higher than 4,000.
    Depth(u32),
    /// A function has more than 200 locals in scope.
    Locals(u32),
    /// A function has more than 60 captures.
    Upvalues(u32),
    /// The `(` of a call isn't on the line of the token before it.
    Ambiguous(u32),
    /// A `break` stands outside any loop of its function.
    BreakOutside(u32),
    /// A `...` stands in a function that takes none.
    VarargOutside(u32),
    /// Out of memory.
    Memory,
}

impl ParseFault {
    /// The variant's name.
    fn name(self) -> &'static str {
        match self {
            ParseFault::At(_) => "At",
            ParseFault::Depth(_) => "Depth",
            ParseFault::Locals(_) => "Locals",
            ParseFault::Upvalues(_) => "Upvalues",
            ParseFault::Ambiguous(_) => "Ambiguous",
            ParseFault::BreakOutside(_) => "BreakOutside",
            ParseFault::VarargOutside(_) => "VarargOutside",
            ParseFault::Memory => "Memory",
        }
    }

    /// The line, where the variant has one.
    fn line(self) -> Option<u32> {
        match self {
            ParseFault::At(line)
            | ParseFault::Depth(line)
            | ParseFault::Locals(line)
            | ParseFault::Upvalues(line)
            | ParseFault::Ambiguous(line)
            | ParseFault::BreakOutside(line)
            | ParseFault::VarargOutside(line) => Some(line),
            ParseFault::Memory => None,
        }
    }
}

impl Display for ParseFault {
    fn fmt<W: Write>(&self, f: &mut Formatter<W>) -> fmt::Result {
        f.write_str(self.name())
    }
}

impl Debug for ParseFault {
    fn fmt<W: Write>(&self, f: &mut Formatter<W>) -> fmt::Result {
        match self.line() {
            Some(line) => f.debug_tuple(self.name()).field(&line).finish(),
            None => f.write_str(self.name()),
        }
    }
}

impl Error for ParseFault {}

impl From<AllocError> for ParseFault {
    ghost use Rattle.std.specs.Prelude.{◌≡◌};
    ghost use Rattle.lua_parser_base.specs.declared.faults.ParseFault.TheVariants.{Memory};

    ghost from_gives = { λ _ fault. fault ≡ Memory };

    fn from(_error: AllocError) -> ParseFault {
        ParseFault::Memory
    }
}

impl<T: Drop> From<AllocFailed<T>> for ParseFault {
    ghost use Rattle.std.specs.Prelude.{◌≡◌};
    ghost use Rattle.lua_parser_base.specs.declared.faults.ParseFault.TheVariants.{Memory};

    ghost from_gives = { λ _ fault. fault ≡ Memory };

    fn from(_error: AllocFailed<T>) -> ParseFault {
        ParseFault::Memory
    }
}
