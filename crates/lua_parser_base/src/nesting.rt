//! How constructs nest: how many are open, how high an expression may be, and whether `...` and `break` may stand.
ghost use Rattle.std.specs.Prelude.{◌≤◌, ◌<◌, MatchResult};

use crate::ParseFault;

/// How many constructs may be open at once, the chunk among them.
pub(crate) const DEEPEST: u32 = 200;

/// The greatest height of an expression.
pub(crate) const HIGHEST: u32 = 4_000;

/// How a construct is nested in others.
#[derive(Clone, Copy)]
pub struct Nesting {
    /// The number of the construct among those that are open, from 1.
    pub depth: u32,
    /// How high an expression may be here.
    pub room: u32,
    /// Whether the enclosing function takes more arguments, as `...`.
    pub vararg: bool,
    /// Whether a loop of that function encloses it.
    pub in_loop: bool,
    ghost deep: { depth ≤ 200 },
    ghost roomy: { 1 ≤ room },
    ghost low: { room ≤ 4_000 },
}

impl Nesting {
    ghost use Rattle.lua_parser_base.specs.Next.{IsTooHigh};
    ghost use Rattle.lua_parser_base.specs.Nesting.{IsFresh, IsLooped, IsNarrower, IsOfFunction, IsOutermost};

    /// That of the chunk's block.
    pub fn outermost() -> Nesting
        ensures { IsOutermost result }
    {
        Nesting {
            depth: 1,
            room: HIGHEST,
            vararg: true,
            in_loop: false,
        }
    }

    /// The same, in a loop.
    pub fn looped(self) -> Nesting
        ensures { IsLooped self result }
    {
        Nesting {
            depth: self.depth,
            room: self.room,
            vararg: self.vararg,
            in_loop: true,
        }
    }

    /// That of the block of a function.
    pub fn of_function(self, vararg: bool) -> Nesting
        ensures { IsOfFunction vararg self result }
    {
        Nesting {
            depth: self.depth,
            room: HIGHEST,
            vararg,
            in_loop: false,
        }
    }

    /// That of an expression that stands in no other.
    pub fn fresh(self) -> Nesting
        ensures { IsFresh self result }
    {
        Nesting {
            depth: self.depth,
            room: HIGHEST,
            vararg: self.vararg,
            in_loop: self.in_loop,
        }
    }

    /// The same, for an expression that is a part of one here.
    pub fn narrower(self) -> Nesting
        ensures { IsNarrower self result }
    {
        Nesting {
            depth: self.depth,
            room: (self.room - 1).max(1),
            vararg: self.vararg,
            in_loop: self.in_loop,
        }
    }

    /// Whether an expression of that height may be a part of one here. The line is that of the token that makes it one.
    pub fn above(self, height: u32, line: u32) -> Result<(), ParseFault>
        ensures { MatchResult result (λ _. height < self.room) (IsTooHigh self height line) }
    {
        if height < self.room {
            Ok(())
        } else {
            Err(ParseFault::Depth(line))
        }
    }
}
