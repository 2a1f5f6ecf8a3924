//! Tokens, pieces and the faults of a text.

use crate::{Sign, Word};
use resty_base::{Bytes, Whole};
use std::alloc::{AllocError, AllocFailed};
use thiserror::Error;

/// What a token is. A string and a name are kept as the bytes that they stand for.
#[derive(Debug, PartialEq, Eq, Drop)]
pub enum TokenKind {
    Name(Bytes),
    Text(Bytes),
    Number(Whole),
    Word(Word),
    Sign(Sign),
}

/// A token, with the line on which it begins and the index of its first byte and that of the byte after it.
#[derive(Debug, PartialEq, Eq, Drop)]
pub struct Token {
    pub kind: TokenKind,
    pub line: u32,
    pub start: usize,
    pub end: usize,
}

/// Why a text is no list of tokens, with its line; a string or a comment that isn't closed has the line
/// where it opened. `Display` writes the variant's name alone.
#[derive(Clone, Copy, Debug, PartialEq, Eq, Error)]
pub enum LexFault {
    /// A byte begins no token here.
    #[error("BadByte")]
    BadByte(u32),
    #[error("OpenString")]
    OpenString(u32),
    #[error("OpenComment")]
    OpenComment(u32),
    /// A backslash stands before what is no escape, or before a number above 255.
    #[error("BadEscape")]
    BadEscape(u32),
    /// A numeral has a fraction or an exponent.
    #[error("Fraction")]
    Fraction(u32),
    /// A number is above 99,999,999,999,999.
    #[error("Range")]
    Range(u32),
    /// The text has more than 1,048,576 bytes.
    #[error("TooLong")]
    TooLong(u32),
    /// Out of memory.
    #[error("Memory")]
    Memory,
}

impl LexFault {
    ghost use Rattle.std.specs.Prelude.{◌≡◌};
    ghost use Rattle.lua_lexer.specs.Order.{line_of};

    /// The line of the fault; out of memory has none.
    pub fn line(self) -> Option<u32>
        ensures { result ≡ line_of self }
    {
        match self {
            LexFault::BadByte(line)
            | LexFault::OpenString(line)
            | LexFault::OpenComment(line)
            | LexFault::BadEscape(line)
            | LexFault::Fraction(line)
            | LexFault::Range(line)
            | LexFault::TooLong(line) => Some(line),
            LexFault::Memory => None,
        }
    }
}

impl From<AllocError> for LexFault {
    ghost use Rattle.std.specs.Prelude.{◌≡◌};
    ghost use Rattle.lua_lexer.specs.declared.tokens.LexFault.TheVariants.{Memory};

    ghost from_gives = { λ _ fault. fault ≡ Memory };

    fn from(_error: AllocError) -> LexFault {
        LexFault::Memory
    }
}

impl<T: Drop> From<AllocFailed<T>> for LexFault {
    ghost use Rattle.std.specs.Prelude.{◌≡◌};
    ghost use Rattle.lua_lexer.specs.declared.tokens.LexFault.TheVariants.{Memory};

    ghost from_gives = { λ _ fault. fault ≡ Memory };

    fn from(_error: AllocFailed<T>) -> LexFault {
        LexFault::Memory
    }
}

/// What stands at the front of a text: a token, or where there is no kind blanks or a comment.
#[derive(Drop)]
pub(crate) struct Piece {
    pub kind: Option<TokenKind>,
    pub size: usize,
}
