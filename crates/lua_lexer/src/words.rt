//! Names and keywords.

ghost use Rattle.std.specs.Prelude.{◌≡◌, ◌≤◌, ◌<◌, ◌==◌, bytes_eq, filter, find, Ok, IfOk, IsTrue, length, slice_index, take};
ghost use Rattle.lua_lexer.specs.Characters.{is_word_start};
ghost use Rattle.lua_lexer.specs.Words.{spelling, words, word_of, kind_of_word, name_or_word};
ghost use Rattle.lua_lexer.specs.Pieces.{IsPieceOf};
ghost use Rattle.lua_lexer.specs.Readings.{Gives};

use crate::LexFault;
use crate::characters::word_bytes;
use crate::tokens::{Piece, TokenKind};
use resty_base::{Bytes, byte_at, first_bytes};

/// A keyword.
#[derive(Clone, Copy, Debug, PartialEq, Eq)]
pub enum Word {
    And,
    Break,
    Do,
    Else,
    ElseIf,
    End,
    False,
    For,
    Function,
    If,
    In,
    Local,
    Nil,
    Not,
    Or,
    Repeat,
    Return,
    Then,
    True,
    Until,
    While,
}

/// How a keyword is written.
#[tactic(auto, unfolding(crate::specs::Words::spelling))]
fn spelling(word: Word) -> &'static [u8]
    ensures { result.now ≡ spelling word }
{
    match word {
        Word::And => b"and",
        Word::Break => b"break",
        Word::Do => b"do",
        Word::Else => b"else",
        Word::ElseIf => b"elseif",
        Word::End => b"end",
        Word::False => b"false",
        Word::For => b"for",
        Word::Function => b"function",
        Word::If => b"if",
        Word::In => b"in",
        Word::Local => b"local",
        Word::Nil => b"nil",
        Word::Not => b"not",
        Word::Or => b"or",
        Word::Repeat => b"repeat",
        Word::Return => b"return",
        Word::Then => b"then",
        Word::True => b"true",
        Word::Until => b"until",
        Word::While => b"while",
    }
}

/// The keywords that begin with this byte.
#[tactic(auto, unfolding(crate::specs::Words::words, crate::specs::Words::spelling))]
fn words_from(first: u8) -> &'static [Word]
    ensures { result.now ≡ filter (λ word. first == slice_index (spelling word) 0) words }
{
    match first {
        b'a' => &[Word::And],
        b'b' => &[Word::Break],
        b'd' => &[Word::Do],
        b'e' => &[Word::Else, Word::ElseIf, Word::End],
        b'f' => &[Word::False, Word::For, Word::Function],
        b'i' => &[Word::If, Word::In],
        b'l' => &[Word::Local],
        b'n' => &[Word::Nil, Word::Not],
        b'o' => &[Word::Or],
        b'r' => &[Word::Repeat, Word::Return],
        b't' => &[Word::Then, Word::True],
        b'u' => &[Word::Until],
        b'w' => &[Word::While],
        _ => &[],
    }
}

/// The one of these keywords that is written so.
fn word_among(words: &[Word], name: &[u8]) -> Option<Word>
    ensures { result ≡ find (λ word. bytes_eq (spelling word) name.now) words.now }
{
    words.iter().copied().find(|word| spelling(*word) == name)
}

/// The keyword that is written so.
fn word_of(name: &[u8]) -> Option<Word>
    ensures { result ≡ word_of name.now }
{
    word_among(words_from(byte_at(name, 0)), name)
}

/// The keyword that the first bytes of a text are, or else a name, which shares the text.
#[tactic(auto, unfolding(crate::specs::Words::kind_of_word))]
fn kind_of_word(text: &Bytes, size: usize) -> Result<TokenKind, LexFault>
    requires { size ≤ length text.now }
    ensures { Gives (λ kind. kind) result (Ok (kind_of_word (take size text.now))) }
{
    match word_of(first_bytes(text.as_slice(), size)) {
        Some(word) => Ok(TokenKind::Word(word)),
        None => Ok(TokenKind::Name(text.slice(..size)?)),
    }
}

/// The name or the keyword at the front.
#[tactic(auto, unfolding(crate::specs::Words::name_or_word))]
pub(crate) fn name_or_word(text: &Bytes) -> Result<Piece, LexFault>
    requires { IsTrue (is_word_start (slice_index text.now 0)) }
    ensures value { Gives (λ piece. piece) result (Ok (name_or_word text.now)) }
    ensures within { IfOk result (IsPieceOf text.now) }
{
    let size = word_bytes(text.as_slice());
    let kind = Some(kind_of_word(text, size)?);
    Ok(Piece { kind, size })
}
