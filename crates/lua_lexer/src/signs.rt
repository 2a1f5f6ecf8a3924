//! Signs: the tokens that are no name, keyword, string or numeral.

ghost use Rattle.std.specs.Prelude.{◌≡◌, ◌≤◌, ◌<◌, IsSome, IfOk, length};
ghost use Rattle.lua_lexer.specs.Signs.{sign_of_one, sign_of_two, short_sign, longest_sign};
ghost use Rattle.lua_lexer.specs.Pieces.{IsPieceOf};

use crate::LexFault;
use crate::tokens::{Piece, TokenKind};
use resty_base::byte_at;

/// A token that is no name, keyword, string or numeral.
#[derive(Clone, Copy, Debug, PartialEq, Eq)]
pub enum Sign {
    Plus,
    Minus,
    Star,
    Slash,
    Percent,
    Caret,
    Hash,
    /// `==`
    Equal,
    /// `~=`
    NotEqual,
    LessEqual,
    GreaterEqual,
    Less,
    Greater,
    /// `=`
    Assign,
    OpenParenthesis,
    CloseParenthesis,
    OpenBrace,
    CloseBrace,
    OpenBracket,
    CloseBracket,
    Semicolon,
    Colon,
    Comma,
    Dot,
    /// `..`
    Concat,
    /// `...`
    Ellipsis,
}

/// The sign that a byte is.
#[tactic(auto, unfolding(crate::specs::Signs::sign_of_one))]
fn sign_of_one(byte: u8) -> Option<Sign>
    ensures { result ≡ sign_of_one byte }
{
    match byte {
        b'+' => Some(Sign::Plus),
        b'-' => Some(Sign::Minus),
        b'*' => Some(Sign::Star),
        b'/' => Some(Sign::Slash),
        b'%' => Some(Sign::Percent),
        b'^' => Some(Sign::Caret),
        b'#' => Some(Sign::Hash),
        b'<' => Some(Sign::Less),
        b'>' => Some(Sign::Greater),
        b'=' => Some(Sign::Assign),
        b'(' => Some(Sign::OpenParenthesis),
        b')' => Some(Sign::CloseParenthesis),
        b'{' => Some(Sign::OpenBrace),
        b'}' => Some(Sign::CloseBrace),
        b'[' => Some(Sign::OpenBracket),
        b']' => Some(Sign::CloseBracket),
        b';' => Some(Sign::Semicolon),
        b':' => Some(Sign::Colon),
        b',' => Some(Sign::Comma),
        b'.' => Some(Sign::Dot),
        _ => None,
    }
}

/// The sign that two bytes are.
#[tactic(auto, unfolding(crate::specs::Signs::sign_of_two))]
fn sign_of_two(first: u8, second: u8) -> Option<Sign>
    ensures value { result ≡ sign_of_two first second }
    ensures second { IsSome result → 0 < second }
{
    match (first, second) {
        (b'.', b'.') => Some(Sign::Concat),
        (b'=', b'=') => Some(Sign::Equal),
        (b'~', b'=') => Some(Sign::NotEqual),
        (b'<', b'=') => Some(Sign::LessEqual),
        (b'>', b'=') => Some(Sign::GreaterEqual),
        _ => None,
    }
}

/// The sign of one byte at the front.
#[tactic(auto, unfolding(crate::specs::Signs::short_sign))]
fn short_sign(text: &[u8], line: u32) -> Result<Piece, LexFault>
    requires { 0 < length text.now }
    ensures value { result ≡ short_sign line text.now }
    ensures within { IfOk result (IsPieceOf text.now) }
{
    let first = text[0];
    if first == b'.' && byte_at(text, 1).is_ascii_digit() {
        return Err(LexFault::Fraction(line));
    }
    match sign_of_one(first) {
        Some(sign) => Ok(Piece {
            kind: Some(TokenKind::Sign(sign)),
            size: 1,
        }),
        None => Err(LexFault::BadByte(line)),
    }
}

/// The longest sign at the front.
#[tactic(auto, unfolding(crate::specs::Signs::longest_sign))]
pub(crate) fn longest_sign(text: &[u8], line: u32) -> Result<Piece, LexFault>
    requires { 0 < length text.now }
    ensures value { result ≡ longest_sign line text.now }
    ensures within { IfOk result (IsPieceOf text.now) }
{
    let first = byte_at(text, 0);
    let second = byte_at(text, 1);
    if first == b'.' && second == b'.' && byte_at(text, 2) == b'.' {
        return Ok(Piece {
            kind: Some(TokenKind::Sign(Sign::Ellipsis)),
            size: 3,
        });
    }
    match sign_of_two(first, second) {
        Some(sign) => Ok(Piece {
            kind: Some(TokenKind::Sign(sign)),
            size: 2,
        }),
        None => short_sign(text, line),
    }
}
