//! Numerals, decimal and hexadecimal.

ghost use Rattle.std.specs.Prelude.{◌≡◌, ◌≤◌, IfOk, IsTrue, length, slice_index};
ghost use Rattle.std.specs.Char.{is_ascii_digit};
ghost use Rattle.lua_lexer.specs.Numerals.{number_of, decimal, hexadecimal, numeral, is_fraction_mark};
ghost use Rattle.lua_lexer.specs.Pieces.{IsPieceOf};

use crate::LexFault;
use crate::characters::{digits, hex_digits, is_word_byte};
use crate::tokens::{Piece, TokenKind};
use resty_base::{byte_at, bytes_after, first_bytes};

/// The number that a whole numeral writes.
#[tactic(auto, unfolding(crate::specs::Numerals::number_of))]
fn number_of(text: &[u8], line: u32) -> Result<Piece, LexFault>
    ensures value { result ≡ number_of line text.now }
    ensures size { IfOk result (λ piece. piece.size ≡ length text.now) }
{
    match lua_numbers::number_of(text) {
        Some(number) => Ok(Piece {
            kind: Some(TokenKind::Number(number)),
            size: text.len(),
        }),
        None => Err(LexFault::Range(line)),
    }
}

/// A point, or a letter that begins an exponent.
fn is_fraction_mark(byte: u8) -> bool
    ensures { result ≡ is_fraction_mark byte }
{
    byte == b'.' || byte == b'e' || byte == b'E'
}

#[tactic(auto, unfolding(crate::specs::Numerals::decimal))]
fn decimal(text: &[u8], line: u32) -> Result<Piece, LexFault>
    requires { IsTrue (is_ascii_digit (slice_index text.now 0)) }
    ensures value { result ≡ decimal line text.now }
    ensures within { IfOk result (IsPieceOf text.now) }
{
    let size = digits(text);
    let next = byte_at(text, size);
    if is_fraction_mark(next) {
        Err(LexFault::Fraction(line))
    } else if is_word_byte(next) {
        Err(LexFault::BadByte(line))
    } else {
        number_of(first_bytes(text, size), line)
    }
}

#[tactic(auto, unfolding(crate::specs::Numerals::hexadecimal))]
fn hexadecimal(text: &[u8], line: u32) -> Result<Piece, LexFault>
    requires { 2 ≤ length text.now }
    ensures value { result ≡ hexadecimal line text.now }
    ensures within { IfOk result (IsPieceOf text.now) }
{
    let digits = hex_digits(bytes_after(text, 2));
    let size = digits + 2;
    if digits == 0 || is_word_byte(byte_at(text, size)) {
        return Err(LexFault::BadByte(line));
    }
    number_of(first_bytes(text, size), line)
}

/// The numeral at the front.
#[tactic(auto, unfolding(crate::specs::Numerals::numeral))]
pub(crate) fn numeral(text: &[u8], line: u32) -> Result<Piece, LexFault>
    requires { IsTrue (is_ascii_digit (slice_index text.now 0)) }
    ensures value { result ≡ numeral line text.now }
    ensures within { IfOk result (IsPieceOf text.now) }
{
    if byte_at(text, 0) == b'0' && byte_at(text, 1) == b'x' {
        hexadecimal(text, line)
    } else {
        decimal(text, line)
    }
}
