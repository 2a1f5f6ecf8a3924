//! Literal strings, in quotes and in long brackets.

ghost use Rattle.std.specs.Prelude.{◌≡◌, ◌≤◌, ◌<◌, ◌+◌, ◌^◌, ◌==◌, ◌||◌, Ok, IfOk, IfSome, IsTrue, length, slice_index, take, drop};
ghost use Rattle.std.specs.Char.{is_ascii_digit};
ghost use Rattle.lua_lexer.specs.Characters.{is_line_byte, line_ends};
ghost use Rattle.lua_lexer.specs.Brackets.{level_of};
ghost use Rattle.lua_lexer.specs.Strings.{is_quote, taken_along, body_len, escaped_byte, digits_escape, escape, first_element, decoded, short_string};
ghost use Rattle.lua_lexer.specs.Strings.{long_string};
ghost use Rattle.lua_lexer.specs.Readings.{Gives};
ghost use Rattle.lua_lexer.specs.Pieces.{IsPieceOf};

use crate::LexFault;
use crate::brackets::{inside_len, level_of};
use crate::characters::{digits, is_line_byte, line_end, line_ends, unified};
use crate::tokens::{Piece, TokenKind};
use lua_numbers::number_of;
use resty_base::{Bytes, byte_at, bytes_after, first_bytes};
use std::alloc::Global;

/// A byte of a short string, and how many bytes write it.
#[derive(Clone, Copy)]
struct Element {
    byte: u8,
    size: usize,
}

pub(crate) fn is_quote(byte: u8) -> bool
    ensures { result ≡ is_quote byte }
{
    byte == b'"' || byte == b'\''
}

/// How many bytes after a byte of a short string belong to it: after a backslash the next byte or a line end.
#[tactic(auto, unfolding(crate::specs::Strings::taken_along))]
fn taken_along(byte: u8, after: &[u8]) -> usize
    ensures value { result ≡ taken_along byte after.now }
    ensures within { result ≤ length after.now }
{
    if byte == b'\\' {
        line_end(after).max(1).min(after.len())
    } else {
        0
    }
}

/// The byte ends a short string's body: its quote, or its line's end.
fn ends_body(byte: u8, quote: u8) -> bool
    ensures { result ≡ (byte == quote || is_line_byte byte) }
{
    byte == quote || is_line_byte(byte)
}

/// How many bytes of a short string stand between its quotes, or before its line's end where it isn't closed.
pub(crate) fn body_len(text: &[u8], quote: u8) -> usize
    ensures value { result ≡ body_len quote text.now }
    ensures within { result ≤ length text.now }
{
    let mut rest = text;
    while !rest.is_empty() {
        let byte = rest[0];
        if ends_body(byte, quote) {
            return text.len() - rest.len();
        }
        let inside = bytes_after(rest, 1);
        rest = bytes_after(inside, taken_along(byte, inside));
    }
    text.len()
}

/// What the letter, backslash or quote after a backslash stands for.
#[tactic(auto, unfolding(crate::specs::Strings::escaped_byte))]
fn escaped_byte(byte: u8) -> Option<u8>
    ensures { result ≡ escaped_byte byte }
{
    match byte {
        b'a' => Some(7),
        b'b' => Some(8),
        b'f' => Some(12),
        b'n' => Some(b'\n'),
        b'r' => Some(b'\r'),
        b't' => Some(b'\t'),
        b'v' => Some(11),
        b'\\' | b'"' | b'\'' => Some(byte),
        _ => None,
    }
}

/// The byte whose number one to three digits write.
#[tactic(auto, unfolding(crate::specs::Strings::digits_escape), using(crate::proofs::Numbers::escape_number))]
fn digits_escape(text: &[u8]) -> Option<Element>
    requires { IsTrue (is_ascii_digit (slice_index text.now 0)) }
    ensures value { result ≡ digits_escape text.now }
    ensures within { IfSome result (λ escaped. escaped.size ≤ length text.now) }
{
    let size = digits(first_bytes(text, text.len().min(3)));
    let number = number_of(first_bytes(text, size))?.get();
    if number <= 255 {
        Some(Element {
            byte: number as u8,
            size,
        })
    } else {
        None
    }
}

/// The byte that stands after a backslash.
#[tactic(auto, unfolding(crate::specs::Strings::escape))]
fn escape(text: &[u8]) -> Option<Element>
    requires { 0 < length text.now }
    ensures value { result ≡ escape text.now }
    ensures within { IfSome result (λ escaped. escaped.size ≤ length text.now) }
{
    let first = text[0];
    if is_line_byte(first) {
        Some(Element {
            byte: b'\n',
            size: line_end(text),
        })
    } else if first.is_ascii_digit() {
        digits_escape(text)
    } else {
        let byte = escaped_byte(first)?;
        Some(Element { byte, size: 1 })
    }
}

/// The first byte that a short string's body stands for.
#[tactic(auto, unfolding(crate::specs::Strings::first_element))]
fn first_element(text: &[u8], line: u32) -> Result<Element, LexFault>
    requires { 0 < length text.now }
    ensures value { result ≡ first_element line text.now }
    ensures within { IfOk result (λ first. (0 < first.size) × (first.size ≤ length text.now)) }
{
    if text[0] != b'\\' || text.len() == 1 {
        return Ok(Element {
            byte: text[0],
            size: 1,
        });
    }
    match escape(bytes_after(text, 1)) {
        Some(escaped) => Ok(Element {
            byte: escaped.byte,
            size: escaped.size + 1,
        }),
        None => Err(LexFault::BadEscape(line)),
    }
}

/// What the body of a short string stands for.
fn decoded(alloc: Global, body: &[u8], line: u32) -> Result<Vec<u8>, LexFault>
    requires { line + length body.now < 2 ^ 32 }
    ensures { Gives (λ bytes. bytes.items) result (decoded line body.now) }
{
    let mut bytes = Vec::with_capacity(alloc, body.len())?;
    let mut line = line;
    let mut rest = body;
    while !rest.is_empty() {
        let first = first_element(rest, line)?;
        bytes.push(first.byte)?;
        line += line_ends(first_bytes(rest, first.size));
        rest = bytes_after(rest, first.size);
    }
    Ok(bytes)
}

/// What the body of as many bytes after the quote at the front stands for. One without a backslash shares the text.
#[tactic(auto, using(crate::proofs::PlainBodies::plain_body))]
fn body_value(alloc: Global, text: &Bytes, len: usize, line: u32) -> Result<Bytes, LexFault>
    requires within { len < length text.now }
    requires room { line + length text.now < 2 ^ 32 }
    ensures { Gives (λ bytes. bytes) result (decoded line (take len (drop 1 text.now))) }
{
    let body = first_bytes(bytes_after(text.as_slice(), 1), len);
    if body.contains(&b'\\') {
        Ok(Bytes::from_vec(decoded(alloc, body, line)?)?)
    } else {
        Ok(text.slice(1..len + 1)?)
    }
}

/// The short string at the front.
#[tactic(auto, unfolding(crate::specs::Strings::short_string))]
pub(crate) fn short_string(alloc: Global, text: &Bytes, line: u32) -> Result<Piece, LexFault>
    requires some { 0 < length text.now }
    requires quote { IsTrue (is_quote (slice_index text.now 0)) }
    requires room { line + length text.now < 2 ^ 32 }
    ensures value { Gives (λ piece. piece) result (short_string line text.now) }
    ensures within { IfOk result (IsPieceOf text.now) }
{
    let bytes = text.as_slice();
    let quote = bytes[0];
    let inside = bytes_after(bytes, 1);
    let len = body_len(inside, quote);
    let value = body_value(alloc, text, len, line)?;
    if byte_at(inside, len) != quote {
        return Err(LexFault::OpenString(line));
    }
    let kind = Some(TokenKind::Text(value));
    Ok(Piece {
        kind,
        size: len + 2,
    })
}

/// The string in long brackets at the front.
#[tactic(auto, unfolding(crate::specs::Strings::long_string, crate::specs::Strings::long_string_of))]
pub(crate) fn long_string(alloc: Global, text: &[u8], line: u32) -> Result<Piece, LexFault>
    requires { level_of text.now + 2 ≤ length text.now }
    ensures value { Gives (λ piece. piece) result (long_string line text.now) }
    ensures within { IfOk result (IsPieceOf text.now) }
{
    let Some(len) = inside_len(text) else {
        return Err(LexFault::OpenString(line));
    };
    let bracket = level_of(text) + 2;
    let inside = first_bytes(bytes_after(text, bracket), len);
    let content = unified(alloc, bytes_after(inside, line_end(inside)))?;
    let kind = Some(TokenKind::Text(Bytes::from_vec(content)?));
    Ok(Piece {
        kind,
        size: len + 2 * bracket,
    })
}
