//! The classes of bytes, runs of them, and line ends.

ghost use Rattle.std.specs.Prelude.{◌≡◌, ◌≤◌, ◌<◌, ◌+◌, ◌^◌, List, ℕ, IfOk, length, slice_index, take, drop, max, not, if◌then◌else◌};
ghost use Rattle.std.specs.List.{prefix_len};
ghost use Rattle.std.specs.Char.{is_ascii_digit, is_ascii_hexdigit};
ghost use Rattle.resty_base.specs.Ascii.{line_feed};
ghost use Rattle.lua_numbers.specs.NumberText.{is_blank};
ghost use Rattle.lua_lexer.specs.Characters.{is_line_byte, is_word_start, is_word_byte, line_end, line_ends, unified};
ghost use Rattle.lua_lexer.specs.Readings.{Gives};

use crate::LexFault;
use lua_numbers::is_blank;
use resty_base::{byte_at, bytes_after};
use std::alloc::Global;

pub(crate) fn is_line_byte(byte: u8) -> bool
    ensures { result ≡ is_line_byte byte }
{
    byte == b'\n' || byte == b'\r'
}

pub(crate) fn is_word_start(byte: u8) -> bool
    ensures { result ≡ is_word_start byte }
{
    byte.is_ascii_alphabetic() || byte == b'_'
}

pub(crate) fn is_word_byte(byte: u8) -> bool
    ensures { result ≡ is_word_byte byte }
{
    is_word_start(byte) || byte.is_ascii_digit()
}

/// How many blanks stand at the front.
pub(crate) fn blanks(text: &[u8]) -> usize
    ensures value { result ≡ prefix_len is_blank text.now }
    ensures within { result ≤ length text.now }
{
    text.iter().take_while(|byte| is_blank(**byte)).count()
}

/// How many letters, digits and underscores stand at the front.
pub(crate) fn word_bytes(text: &[u8]) -> usize
    ensures value { result ≡ prefix_len is_word_byte text.now }
    ensures within { result ≤ length text.now }
{
    text.iter().take_while(|byte| is_word_byte(**byte)).count()
}

/// How many decimal digits stand at the front.
pub(crate) fn digits(text: &[u8]) -> usize
    ensures value { result ≡ prefix_len is_ascii_digit text.now }
    ensures within { result ≤ length text.now }
{
    text.iter().take_while(|byte| byte.is_ascii_digit()).count()
}

/// How many hexadecimal digits stand at the front.
pub(crate) fn hex_digits(text: &[u8]) -> usize
    ensures value { result ≡ prefix_len is_ascii_hexdigit text.now }
    ensures within { result ≤ length text.now }
{
    text.iter()
        .take_while(|byte| byte.is_ascii_hexdigit())
        .count()
}

/// How many bytes stand before the first line end.
pub(crate) fn line_len(text: &[u8]) -> usize
    ensures value { result ≡ prefix_len (λ c. not (is_line_byte c)) text.now }
    ensures within { result ≤ length text.now }
{
    text.iter().take_while(|byte| !is_line_byte(**byte)).count()
}

/// How many bytes the line end at the front has, 0 where there is none.
#[tactic(auto, unfolding(crate::specs::Characters::line_end))]
pub(crate) fn line_end(text: &[u8]) -> usize
    ensures value { result ≡ line_end text.now }
    ensures within { result ≤ length text.now }
{
    let first = byte_at(text, 0);
    let second = byte_at(text, 1);
    if !is_line_byte(first) {
        0
    } else if is_line_byte(second) && first != second {
        2
    } else {
        1
    }
}

/// How many bytes the line end at the front has, or 1 for another byte.
#[tactic(auto, unfolding(crate::specs::Characters::line_end))]
fn line_step(text: &[u8]) -> usize
    requires { 0 < length text.now }
    ensures { result ≡ max (line_end text.now) 1 }
{
    if is_line_byte(text[0]) {
        line_end(text)
    } else {
        1
    }
}

/// How many bytes the line end at the front has, or else how many stand before the first line end.
#[tactic(auto, using(crate::proofs::Spans::some_ends, crate::proofs::Spans::some_quiet, crate::proofs::Spans::over_end, crate::proofs::Spans::over_quiet))]
fn span_len(text: &[u8]) -> usize
    requires { 0 < length text.now }
    ensures some { 0 < result }
    ensures lines { line_ends text.now ≡ (if is_line_byte (slice_index text.now 0) then 1 else 0) + line_ends (drop result text.now) }
{
    if is_line_byte(text[0]) {
        line_end(text)
    } else {
        line_len(text)
    }
}

/// How many line ends there are.
#[tactic(auto, using(crate::proofs::Steps::line_ends_none))]
pub(crate) fn line_ends(text: &[u8]) -> u32
    requires { length text.now < 2 ^ 32 }
    ensures value { result ≡ line_ends text.now }
    ensures within { result ≤ length text.now }
{
    let mut count = 0;
    let mut rest = text;
    while !rest.is_empty() {
        count += u32::from(is_line_byte(rest[0]));
        rest = bytes_after(rest, span_len(rest));
    }
    count
}

/// A byte, or LF for one that ends a line.
fn unified_byte(byte: u8) -> u8
    ensures { result ≡ (if is_line_byte byte then line_feed else byte) }
{
    if is_line_byte(byte) { b'\n' } else { byte }
}

/// The bytes with one LF for each line end.
#[tactic(auto, using(crate::proofs::Steps::unified_step, crate::proofs::Steps::unified_none))]
pub(crate) fn unified(alloc: Global, text: &[u8]) -> Result<Vec<u8>, LexFault>
    ensures { Gives (λ bytes. bytes.items) result (Ok (unified text.now)) }
{
    let mut bytes = Vec::with_capacity(alloc, text.len())?;
    let mut rest = text;
    while !rest.is_empty() {
        bytes.push(unified_byte(rest[0]))?;
        rest = bytes_after(rest, line_step(rest));
    }
    Ok(bytes)
}
