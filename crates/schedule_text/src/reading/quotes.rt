//! Quoted bytes.
ghost use Rattle.std.specs.Prelude.{◌≡◌, ◌<◌, ◌≤◌, IfOk};
ghost use Rattle.schedule_text.specs.Found as found;

use crate::reading::splits::begins;
use resty_base::{Bytes, bytes_after};
use std::alloc::{AllocError, Global};

/// The value of a hexadecimal digit, 0 for what is none.
fn digit_value(digit: u8) -> u8
    ensures value { result ≡ found.hex_value digit }
    ensures small { result < 16 }
{
    match digit {
        b'0'..=b'9' => digit - b'0',
        b'a'..=b'f' => digit - b'a' + 10,
        _ => 0,
    }
}

/// The byte that is spelled after `\x` at the beginning of a text.
fn hex_byte(text: &[u8]) -> u8
    ensures { result ≡ found.hex_pair text.now }
{
    match text {
        [high, low, ..] => digit_value(*high) * 16 + digit_value(*low),
        _ => b'x',
    }
}

/// The byte that is spelled after `\` at the beginning of a text.
fn escaped_byte(text: &[u8]) -> u8
    ensures { result ≡ found.escaped text.now }
{
    match text {
        [b'n', ..] => b'\n',
        [b'r', ..] => b'\r',
        [b'x', rest @ ..] => hex_byte(rest),
        [byte, ..] => *byte,
        [] => b'\\',
    }
}

/// The byte whose spelling begins a text.
fn byte_in(text: &[u8]) -> u8
    ensures { result ≡ found.byte_in text.now }
{
    match text {
        [b'\\', rest @ ..] => escaped_byte(rest),
        [byte, ..] => *byte,
        [] => 0,
    }
}

/// The length of the spelling that begins a text.
fn spelling_length(text: &[u8]) -> usize
    ensures { result ≡ found.spelling_length text.now }
{
    match text {
        [b'\\', rest @ ..] => { if begins(rest, b'x') { 4 } else { 2 } }
        _ => 1,
    }
}

/// The bytes between the quote that begins a text and the next, and what stands after that.
pub fn split_quoted(alloc: Global, text: &[u8]) -> Result<(Vec<u8>, &[u8]), AllocError>
    ensures { IfOk result (λ read. (read.0.items ≡ found.unquoted text.now) × (read.1.now ≡ found.after_quotes text.now)) }
{
    let mut bytes = Vec::new(alloc);
    let mut rest = bytes_after(text, 1);
    while !rest.is_empty() && !begins(rest, b'"') {
        bytes.push(byte_in(rest))?;
        rest = bytes_after(rest, spelling_length(rest));
    }
    Ok((bytes, bytes_after(rest, 1)))
}

/// The bytes between the quote that begins a text and the next.
pub fn unquoted(alloc: Global, text: &[u8]) -> Result<Bytes, AllocError>
    ensures { IfOk result (λ bytes. bytes ≡ found.unquoted text.now) }
{
    let (bytes, _) = split_quoted(alloc, text)?;
    Ok(Bytes::from_vec(bytes)?)
}

/// The same, with what stands after the second quote and a space.
pub fn first_quoted(alloc: Global, text: &[u8]) -> Result<(Bytes, &[u8]), AllocError>
    ensures { IfOk result (λ read. (read.0 ≡ found.unquoted text.now) × (read.1.now ≡ found.after_quoted text.now)) }
{
    let (bytes, rest) = split_quoted(alloc, text)?;
    Ok((Bytes::from_vec(bytes)?, bytes_after(rest, 1)))
}
