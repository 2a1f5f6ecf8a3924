//! Character classes and sets, and which bytes they accept.

ghost use Rattle.std.specs.Prelude.{◌≡◌, ◌<◌, slice_range};
ghost use Rattle.lua_patterns.specs.Classes.{is_space, named, in_escaped, is_range, part_size, after_percent, in_part, in_set, accepts};

use resty_base::{byte_at, bytes_after};

/// What a byte of the subject is compared with (Lua 5.1 manual, 5.4.1, "character class").
#[derive(Clone, Copy, Debug)]
pub(crate) enum Class {
    /// `.`
    Any,
    /// A byte that stands for itself.
    Byte(u8),
    /// The byte after a `%`.
    Letter(u8),
    /// A set, or its complement; its inside stands in the pattern from `start` up to `end`.
    Set {
        complement: bool,
        start: usize,
        end: usize,
    },
}

/// A space, or one of tab, line feed, vertical tab, form feed and carriage return.
fn is_space(byte: u8) -> bool
    ensures { result ≡ is_space byte }
{
    byte == b' ' || (b'\t' <= byte && byte <= b'\r')
}

/// Whether a byte is in the class that a small letter names.
#[tactic(auto, unfolding(crate::specs::Classes::named))]
fn named(letter: u8, byte: u8) -> Option<bool>
    ensures { result ≡ named letter byte }
{
    match letter {
        b'a' => Some(byte.is_ascii_alphabetic()),
        b'c' => Some(byte.is_ascii_control()),
        b'd' => Some(byte.is_ascii_digit()),
        b'l' => Some(byte.is_ascii_lowercase()),
        b'p' => Some(byte.is_ascii_punctuation()),
        b's' => Some(is_space(byte)),
        b'u' => Some(byte.is_ascii_uppercase()),
        b'w' => Some(byte.is_ascii_alphanumeric()),
        b'x' => Some(byte.is_ascii_hexdigit()),
        b'z' => Some(byte == 0),
        _ => None,
    }
}

/// A byte is in the class that stands after a `%`.
fn in_escaped(letter: u8, byte: u8) -> bool
    ensures { result ≡ in_escaped letter byte }
{
    match named(letter.to_ascii_lowercase(), byte) {
        Some(within) => {
            if letter.is_ascii_lowercase() {
                within
            } else {
                !within
            }
        }
        None => letter == byte,
    }
}

/// The bytes from `start` up to `end`, as far as they are there.
pub(crate) fn between(text: &[u8], start: usize, end: usize) -> &[u8]
    ensures { result.now ≡ slice_range text.now start end }
{
    let end = end.min(text.len());
    let start = start.min(end);
    &text[start..end]
}

/// A range stands at the front of a set's inside.
fn is_range(inside: &[u8]) -> bool
    ensures { result ≡ is_range inside.now }
{
    byte_at(inside, 1) == b'-' && inside.len() > 2
}

/// How many bytes of a set's inside the part at its front has.
fn part_size(inside: &[u8]) -> usize
    ensures value { result ≡ part_size inside.now }
    ensures some { 0 < result }
{
    if byte_at(inside, 0) == b'%' {
        2
    } else if is_range(inside) {
        3
    } else {
        1
    }
}

/// The byte after a `%` at the front of a set's inside.
fn after_percent(inside: &[u8]) -> u8
    ensures { result ≡ after_percent inside.now }
{
    if inside.len() > 1 { inside[1] } else { b']' }
}

/// A byte is in the part at the front of a set's inside.
#[tactic(auto, unfolding(crate::specs::Classes::in_part))]
fn in_part(byte: u8, inside: &[u8]) -> bool
    ensures { result ≡ in_part byte inside.now }
{
    let first = byte_at(inside, 0);
    if first == b'%' {
        in_escaped(after_percent(inside), byte)
    } else if is_range(inside) {
        first <= byte && byte <= byte_at(inside, 2)
    } else {
        first == byte
    }
}

/// A byte is in the set with that inside.
#[tactic(auto, using(crate::proofs::Reading::part_found, crate::proofs::Reading::part_passed, crate::proofs::Reading::no_part))]
fn in_set(byte: u8, inside: &[u8]) -> bool
    ensures { result ≡ in_set byte inside.now }
{
    let mut rest = inside;
    while !rest.is_empty() {
        if in_part(byte, rest) {
            return true;
        }
        rest = bytes_after(rest, part_size(rest));
    }
    false
}

/// A byte is in a class of the pattern.
pub(crate) fn accepts(pattern: &[u8], class: Class, byte: u8) -> bool
    ensures { result ≡ accepts pattern.now class byte }
{
    match class {
        Class::Any => true,
        Class::Byte(own) => own == byte,
        Class::Letter(letter) => in_escaped(letter, byte),
        Class::Set {
            complement,
            start,
            end,
        } => in_set(byte, between(pattern, start, end)) != complement,
    }
}
