//! The words of a directive, and what single words mean.
ghost use Rattle.std.specs.Prelude.{◌≡◌, [], slice_index_or, option_copied};
ghost use Rattle.conf_rules.specs.Words as spec;

use crate::values::number_of;
use resty_base::{Bytes, bytes_after, first_bytes};

/// The default of `error_log`: `error`.
const DEFAULT_LEVEL: u8 = 4;

/// How many bytes an address has before a port.
const ADDRESS_LENGTH: usize = 10;

/// The word at an index, empty where there is none.
pub fn word(words: &[Bytes], index: usize) -> &[u8]
    ensures { result.now ≡ spec.word words.now index }
{
    match words.get(index) {
        Some(word) => word.as_slice(),
        None => &[],
    }
}

/// The number of a log level (lua-nginx-module manual, "Nginx log level constants").
fn level_of(name: &[u8]) -> Option<u8>
    ensures { result ≡ spec.level_of name.now }
{
    if name == b"emerg".as_slice() {
        Some(1)
    } else if name == b"alert".as_slice() {
        Some(2)
    } else if name == b"crit".as_slice() {
        Some(3)
    } else if name == b"error".as_slice() {
        Some(4)
    } else if name == b"warn".as_slice() {
        Some(5)
    } else if name == b"notice".as_slice() {
        Some(6)
    } else if name == b"info".as_slice() {
        Some(7)
    } else if name == b"debug".as_slice() {
        Some(8)
    } else {
        None
    }
}

/// The level that the words of `error_log` give: a path, and a level or none.
pub(crate) fn level_in(words: &[Bytes]) -> Option<u8>
    ensures { result ≡ spec.level_in words.now }
{
    if words.len() == 1 {
        Some(DEFAULT_LEVEL)
    } else if words.len() == 2 {
        level_of(word(words, 1))
    } else {
        None
    }
}

/// What stands after the address of `listen`, where it has one.
fn port_text(text: &[u8]) -> &[u8]
    ensures { result.now ≡ spec.port_text text.now }
{
    if text.starts_with(b"127.0.0.1:") || text.starts_with(b"localhost:") {
        bytes_after(text, ADDRESS_LENGTH)
    } else {
        text
    }
}

/// The port that a word of `listen` names.
pub(crate) fn port_of(text: &[u8]) -> Option<u16>
    ensures { result ≡ spec.port_of text.now }
{
    let number = number_of(port_text(text))?;
    if 0 < number && number <= 65_535 {
        Some(number as u16)
    } else {
        None
    }
}

/// Whether the byte is a visible one of ASCII, or a space.
fn is_plain(byte: u8) -> bool
    ensures { result ≡ spec.is_plain byte }
{
    b' ' <= byte && byte <= b'~'
}

/// Whether all bytes are visible ones of ASCII, or spaces.
pub(crate) fn are_plain(text: &[u8]) -> bool
    ensures { result ≡ spec.are_plain text.now }
{
    text.iter().all(|byte| is_plain(*byte))
}

/// The pattern without the `;;` that stands for the default path.
pub(crate) fn without_default(text: &[u8]) -> &[u8]
    ensures { result.now ≡ spec.without_default text.now }
{
    if text.ends_with(b";;") {
        first_bytes(text, text.len() - 2)
    } else {
        text
    }
}

/// How many such bytes there are.
fn count_of(text: &[u8], byte: u8) -> usize
    ensures { result ≡ spec.count_of text.now byte }
{
    text.iter().filter(|other| **other == byte).count()
}

/// Whether the text is one pattern of a path: plain bytes with one `?`, and no `;`.
pub(crate) fn is_pattern(text: &[u8]) -> bool
    ensures { result ≡ spec.is_pattern text.now }
{
    are_plain(text) && count_of(text, b'?') == 1 && count_of(text, b';') == 0
}

/// Whether the byte may stand in the name of a dictionary.
fn is_name_byte(byte: u8) -> bool
    ensures { result ≡ spec.is_name_byte byte }
{
    byte.is_ascii_alphanumeric() || byte == b'_' || byte == b'-' || byte == b'.'
}

/// Whether all bytes may stand in the name of a dictionary.
fn are_name_bytes(text: &[u8]) -> bool
    ensures { result ≡ spec.are_name_bytes text.now }
{
    text.iter().all(|byte| is_name_byte(*byte))
}

/// Whether the text may be the name of a dictionary.
pub(crate) fn is_name(text: &[u8]) -> bool
    ensures { result ≡ spec.is_name text.now }
{
    !text.is_empty() && are_name_bytes(text)
}

/// Whether the text begins with this byte.
pub(crate) fn begins_with(text: &[u8], byte: u8) -> bool
    ensures { result ≡ spec.begins_with text.now byte }
{
    match text {
        [] => false,
        [first, ..] => *first == byte,
    }
}
