//! What stands at the front of a text that begins with no layout.
ghost use Rattle.std.specs.Prelude.{◌≡◌, ◌+◌, ◌^◌, ◌≤◌, ◌<◌, IfSome, length, option_copied};
ghost use Rattle.conf_text.specs.Fronts as spec;

use crate::layout::is_blank;
use resty_base::{bytes_after, first_bytes};

/// What stands at the front.
#[derive(Clone, Copy, Debug, PartialEq, Eq)]
pub(crate) enum Front {
    /// A word of so many bytes.
    Word(usize),
    /// A word of so many bytes between two quotes.
    Quoted(usize),
    Semicolon,
    Open,
    Close,
    /// The text's end.
    End,
    /// What is no token; what is wrong stands after so many bytes.
    Broken(usize),
}

/// Whether the byte is a sign by itself.
fn is_sign(byte: u8) -> bool
    ensures { result ≡ spec.is_sign byte }
{
    byte == b';' || byte == b'{' || byte == b'}'
}

/// Whether the byte may stand in a word without quotes.
fn is_word_byte(byte: u8) -> bool
    ensures { result ≡ spec.is_word_byte byte }
{
    !is_blank(byte) && !is_sign(byte)
}

/// How many bytes of a word stand at the front.
fn word_size(text: &[u8]) -> usize
    ensures value { result ≡ spec.word_size text.now }
    ensures within { result ≤ length text.now }
{
    text.iter().take_while(|byte| is_word_byte(**byte)).count()
}

/// How many bytes stand before the first quote of this kind.
fn quoted_size(quote: u8, text: &[u8]) -> usize
    ensures value { result ≡ spec.quoted_size quote text.now }
    ensures within { result ≤ length text.now }
{
    text.iter().take_while(|byte| **byte != quote).count()
}

/// Whether this may stand right after a word in quotes.
fn may_follow(text: &[u8]) -> bool
    ensures { result ≡ spec.may_follow text.now }
{
    match text {
        [] => true,
        [first, ..] => !is_word_byte(*first) || *first == b'#',
    }
}

/// The word that a quote before this text begins.
fn quoted(quote: u8, text: &[u8]) -> Front
    ensures value { result ≡ spec.quoted quote text.now }
    ensures some { spec.HasBytes result }
    ensures within { spec.front_size result ≤ length text.now + 1 }
{
    let size = quoted_size(quote, text);
    if size == text.len() {
        Front::Broken(0)
    } else if may_follow(bytes_after(text, size + 1)) {
        Front::Quoted(size)
    } else {
        Front::Broken(size + 2)
    }
}

/// What stands at the front.
pub(crate) fn front_of(text: &[u8]) -> Front
    ensures value { result ≡ spec.front_of text.now }
    ensures some { spec.HasBytes result }
    ensures within { spec.front_size result ≤ length text.now }
{
    match text {
        [] => Front::End,
        [b';', ..] => Front::Semicolon,
        [b'{', ..] => Front::Open,
        [b'}', ..] => Front::Close,
        [quote @ (b'"' | b'\''), others @ ..] => quoted(*quote, others),
        [_, others @ ..] => Front::Word(word_size(others) + 1),
    }
}

/// How many bytes it has, those before what is wrong where it is no token.
pub(crate) fn front_size(front: Front) -> usize
    requires { spec.front_size front < 2 ^ 64 }
    ensures { result ≡ spec.front_size front }
{
    match front {
        Front::Word(size) | Front::Broken(size) => size,
        Front::Quoted(size) => size + 2,
        Front::Semicolon | Front::Open | Front::Close => 1,
        Front::End => 0,
    }
}

/// The word at the front, None where there is none.
pub(crate) fn word_at(text: &[u8], front: Front) -> Option<&[u8]>
    requires { spec.HasBytes front }
    ensures value { option_copied result ≡ spec.word_at text.now front }
    ensures some { IfSome result (λ _. 0 < spec.front_size front) }
{
    match front {
        Front::Word(size) => Some(first_bytes(text, size)),
        Front::Quoted(size) => Some(first_bytes(bytes_after(text, 1), size)),
        _ => None,
    }
}
