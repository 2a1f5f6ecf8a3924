//! Parts of a text.
ghost use Rattle.std.specs.Prelude.{◌≡◌, ◌≢◌, ◌++◌, ◌∷◌, All, MatchOption};
ghost use Rattle.schedule_text.specs.Found as found;

use memchr::memchr;
use resty_base::bytes_after;

/// The parts of the text before and after the first of these bytes.
pub fn split_at_first(text: &[u8], byte: u8) -> Option<(&[u8], &[u8])>
    ensures { MatchOption result (All (λ b. b ≢ byte) text.now) (λ parts. (text.now ≡ parts.0.now ++ byte ∷ parts.1.now) × All (λ b. b ≢ byte) parts.0.now) }
{
    let at = memchr(byte, text)?;
    Some((&text[..at], &text[at + 1..]))
}

/// The text before the first of these bytes, and what stands after it.
pub fn split(text: &[u8], byte: u8) -> (&[u8], &[u8])
    ensures before { result.0.now ≡ found.before byte text.now }
    ensures after { result.1.now ≡ found.after byte text.now }
{
    match split_at_first(text, byte) {
        Some(parts) => parts,
        None => (text, bytes_after(text, text.len())),
    }
}

/// The first word, and what stands after its space.
pub fn first_word(text: &[u8]) -> (&[u8], &[u8])
    ensures word { result.0.now ≡ found.word_of text.now }
    ensures rest { result.1.now ≡ found.rest_of text.now }
{
    split(text, b' ')
}

/// Whether the two words are the same.
pub fn is(word: &[u8], name: &[u8]) -> bool
    ensures { result ≡ found.is word.now name.now }
{
    word == name
}

/// Whether the text begins with this byte.
pub fn begins(text: &[u8], byte: u8) -> bool
    ensures { result ≡ found.begins byte text.now }
{
    match text {
        [first, ..] => *first == byte,
        [] => false,
    }
}
