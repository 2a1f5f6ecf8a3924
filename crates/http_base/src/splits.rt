//! Texts split at a byte.
ghost use Rattle.std.specs.Prelude.{◌≡◌, ◌≢◌, ◌++◌, ◌∷◌, All, MatchOption, option_copied};
ghost use Rattle.http_base.specs.Splitting as splitting;

use memchr::memchr;

/// The bytes before the first separator, or all of them where it isn't there, and what stands after it.
pub fn split_once(text: &[u8], separator: u8) -> (&[u8], Option<&[u8]>)
    ensures before { result.0.now ≡ splitting.before separator text.now }
    ensures after { option_copied result.1 ≡ splitting.after separator text.now }
{
    match split_at_first(text, separator) {
        Some((before, after)) => (before, Some(after)),
        None => (text, None),
    }
}

/// The bytes before and after the first separator, where it is there.
fn split_at_first(text: &[u8], separator: u8) -> Option<(&[u8], &[u8])>
    ensures { MatchOption result (All (λ b. b ≢ separator) text.now)
        (λ parts. (text.now ≡ parts.0.now ++ separator ∷ parts.1.now) × All (λ b. b ≢ separator) parts.0.now) }
{
    let at = memchr(separator, text)?;
    Some((&text[..at], &text[at + 1..]))
}
