//! Numbers that stand in a text.
ghost use Rattle.std.specs.Prelude.{◌≡◌, ◌≢◌, ◌<◌, ◌^◌, ◌↔◌, ◌≤◌, ℕ, IsTrue, MatchOption, decimal};
ghost use Rattle.schedule_text.specs.Found as found;
ghost use Rattle.schedule_text.specs.Ranges.{last_number};

use crate::ranges::LAST_NUMBER;
use crate::reading::splits::begins;
use itoa::Buffer;
use resty_base::bytes_after;

/// Whether the text is this number.
fn is_number(text: &[u8], number: u64) -> bool
    ensures { IsTrue result ↔ (decimal number ≡ text.now) }
{
    let mut buffer = Buffer::new();
    buffer.format(number).as_bytes() == text
}

/// The number that the text is: digits that don't begin with 0, or `0`.
pub fn read_number(text: &[u8]) -> Option<u64>
    ensures { MatchOption result ((number : ℕ) → number < 2 ^ 64 → text.now ≢ decimal number) (λ number. (text.now ≡ decimal number) × (number < 2 ^ 64)) }
{
    let Ok(digits) = str::from_utf8(text) else {
        return None;
    };
    let Ok(number) = digits.parse::<u64>() else {
        return None;
    };
    if is_number(text, number) {
        Some(number)
    } else {
        None
    }
}

/// The number whose text this is, 0 where it is none.
pub fn number_in(text: &[u8]) -> u64
    ensures { result ≡ found.number_in text.now }
{
    read_number(text).unwrap_or(0)
}

/// The number that stands after one letter.
pub fn numbered(text: &[u8]) -> u64
    ensures { result ≡ found.numbered text.now }
{
    number_in(bytes_after(text, 1))
}

/// A number that isn't above another, else 0.
fn limited(most: u64, number: u64) -> u64
    ensures value { result ≡ found.limited most number }
    ensures within { result ≤ most }
{
    if number <= most { number } else { 0 }
}

/// The number, where it has at most 32 bits.
pub fn small_in(text: &[u8]) -> u32
    ensures { result ≡ found.small_in text.now }
{
    limited(4_294_967_295, number_in(text)) as u32
}

/// The number, where it can be a port.
pub fn port_in(text: &[u8]) -> u16
    ensures { result ≡ found.port_in text.now }
{
    limited(65_535, number_in(text)) as u16
}

/// The number, where it is below 256.
pub fn octet_in(text: &[u8]) -> u8
    ensures { result ≡ found.octet_in text.now }
{
    limited(255, number_in(text)) as u8
}

/// The negation of a number.
fn negated(number: u64) -> i64
    requires { number ≤ last_number }
    ensures { result ≡ found.negated number }
{
    -(number as i64)
}

/// The number that may be below 0.
pub fn integer_in(text: &[u8]) -> i64
    ensures { result ≡ found.integer_in text.now }
{
    if begins(text, b'-') {
        negated(limited(LAST_NUMBER, numbered(text)))
    } else {
        limited(LAST_NUMBER, number_in(text)) as i64
    }
}
