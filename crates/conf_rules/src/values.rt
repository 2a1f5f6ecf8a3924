//! Values of words: numbers, sizes, times and levels.
ghost use Rattle.std.specs.Prelude.{◌≡◌, ◌≤◌, ◌<◌, ◌^◌, length};
ghost use Rattle.conf_rules.specs.Values as spec;

use resty_base::{bytes_after, first_bytes};

/// The greatest time in milliseconds.
const MOST_TIME: u64 = 99_999_999_999;

/// How many digits stand at the front.
fn digits(text: &[u8]) -> usize
    ensures { result ≡ spec.digits text.now }
{
    text.iter().take_while(|byte| byte.is_ascii_digit()).count()
}

/// The number after one more digit, None where it is none or the number has more than 64 bits.
fn with_digit(number: u64, byte: u8) -> Option<u64>
    ensures { result ≡ spec.with_digit number byte }
{
    if !byte.is_ascii_digit() {
        return None;
    }
    number.checked_mul(10)?.checked_add(u64::from(byte - b'0'))
}

/// The number that the text writes in digits.
pub fn number_of(text: &[u8]) -> Option<u64>
    ensures { result ≡ spec.number_of text.now }
{
    if text.is_empty() {
        return None;
    }
    let mut number = 0;
    for byte in text {
        number = with_digit(number, *byte)?;
    }
    Some(number)
}

/// The number so many times, where it isn't above the greatest one.
fn scaled(number: u64, factor: u64, most: u64) -> Option<u64>
    ensures { result ≡ spec.scaled number factor most }
{
    let product = number.checked_mul(factor)?;
    if product <= most { Some(product) } else { None }
}

/// How many bytes the unit of a size has.
fn size_unit(unit: &[u8]) -> Option<u64>
    ensures { result ≡ spec.size_unit unit.now }
{
    if unit.is_empty() {
        Some(1)
    } else if unit == b"k".as_slice() {
        Some(1024)
    } else if unit == b"m".as_slice() {
        Some(1_048_576)
    } else {
        None
    }
}

/// How many milliseconds the unit of a time has.
fn time_unit(unit: &[u8]) -> Option<u64>
    ensures { result ≡ spec.time_unit unit.now }
{
    if unit.is_empty() || unit == b"s".as_slice() {
        Some(1000)
    } else if unit == b"ms".as_slice() {
        Some(1)
    } else if unit == b"m".as_slice() {
        Some(60_000)
    } else if unit == b"h".as_slice() {
        Some(3_600_000)
    } else {
        None
    }
}

/// A size in bytes: digits, and `k` or `m` after them or nothing.
pub fn size_of(text: &[u8]) -> Option<u64>
    ensures { result ≡ spec.size_of text.now }
{
    let count = digits(text);
    let factor = size_unit(bytes_after(text, count))?;
    scaled(number_of(first_bytes(text, count))?, factor, u64::MAX)
}

/// A time in milliseconds: digits, and `ms`, `s`, `m` or `h` after them; seconds where nothing is there.
pub fn time_of(text: &[u8]) -> Option<u64>
    ensures { result ≡ spec.time_of text.now }
{
    let count = digits(text);
    let factor = time_unit(bytes_after(text, count))?;
    scaled(number_of(first_bytes(text, count))?, factor, MOST_TIME)
}
