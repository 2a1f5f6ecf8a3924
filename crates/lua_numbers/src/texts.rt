//! Numbers as text, and the numbers that texts write.

ghost use Rattle.std.specs.Prelude.{◌≡◌, ◌≤◌, IfOk};
ghost use Rattle.std.specs.Fmt.{signed_decimal};
ghost use Rattle.lua_numbers.specs.NumberText.{is_blank, after_blanks, before_blanks, numeral_in, natural_in, number_in};

use crate::neg;
use itoa::Buffer;
use resty_base::{Bytes, GREATEST_WHOLE, Whole};
use std::alloc::{AllocError, Global};

/// The greatest number that a text writes.
const GREATEST: u64 = GREATEST_WHOLE as u64;

/// The number in decimal digits, after a `-` where it is negative.
pub fn text_of(alloc: Global, n: Whole) -> Result<Bytes, AllocError>
    ensures { IfOk result (λ text. text ≡ signed_decimal n) }
{
    let mut buffer = Buffer::new();
    Bytes::copy_from_slice(alloc, buffer.format(n.get()).as_bytes())
}

/// The number that a text writes: blanks, an optional `-`, decimal digits or hexadecimal ones after `0x`, blanks
/// (Lua 5.1 Reference Manual, 2.1 and 2.2.1). A number beyond 99,999,999,999,999 either way is none.
pub fn number_of(text: &[u8]) -> Option<Whole>
    ensures { result ≡ number_in text.now }
{
    let numeral = before_blanks(after_blanks(text));
    match numeral.strip_prefix(b"-") {
        Some(natural) => Some(neg(natural_of(natural)?)),
        None => natural_of(numeral),
    }
}

/// Decimal digits, or hexadecimal ones after `0x`.
fn natural_of(text: &[u8]) -> Option<Whole>
    ensures { result ≡ natural_in text.now }
{
    match text.strip_prefix(b"0x") {
        Some(digits) => numeral_of(digits, 16),
        None => numeral_of(text, 10),
    }
}

/// The number that digits write in a base, where there are digits alone and it is within the range.
pub fn numeral_of(digits: &[u8], base: u32) -> Option<Whole>
    requires { (2 ≤ base) × (base ≤ 36) }
    ensures { result ≡ numeral_in base digits.now }
{
    digits.first()?;
    let mut value = 0;
    for byte in digits {
        let digit = char::from(*byte).to_digit(base)?;
        value = value * u64::from(base) + u64::from(digit);
        if value > GREATEST {
            return None;
        }
    }
    Whole::new(value as i64)
}

/// A space, a tab, a line feed, a vertical tab, a form feed or a carriage return.
pub fn is_blank(byte: u8) -> bool
    ensures { result ≡ is_blank byte }
{
    matches!(byte, b' ' | b'\t'..=b'\r')
}

/// The text after the blanks at its start.
pub fn after_blanks(text: &[u8]) -> &[u8]
    ensures { result.now ≡ after_blanks text.now }
{
    let mut rest = text;
    while let [first, after @ ..] = rest {
        if !is_blank(*first) {
            break;
        }
        rest = after;
    }
    rest
}

/// The text before the blanks at its end.
pub fn before_blanks(text: &[u8]) -> &[u8]
    ensures { result.now ≡ before_blanks text.now }
{
    let mut rest = text;
    while let [before @ .., last] = rest {
        if !is_blank(*last) {
            break;
        }
        rest = before;
    }
    rest
}
