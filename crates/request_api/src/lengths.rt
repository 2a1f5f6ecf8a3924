//! Lengths of bodies that a program sets (RFC 9110, 8.6).
ghost use Rattle.std.specs.Prelude.{◌≡◌, IsTrue};
ghost use Rattle.std.specs.Str.{all_ascii_digits};
ghost use Rattle.std.specs.Str.Parse.{digits_value};
ghost use Rattle.http_in.specs.Framing.{is_length};
ghost use Rattle.request_api.specs.Lengths as spec;

use resty_base::Bytes;

/// Whether the values are no length, or one alone.
pub(crate) fn are_lengths(values: &[Bytes]) -> bool
    ensures { result ≡ spec.are_lengths values.now }
{
    match values {
        [] => true,
        [value] => is_length(value),
        _ => false,
    }
}

/// The number that the text writes, where it is one of 1 to 15 digits.
pub(crate) fn length_of(text: &[u8]) -> Option<u64>
    ensures { result ≡ spec.length_of text.now }
{
    if is_length(text) {
        Some(number(text))
    } else {
        None
    }
}

/// Whether the text is a number of 1 to 15 digits.
fn is_length(text: &[u8]) -> bool
    ensures { result ≡ is_length text.now }
{
    !text.is_empty() && text.len() < 16 && are_digits(text)
}

/// Whether each byte is a digit.
fn are_digits(text: &[u8]) -> bool
    ensures { result ≡ all_ascii_digits text.now }
{
    for byte in text {
        if !byte.is_ascii_digit() {
            return false;
        }
    }
    true
}

/// The number that the digits write.
fn number(digits: &[u8]) -> u64
    requires { IsTrue (is_length digits.now) }
    ensures { result ≡ digits_value 10 digits.now }
{
    let mut number = 0;
    for digit in digits {
        number = number * 10 + u64::from(*digit - b'0');
    }
    number
}
