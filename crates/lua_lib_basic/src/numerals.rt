//! Numerals in a base.

ghost use Rattle.std.specs.Prelude.{◌≡◌, ◌≤◌};
ghost use Rattle.lua_lib_basic.specs.Conversions.{digits_of, numeral};

use lua_numbers::{after_blanks, before_blanks, numeral_of};
use resty_base::Whole;

/// The number that a text writes in a base: blanks, digits, blanks; in base 16 the digits may stand after `0x`.
pub(crate) fn numeral(text: &[u8], base: u32) -> Option<Whole>
    requires { (2 ≤ base) × (base ≤ 36) }
    ensures { result ≡ numeral base text.now }
{
    numeral_of(digits_of(before_blanks(after_blanks(text)), base), base)
}

/// The digits of a numeral.
fn digits_of(numeral: &[u8], base: u32) -> &[u8]
    ensures { result.now ≡ digits_of base numeral.now }
{
    if base != 16 {
        return numeral;
    }
    match numeral.strip_prefix(b"0x") {
        Some(digits) => digits,
        None => numeral,
    }
}
