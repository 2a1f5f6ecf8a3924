//! Powers.

ghost use Rattle.std.specs.Prelude.{◌≡◌, ℤ, pos};
ghost use Rattle.lua_numbers.specs.Arithmetic.{within_range, power, power_of, quotient_of};

use crate::NumFault;
use crate::arithmetic::{checked, div, mul};
use resty_base::Whole;

/// `a ^ b` (Lua 5.1 Reference Manual, 2.5.1); `0 ^ 0` is 1.
pub fn pow(a: Whole, b: Whole) -> Result<Whole, NumFault>
    ensures { result ≡ power_of a b }
{
    let exponent = b.get();
    let power = natural_power(a, exponent.unsigned_abs());
    if exponent < 0 { inverse(power) } else { power }
}

/// `base` to the power `exponent`, by repeated squaring, which ends as soon as the range is passed.
fn natural_power(base: Whole, exponent: u64) -> Result<Whole, NumFault>
    ensures { result ≡ within_range (power base exponent) }
{
    if exponent == 0 {
        return checked(1);
    }
    let half = natural_power(base, exponent / 2)?;
    let square = mul(half, half)?;
    if exponent % 2 == 0 {
        Ok(square)
    } else {
        mul(square, base)
    }
}

/// 1 divided by a power, which is not whole where the power is out of range.
fn inverse(power: Result<Whole, NumFault>) -> Result<Whole, NumFault>
    ensures { (n : ℤ) → power ≡ within_range n → result ≡ quotient_of (pos 1) n }
{
    match power {
        Ok(power) => div(checked(1)?, power),
        Err(_) => Err(NumFault::Inexact),
    }
}
