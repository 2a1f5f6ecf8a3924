//! Whole arithmetic with its faults.

ghost use Rattle.std.specs.Prelude.{◌≡◌, ◌≢◌, pos, ◌+ℤ◌, ◌-ℤ◌, ◌*ℤ◌, ◌≤ℤ◌, ◌<ℤ◌, neg_ℤ, ℤ, IfOk};
ghost use Rattle.resty_base.specs.WholeNumber.{IsWhole};
ghost use Rattle.lua_numbers.specs.Arithmetic.{within_range, quotient_of, remainder_of, floor_quotient};

use crate::NumFault;
use resty_base::Whole;

/// The number `n`, where it is within the range.
pub(crate) fn checked(n: i64) -> Result<Whole, NumFault>
    ensures { result ≡ within_range n }
{
    Whole::new(n).ok_or(NumFault::Range)
}

/// `a + b` (Lua 5.1 Reference Manual, 2.5.1).
pub fn add(a: Whole, b: Whole) -> Result<Whole, NumFault>
    ensures { result ≡ within_range (a +ℤ b) }
{
    checked(a.get() + b.get())
}

/// `a - b`.
pub fn sub(a: Whole, b: Whole) -> Result<Whole, NumFault>
    ensures { result ≡ within_range (a -ℤ b) }
{
    checked(a.get() - b.get())
}

/// `a * b`.
pub fn mul(a: Whole, b: Whole) -> Result<Whole, NumFault>
    ensures { result ≡ within_range (a *ℤ b) }
{
    match a.get().checked_mul(b.get()) {
        Some(product) => checked(product),
        None => Err(NumFault::Range),
    }
}

/// `a / b`, where it is a whole number.
pub fn div(a: Whole, b: Whole) -> Result<Whole, NumFault>
    ensures value { result ≡ quotient_of a b }
    ensures exact { IfOk result (λ quotient. quotient *ℤ b ≡ a) }
    ensures inexact { result ≡ Err NumFault.Inexact → (n : ℤ) → n *ℤ b ≢ a }
{
    if b.get() == 0 {
        return Err(NumFault::ByZero);
    }
    let division = divided(a, b);
    if division.rest == 0 {
        checked(division.quotient)
    } else {
        Err(NumFault::Inexact)
    }
}

/// `a % b`: what is left of `a` where the quotient is rounded down, so it has the sign of `b`.
pub fn modulo(a: Whole, b: Whole) -> Result<Whole, NumFault>
    ensures value { result ≡ remainder_of a b }
    ensures positive { pos 0 <ℤ b → IfOk result (λ rest. (pos 0 ≤ℤ rest) × (rest <ℤ b)) }
    ensures negative { b <ℤ pos 0 → IfOk result (λ rest. (b <ℤ rest) × (rest ≤ℤ pos 0)) }
{
    if b.get() == 0 {
        return Err(NumFault::ByZero);
    }
    checked(divided(a, b).rest)
}

/// A quotient that is rounded down, and what it leaves of the dividend.
#[derive(Drop)]
struct Division {
    quotient: i64,
    rest: i64,
}

/// Divides, rounding down.
fn divided(a: Whole, b: Whole) -> Division
    requires { b ≢ pos 0 }
    ensures quotient { result.quotient ≡ floor_quotient a b }
    ensures rest { result.rest ≡ a -ℤ floor_quotient a b *ℤ b }
    ensures positive { pos 0 <ℤ b → (pos 0 ≤ℤ result.rest) × (result.rest <ℤ b) }
    ensures negative { b <ℤ pos 0 → (b <ℤ result.rest) × (result.rest ≤ℤ pos 0) }
    ensures range { IsWhole result.rest }
{
    let (dividend, divisor) = (a.get(), b.get());
    if divisor < 0 {
        Division {
            quotient: (-dividend).div_euclid(-divisor),
            rest: -(-dividend).rem_euclid(-divisor),
        }
    } else {
        Division {
            quotient: dividend.div_euclid(divisor),
            rest: dividend.rem_euclid(divisor),
        }
    }
}

/// `-a`.
pub fn neg(a: Whole) -> Whole
    ensures { result ≡ neg_ℤ a }
{
    match Whole::new(-a.get()) {
        Some(negated) => negated,
        None => unreachable!(),
    }
}
