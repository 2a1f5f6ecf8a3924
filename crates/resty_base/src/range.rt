//! A whole number of the range, as a function.

ghost use Rattle.std.specs.Prelude.{◌≡◌, ◌↔◌, IsSome, IfSome};
ghost use Rattle.resty_base.specs.WholeNumber.{IsWhole};

use crate::Whole;

/// The number `n`, where it is within the range of the Lua profile.
pub fn whole(n: i64) -> Option<Whole>
    ensures range { IsSome result ↔ IsWhole n }
    ensures value { IfSome result (λ number. number ≡ n) }
{
    Whole::new(n)
}
