//! The whole numbers of the Lua profile.

ghost use Rattle.std.specs.Prelude.{◌≡◌, ◌↔◌, IsSome, IfSome};
ghost use Rattle.resty_base.specs.WholeNumber.{IsWhole};

use std::marker::Model;

/// The greatest whole number of the Lua profile; its negation is the least.
pub const GREATEST_WHOLE: i64 = 99_999_999_999_999;

/// A whole number within 99,999,999,999,999 either way, which contracts see as an integer.
#[derive(Clone, Copy, Debug, PartialEq, Eq, PartialOrd, Ord, Hash)]
pub struct Whole {
    value: i64,
}

impl Model for Whole {
    ghost use Rattle.std.specs.Prelude.{ℤ};
    ghost use Rattle.resty_base.specs.WholeNumber.{IsWhole};

    ghost Value = { ℤ };

    ghost view = { λ number. number.value };

    ghost invariant = { λ number. IsWhole number.value };

    ghost inverse = { λ value. record { value = value } };
}

impl Whole {
    /// The number `n`, where it is within the range.
    pub fn new(n: i64) -> Option<Whole>
        ensures range { IsSome result ↔ IsWhole n }
        ensures value { IfSome result (λ number. number ≡ n) }
    {
        if -GREATEST_WHOLE <= n && n <= GREATEST_WHOLE {
            Some(Whole { value: n })
        } else {
            None
        }
    }

    /// The number as a machine integer.
    pub fn get(self) -> i64
        ensures value { result ≡ self }
        ensures range { IsWhole self }
    {
        self.value
    }
}
