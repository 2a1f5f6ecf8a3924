//! Laws of numbers as text: functions that do nothing, each with its law as its contract.

ghost use Rattle.std.specs.Prelude.{◌≡◌, ℕ, ℤ, List};
ghost use Rattle.std.specs.Fmt.{signed_decimal};
ghost use Rattle.std.specs.Str.Parse.{IsNumeral};
ghost use Rattle.resty_base.specs.WholeNumber.{IsWhole};
ghost use Rattle.lua_numbers.specs.NumberText.{numeral_in, number_in};

/// The text of each number is read back as that number.
pub fn text_is_read_back()
    ensures { (n : ℤ) → IsWhole n → number_in (signed_decimal n) ≡ Some n }
{}

/// Decimal digits alone are read as the number that they write.
pub fn digits_are_read()
    ensures { (digits : List ℕ) → IsNumeral 10 digits → number_in digits ≡ numeral_in 10 digits }
{}
