//! Laws of the definitions: each is the clause of a function that does nothing.
ghost use Rattle.std.specs.Prelude.{◌≡◌, ℕ, ◌<◌, ◌^◌};
ghost use Rattle.std.specs.Str.Parse.{IsNumeral, digits_value};
ghost use Rattle.httpdate.specs.Valid.{IsValid, parts_secs};
ghost use Rattle.http_reply.specs.Chunks.{size_digits};
ghost use Rattle.http_reply.specs.Dates.{date_of};

/// A law: the date of a second is one of the calendar, and the one that has this second.
pub fn dates_are_of_the_calendar()
    ensures { (secs : ℕ) → secs < 253_402_300_800 → IsValid (date_of secs) × (parts_secs (date_of secs) ≡ secs) }
{}

/// A law: the digits of a chunk's size are hex digits, and read back as the size.
pub fn sizes_read_back()
    ensures { (size : ℕ) → size < 2 ^ 64 → IsNumeral 16 (size_digits size) × (digits_value 16 (size_digits size) ≡ size) }
{}
