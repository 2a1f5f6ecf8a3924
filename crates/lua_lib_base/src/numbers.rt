//! Small numbers and counts as numbers of Lua.

ghost use Rattle.std.specs.Prelude.{◌≡◌, pos, IfOk};

use resty_base::Whole;
use std::alloc::AllocError;

/// A number of 32 bits.
pub fn small_number(n: u32) -> Whole
    ensures { result ≡ pos n }
{
    match Whole::new(i64::from(n)) {
        Some(number) => number,
        None => unreachable!(),
    }
}

/// A count of things that are in memory; `AllocError` where there are more than a number tells, which no memory holds.
pub fn count_number(n: u64) -> Result<Whole, AllocError>
    ensures { IfOk result (λ number. number ≡ pos n) }
{
    match i64::try_from(n) {
        Ok(n) => Whole::new(n).ok_or(AllocError),
        Err(_) => Err(AllocError),
    }
}
