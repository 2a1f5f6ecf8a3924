//! The numbers over which a `for` counts (Lua 5.1 Reference Manual, 2.4.5).

ghost use Rattle.std.specs.Prelude.{◌≡◌, pos};
ghost use Rattle.std.specs.Ordering.{int_eq};
ghost use Rattle.lua_vm_loops.specs.Ranges.{Counts};

use lua_operators::{Fault, number_of};
use lua_values::Value;
use resty_base::Whole;

/// Where a `for` begins, how far it goes, and what is added after each run.
#[derive(Clone, Copy)]
pub(crate) struct Range {
    pub from: Whole,
    pub limit: Whole,
    pub step: Whole,
}

/// The numbers of a `for` with these bounds, each of which must be a number or a text that writes one; a step of zero is a fault.
pub(crate) fn range_of(from: &Value, to: &Value, step: &Value) -> Result<Range, Fault>
    ensures { Counts from.now to.now step.now result }
{
    let Some(from) = number_of(from) else {
        return Err(Fault::ForInitial);
    };
    let Some(limit) = number_of(to) else {
        return Err(Fault::ForLimit);
    };
    let Some(step) = number_of(step) else {
        return Err(Fault::ForStep);
    };
    if is_zero(step) {
        return Err(Fault::ForStepZero);
    }
    Ok(Range { from, limit, step })
}

/// Whether a number is 0.
fn is_zero(number: Whole) -> bool
    ensures { result ≡ int_eq number (pos 0) }
{
    number.get() == 0
}
