//! The event of a line, to give and to keep.

ghost use Rattle.std.specs.Prelude.{◌≡◌, IfOk};
ghost use Rattle.resty_world.specs.declared.schedule_line.SchedLine.TheVariants.{Given};
ghost use Rattle.schedule.specs.Ahead.{IsGiven};

use resty_world::{Event, SchedLine};
use std::alloc::AllocError;

/// The event of a line twice: to give, and to keep.
pub fn given_twice(line: &SchedLine) -> Result<(Event, Event), AllocError>
    requires { IsGiven line.now }
    ensures line { IfOk result (λ events. line.now ≡ Given events.0) }
    ensures copy { IfOk result (λ events. events.1 ≡ events.0) }
{
    match line {
        SchedLine::Given(event) => Ok((event.shared()?, event.shared()?)),
        _ => unreachable!(),
    }
}
