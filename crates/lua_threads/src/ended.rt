//! How all calls of a thread ended together.

ghost use Rattle.lua_frames.specs.Signals.{sign_of};
ghost use Rattle.lua_threads.specs.Left.{HasEnded};
ghost use Rattle.std.specs.Prelude.{IfOk};

use lua_frames::Signal;
use lua_values::{Value, Values};
use std::alloc::{AllocError, Global};

/// The values with which a thread is done, or the fault in which it has failed.
#[derive(Drop)]
pub(crate) enum Ended {
    Done(Values),
    Failed(Value),
}

/// What all calls together gave.
pub(crate) fn end_of(alloc: Global, given: Signal) -> Result<Ended, AllocError>
    ensures { IfOk result (λ ended. HasEnded (sign_of given) ended) }
{
    match given {
        Signal::Nothing | Signal::Broke => Ok(Ended::Done(Values::of(Vec::new(alloc)))),
        Signal::One(value) | Signal::ReturnedOne(value) => {
            let mut values = Vec::new(alloc);
            values.push(value)?;
            Ok(Ended::Done(Values::of(values)))
        }
        Signal::Many(values) | Signal::Returned(values) => Ok(Ended::Done(Values::of(values))),
        Signal::Raised(value) => Ok(Ended::Failed(value)),
    }
}
