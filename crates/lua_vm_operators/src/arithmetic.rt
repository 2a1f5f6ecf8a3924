//! Arithmetic (Lua 5.1 Reference Manual, 2.5.1).

ghost use Rattle.std.specs.Prelude.{◌≡◌};
ghost use Rattle.lua_meaning.specs.Positions.{callers_at};
ghost use Rattle.lua_meaning.specs.Arithmetic.{arithmetic_work, negation_work};
ghost use Rattle.lua_frames.specs.Frames.{here, slots_of};
ghost use Rattle.lua_frames.specs.Follows.{Works};

use crate::handlers::{handle, handler_of_two};
use lua_frames::{Flow, Frames, Host, give_one, handler, raise_fault};
use lua_operators::{
    ArithmeticOperator, Event, Fault, Outcome, arithmetic_fault, computed, negated,
};
use lua_values::{Store, Value};
use lua_vm_calls::{one, two};
use std::alloc::AllocError;

/// `a + b` and the like.
pub(crate) fn arithmetic<H: Host>(
    frames: &mut Frames,
    host: &H,
    store: &mut Store,
    line: u32,
    operator: ArithmeticOperator,
    a: Value,
    b: Value,
) -> Result<Flow, AllocError>
    ensures { Works (H.setting host.now) (arithmetic_work (H.setting host.now) (callers_at (here frames.old) line) operator a b (slots_of frames.old))
        frames.old store.old frames.new store.new result }
{
    match computed(operator, &a, &b) {
        Outcome::Gives(value) => give_one(frames, value),
        Outcome::Faults(fault) => raise_fault(frames, host.program(), line, Fault::Number(fault)),
        Outcome::NeedsEvent => {
            let by = handler_of_two(store, &a, &b, operator.event())?;
            let fault = arithmetic_fault(&a, &b);
            let operands = two(&mut frames.lists, a, b)?;
            handle(frames, host, store, line, by, operands, fault)
        }
    }
}

/// `-a`.
pub(crate) fn negation<H: Host>(
    frames: &mut Frames,
    host: &H,
    store: &mut Store,
    line: u32,
    a: Value,
) -> Result<Flow, AllocError>
    ensures { Works (H.setting host.now) (negation_work (H.setting host.now) (callers_at (here frames.old) line) a (slots_of frames.old))
        frames.old store.old frames.new store.new result }
{
    match negated(&a) {
        Outcome::Gives(value) => give_one(frames, value),
        Outcome::Faults(fault) => raise_fault(frames, host.program(), line, Fault::Number(fault)),
        Outcome::NeedsEvent => {
            let by = handler(store, &a, Event::Unm)?;
            let fault = arithmetic_fault(&a, &a);
            let operands = one(&mut frames.lists, a)?;
            handle(frames, host, store, line, by, operands, fault)
        }
    }
}
