//! The handlers of operators.

ghost use Rattle.std.specs.Prelude.{◌≡◌, IfOk};
ghost use Rattle.lua_meaning.specs.Positions.{callers_at};
ghost use Rattle.lua_meaning.specs.Metatables.{handler_of_two, handler_of_both};
ghost use Rattle.lua_meaning.specs.Arithmetic.{handled};
ghost use Rattle.lua_frames.specs.Frames.{here, slots_of};
ghost use Rattle.lua_frames.specs.Follows.{Works};

use lua_frames::{Flow, Frames, Host, handler, raise_operand};
use lua_operators::{Event, OperandFault, type_of};
use lua_values::{Store, Value};
use lua_vm_calls::call_for_one;
use std::alloc::AllocError;

/// The handler of a binary operator: that of the first operand, or else of the second.
pub(crate) fn handler_of_two(
    store: &Store,
    a: &Value,
    b: &Value,
    event: Event,
) -> Result<Value, AllocError>
    ensures { IfOk result (λ by. by ≡ handler_of_two store.now.heap a.now b.now event) }
{
    let by = handler(store, a, event)?;
    if by.is_nil() {
        handler(store, b, event)
    } else {
        Ok(by)
    }
}

/// The handler of a comparison: the one that both operands have, where they are of one type, and nil otherwise.
pub(crate) fn handler_of_both(
    store: &Store,
    a: &Value,
    b: &Value,
    event: Event,
) -> Result<Value, AllocError>
    ensures { IfOk result (λ by. by ≡ handler_of_both store.now.heap a.now b.now event) }
{
    if type_of(a) != type_of(b) {
        return Ok(Value::Nil);
    }
    let shared = handler(store, a, event)?;
    if shared == handler(store, b, event)? {
        Ok(shared)
    } else {
        Ok(Value::Nil)
    }
}

/// Calls a handler with the operands for one value; without one the operator isn't defined on them.
pub(crate) fn handle<H: Host>(
    frames: &mut Frames,
    host: &H,
    store: &mut Store,
    line: u32,
    by: Value,
    operands: Vec<Value>,
    fault: OperandFault,
) -> Result<Flow, AllocError>
    ensures { Works (H.setting host.now) (handled (H.setting host.now) (callers_at (here frames.old) line) by operands.items fault (slots_of frames.old))
        frames.old store.old frames.new store.new result }
{
    if by.is_nil() {
        raise_operand(frames, host.program(), line, fault)
    } else {
        call_for_one(frames, host, store, line, by, operands)
    }
}
