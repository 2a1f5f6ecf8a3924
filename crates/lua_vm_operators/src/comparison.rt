//! Comparison (Lua 5.1 Reference Manual, 2.5.2).

ghost use Rattle.std.specs.Prelude.{◌≡◌, not, if◌then◌else◌};
ghost use Rattle.lua_values.specs.declared.values.Value.TheVariants.{Truth};
ghost use Rattle.lua_meaning.specs.Positions.{callers_at};
ghost use Rattle.lua_meaning.specs.Comparison.{equality_work, comparison_work};
ghost use Rattle.lua_frames.specs.Frames.{here, slots_of};
ghost use Rattle.lua_frames.specs.Follows.{Works};
ghost use Rattle.lua_vm_operators.specs.Comparisons.{CountsTexts, equality_told, comparison_told, less_handled, at_most_handled};

use crate::handlers::handler_of_both;
use lua_frames::{Flow, Frames, Host, give_one, raise_fault, raise_operand};
use lua_operators::{
    ComparisonOperator, Event, Fault, Outcome, compared, comparison_fault, equality, is_truthy,
};
use lua_values::{BYTES_OF_A_STEP, Store, Value};
use lua_vm_calls::call_for_truth;
use std::alloc::AllocError;

/// Counts a step for each 64 bytes of two texts; false where no step is left.
fn count_texts(store: &mut Store, a: &Value, b: &Value) -> bool
    ensures { CountsTexts a.now b.now store.old store.new result }
{
    match (a, b) {
        (Value::Text(s), Value::Text(t)) => {
            store.count((s.as_slice().len() as u64 + t.as_slice().len() as u64) / BYTES_OF_A_STEP)
        }
        _ => true,
    }
}

/// `a == b`, or `a ~= b` where false is wanted.
pub(crate) fn equal<H: Host>(
    frames: &mut Frames,
    host: &H,
    store: &mut Store,
    line: u32,
    wanted: bool,
    a: Value,
    b: Value,
) -> Result<Flow, AllocError>
    ensures { Works (H.setting host.now) (equality_work (H.setting host.now) (callers_at (here frames.old) line) wanted a b (slots_of frames.old))
        frames.old store.old frames.new store.new result }
{
    if count_texts(store, &a, &b) {
        tell_equal(frames, host, store, line, wanted, a, b)
    } else {
        Ok(Flow::Spent)
    }
}

/// It once the bytes are counted.
fn tell_equal<H: Host>(
    frames: &mut Frames,
    host: &H,
    store: &mut Store,
    line: u32,
    wanted: bool,
    a: Value,
    b: Value,
) -> Result<Flow, AllocError>
    ensures { Works (H.setting host.now) (equality_told (H.setting host.now) (callers_at (here frames.old) line) wanted a b (slots_of frames.old))
        frames.old store.old frames.new store.new result }
{
    match equality(&a, &b) {
        Outcome::Gives(value) => give_one(frames, truth_as(wanted, is_truthy(&value))),
        Outcome::Faults(fault) => raise_fault(frames, host.program(), line, Fault::Number(fault)),
        Outcome::NeedsEvent => {
            let by = handler_of_both(store, &a, &b, Event::Eq)?;
            if by.is_nil() {
                give_one(frames, truth_as(wanted, false))
            } else {
                call_for_truth(frames, host, store, line, wanted, by, a, b)
            }
        }
    }
}

/// Whether a comparison holds, or where false is wanted, whether it doesn't.
fn truth_as(wanted: bool, holds: bool) -> Value
    ensures { result ≡ Truth (if wanted then holds else not holds) }
{
    if wanted {
        Value::Truth(holds)
    } else {
        Value::Truth(!holds)
    }
}

/// `a < b` or `a <= b`.
pub(crate) fn comparison<H: Host>(
    frames: &mut Frames,
    host: &H,
    store: &mut Store,
    line: u32,
    operator: ComparisonOperator,
    a: Value,
    b: Value,
) -> Result<Flow, AllocError>
    ensures { Works (H.setting host.now) (comparison_work (H.setting host.now) (callers_at (here frames.old) line) operator a b (slots_of frames.old))
        frames.old store.old frames.new store.new result }
{
    if count_texts(store, &a, &b) {
        tell_order(frames, host, store, line, operator, a, b)
    } else {
        Ok(Flow::Spent)
    }
}

/// It once the bytes are counted.
fn tell_order<H: Host>(
    frames: &mut Frames,
    host: &H,
    store: &mut Store,
    line: u32,
    operator: ComparisonOperator,
    a: Value,
    b: Value,
) -> Result<Flow, AllocError>
    ensures { Works (H.setting host.now) (comparison_told (H.setting host.now) (callers_at (here frames.old) line) operator a b (slots_of frames.old))
        frames.old store.old frames.new store.new result }
{
    match compared(operator, &a, &b) {
        Outcome::Gives(value) => give_one(frames, value),
        Outcome::Faults(fault) => raise_fault(frames, host.program(), line, Fault::Number(fault)),
        Outcome::NeedsEvent => match operator {
            ComparisonOperator::Less => less(frames, host, store, line, a, b),
            ComparisonOperator::LessOrEqual => at_most(frames, host, store, line, a, b),
        },
    }
}

/// `a < b` of values that are no numbers and no texts.
fn less<H: Host>(
    frames: &mut Frames,
    host: &H,
    store: &mut Store,
    line: u32,
    a: Value,
    b: Value,
) -> Result<Flow, AllocError>
    ensures { Works (H.setting host.now) (less_handled (H.setting host.now) (callers_at (here frames.old) line) a b (slots_of frames.old))
        frames.old store.old frames.new store.new result }
{
    let by = handler_of_both(store, &a, &b, Event::Lt)?;
    if by.is_nil() {
        raise_operand(frames, host.program(), line, comparison_fault(&a, &b))
    } else {
        call_for_truth(frames, host, store, line, true, by, a, b)
    }
}

/// `a <= b` of such values: without a handler of its own it is `not (b < a)`.
fn at_most<H: Host>(
    frames: &mut Frames,
    host: &H,
    store: &mut Store,
    line: u32,
    a: Value,
    b: Value,
) -> Result<Flow, AllocError>
    ensures { Works (H.setting host.now) (at_most_handled (H.setting host.now) (callers_at (here frames.old) line) a b (slots_of frames.old))
        frames.old store.old frames.new store.new result }
{
    let by = handler_of_both(store, &a, &b, Event::Le)?;
    if !by.is_nil() {
        return call_for_truth(frames, host, store, line, true, by, a, b);
    }
    let by = handler_of_both(store, &a, &b, Event::Lt)?;
    if by.is_nil() {
        raise_operand(frames, host.program(), line, comparison_fault(&a, &b))
    } else {
        call_for_truth(frames, host, store, line, false, by, b, a)
    }
}
