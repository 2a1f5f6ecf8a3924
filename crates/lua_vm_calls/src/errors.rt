//! `error` and `assert` (Lua 5.1 Reference Manual, 5.1).

ghost use Rattle.std.specs.Prelude.{◌≡◌, [], false, Some, pos, if◌then◌else◌, IfOk};
ghost use Rattle.lua_values.specs.Heap.{StoreView};
ghost use Rattle.lua_values.specs.Values.{is_nil};
ghost use Rattle.lua_operators.specs.Conversions.{number_of};
ghost use Rattle.lua_meaning.specs.Setting.{Setting};
ghost use Rattle.lua_meaning.specs.Works.{and_then};
ghost use Rattle.lua_meaning.specs.Positions.{callers_at};
ghost use Rattle.lua_meaning.specs.Signs.{first};
ghost use Rattle.lua_meaning.specs.Natives.{raise_at, error_work, assert_work};
ghost use Rattle.lua_frames.specs.Frames.{here, slots_of};
ghost use Rattle.lua_frames.specs.Follows.{Works};
ghost use Rattle.lua_vm_functions.specs.CallEnds.{back_in};
ghost use Rattle.lua_vm_calls.specs.NativeParts.{failed_assertion};

use crate::parameters::{raise_missing, take};
use lua_ast::Program;
use lua_frames::{Flow, Frames, give_many, raise, raise_given, raise_value};
use lua_operators::{argument_fault, is_truthy, number_of, type_of};
use lua_values::Value;
use std::alloc::AllocError;

/// `error`: fails with its first argument; its second is the level of the Lua function whose position comes before a text.
pub(crate) fn error_call(
    frames: &mut Frames,
    program: &Program,
    line: u32,
    args: Vec<Value>,
) -> Result<Flow, AllocError>
    ensures { (S : Setting) → (store : StoreView) → S.program ≡ program.now
        → Works S (and_then (error_work S args.items (callers_at (here frames.old) line) []) (back_in false (slots_of frames.old)))
        frames.old store frames.new store result }
{
    let mut args = args;
    let value = take(&mut args);
    let level = take(&mut args);
    match level_of(&level) {
        None => {
            let text = argument_fault(
                frames.alloc,
                2,
                b"error",
                b"number",
                type_of(&level).name(),
            )?;
            raise(frames, program, line, text.as_slice())
        }
        Some(n) => raise_at_level(frames, program, line, n, value),
    }
}

/// The level of `error`: 1 where it is nil, and none of what is no number.
fn level_of(level: &Value) -> Option<i64>
    ensures { result ≡ (if is_nil level.now then Some (pos 1) else number_of level.now) }
{
    if level.is_nil() {
        return Some(1);
    }
    match number_of(level) {
        None => None,
        Some(n) => Some(n.get()),
    }
}

/// Fails with a value at a level: before a text comes the position of the n-th Lua function from inside, and below 1 none.
fn raise_at_level(
    frames: &mut Frames,
    program: &Program,
    line: u32,
    level: i64,
    value: Value,
) -> Result<Flow, AllocError>
    ensures { (S : Setting) → (store : StoreView) → (given : Value) → S.program ≡ program.now
        → Works S (raise_at S (callers_at (here frames.old) line) (Some level) given value (slots_of frames.old)) frames.old store frames.new store result }
{
    if level < 1 {
        raise_value(frames, value)
    } else {
        raise_given(frames, program, line, (level - 1) as usize, value)
    }
}

/// `assert`: gives its arguments, or fails where the first is false or nil.
pub(crate) fn assert_call(
    frames: &mut Frames,
    program: &Program,
    line: u32,
    args: Vec<Value>,
) -> Result<Flow, AllocError>
    ensures { (S : Setting) → (store : StoreView) → S.program ≡ program.now
        → Works S (and_then (assert_work S args.items (callers_at (here frames.old) line) []) (back_in false (slots_of frames.old)))
        frames.old store frames.new store result }
{
    match args.as_slice() {
        [] => raise_missing(frames, program, line, 1, b"assert"),
        [value, rest @ ..] => {
            if is_truthy(value) {
                give_many(frames, args)
            } else {
                assertion_failed(frames, program, line, rest)
            }
        }
    }
}

/// Fails as the first argument of `assert` is false or nil: with the second, or with a text of its own.
fn assertion_failed(
    frames: &mut Frames,
    program: &Program,
    line: u32,
    rest: &[Value],
) -> Result<Flow, AllocError>
    ensures { (S : Setting) → (store : StoreView) → S.program ≡ program.now
        → Works S (failed_assertion S rest.now (callers_at (here frames.old) line) (slots_of frames.old)) frames.old store frames.new store result }
{
    let message = first_of(rest)?;
    if message.is_nil() {
        raise(frames, program, line, b"assertion failed!")
    } else {
        raise_given(frames, program, line, 0, message)
    }
}

/// The first of some values, nil of none.
fn first_of(values: &[Value]) -> Result<Value, AllocError>
    ensures { IfOk result (λ value. value ≡ first values.now) }
{
    match values {
        [] => Ok(Value::Nil),
        [value, ..] => value.clone(),
    }
}
