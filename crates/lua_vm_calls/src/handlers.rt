//! Calls of the handlers of metatables (Lua 5.1 Reference Manual, 2.8).

ghost use Rattle.std.specs.Prelude.{◌≡◌, ◌∷◌, [], IfOk};
ghost use Rattle.lua_meaning.specs.Positions.{callers_at};
ghost use Rattle.lua_meaning.specs.Signs.{give_one};
ghost use Rattle.lua_meaning.specs.Calls.{call_for_one};
ghost use Rattle.lua_meaning.specs.Comparison.{call_for_truth};
ghost use Rattle.lua_frames.specs.Frames.{here, slots_of};
ghost use Rattle.lua_frames.specs.Follows.{Works};

use crate::entering::enter_call;
use lua_frames::{Flow, Frames, Host, Item, Lists, wait};
use lua_values::{Store, Value};
use std::alloc::AllocError;

/// The argument of a handler.
pub fn one(lists: &mut Lists, a: Value) -> Result<Vec<Value>, AllocError>
    ensures { IfOk result (λ args. args.items ≡ a ∷ []) }
{
    let mut args = lists.values.fresh();
    args.push(a)?;
    Ok(args)
}

/// Two arguments of a handler.
pub fn two(lists: &mut Lists, a: Value, b: Value) -> Result<Vec<Value>, AllocError>
    ensures { IfOk result (λ args. args.items ≡ a ∷ b ∷ []) }
{
    let mut args = one(lists, a)?;
    args.push(b)?;
    Ok(args)
}

/// Three arguments of a handler.
pub fn three(lists: &mut Lists, a: Value, b: Value, c: Value) -> Result<Vec<Value>, AllocError>
    ensures { IfOk result (λ args. args.items ≡ a ∷ b ∷ c ∷ []) }
{
    let mut args = two(lists, a, b)?;
    args.push(c)?;
    Ok(args)
}

/// Calls a handler of which one value is wanted.
pub fn call_for_one<H: Host>(
    frames: &mut Frames,
    host: &H,
    store: &mut Store,
    line: u32,
    by: Value,
    args: Vec<Value>,
) -> Result<Flow, AllocError>
    ensures { Works (H.setting host.now) (call_for_one (callers_at (here frames.old) line) by args.items (slots_of frames.old) give_one)
        frames.old store.old frames.new store.new result }
{
    wait(frames, Item::First)?;
    enter_call(frames, host, store, line, by, args)
}

/// Calls a handler with two operands, of whose first value the truth is wanted, or its opposite where false is wanted.
pub fn call_for_truth<H: Host>(
    frames: &mut Frames,
    host: &H,
    store: &mut Store,
    line: u32,
    wanted: bool,
    by: Value,
    a: Value,
    b: Value,
) -> Result<Flow, AllocError>
    ensures { Works (H.setting host.now) (call_for_truth (callers_at (here frames.old) line) by a b wanted (slots_of frames.old))
        frames.old store.old frames.new store.new result }
{
    let args = two(&mut frames.lists, a, b)?;
    wait(frames, Item::Truth(wanted))?;
    enter_call(frames, host, store, line, by, args)
}
