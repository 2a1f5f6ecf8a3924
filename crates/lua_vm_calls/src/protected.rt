//! `pcall` and `xpcall` (Lua 5.1 Reference Manual, 5.1).

ghost use Rattle.std.specs.Prelude.{◌≡◌, [], false, OnOk};
ghost use Rattle.lua_values.specs.Heap.{StoreView};
ghost use Rattle.lua_meaning.specs.Setting.{Setting};
ghost use Rattle.lua_meaning.specs.Works.{and_then};
ghost use Rattle.lua_meaning.specs.Positions.{callers_at};
ghost use Rattle.lua_meaning.specs.ProtectedCalls.{pcall_work, xpcall_work};
ghost use Rattle.lua_frames.specs.Frames.{here, slots_of};
ghost use Rattle.lua_frames.specs.Follows.{Works};
ghost use Rattle.lua_vm_functions.specs.CallEnds.{back_in};
ghost use Rattle.lua_vm_calls.specs.NativeParts.{Guards};

use crate::parameters::{raise_missing, take};
use lua_ast::Program;
use lua_frames::{Flow, Frames, Item, Kind, frame_with, give_nothing, push_frame};
use lua_values::Value;
use resty_base::Boxed;
use std::alloc::AllocError;

/// `pcall`: a call in a frame whose end is told as values.
pub(crate) fn protected_call(
    frames: &mut Frames,
    program: &Program,
    line: u32,
    args: Vec<Value>,
) -> Result<Flow, AllocError>
    ensures { (S : Setting) → (store : StoreView) → S.program ≡ program.now
        → Works S (and_then (pcall_work S args.items (callers_at (here frames.old) line) []) (back_in false (slots_of frames.old)))
        frames.old store frames.new store result }
{
    let mut args = args;
    if args.is_empty() {
        return raise_missing(frames, program, line, 1, b"pcall");
    }
    let function = take(&mut args);
    push_guard(frames, line, Kind::Guard, function, args)?;
    give_nothing(frames)
}

/// `xpcall`: a call without arguments in a frame whose end is told as values, where a fault has gone to the handler.
pub(crate) fn handled_call(
    frames: &mut Frames,
    program: &Program,
    line: u32,
    args: Vec<Value>,
) -> Result<Flow, AllocError>
    ensures { (S : Setting) → (store : StoreView) → S.program ≡ program.now
        → Works S (and_then (xpcall_work S args.items (callers_at (here frames.old) line) []) (back_in false (slots_of frames.old)))
        frames.old store frames.new store result }
{
    let mut args = args;
    if args.is_empty() {
        return raise_missing(frames, program, line, 1, b"xpcall");
    }
    let function = take(&mut args);
    if args.is_empty() {
        return raise_missing(frames, program, line, 2, b"xpcall");
    }
    let handler = take(&mut args);
    args.clear();
    let kind = Kind::Handled(Boxed::new(frames.alloc, handler)?);
    push_guard(frames, line, kind, function, args)?;
    give_nothing(frames)
}

/// The frame of a protected call of a kind, whose call hasn't begun.
fn push_guard(
    frames: &mut Frames,
    line: u32,
    kind: Kind,
    function: Value,
    args: Vec<Value>,
) -> Result<(), AllocError>
    ensures { OnOk result (Guards line frames.old kind function args.items frames.new) }
{
    let function = Boxed::new(frames.alloc, function)?;
    let item = Item::Call(0, function, args);
    let frame = frame_with(&mut frames.lists, kind, item)?;
    push_frame(frames, line, frame)
}
