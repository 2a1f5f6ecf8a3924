//! Calls of the host's functions.

ghost use Rattle.std.specs.Prelude.{◌≡◌, [], false, true};
ghost use Rattle.lua_values.specs.Heap.{StoreView};
ghost use Rattle.lua_meaning.specs.Setting.{Setting};
ghost use Rattle.lua_meaning.specs.Works.{and_then};
ghost use Rattle.lua_meaning.specs.Positions.{callers_at};
ghost use Rattle.lua_meaning.specs.Natives.{native_work};
ghost use Rattle.lua_frames.specs.Frames.{here, slots_of};
ghost use Rattle.lua_frames.specs.Follows.{Works};
ghost use Rattle.lua_vm_functions.specs.CallEnds.{back_in};
ghost use Rattle.lua_vm_calls.specs.NativeParts.{own_work};

use crate::errors::{assert_call, error_call};
use crate::library::call_library;
use crate::parameters::texts_length;
use crate::protected::{handled_call, protected_call};
use crate::texts::tostring_call;
use lua_ast::Program;
use lua_frames::{Flow, Frames, Host, Item, wait};
use lua_values::{BYTES_OF_A_STEP, Store, Value};
use std::alloc::AllocError;

/// The numbers of the machine's own functions; the host's library has those from `LIBRARY` on.
const PCALL: u32 = 0;

const XPCALL: u32 = 1;

const ERROR: u32 = 2;

const TOSTRING: u32 = 4;

const LIBRARY: u32 = 5;

/// Calls a function of the host by its number.
pub(crate) fn call_native<H: Host>(
    frames: &mut Frames,
    host: &H,
    store: &mut Store,
    line: u32,
    number: u32,
    args: Vec<Value>,
) -> Result<Flow, AllocError>
    ensures { Works (H.setting host.now) (and_then (native_work (H.setting host.now) number args.items (callers_at (here frames.old) line) [])
        (back_in false (slots_of frames.old)))
        frames.old store.old frames.new store.new result }
{
    if number >= LIBRARY {
        return call_library(frames, host, store, line, number - LIBRARY, args);
    }
    if number == TOSTRING {
        return tostring_call(frames, host.program(), store, line, args);
    }
    if !store.count(texts_length(&args) / BYTES_OF_A_STEP) {
        return Ok(Flow::Spent);
    }
    call_own(frames, host.program(), line, number, args)
}

/// Calls one of the machine's own once its steps are counted: `pcall`, `xpcall`, `error` or `assert`.
fn call_own(
    frames: &mut Frames,
    program: &Program,
    line: u32,
    number: u32,
    args: Vec<Value>,
) -> Result<Flow, AllocError>
    ensures { (S : Setting) → (store : StoreView) → S.program ≡ program.now
        → Works S (and_then (own_work S number args.items (callers_at (here frames.old) line) []) (back_in false (slots_of frames.old)))
        frames.old store frames.new store result }
{
    if number == PCALL {
        protected_call(frames, program, line, args)
    } else if number == XPCALL {
        handled_call(frames, program, line, args)
    } else if number == ERROR {
        error_call(frames, program, line, args)
    } else {
        assert_call(frames, program, line, args)
    }
}

/// Calls one as `return` does: its caller returns what it gives.
pub(crate) fn tail_native<H: Host>(
    frames: &mut Frames,
    host: &H,
    store: &mut Store,
    line: u32,
    number: u32,
    args: Vec<Value>,
) -> Result<Flow, AllocError>
    ensures { Works (H.setting host.now) (and_then (native_work (H.setting host.now) number args.items (callers_at (here frames.old) line) [])
        (back_in true (slots_of frames.old)))
        frames.old store.old frames.new store.new result }
{
    wait(frames, Item::TailReturn)?;
    call_native(frames, host, store, line, number, args)
}
