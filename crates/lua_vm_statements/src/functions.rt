//! `local function` (Lua 5.1 Reference Manual, 2.4.7).

ghost use Rattle.std.specs.Prelude.{◌≡◌};
ghost use Rattle.lua_meaning.specs.Setting.{Setting};
ghost use Rattle.lua_meaning.specs.Statements.{local_function};
ghost use Rattle.lua_frames.specs.Frames.{here, slots_of};
ghost use Rattle.lua_frames.specs.Follows.{Works};

use crate::assigning::assign_slot;
use lua_ast::Program;
use lua_frames::{Flow, Frames, put_plain, raise_fault};
use lua_operators::Fault;
use lua_values::{Store, Value};
use lua_vm_expressions::make_closure;
use std::alloc::AllocError;

/// The variable is there, with nil, as the closure captures it, and then has the closure.
pub(crate) fn local_function(
    frames: &mut Frames,
    program: &Program,
    store: &mut Store,
    line: u32,
    i: u8,
    function: u32,
) -> Result<Flow, AllocError>
    ensures { (S : Setting) → S.program ≡ program.now
        → Works S (local_function S line i function (here frames.old) (slots_of frames.old)) frames.old store.old frames.new store.new result }
{
    put_plain(frames, i, Value::Nil);
    match make_closure(frames, program, store, function)? {
        Some(c) => assign_slot(frames, program, store, line, i, Value::Closure(c)),
        None => raise_fault(frames, program, line, Fault::StorageLimit),
    }
}
