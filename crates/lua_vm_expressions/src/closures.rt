//! Closures of functions (Lua 5.1 Reference Manual, 2.5.9).

ghost use Rattle.std.specs.Prelude.{◌≡◌};
ghost use Rattle.lua_meaning.specs.Setting.{Setting};
ghost use Rattle.lua_meaning.specs.Closures.{closure_work};
ghost use Rattle.lua_meaning.specs.Signs.{give_one};
ghost use Rattle.lua_frames.specs.Frames.{here, slots_of};
ghost use Rattle.lua_frames.specs.Follows.{Works};

use crate::captures::make_closure;
use lua_ast::Program;
use lua_frames::{Flow, Frames, give_one, raise_fault};
use lua_operators::Fault;
use lua_values::{Store, Value};
use std::alloc::AllocError;

/// Gives a new closure of a function.
pub(crate) fn give_closure(
    frames: &mut Frames,
    program: &Program,
    store: &mut Store,
    line: u32,
    function: u32,
) -> Result<Flow, AllocError>
    ensures { (S : Setting) → S.program ≡ program.now
        → Works S (closure_work S line function (here frames.old) (slots_of frames.old) give_one) frames.old store.old frames.new store.new result }
{
    match make_closure(frames, program, store, function)? {
        Some(c) => give_one(frames, Value::Closure(c)),
        None => raise_fault(frames, program, line, Fault::StorageLimit),
    }
}
