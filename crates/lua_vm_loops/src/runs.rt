//! Runs of the bodies of loops: how one goes on, and how it ended.

ghost use Rattle.std.specs.Prelude.{◌≡◌, drop};
ghost use Rattle.lua_values.specs.Heap.{StoreView};
ghost use Rattle.lua_meaning.specs.Setting.{Setting};
ghost use Rattle.lua_meaning.specs.Blocks.{block};
ghost use Rattle.lua_frames.specs.Signals.{sign_of};
ghost use Rattle.lua_frames.specs.Frames.{here, slots_of};
ghost use Rattle.lua_frames.specs.Follows.{Works};
ghost use Rattle.lua_vm_loops.specs.Runs.{ends_run};

use lua_ast::Stmt;
use lua_frames::{Flow, Frames, Item, Signal, give_nothing, wait};
use std::alloc::AllocError;
use std::rc::Rc;

/// How a run of a loop's body ended.
pub(crate) enum RunEnd {
    /// The loop goes on.
    Ran,
    /// The loop ends.
    Broke,
    /// What is around the loop ends.
    Left,
}

/// How a run of a loop's body ended, by what it gave.
pub(crate) fn end_of_run(given: &Signal) -> RunEnd
    ensures { result ≡ ends_run (sign_of given.now) }
{
    match given {
        Signal::Nothing | Signal::One(_) | Signal::Many(_) => RunEnd::Ran,
        Signal::Broke => RunEnd::Broke,
        _ => RunEnd::Left,
    }
}

/// The statements of a block from an index on wait.
pub(crate) fn begin_rest(
    frames: &mut Frames,
    stmts: Rc<Vec<Stmt>>,
    next: usize,
) -> Result<Flow, AllocError>
    ensures { (S : Setting) → (store : StoreView) → Works S (block (drop next stmts.value.items) (here frames.old) (slots_of frames.old))
        frames.old store frames.new store result }
{
    wait(frames, Item::Rest(stmts, next))?;
    give_nothing(frames)
}
