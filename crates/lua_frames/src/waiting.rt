//! Items that wait.

ghost use Rattle.std.specs.Prelude.{◌≡◌, ◌+◌, [], ◌∷◌, drop, IfOk, OnOk, MatchOption};
ghost use Rattle.lua_values.specs.Heap.{StoreView};
ghost use Rattle.lua_meaning.specs.Setting.{Setting};
ghost use Rattle.lua_meaning.specs.Blocks.{block};
ghost use Rattle.lua_frames.specs.Frames.{here, slots_of};
ghost use Rattle.lua_frames.specs.Follows.{Works};
ghost use Rattle.lua_frames.specs.Changes.{Waits};

use crate::{Flow, Frames, Item, give_nothing};
use lua_ast::Stmt;
use std::alloc::AllocError;
use std::rc::Rc;

/// An item waits on top for what is evaluated next.
pub fn wait(frames: &mut Frames, item: Item) -> Result<(), AllocError>
    ensures { OnOk result (Waits frames.old item frames.new) }
{
    frames.top.items.push(item)?;
    Ok(())
}

/// A second pointer to the same; `AllocError` where it has too many owners.
pub fn share<T: Drop>(x: &Rc<T>) -> Result<Rc<T>, AllocError>
    ensures { IfOk result (λ copy. copy.value ≡ x.now.value) }
{
    x.clone()
}

/// The element of a shared list at an index, if it is there.
pub fn element<T: Drop>(xs: &Rc<Vec<T>>, i: usize) -> Option<&T>
    ensures { MatchOption result (drop i xs.now.value.items ≡ []) (λ x. drop i xs.now.value.items ≡ x.now ∷ drop (i + 1) xs.now.value.items) }
{
    xs.get(i)
}

/// Begins a block: its statements wait.
pub fn begin_block(frames: &mut Frames, stmts: &Rc<Vec<Stmt>>) -> Result<Flow, AllocError>
    ensures { (S : Setting) → (store : StoreView)
        → Works S (block stmts.now.value.items (here frames.old) (slots_of frames.old)) frames.old store frames.new store result }
{
    wait(frames, Item::Rest(share(stmts)?, 0))?;
    give_nothing(frames)
}
