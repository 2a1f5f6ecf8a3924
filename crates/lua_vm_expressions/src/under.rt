//! Nodes that are entered under an item that waits for them.

ghost use Rattle.lua_meaning.specs.Works.{Eval, AValue, AnExpr, and_then};
ghost use Rattle.lua_meaning.specs.Signs.{values_of};
ghost use Rattle.lua_frames.specs.Items.{resume_item};
ghost use Rattle.lua_frames.specs.Frames.{here, slots_of};
ghost use Rattle.lua_frames.specs.Follows.{Works};

use crate::{begin_list, enter_expr, enter_value};
use lua_ast::Expr;
use lua_frames::{Flow, Frames, Host, Item, wait};
use lua_values::Store;
use std::alloc::AllocError;
use std::rc::Rc;

/// Evaluates an expression, of which one value is wanted, under an item that waits for it.
pub fn value_under<H: Host>(
    frames: &mut Frames,
    host: &H,
    store: &mut Store,
    item: Item,
    x: &Expr,
) -> Result<Flow, AllocError>
    ensures { Works (H.setting host.now) (Eval (AValue x.now) (here frames.old) (slots_of frames.old) (resume_item (H.setting host.now) item (here frames.old)))
        frames.old store.old frames.new store.new result }
{
    wait(frames, item)?;
    enter_value(frames, host, store, x)
}

/// Evaluates an expression, of which all values are wanted, under an item that waits for it.
pub fn expr_under<H: Host>(
    frames: &mut Frames,
    host: &H,
    store: &mut Store,
    item: Item,
    x: &Expr,
) -> Result<Flow, AllocError>
    ensures { Works (H.setting host.now) (Eval (AnExpr x.now) (here frames.old) (slots_of frames.old) (resume_item (H.setting host.now) item (here frames.old)))
        frames.old store.old frames.new store.new result }
{
    wait(frames, item)?;
    enter_expr(frames, host, store, x)
}

/// Evaluates a list of expressions under an item that waits for its values.
pub fn list_under<H: Host>(
    frames: &mut Frames,
    host: &H,
    store: &mut Store,
    item: Item,
    xs: &Rc<Vec<Expr>>,
) -> Result<Flow, AllocError>
    ensures { Works (H.setting host.now) (and_then (values_of xs.now.value.items (here frames.old) (slots_of frames.old))
        (resume_item (H.setting host.now) item (here frames.old)))
        frames.old store.old frames.new store.new result }
{
    wait(frames, item)?;
    begin_list(frames, host, store, xs)
}
