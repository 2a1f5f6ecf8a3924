//! Entering expressions.

ghost use Rattle.lua_meaning.specs.Works.{AValue, AnExpr};
ghost use Rattle.lua_frames.specs.Follows.{Enters};

use crate::children::child_of;
use crate::leaves::{leaf_all, leaf_one};
use lua_ast::Expr;
use lua_frames::{Flow, Frames, Host, wait};
use lua_values::Store;
use std::alloc::AllocError;

/// Evaluates an expression of which one value is wanted, down to its first leaf.
pub fn enter_value<H: Host>(
    frames: &mut Frames,
    host: &H,
    store: &mut Store,
    x: &Expr,
) -> Result<Flow, AllocError>
    ensures { Enters (H.setting host.now) (AValue x.now) frames.old store.old frames.new store.new result }
{
    let mut next = x;
    loop {
        if !store.count(1) {
            return Ok(Flow::Spent);
        }
        match child_of(next)? {
            None => return leaf_one(frames, host, store, next),
            Some(child) => {
                wait(frames, child.item)?;
                next = child.expr;
            }
        }
    }
}

/// Evaluates an expression of which all values are wanted, down to its first leaf.
pub fn enter_expr<H: Host>(
    frames: &mut Frames,
    host: &H,
    store: &mut Store,
    x: &Expr,
) -> Result<Flow, AllocError>
    ensures { Enters (H.setting host.now) (AnExpr x.now) frames.old store.old frames.new store.new result }
{
    if !store.count(1) {
        return Ok(Flow::Spent);
    }
    match child_of(x)? {
        None => leaf_all(frames, host, store, x),
        Some(child) => {
            wait(frames, child.item)?;
            enter_value(frames, host, store, child.expr)
        }
    }
}
