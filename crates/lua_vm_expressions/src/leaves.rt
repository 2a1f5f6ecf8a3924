//! Expressions that begin with no other one.

ghost use Rattle.std.specs.Prelude.{◌≡◌};
ghost use Rattle.lua_ast.specs.declared.expressions.ExprKind.{out-ExprKind};
ghost use Rattle.lua_meaning.specs.Expressions.{expr_work, value_work};
ghost use Rattle.lua_frames.specs.Frames.{here, slots_of};
ghost use Rattle.lua_frames.specs.Follows.{Works};
ghost use Rattle.lua_vm_expressions.specs.Children.{IsLeaf};

use crate::closures::give_closure;
use crate::constructors::begin_table;
use crate::globals::give_global;
use crate::varargs::{give_extras, give_first_extra};
use crate::variables::{captured, slot};
use lua_ast::{Expr, ExprKind};
use lua_frames::{Flow, Frames, Host, give_one};
use lua_values::{Store, Value};
use std::alloc::AllocError;

/// A leaf of which one value is wanted.
pub(crate) fn leaf_one<H: Host>(
    frames: &mut Frames,
    host: &H,
    store: &mut Store,
    x: &Expr,
) -> Result<Flow, AllocError>
    requires { IsLeaf (out-ExprKind x.now.kind) }
    ensures { Works (H.setting host.now) (value_work (H.setting host.now) x.now.line (out-ExprKind x.now.kind) (here frames.old) (slots_of frames.old))
        frames.old store.old frames.new store.new result }
{
    match &x.kind {
        ExprKind::Vararg => give_first_extra(frames, store),
        _ => leaf_all(frames, host, store, x),
    }
}

/// A leaf of which all values are wanted.
pub(crate) fn leaf_all<H: Host>(
    frames: &mut Frames,
    host: &H,
    store: &mut Store,
    x: &Expr,
) -> Result<Flow, AllocError>
    requires { IsLeaf (out-ExprKind x.now.kind) }
    ensures { Works (H.setting host.now) (expr_work (H.setting host.now) x.now.line (out-ExprKind x.now.kind) (here frames.old) (slots_of frames.old))
        frames.old store.old frames.new store.new result }
{
    match &x.kind {
        ExprKind::Nil => give_one(frames, Value::Nil),
        ExprKind::True => give_one(frames, Value::Truth(true)),
        ExprKind::False => give_one(frames, Value::Truth(false)),
        ExprKind::Number(number) => give_one(frames, Value::Number(*number)),
        ExprKind::Text(text) => give_one(frames, Value::Text(text.clone()?)),
        ExprKind::Vararg => give_extras(frames, store),
        ExprKind::Function(function) => give_closure(
            frames,
            host.program(),
            store,
            x.line,
            *function,
        ),
        ExprKind::Slot(i) => {
            let value = slot(&frames.top.slots, *i, store)?;
            give_one(frames, value)
        }
        ExprKind::Captured(i) => {
            let value = captured(&frames.top.cells, *i, store)?;
            give_one(frames, value)
        }
        ExprKind::Global(name) => give_global(frames, store, x.line, name),
        ExprKind::Table(items) => begin_table(frames, host.program(), store, x.line, items),
        ExprKind::Index(_, _)
        | ExprKind::Call(_, _)
        | ExprKind::Method(_, _, _)
        | ExprKind::Unary(_, _)
        | ExprKind::Binary(_, _, _)
        | ExprKind::And(_, _)
        | ExprKind::Or(_, _)
        | ExprKind::Paren(_) => unreachable!(),
    }
}
