//! Expressions that begin with another one.

ghost use Rattle.std.specs.Prelude.{IfOk};
ghost use Rattle.lua_vm_expressions.specs.Children.{Begins, IsChild};

use lua_ast::{Expr, ExprKind};
use lua_frames::{Item, share};
use std::alloc::AllocError;

/// The expression that is evaluated first, and what waits for it.
#[derive(Drop)]
pub struct Child<'a> {
    pub item: Item,
    pub expr: &'a Expr,
}

/// The expression with which this one begins, if it begins with one.
pub fn child_of<'a>(x: &'a Expr) -> Result<Option<Child<'a>>, AllocError>
    ensures { IfOk result (λ child. Begins x.now child) }
{
    match &x.kind {
        ExprKind::Binary(operator, a, b) => {
            begins_with(Item::Right(x.line, *operator, share(b)?), a)
        }
        ExprKind::Unary(operator, a) => begins_with(Item::Unary(x.line, *operator), a),
        ExprKind::And(a, b) => begins_with(Item::AndThen(share(b)?), a),
        ExprKind::Or(a, b) => begins_with(Item::OrElse(share(b)?), a),
        ExprKind::Paren(a) => begins_with(Item::First, a),
        ExprKind::Index(a, b) => begins_with(Item::Key(x.line, share(b)?), a),
        ExprKind::Call(f, args) => begins_with(Item::Callee(x.line, share(args)?), f),
        ExprKind::Method(a, name, args) => {
            begins_with(Item::Method(x.line, name.clone()?, share(args)?), a)
        }
        ExprKind::Nil
        | ExprKind::True
        | ExprKind::False
        | ExprKind::Number(_)
        | ExprKind::Text(_)
        | ExprKind::Vararg
        | ExprKind::Function(_)
        | ExprKind::Slot(_)
        | ExprKind::Captured(_)
        | ExprKind::Global(_)
        | ExprKind::Table(_) => Ok(None),
    }
}

/// A child with what waits for it.
fn begins_with<'a>(item: Item, expr: &'a Expr) -> Result<Option<Child<'a>>, AllocError>
    ensures { IfOk result (λ child. IsChild item expr.now child) }
{
    Ok(Some(Child { item, expr }))
}
