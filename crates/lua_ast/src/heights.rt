//! How high an expression is.

ghost use Rattle.std.specs.Prelude.{◌≡◌, ◌+◌, ◌^◌, ◌-◌, min};
ghost use Rattle.lua_ast.specs.Height.{height_of, highest_of, highest_item_of};

use crate::{Expr, ExprKind, TableItem};

/// The height of an expression: 1 for a leaf, and one more than that of its highest child for any other. It goes down to
/// each leaf by recursion.
#[cycle(height)]
pub fn height(expr: &Expr) -> u32
    ensures { result ≡ min (height_of expr.now) (2 ^ 32 - 1) }
{
    match &expr.kind {
        ExprKind::Index(a, b) => above(height(a).max(height(b))),
        ExprKind::Binary(_, a, b) => above(height(a).max(height(b))),
        ExprKind::And(a, b) => above(height(a).max(height(b))),
        ExprKind::Or(a, b) => above(height(a).max(height(b))),
        ExprKind::Call(callee, values) => above(height(callee).max(highest(values))),
        ExprKind::Method(object, _, values) => above(height(object).max(highest(values))),
        ExprKind::Unary(_, operand) => above(height(operand)),
        ExprKind::Paren(inner) => above(height(inner)),
        ExprKind::Table(items) => above(highest_item(items)),
        _ => 1,
    }
}

/// The height of a node whose highest child has this height.
fn above(child: u32) -> u32
    ensures { result ≡ min (child + 1) (2 ^ 32 - 1) }
{
    child.saturating_add(1)
}

/// The greatest height of these expressions, 0 of none.
#[cycle(height)]
fn highest(exprs: &[Expr]) -> u32
    ensures { result ≡ min (highest_of exprs.now) (2 ^ 32 - 1) }
{
    let mut most = 0;
    for expr in exprs {
        most = height(expr).max(most);
    }
    most
}

/// The greatest height of a key or a value of these items, 0 of none.
#[cycle(height)]
fn highest_item(items: &[TableItem]) -> u32
    ensures { result ≡ min (highest_item_of items.now) (2 ^ 32 - 1) }
{
    let mut most = 0;
    for item in items {
        let here = match item {
            TableItem::Item(value) => height(value),
            TableItem::Pair(key, value) => height(key).max(height(value)),
        };
        most = here.max(most);
    }
    most
}
