//! Numbers of functions in expressions, raised in place.

ghost use Rattle.std.specs.Prelude.{◌≡◌, ◌+◌, IsOk, OnOk};
ghost use Rattle.std.specs.List.{AllZip};
ghost use Rattle.lua_linking.specs.Raising.{RaisedExpr, RaisedItem, RaisedKind};

use lua_ast::{Expr, ExprKind, TableItem};
use std::alloc::AllocError;
use std::rc::Rc;

/// Raises a number; one that no longer fits is out of memory.
pub(crate) fn raise_number(number: &mut u32, by: u32) -> Result<(), AllocError>
    ensures { OnOk result (number.new ≡ number.old + by) }
{
    match number.checked_add(by) {
        Some(raised) => {
            *number = raised;
            Ok(())
        }
        None => Err(AllocError),
    }
}

/// Raises the numbers of functions in an expression. Its parts have no other owner; where one has, that is out of memory.
#[cycle(raise)]
pub(crate) fn raise_expr(expr: &mut Expr, by: u32) -> Result<(), AllocError>
    ensures { OnOk result (RaisedExpr by expr.old expr.new) }
{
    raise_kind(&mut expr.kind, by)
}

/// The same of what an expression is.
#[cycle(raise)]
fn raise_kind(kind: &mut ExprKind, by: u32) -> Result<(), AllocError>
    ensures { OnOk result (RaisedKind by kind.old kind.new) }
{
    match kind {
        ExprKind::Function(number) => raise_number(number, by),
        ExprKind::Index(a, b) => raise_after(raise_shared(a, by), b, by),
        ExprKind::Binary(_, a, b) => raise_after(raise_shared(a, by), b, by),
        ExprKind::And(a, b) => raise_after(raise_shared(a, by), b, by),
        ExprKind::Or(a, b) => raise_after(raise_shared(a, by), b, by),
        ExprKind::Call(callee, values) => raise_list_after(raise_shared(callee, by), values, by),
        ExprKind::Method(object, _, values) => {
            raise_list_after(raise_shared(object, by), values, by)
        }
        ExprKind::Unary(_, operand) => raise_shared(operand, by),
        ExprKind::Paren(inner) => raise_shared(inner, by),
        ExprKind::Table(items) => raise_items(items, by),
        _ => Ok(()),
    }
}

/// The same of an expression that is a part of another.
#[cycle(raise)]
pub(crate) fn raise_shared(expr: &mut Rc<Expr>, by: u32) -> Result<(), AllocError>
    ensures { OnOk result (RaisedExpr by expr.old.value expr.new.value) }
{
    match Rc::get_mut(expr) {
        Some(expr) => raise_expr(expr, by),
        None => Err(AllocError),
    }
}

/// The same, where what stands before it is raised.
#[cycle(raise)]
pub(crate) fn raise_after(
    before: Result<(), AllocError>,
    expr: &mut Rc<Expr>,
    by: u32,
) -> Result<(), AllocError>
    ensures before { OnOk result (IsOk before) }
    ensures raised { OnOk result (RaisedExpr by expr.old.value expr.new.value) }
{
    match before {
        Ok(()) => raise_shared(expr, by),
        Err(e) => Err(e),
    }
}

/// The same of each of these expressions.
#[cycle(raise)]
pub(crate) fn raise_list(exprs: &mut Rc<Vec<Expr>>, by: u32) -> Result<(), AllocError>
    ensures { OnOk result (AllZip (RaisedExpr by) exprs.old.value.items exprs.new.value.items) }
{
    let Some(exprs) = Rc::get_mut(exprs) else {
        return Err(AllocError);
    };
    for i in 0..exprs.len() {
        raise_expr(&mut exprs[i], by)?;
    }
    Ok(())
}

/// The same, where what stands before them is raised.
#[cycle(raise)]
pub(crate) fn raise_list_after(
    before: Result<(), AllocError>,
    exprs: &mut Rc<Vec<Expr>>,
    by: u32,
) -> Result<(), AllocError>
    ensures before { OnOk result (IsOk before) }
    ensures raised { OnOk result (AllZip (RaisedExpr by) exprs.old.value.items exprs.new.value.items) }
{
    match before {
        Ok(()) => raise_list(exprs, by),
        Err(e) => Err(e),
    }
}

/// The same of each of these items of a table constructor.
#[cycle(raise)]
fn raise_items(items: &mut Rc<Vec<TableItem>>, by: u32) -> Result<(), AllocError>
    ensures { OnOk result (AllZip (RaisedItem by) items.old.value.items items.new.value.items) }
{
    let Some(items) = Rc::get_mut(items) else {
        return Err(AllocError);
    };
    for i in 0..items.len() {
        raise_item(&mut items[i], by)?;
    }
    Ok(())
}

/// The same of this item.
#[cycle(raise)]
fn raise_item(item: &mut TableItem, by: u32) -> Result<(), AllocError>
    ensures { OnOk result (RaisedItem by item.old item.new) }
{
    match item {
        TableItem::Item(value) => raise_expr(value, by),
        TableItem::Pair(key, value) => {
            raise_expr(key, by)?;
            raise_expr(value, by)
        }
    }
}
