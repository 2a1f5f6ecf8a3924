//! What expressions mention, in the order of the text.

ghost use Rattle.std.specs.Prelude.{◌≡◌, ◌++◌, IsOk, OnOk, flat_map};
ghost use Rattle.lua_linking.specs.Mentions as spec;

use crate::mentions::{Mention, mention_call, mention_function};
use lua_ast::{Expr, ExprKind, TableItem};
use std::alloc::AllocError;
use std::rc::Rc;

/// Notes what an expression mentions.
#[cycle(mentions)]
pub(crate) fn mentions_in(expr: &Expr, mentions: &mut Vec<Mention>) -> Result<(), AllocError>
    ensures { OnOk result (mentions.new.items ≡ mentions.old.items ++ spec.mentions_in expr.now) }
{
    match &expr.kind {
        ExprKind::Function(number) => mention_function(*number, mentions),
        ExprKind::Index(a, b)
        | ExprKind::Binary(_, a, b)
        | ExprKind::And(a, b)
        | ExprKind::Or(a, b) => mentions_after(mentions_in_shared(a, mentions), b, mentions),
        ExprKind::Call(callee, values) => {
            let done = mention_call(callee, values, mentions);
            let done = mentions_after(done, callee, mentions);
            each_after(done, values, mentions)
        }
        ExprKind::Method(object, _, values) => {
            each_after(mentions_in_shared(object, mentions), values, mentions)
        }
        ExprKind::Unary(_, operand) | ExprKind::Paren(operand) => {
            mentions_in_shared(operand, mentions)
        }
        ExprKind::Table(items) => mentions_in_table(items, mentions),
        _ => Ok(()),
    }
}

/// Notes what an expression that is a part of another mentions.
#[cycle(mentions)]
pub(crate) fn mentions_in_shared(
    expr: &Rc<Expr>,
    mentions: &mut Vec<Mention>,
) -> Result<(), AllocError>
    ensures { OnOk result (mentions.new.items ≡ mentions.old.items ++ spec.mentions_in expr.now.value) }
{
    mentions_in(expr, mentions)
}

/// Notes what an expression mentions, where what comes before it in the text is noted.
#[cycle(mentions)]
pub(crate) fn mentions_after(
    before: Result<(), AllocError>,
    expr: &Rc<Expr>,
    mentions: &mut Vec<Mention>,
) -> Result<(), AllocError>
    ensures before { OnOk result (IsOk before) }
    ensures notes { OnOk result (mentions.new.items ≡ mentions.old.items ++ spec.mentions_in expr.now.value) }
{
    match before {
        Ok(()) => mentions_in(expr, mentions),
        Err(e) => Err(e),
    }
}

/// Notes what each of these expressions mentions, where what comes before them in the text is noted.
#[cycle(mentions)]
pub(crate) fn each_after(
    before: Result<(), AllocError>,
    exprs: &Rc<Vec<Expr>>,
    mentions: &mut Vec<Mention>,
) -> Result<(), AllocError>
    ensures before { OnOk result (IsOk before) }
    ensures notes { OnOk result (mentions.new.items ≡ mentions.old.items ++ flat_map spec.mentions_in exprs.now.value.items) }
{
    match before {
        Ok(()) => mentions_in_each(exprs, mentions),
        Err(e) => Err(e),
    }
}

/// Notes what each of these expressions mentions.
#[cycle(mentions)]
pub(crate) fn mentions_in_each(
    exprs: &[Expr],
    mentions: &mut Vec<Mention>,
) -> Result<(), AllocError>
    ensures { OnOk result (mentions.new.items ≡ mentions.old.items ++ flat_map spec.mentions_in exprs.now) }
{
    for expr in exprs {
        mentions_in(expr, mentions)?;
    }
    Ok(())
}

/// Notes what the expressions of a list mention.
pub(crate) fn mentions_in_list(
    exprs: &Rc<Vec<Expr>>,
    mentions: &mut Vec<Mention>,
) -> Result<(), AllocError>
    ensures { OnOk result (mentions.new.items ≡ mentions.old.items ++ flat_map spec.mentions_in exprs.now.value.items) }
{
    mentions_in_each(exprs, mentions)
}

/// Notes what the items of a table constructor mention.
#[cycle(mentions)]
fn mentions_in_table(
    items: &Rc<Vec<TableItem>>,
    mentions: &mut Vec<Mention>,
) -> Result<(), AllocError>
    ensures { OnOk result (mentions.new.items ≡ mentions.old.items ++ flat_map spec.mentions_in_item items.now.value.items) }
{
    mentions_in_items(items, mentions)
}

/// Notes what each of these items mentions.
#[cycle(mentions)]
fn mentions_in_items(items: &[TableItem], mentions: &mut Vec<Mention>) -> Result<(), AllocError>
    ensures { OnOk result (mentions.new.items ≡ mentions.old.items ++ flat_map spec.mentions_in_item items.now) }
{
    for item in items {
        mentions_in_item(item, mentions)?;
    }
    Ok(())
}

/// Notes what this item mentions.
#[cycle(mentions)]
fn mentions_in_item(item: &TableItem, mentions: &mut Vec<Mention>) -> Result<(), AllocError>
    ensures { OnOk result (mentions.new.items ≡ mentions.old.items ++ spec.mentions_in_item item.now) }
{
    match item {
        TableItem::Item(value) => mentions_in(value, mentions),
        TableItem::Pair(key, value) => {
            mentions_in(key, mentions)?;
            mentions_in(value, mentions)
        }
    }
}
