//! What statements mention, in the order of the text.

ghost use Rattle.std.specs.Prelude.{◌≡◌, ◌++◌, IsOk, OnOk, [], MatchOption, flat_map};
ghost use Rattle.lua_linking.specs.Mentions as spec;

use crate::mentions::{Mention, mention_function};
use crate::named_expressions::{
    each_after, mentions_after, mentions_in, mentions_in_list, mentions_in_shared,
};
use lua_ast::{Arm, Expr, Stmt, StmtKind};
use std::alloc::AllocError;
use std::rc::Rc;

/// Notes what a statement mentions.
#[cycle(statement)]
fn mentions_in_stmt(stmt: &Stmt, mentions: &mut Vec<Mention>) -> Result<(), AllocError>
    ensures { OnOk result (mentions.new.items ≡ mentions.old.items ++ spec.mentions_in_stmt stmt.now) }
{
    let head = mentions_in_head(stmt, mentions);
    match &stmt.kind {
        StmtKind::Do(body)
        | StmtKind::While(_, body)
        | StmtKind::If(_, body)
        | StmtKind::NumericFor {
            slot: _,
            from: _,
            to: _,
            step: _,
            body,
        }
        | StmtKind::GenericFor {
            slots: _,
            values: _,
            body,
        } => block_after(head, body, mentions),
        StmtKind::Repeat(body, test) => {
            mentions_after(block_after(head, body, mentions), test, mentions)
        }
        StmtKind::Local(_, _)
        | StmtKind::LocalFunction(_, _)
        | StmtKind::Assign(_, _)
        | StmtKind::Call(_)
        | StmtKind::Return(_)
        | StmtKind::Break => head,
    }
}

/// Notes what stands in a statement before its last block: all of one without blocks, and nothing of a `repeat`, whose test comes
/// after its block.
#[cycle(statement)]
fn mentions_in_head(stmt: &Stmt, mentions: &mut Vec<Mention>) -> Result<(), AllocError>
    ensures { OnOk result (mentions.new.items ≡ mentions.old.items ++ spec.head_mentions stmt.now.kind) }
{
    match &stmt.kind {
        StmtKind::Local(_, values)
        | StmtKind::Return(values)
        | StmtKind::GenericFor {
            slots: _,
            values,
            body: _,
        } => mentions_in_list(values, mentions),
        StmtKind::LocalFunction(_, number) => mention_function(*number, mentions),
        StmtKind::Assign(targets, values) => mentions_in_lists(targets, values, mentions),
        StmtKind::Call(call) => mentions_in(call, mentions),
        StmtKind::While(test, _) => mentions_in_shared(test, mentions),
        StmtKind::If(arms, _) => mentions_in_choices(arms, mentions),
        StmtKind::NumericFor {
            slot: _,
            from,
            to,
            step,
            body: _,
        } => mentions_in_range(from, to, step, mentions),
        StmtKind::Do(_) | StmtKind::Repeat(_, _) | StmtKind::Break => Ok(()),
    }
}

/// Notes what each statement of a block mentions, where what comes before them in the text is noted.
#[cycle(statement)]
fn block_after(
    before: Result<(), AllocError>,
    block: &Rc<Vec<Stmt>>,
    mentions: &mut Vec<Mention>,
) -> Result<(), AllocError>
    ensures before { OnOk result (IsOk before) }
    ensures notes { OnOk result (mentions.new.items ≡ mentions.old.items ++ flat_map spec.mentions_in_stmt block.now.value.items) }
{
    match before {
        Ok(()) => mentions_in_block(block, mentions),
        Err(e) => Err(e),
    }
}

/// Notes what two lists of expressions mention.
fn mentions_in_lists(
    targets: &Rc<Vec<Expr>>,
    values: &Rc<Vec<Expr>>,
    mentions: &mut Vec<Mention>,
) -> Result<(), AllocError>
    ensures { OnOk result (mentions.new.items ≡ mentions.old.items
        ++ (flat_map spec.mentions_in targets.now.value.items ++ flat_map spec.mentions_in values.now.value.items)) }
{
    each_after(mentions_in_list(targets, mentions), values, mentions)
}

/// Notes what the numbers of a loop mention: the first, the last, and the step if there is one.
fn mentions_in_range(
    from: &Rc<Expr>,
    to: &Rc<Expr>,
    step: &Option<Rc<Expr>>,
    mentions: &mut Vec<Mention>,
) -> Result<(), AllocError>
    ensures { OnOk result (mentions.new.items ≡ mentions.old.items ++ spec.mentions_in_range from.now.value to.now.value step.now) }
{
    mentions_in_shared(from, mentions)?;
    mentions_in_shared(to, mentions)?;
    match step {
        Some(step) => mentions_in_shared(step, mentions),
        None => Ok(()),
    }
}

/// Notes what each statement of a block mentions.
#[cycle(statement)]
pub(crate) fn mentions_in_block(
    block: &[Stmt],
    mentions: &mut Vec<Mention>,
) -> Result<(), AllocError>
    ensures { OnOk result (mentions.new.items ≡ mentions.old.items ++ flat_map spec.mentions_in_stmt block.now) }
{
    for stmt in block {
        mentions_in_stmt(stmt, mentions)?;
    }
    Ok(())
}

/// Notes what the arms of an `if` mention.
#[cycle(statement)]
fn mentions_in_choices(arms: &Rc<Vec<Arm>>, mentions: &mut Vec<Mention>) -> Result<(), AllocError>
    ensures { OnOk result (mentions.new.items ≡ mentions.old.items ++ flat_map spec.mentions_in_arm arms.now.value.items) }
{
    mentions_in_arms(arms, mentions)
}

/// Notes what each arm of an `if` mentions.
#[cycle(statement)]
fn mentions_in_arms(arms: &[Arm], mentions: &mut Vec<Mention>) -> Result<(), AllocError>
    ensures { OnOk result (mentions.new.items ≡ mentions.old.items ++ flat_map spec.mentions_in_arm arms.now) }
{
    for arm in arms {
        mentions_in_arm(arm, mentions)?;
    }
    Ok(())
}

/// Notes what this arm mentions.
#[cycle(statement)]
fn mentions_in_arm(arm: &Arm, mentions: &mut Vec<Mention>) -> Result<(), AllocError>
    ensures { OnOk result (mentions.new.items ≡ mentions.old.items ++ spec.mentions_in_arm arm.now) }
{
    block_after(mentions_in(&arm.test, mentions), &arm.body, mentions)
}
