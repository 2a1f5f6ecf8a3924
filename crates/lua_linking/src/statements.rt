//! Numbers of functions in statements, raised in place.

ghost use Rattle.std.specs.Prelude.{IsOk, OnOk};
ghost use Rattle.std.specs.List.{AllZip};
ghost use Rattle.lua_linking.specs.Raising.{RaisedArm, RaisedExpr, RaisedStep, RaisedStmt, RaisedStmtKind};

use crate::expressions::{
    raise_after, raise_expr, raise_list, raise_list_after, raise_number, raise_shared,
};
use lua_ast::{Arm, Expr, Stmt, StmtKind};
use std::alloc::AllocError;
use std::rc::Rc;

/// Raises the numbers of functions in a statement.
#[cycle(raise_block)]
fn raise_stmt(stmt: &mut Stmt, by: u32) -> Result<(), AllocError>
    ensures { OnOk result (RaisedStmt by stmt.old stmt.new) }
{
    raise_stmt_kind(&mut stmt.kind, by)
}

/// The same of what a statement is.
#[cycle(raise_block)]
fn raise_stmt_kind(kind: &mut StmtKind, by: u32) -> Result<(), AllocError>
    ensures { OnOk result (RaisedStmtKind by kind.old kind.new) }
{
    match kind {
        StmtKind::Local(_, values) => raise_list(values, by),
        StmtKind::LocalFunction(_, number) => raise_number(number, by),
        StmtKind::Assign(targets, values) => raise_lists(targets, values, by),
        StmtKind::Call(call) => raise_expr(call, by),
        StmtKind::Do(body) => raise_block(body, by),
        StmtKind::While(test, body) => raise_while(body, test, by),
        StmtKind::Repeat(body, test) => raise_after(raise_block(body, by), test, by),
        StmtKind::If(arms, otherwise) => raise_block_after(raise_arms(arms, by), otherwise, by),
        StmtKind::NumericFor {
            slot: _,
            from,
            to,
            step,
            body,
        } => raise_numeric(body, from, to, step, by),
        StmtKind::GenericFor {
            slots: _,
            values,
            body,
        } => raise_generic(body, values, by),
        StmtKind::Return(values) => raise_list(values, by),
        StmtKind::Break => Ok(()),
    }
}

/// The same of two lists of expressions.
fn raise_lists(
    targets: &mut Rc<Vec<Expr>>,
    values: &mut Rc<Vec<Expr>>,
    by: u32,
) -> Result<(), AllocError>
    ensures targets { OnOk result (AllZip (RaisedExpr by) targets.old.value.items targets.new.value.items) }
    ensures values { OnOk result (AllZip (RaisedExpr by) values.old.value.items values.new.value.items) }
{
    raise_list_after(raise_list(targets, by), values, by)
}

/// The same of the body and the test of a loop.
#[cycle(raise_block)]
fn raise_while(body: &mut Rc<Vec<Stmt>>, test: &mut Rc<Expr>, by: u32) -> Result<(), AllocError>
    ensures test { OnOk result (RaisedExpr by test.old.value test.new.value) }
    ensures body { OnOk result (AllZip (RaisedStmt by) body.old.value.items body.new.value.items) }
{
    raise_block_after(raise_shared(test, by), body, by)
}

/// The same of the body and the numbers of a loop.
#[cycle(raise_block)]
fn raise_numeric(
    body: &mut Rc<Vec<Stmt>>,
    from: &mut Rc<Expr>,
    to: &mut Rc<Expr>,
    step: &mut Option<Rc<Expr>>,
    by: u32,
) -> Result<(), AllocError>
    ensures from { OnOk result (RaisedExpr by from.old.value from.new.value) }
    ensures to { OnOk result (RaisedExpr by to.old.value to.new.value) }
    ensures step { OnOk result (RaisedStep by step.old step.new) }
    ensures body { OnOk result (AllZip (RaisedStmt by) body.old.value.items body.new.value.items) }
{
    raise_block_after(raise_range(from, to, step, by), body, by)
}

/// The same of the body and the values of a loop.
#[cycle(raise_block)]
fn raise_generic(
    body: &mut Rc<Vec<Stmt>>,
    values: &mut Rc<Vec<Expr>>,
    by: u32,
) -> Result<(), AllocError>
    ensures values { OnOk result (AllZip (RaisedExpr by) values.old.value.items values.new.value.items) }
    ensures body { OnOk result (AllZip (RaisedStmt by) body.old.value.items body.new.value.items) }
{
    raise_block_after(raise_list(values, by), body, by)
}

/// The same of the numbers of a loop: the first, the last, and the step if there is one.
fn raise_range(
    from: &mut Rc<Expr>,
    to: &mut Rc<Expr>,
    step: &mut Option<Rc<Expr>>,
    by: u32,
) -> Result<(), AllocError>
    ensures from { OnOk result (RaisedExpr by from.old.value from.new.value) }
    ensures to { OnOk result (RaisedExpr by to.old.value to.new.value) }
    ensures step { OnOk result (RaisedStep by step.old step.new) }
{
    raise_shared(from, by)?;
    raise_shared(to, by)?;
    raise_step(step, by)
}

/// The same of the step of a loop, if it has one.
fn raise_step(step: &mut Option<Rc<Expr>>, by: u32) -> Result<(), AllocError>
    ensures { OnOk result (RaisedStep by step.old step.new) }
{
    match step {
        Some(step) => raise_shared(step, by),
        None => Ok(()),
    }
}

/// The same of each statement of a block.
#[cycle(raise_block)]
pub(crate) fn raise_block(block: &mut Rc<Vec<Stmt>>, by: u32) -> Result<(), AllocError>
    ensures { OnOk result (AllZip (RaisedStmt by) block.old.value.items block.new.value.items) }
{
    let Some(stmts) = Rc::get_mut(block) else {
        return Err(AllocError);
    };
    for i in 0..stmts.len() {
        raise_stmt(&mut stmts[i], by)?;
    }
    Ok(())
}

/// The same, where what stands before them is raised.
#[cycle(raise_block)]
fn raise_block_after(
    before: Result<(), AllocError>,
    block: &mut Rc<Vec<Stmt>>,
    by: u32,
) -> Result<(), AllocError>
    ensures before { OnOk result (IsOk before) }
    ensures raised { OnOk result (AllZip (RaisedStmt by) block.old.value.items block.new.value.items) }
{
    match before {
        Ok(()) => raise_block(block, by),
        Err(e) => Err(e),
    }
}

/// The same of each arm of an `if`.
#[cycle(raise_block)]
fn raise_arms(arms: &mut Rc<Vec<Arm>>, by: u32) -> Result<(), AllocError>
    ensures { OnOk result (AllZip (RaisedArm by) arms.old.value.items arms.new.value.items) }
{
    let Some(arms) = Rc::get_mut(arms) else {
        return Err(AllocError);
    };
    for i in 0..arms.len() {
        raise_arm(&mut arms[i], by)?;
    }
    Ok(())
}

/// The same of this arm.
#[cycle(raise_block)]
fn raise_arm(arm: &mut Arm, by: u32) -> Result<(), AllocError>
    ensures { OnOk result (RaisedArm by arm.old arm.new) }
{
    raise_block_after(raise_expr(&mut arm.test, by), &mut arm.body, by)
}
