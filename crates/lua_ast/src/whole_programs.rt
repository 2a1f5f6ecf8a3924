//! Whether each number in a program names something that is there.

ghost use Rattle.std.specs.Prelude.{◌≡◌, ◌<◌, ◌≤◌, ◌↔◌, IsTrue, IfSome, length};
ghost use Rattle.std.specs.List.{All};
ghost use Rattle.lua_ast.specs.WholeProgram.{HasVariable, HasInner, IsWholeExpr, IsWholeItem, IsWholeStmt, IsWholeArm, IsWholeFunction, IsWholeProgram};

use crate::{Arm, Capture, Expr, ExprKind, Function, Program, Stmt, StmtKind, TableItem};
use std::rc::Rc;

/// Whether the function has this variable.
fn has_variable(f: &Function, capture: Capture) -> bool
    ensures { IsTrue result ↔ HasVariable f.now capture }
{
    match capture {
        Capture::Slot(n) => n < f.slots,
        Capture::Outer(n) => (n as usize) < f.captures.len(),
    }
}

/// Whether `f` may make a closure of the function with this number.
fn has_inner(functions: &[Function], f: &Function, n: u32) -> bool
    ensures { IsTrue result ↔ HasInner functions.now f.now n }
{
    match functions.get(n as usize) {
        Some(inner) => has_variables(f, &inner.captures),
        None => false,
    }
}

/// Whether the function has these variables.
fn has_variables(f: &Function, captures: &[Capture]) -> bool
    ensures { IsTrue result ↔ All (HasVariable f.now) captures.now }
{
    captures.iter().all(|capture| has_variable(f, *capture))
}

/// Whether each number in an expression of `f` names something that is there.
#[cycle(whole_expr)]
fn is_whole_expr(functions: &[Function], f: &Function, expr: &Expr) -> bool
    ensures { IsTrue result ↔ IsWholeExpr functions.now f.now expr.now }
{
    match &expr.kind {
        ExprKind::Function(n) => has_inner(functions, f, *n),
        ExprKind::Slot(n) => *n < f.slots,
        ExprKind::Captured(n) => (*n as usize) < f.captures.len(),
        ExprKind::Index(a, b) => is_whole_expr(functions, f, a) && is_whole_expr(functions, f, b),
        ExprKind::Binary(_, a, b) => {
            is_whole_expr(functions, f, a) && is_whole_expr(functions, f, b)
        }
        ExprKind::And(a, b) => is_whole_expr(functions, f, a) && is_whole_expr(functions, f, b),
        ExprKind::Or(a, b) => is_whole_expr(functions, f, a) && is_whole_expr(functions, f, b),
        ExprKind::Call(callee, values) => {
            is_whole_expr(functions, f, callee) && are_whole_exprs(functions, f, values)
        }
        ExprKind::Method(object, _, values) => {
            is_whole_expr(functions, f, object) && are_whole_exprs(functions, f, values)
        }
        ExprKind::Unary(_, operand) => is_whole_expr(functions, f, operand),
        ExprKind::Paren(inner) => is_whole_expr(functions, f, inner),
        ExprKind::Table(items) => are_whole_items(functions, f, items),
        ExprKind::Nil | ExprKind::True | ExprKind::False | ExprKind::Vararg => true,
        ExprKind::Number(_) | ExprKind::Text(_) | ExprKind::Global(_) => true,
    }
}

/// The same of each of these expressions.
#[cycle(whole_expr)]
fn are_whole_exprs(functions: &[Function], f: &Function, exprs: &[Expr]) -> bool
    ensures { IsTrue result ↔ All (IsWholeExpr functions.now f.now) exprs.now }
{
    for expr in exprs {
        if !is_whole_expr(functions, f, expr) {
            return false;
        }
    }
    true
}

/// The same of each of these items.
#[cycle(whole_expr)]
fn are_whole_items(functions: &[Function], f: &Function, items: &[TableItem]) -> bool
    ensures { IsTrue result ↔ All (IsWholeItem functions.now f.now) items.now }
{
    for item in items {
        if !is_whole_item(functions, f, item) {
            return false;
        }
    }
    true
}

/// The same of this item.
#[cycle(whole_expr)]
fn is_whole_item(functions: &[Function], f: &Function, item: &TableItem) -> bool
    ensures { IsTrue result ↔ IsWholeItem functions.now f.now item.now }
{
    match item {
        TableItem::Item(value) => is_whole_expr(functions, f, value),
        TableItem::Pair(key, value) => {
            is_whole_expr(functions, f, key) && is_whole_expr(functions, f, value)
        }
    }
}

/// Whether the function has these slots.
fn has_slots(f: &Function, slots: &[u8]) -> bool
    ensures { IsTrue result ↔ All (λ n. n < f.now.slots) slots.now }
{
    slots.iter().all(|slot| *slot < f.slots)
}

/// Whether the function has these slots, and each number in these values names something that is there.
fn are_whole_locals(functions: &[Function], f: &Function, slots: &[u8], values: &[Expr]) -> bool
    ensures { IsTrue result ↔ (All (λ n. n < f.now.slots) slots.now × All (IsWholeExpr functions.now f.now) values.now) }
{
    has_slots(f, slots) && are_whole_exprs(functions, f, values)
}

/// The same of the slot, the ends and the step of a loop over numbers.
fn is_whole_range(
    functions: &[Function],
    f: &Function,
    slot: u8,
    from: &Expr,
    to: &Expr,
    step: &Option<Rc<Expr>>,
) -> bool
    ensures { IsTrue result ↔ ((slot < f.now.slots) × IsWholeExpr functions.now f.now from.now
        × IsWholeExpr functions.now f.now to.now × IfSome step.now (λ step. IsWholeExpr functions.now f.now step.value)) }
{
    slot < f.slots
        && is_whole_expr(functions, f, from)
        && is_whole_expr(functions, f, to)
        && is_whole_step(functions, f, step)
}

/// Whether each number in a statement of `f` names something that is there.
#[cycle(whole_stmt)]
fn is_whole_stmt(functions: &[Function], f: &Function, stmt: &Stmt) -> bool
    ensures { IsTrue result ↔ IsWholeStmt functions.now f.now stmt.now }
{
    match &stmt.kind {
        StmtKind::Local(slots, values) => are_whole_locals(functions, f, slots, values),
        StmtKind::LocalFunction(slot, n) => *slot < f.slots && has_inner(functions, f, *n),
        StmtKind::Assign(targets, values) => {
            are_whole_exprs(functions, f, targets) && are_whole_exprs(functions, f, values)
        }
        StmtKind::Call(call) => is_whole_expr(functions, f, call),
        StmtKind::Do(body) => is_whole_block(functions, f, body),
        StmtKind::While(test, body) => {
            is_whole_expr(functions, f, test) && is_whole_block(functions, f, body)
        }
        StmtKind::Repeat(body, test) => {
            is_whole_expr(functions, f, test) && is_whole_block(functions, f, body)
        }
        StmtKind::If(arms, otherwise) => {
            are_whole_arms(functions, f, arms) && is_whole_block(functions, f, otherwise)
        }
        StmtKind::NumericFor {
            slot,
            from,
            to,
            step,
            body,
        } => {
            is_whole_range(functions, f, *slot, from, to, step)
                && is_whole_block(functions, f, body)
        }
        StmtKind::GenericFor {
            slots,
            values,
            body,
        } => { are_whole_locals(functions, f, slots, values) && is_whole_block(functions, f, body) }
        StmtKind::Return(values) => are_whole_exprs(functions, f, values),
        StmtKind::Break => true,
    }
}

/// The same of the step of a loop, if it has one.
fn is_whole_step(functions: &[Function], f: &Function, step: &Option<Rc<Expr>>) -> bool
    ensures { IsTrue result ↔ IfSome step.now (λ step. IsWholeExpr functions.now f.now step.value) }
{
    match step {
        Some(step) => is_whole_expr(functions, f, step),
        None => true,
    }
}

/// The same of each statement of a block.
#[cycle(whole_stmt)]
fn is_whole_block(functions: &[Function], f: &Function, block: &[Stmt]) -> bool
    ensures { IsTrue result ↔ All (IsWholeStmt functions.now f.now) block.now }
{
    for stmt in block {
        if !is_whole_stmt(functions, f, stmt) {
            return false;
        }
    }
    true
}

/// The same of each of these arms.
#[cycle(whole_stmt)]
fn are_whole_arms(functions: &[Function], f: &Function, arms: &[Arm]) -> bool
    ensures { IsTrue result ↔ All (IsWholeArm functions.now f.now) arms.now }
{
    for arm in arms {
        if !is_whole_arm(functions, f, arm) {
            return false;
        }
    }
    true
}

/// The same of this arm.
#[cycle(whole_stmt)]
fn is_whole_arm(functions: &[Function], f: &Function, arm: &Arm) -> bool
    ensures { IsTrue result ↔ IsWholeArm functions.now f.now arm.now }
{
    is_whole_expr(functions, f, &arm.test) && is_whole_block(functions, f, &arm.body)
}

/// Whether the function's file is in the program, its parameters have slots, and its body is whole.
fn is_whole_function(program: &Program, f: &Function) -> bool
    ensures { IsTrue result ↔ IsWholeFunction program.now f.now }
{
    (f.file as usize) < program.files.as_slice().len()
        && f.params <= f.slots
        && is_whole_block(&program.functions, f, &f.body)
}

/// Whether each number in the program names something that is there: the file of each function; each slot and each
/// capture, in the function that names it; each function of which a closure is made, whose captures are variables of the
/// enclosing function. Also that the parameters of each function have slots.
pub fn is_whole(program: &Program) -> bool
    ensures { IsTrue result ↔ IsWholeProgram program.now }
{
    for function in &program.functions {
        if !is_whole_function(program, function) {
            return false;
        }
    }
    true
}
