//! Blocks that give values to variables of their own function alone, which are run at once.

ghost use Rattle.std.specs.Prelude.{◌≡◌, ◌<◌, ◌+◌, ◌*◌, ◌∷◌, [], slice_set, IfSome};
ghost use Rattle.lua_ast.specs.declared.statements.Stmt.{Stmt as LuaStmt};
ghost use Rattle.lua_values.specs.Heap.{Heap, step_limit};
ghost use Rattle.lua_meaning.specs.declared.slots.Slot.TheVariants.{Plain};
ghost use Rattle.lua_meaning.specs.Works.{Slots, Values, Return};
ghost use Rattle.lua_vm_fast.specs.Runs.{IsLocals, IsAssignments};
ghost use Rattle.lua_vm_fast.specs.Calls.{IsReturn, all_of};
ghost use Rattle.lua_vm_fast.specs.Bodies.{Follows, StmtEnds, BlockEnds, more_of, sign_of};
ghost use Rattle.lua_vm_fast.specs.Branches.{IsIf};

use crate::branches::chosen_of;
use crate::calls::{Site, value_at};
use crate::places::Valued;
use crate::statements::{is_plain, only, put_value, stmt_at};
use lua_ast::{Arm, Expr, ExprKind, Stmt, StmtKind};
use lua_meaning::Slot;
use lua_values::{STEP_LIMIT, Store, Value};
use std::rc::Rc;

/// What a statement does that changes no more than one variable of its function.
#[derive(Clone, Copy)]
pub(crate) enum Plan<'a> {
    /// A variable gets the value of an expression, which counts so many steps besides those of the expression.
    Sets(u8, &'a Expr, u64),
    /// Nothing is changed, and so many steps are counted.
    Counts(u64),
    /// The function returns the value of an expression.
    Gives(&'a Expr),
    /// The function returns nothing.
    Leaves,
}

/// How a block or a statement ended: what comes after it is next, or its function returns no value or one.
#[derive(Drop)]
pub(crate) enum End {
    Went,
    Returned(Option<Value>),
}

/// How a block or a statement ended, and how many steps it counted.
#[derive(Drop)]
pub(crate) struct Ended {
    pub end: End,
    pub steps: u64,
}

/// The one expression of a list that has no other.
#[inline(always)]
fn only_expr(xs: &[Expr]) -> Option<&Expr>
    ensures { IfSome result (λ x. xs.now ≡ x.now ∷ []) }
{
    match xs {
        [x] => Some(x),
        _ => None,
    }
}

/// The one statement of a block that has no other.
#[inline(always)]
fn only_stmt(stmts: &[Stmt]) -> Option<&Stmt>
    ensures { IfSome result (λ stmt. stmts.now ≡ stmt.now ∷ []) }
{
    match stmts {
        [stmt] => Some(stmt),
        _ => None,
    }
}

/// What `local NAME = x` does.
#[inline(always)]
fn local_plan<'a>(places: &Rc<Vec<u8>>, xs: &'a Rc<Vec<Expr>>) -> Option<Plan<'a>>
    ensures follows { IfSome result (λ plan. (stmt : LuaStmt) → IsLocals places.now.value.items xs.now.value.items stmt
        → (slots : Slots) → (heap : Heap) → Follows plan stmt slots heap) }
    ensures few { IfSome result (λ plan. more_of plan < 3) }
{
    let i = only(places.as_slice())?;
    let x = only_expr(xs.as_slice())?;
    Some(Plan::Sets(*i, x, 1))
}

/// What `NAME = x` does, of a local variable that no closure shares.
#[inline(always)]
fn assigned_plan<'a>(
    slots: &[Slot],
    targets: &Rc<Vec<Expr>>,
    xs: &'a Rc<Vec<Expr>>,
) -> Option<Plan<'a>>
    ensures follows { IfSome result (λ plan. (stmt : LuaStmt) → IsAssignments targets.now.value.items xs.now.value.items stmt
        → (heap : Heap) → Follows plan stmt slots.now heap) }
    ensures few { IfSome result (λ plan. more_of plan < 3) }
{
    let target = only_expr(targets.as_slice())?;
    match &target.kind {
        ExprKind::Slot(i) => {
            if !is_plain(slots, *i) {
                return None;
            }
            let x = only_expr(xs.as_slice())?;
            Some(Plan::Sets(*i, x, 2))
        }
        _ => None,
    }
}

/// What `return x` does, of what is no call.
#[inline(always)]
fn given_plan(x: &Expr) -> Option<Plan<'_>>
    ensures follows { IfSome result (λ plan. (stmt : LuaStmt) → IsReturn (x.now ∷ []) stmt → (slots : Slots) → (heap : Heap) → Follows plan stmt slots heap) }
    ensures few { IfSome result (λ plan. more_of plan < 3) }
{
    match &x.kind {
        ExprKind::Call(_, _) | ExprKind::Method(_, _, _) => None,
        _ => Some(Plan::Gives(x)),
    }
}

/// What `return` does of a list of no expression or one.
#[inline(always)]
fn returned_plan<'a>(xs: &'a Rc<Vec<Expr>>) -> Option<Plan<'a>>
    ensures follows { IfSome result (λ plan. (stmt : LuaStmt) → IsReturn xs.now.value.items stmt
        → (slots : Slots) → (heap : Heap) → Follows plan stmt slots heap) }
    ensures few { IfSome result (λ plan. more_of plan < 3) }
{
    match xs.as_slice() {
        [] => Some(Plan::Leaves),
        [x] => given_plan(x),
        _ => None,
    }
}

/// What a statement does without a test, if it changes no more than one variable of its function, which no closure shares.
#[inline(always)]
fn plain_plan<'a>(slots: &[Slot], stmt: &'a Stmt) -> Option<Plan<'a>>
    ensures follows { IfSome result (λ plan. (heap : Heap) → Follows plan stmt.now slots.now heap) }
    ensures few { IfSome result (λ plan. more_of plan < 3) }
{
    match &stmt.kind {
        StmtKind::Local(places, xs) => local_plan(places, xs),
        StmtKind::Assign(targets, xs) => assigned_plan(slots, targets, xs),
        StmtKind::Return(xs) => returned_plan(xs),
        _ => None,
    }
}

/// What `if` does, where it comes to a block that is empty or of one statement.
fn if_plan<'a>(
    slots: &[Slot],
    store: &Store,
    arms: &'a Rc<Vec<Arm>>,
    last: &'a Rc<Vec<Stmt>>,
) -> Option<Plan<'a>>
    ensures follows { IfSome result (λ plan. (stmt : LuaStmt) → IsIf arms.now.value.items last.now.value.items stmt
        → Follows plan stmt slots.now store.now.heap) }
    ensures few { IfSome result (λ plan. more_of plan < step_limit + 3) }
{
    let chosen = chosen_of(slots, store, arms, last)?;
    let tests = chosen.steps + 1;
    match chosen.body {
        [] => Some(Plan::Counts(tests)),
        stmts => {
            let stmt = only_stmt(stmts)?;
            match plain_plan(slots, stmt)? {
                Plan::Sets(slot, x, more) => Some(Plan::Sets(slot, x, more + tests)),
                _ => None,
            }
        }
    }
}

/// What a statement does, if it changes no more than one variable of its function, which no closure shares.
#[inline(always)]
pub(crate) fn plan_of<'a>(slots: &[Slot], store: &Store, stmt: &'a Stmt) -> Option<Plan<'a>>
    ensures follows { IfSome result (λ plan. Follows plan stmt.now slots.now store.now.heap) }
    ensures few { IfSome result (λ plan. more_of plan < step_limit + 3) }
{
    match &stmt.kind {
        StmtKind::If(arms, last) => if_plan(slots, store, arms, last),
        _ => plain_plan(slots, stmt),
    }
}

/// How `return` of a value ends.
#[inline(always)]
fn given_end(given: Valued) -> Ended
    requires { given.steps < step_limit }
    ensures end { sign_of result.end ≡ Return (given.value ∷ []) }
    ensures steps { result.steps ≡ given.steps + 1 }
{
    let Valued { value, steps } = given;
    Ended {
        end: End::Returned(Some(value)),
        steps: steps + 1,
    }
}

/// How an assignment ends: a slot has the value, and so many steps more are counted.
#[inline(always)]
fn set_end(slots: &mut Vec<Slot>, i: u8, given: Valued, more: u64) -> Ended
    requires steps { given.steps < step_limit }
    requires more { more < 3 }
    ensures sets { slots.new.items ≡ slice_set slots.old.items i (Plain given.value) }
    ensures end { sign_of result.end ≡ Values [] }
    ensures steps { result.steps ≡ given.steps + more }
{
    let Valued { value, steps } = given;
    put_value(slots, i, value);
    Ended {
        end: End::Went,
        steps: steps + more,
    }
}

/// A return of no value or one after so many steps, if these are few enough for a run.
#[inline(always)]
fn returned(value: Option<Value>, steps: u64) -> Option<Ended>
    ensures end { IfSome result (λ r. sign_of r.end ≡ Return (all_of value)) }
    ensures steps { IfSome result (λ r. r.steps ≡ steps) }
    ensures few { IfSome result (λ r. r.steps < step_limit) }
{
    if steps >= STEP_LIMIT {
        return None;
    }
    Some(Ended {
        end: End::Returned(value),
        steps,
    })
}

/// How an `if` ends.
#[cycle(calls)]
fn if_end(
    site: &Site,
    slots: &mut Vec<Slot>,
    store: &Store,
    arms: &Rc<Vec<Arm>>,
    last: &Rc<Vec<Stmt>>,
    levels: u8,
) -> Option<Ended>
    ensures gives { IfSome result (λ r. (stmt : LuaStmt) → IsIf arms.now.value.items last.now.value.items stmt
        → StmtEnds site.now levels stmt slots.old.items store.now.heap (sign_of r.end) slots.new.items r.steps) }
    ensures few { IfSome result (λ r. r.steps < 2 * step_limit) }
{
    if levels == 0 {
        return None;
    }
    let chosen = chosen_of(slots, store, arms, last)?;
    let Ended { end, steps } = block_end(site, slots, store, chosen.body, levels - 1)?;
    Some(Ended {
        end,
        steps: steps + chosen.steps + 1,
    })
}

/// How a statement ends that changes no more than variables of its function.
#[cycle(calls)]
fn stmt_end(
    site: &Site,
    slots: &mut Vec<Slot>,
    store: &Store,
    stmt: &Stmt,
    levels: u8,
) -> Option<Ended>
    ensures gives { IfSome result (λ r. StmtEnds site.now levels stmt.now slots.old.items store.now.heap (sign_of r.end) slots.new.items r.steps) }
    ensures few { IfSome result (λ r. r.steps < 2 * step_limit) }
{
    if let StmtKind::If(arms, last) = &stmt.kind {
        return if_end(site, slots, store, arms, last, levels);
    }
    match plain_plan(slots, stmt) {
        None => None,
        Some(Plan::Leaves) => Some(Ended {
            end: End::Returned(None),
            steps: 1,
        }),
        Some(Plan::Gives(x)) => match value_at(site, slots, store, x, levels) {
            Some(given) => Some(given_end(given)),
            None => None,
        },
        Some(Plan::Sets(slot, x, more)) => match value_at(site, slots, store, x, levels) {
            Some(given) => Some(set_end(slots, slot, given, more)),
            None => None,
        },
        Some(Plan::Counts(more)) => Some(Ended {
            end: End::Went,
            steps: more,
        }),
    }
}

/// How a block ends whose statements change no more than variables of its function.
#[cycle(calls)]
pub(crate) fn block_end(
    site: &Site,
    slots: &mut Vec<Slot>,
    store: &Store,
    stmts: &[Stmt],
    levels: u8,
) -> Option<Ended>
    ensures gives { IfSome result (λ r. BlockEnds site.now levels stmts.now slots.old.items store.now.heap (sign_of r.end) slots.new.items r.steps) }
    ensures few { IfSome result (λ r. r.steps < step_limit) }
{
    let mut steps = 0u64;
    let mut i = 0usize;
    while i < stmts.len() {
        let stmt = stmt_at(stmts, i)?;
        let Ended { end, steps: more } = stmt_end(site, slots, store, stmt, levels)?;
        steps += more;
        match end {
            End::Went => {
                if steps >= STEP_LIMIT {
                    return None;
                }
                i += 1;
            }
            End::Returned(value) => return returned(value, steps),
        }
    }
    Some(Ended {
        end: End::Went,
        steps,
    })
}
