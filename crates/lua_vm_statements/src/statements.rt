//! Statements (Lua 5.1 Reference Manual, 2.4).

ghost use Rattle.std.specs.Prelude.{◌≡◌, drop};
ghost use Rattle.lua_ast.specs.declared.statements.StmtKind.{out-StmtKind};
ghost use Rattle.lua_values.specs.Heap.{StoreView};
ghost use Rattle.lua_meaning.specs.Works.{AStmt};
ghost use Rattle.lua_meaning.specs.Setting.{Setting};
ghost use Rattle.lua_meaning.specs.Statements.{stmt_work, if_work};
ghost use Rattle.lua_frames.specs.Frames.{here, slots_of};
ghost use Rattle.lua_frames.specs.Follows.{Enters, Takes, Works};

use crate::functions::local_function;
use crate::returns::begin_return;
use crate::targets::begin_assignment;
use lua_ast::{Arm, Stmt, StmtKind};
use lua_frames::{
    Flow, Frames, Host, Item, begin_block, element, give_break, give_nothing, share, take_first,
};
use lua_values::Store;
use lua_vm_expressions::{expr_under, list_under, value_under};
use lua_vm_loops::{begin_repeat, bounds_of};
use std::alloc::AllocError;
use std::rc::Rc;

/// Runs a statement.
pub(crate) fn enter_stmt<H: Host>(
    frames: &mut Frames,
    host: &H,
    store: &mut Store,
    stmt: &Stmt,
) -> Result<Flow, AllocError>
    ensures { Enters (H.setting host.now) (AStmt stmt.now) frames.old store.old frames.new store.new result }
{
    if !store.count(1) {
        return Ok(Flow::Spent);
    }
    begin_stmt(frames, host, store, stmt)
}

/// Begins a statement whose step is counted.
fn begin_stmt<H: Host>(
    frames: &mut Frames,
    host: &H,
    store: &mut Store,
    stmt: &Stmt,
) -> Result<Flow, AllocError>
    ensures { Works (H.setting host.now) (stmt_work (H.setting host.now) stmt.now.line (out-StmtKind stmt.now.kind) (here frames.old) (slots_of frames.old))
        frames.old store.old frames.new store.new result }
{
    match &stmt.kind {
        StmtKind::Local(slots, xs) => list_under(
            frames,
            host,
            store,
            Item::Locals(share(slots)?),
            xs,
        ),
        StmtKind::LocalFunction(slot, function) => {
            local_function(frames, host.program(), store, stmt.line, *slot, *function)
        }
        StmtKind::Assign(targets, xs) => begin_assignment(frames, host, store, targets, xs),
        StmtKind::Call(x) => expr_under(frames, host, store, Item::Discard, x),
        StmtKind::Do(body) => begin_block(frames, body),
        StmtKind::While(test, body) => {
            value_under(
                frames,
                host,
                store,
                Item::While(share(test)?, share(body)?),
                test,
            )
        }
        StmtKind::Repeat(body, test) => {
            let test = share(test)?;
            begin_repeat(frames, store, share(body)?, test)
        }
        StmtKind::If(arms, last) => begin_arm(frames, host, store, arms, 0, last),
        StmtKind::NumericFor {
            slot,
            from,
            to,
            step,
            body,
        } => {
            let bounds = bounds_of(stmt.line, *slot, to, step, body)?;
            value_under(frames, host, store, Item::ForFrom(bounds), from)
        }
        StmtKind::GenericFor {
            slots,
            values,
            body,
        } => {
            list_under(
                frames,
                host,
                store,
                Item::Iterate(stmt.line, share(slots)?, share(body)?),
                values,
            )
        }
        StmtKind::Return(xs) => begin_return(frames, host, store, xs),
        StmtKind::Break => give_break(frames),
    }
}

/// Begins the arm of `if` at an index, or its last block.
pub(crate) fn begin_arm<H: Host>(
    frames: &mut Frames,
    host: &H,
    store: &mut Store,
    arms: &Rc<Vec<Arm>>,
    next: usize,
    last: &Rc<Vec<Stmt>>,
) -> Result<Flow, AllocError>
    ensures { Works (H.setting host.now) (if_work (drop next arms.now.value.items) last.now.value.items (here frames.old) (slots_of frames.old))
        frames.old store.old frames.new store.new result }
{
    match element(arms, next) {
        None => begin_block(frames, last),
        Some(arm) => {
            value_under(
                frames,
                host,
                store,
                Item::Arm(share(arms)?, next, share(last)?),
                &arm.test,
            )
        }
    }
}

/// The values of a call that is a statement are dropped.
pub fn discard(frames: &mut Frames) -> Result<Flow, AllocError>
    ensures { (S : Setting) → (store : StoreView) → Takes S Item.Discard frames.old store frames.new store result }
{
    match take_first(frames) {
        None => Ok(Flow::Went),
        Some(_) => give_nothing(frames),
    }
}
