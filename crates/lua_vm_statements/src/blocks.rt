//! Blocks: the statements of one, one after another, and those of `if` (Lua 5.1 Reference Manual, 2.4.1 and 2.4.4).

ghost use Rattle.std.specs.Prelude.{drop};
ghost use Rattle.lua_meaning.specs.Blocks.{block};
ghost use Rattle.lua_frames.specs.Items.{arm_work};
ghost use Rattle.lua_frames.specs.Frames.{here, slots_of};
ghost use Rattle.lua_frames.specs.Follows.{Takes, Works};

use crate::statements::{begin_arm, enter_stmt};
use lua_ast::{Arm, Stmt, StmtKind};
use lua_frames::{
    Flow, Frames, Host, Item, begin_block, element, give_nothing, share, take_first, wait,
};
use lua_operators::is_truthy;
use lua_values::{Store, Value};
use lua_vm_fast::{Site, run_block};
use lua_vm_loops::levels_of;
use std::alloc::AllocError;
use std::rc::Rc;

/// The statement of a block at an index is run, and then those after it, which don't wait where it is a `return`.
fn begin_next<H: Host>(
    frames: &mut Frames,
    host: &H,
    store: &mut Store,
    stmts: Rc<Vec<Stmt>>,
    next: usize,
) -> Result<Flow, AllocError>
    ensures { Works (H.setting host.now) (block (drop next stmts.value.items) (here frames.old) (slots_of frames.old))
        frames.old store.old frames.new store.new result }
{
    match element(&stmts, next) {
        None => give_nothing(frames),
        Some(stmt) => match &stmt.kind {
            StmtKind::Return(_) => enter_stmt(frames, host, store, stmt),
            _ => {
                wait(frames, Item::Rest(share(&stmts)?, next + 1))?;
                enter_stmt(frames, host, store, stmt)
            }
        },
    }
}

/// The statement of a block at an index, and then those after it: as far as they can be run at once.
fn next_stmt<H: Host>(
    frames: &mut Frames,
    host: &H,
    store: &mut Store,
    stmts: Rc<Vec<Stmt>>,
    next: usize,
) -> Result<Flow, AllocError>
    ensures { Works (H.setting host.now) (block (drop next stmts.value.items) (here frames.old) (slots_of frames.old))
        frames.old store.old frames.new store.new result }
{
    let levels = levels_of(frames);
    let site = Site {
        alloc: frames.alloc,
        program: host.program(),
        cells: frames.top.cells.as_slice(),
        levels,
    };
    let next = run_block(&site, &mut frames.top.slots, store, &stmts, next);
    begin_next(frames, host, store, stmts, next)
}

/// A statement has ended, and the next one of its block is run.
pub fn rest<H: Host>(
    frames: &mut Frames,
    host: &H,
    store: &mut Store,
    stmts: Rc<Vec<Stmt>>,
    next: usize,
) -> Result<Flow, AllocError>
    ensures { Takes (H.setting host.now) (Item.Rest stmts next) frames.old store.old frames.new store.new result }
{
    match take_first(frames) {
        None => Ok(Flow::Went),
        Some(_) => next_stmt(frames, host, store, stmts, next),
    }
}

/// The arm of `if` at an index, whose test gave a value: its block where that holds, else what comes after it.
fn choose_arm<H: Host>(
    frames: &mut Frames,
    host: &H,
    store: &mut Store,
    arms: &Rc<Vec<Arm>>,
    next: usize,
    last: &Rc<Vec<Stmt>>,
    test: &Value,
) -> Result<Flow, AllocError>
    ensures { Works (H.setting host.now) (arm_work (drop next arms.now.value.items) last.now.value.items (here frames.old) test.now (slots_of frames.old))
        frames.old store.old frames.new store.new result }
{
    match element(arms, next) {
        None => begin_block(frames, last),
        Some(arm) => {
            if is_truthy(test) {
                begin_block(frames, &arm.body)
            } else {
                begin_arm(frames, host, store, arms, next + 1, last)
            }
        }
    }
}

/// The test of an arm of `if` is there.
pub fn arm<H: Host>(
    frames: &mut Frames,
    host: &H,
    store: &mut Store,
    arms: Rc<Vec<Arm>>,
    next: usize,
    last: Rc<Vec<Stmt>>,
) -> Result<Flow, AllocError>
    ensures { Takes (H.setting host.now) (Item.Arm arms next last) frames.old store.old frames.new store.new result }
{
    match take_first(frames) {
        None => Ok(Flow::Went),
        Some(test) => choose_arm(frames, host, store, &arms, next, &last, &test),
    }
}
