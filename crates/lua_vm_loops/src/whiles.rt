//! `while test do body end` (Lua 5.1 Reference Manual, 2.4.4).

ghost use Rattle.lua_meaning.specs.Setting.{Setting};
ghost use Rattle.lua_meaning.specs.Works.{ATurn};
ghost use Rattle.lua_meaning.specs.Loops.{while_work};
ghost use Rattle.lua_frames.specs.Frames.{here, slots_of};
ghost use Rattle.lua_frames.specs.Follows.{Enters, Works, Takes};

use crate::runs::{RunEnd, begin_rest, end_of_run};
use crate::sites::levels_of;
use lua_ast::{Expr, Stmt};
use lua_frames::{Flow, Frames, Host, Item, begin_block, give_nothing, share, take_first, wait};
use lua_operators::is_truthy;
use lua_values::Store;
use lua_vm_expressions::value_under;
use lua_vm_fast::{LoopEnd, Site, run_loop};
use std::alloc::AllocError;
use std::rc::Rc;

/// A run of the body, which counts a step, and then the test again.
fn enter_turn(
    frames: &mut Frames,
    store: &mut Store,
    test: Rc<Expr>,
    body: Rc<Vec<Stmt>>,
) -> Result<Flow, AllocError>
    ensures { (S : Setting) → Enters S (ATurn test.value body.value.items) frames.old store.old frames.new store.new result }
{
    if !store.count(1) {
        return Ok(Flow::Spent);
    }
    let block = share(&body)?;
    wait(frames, Item::Turned(test, body))?;
    begin_block(frames, &block)
}

/// The test is there: while it holds, the body runs.
pub fn while_test(
    frames: &mut Frames,
    store: &mut Store,
    test: Rc<Expr>,
    body: Rc<Vec<Stmt>>,
) -> Result<Flow, AllocError>
    ensures { (S : Setting) → Takes S (Item.While test body) frames.old store.old frames.new store.new result }
{
    match take_first(frames) {
        None => Ok(Flow::Went),
        Some(value) => {
            if is_truthy(&value) {
                enter_turn(frames, store, test, body)
            } else {
                give_nothing(frames)
            }
        }
    }
}

/// The test comes, and while it holds the body: as far as they can be run at once.
fn go_on<H: Host>(
    frames: &mut Frames,
    host: &H,
    store: &mut Store,
    test: Rc<Expr>,
    body: Rc<Vec<Stmt>>,
) -> Result<Flow, AllocError>
    ensures { Works (H.setting host.now) (while_work test.value body.value.items (here frames.old) (slots_of frames.old))
        frames.old store.old frames.new store.new result }
{
    let levels = levels_of(frames);
    let site = Site {
        alloc: frames.alloc,
        program: host.program(),
        cells: frames.top.cells.as_slice(),
        levels,
    };
    match run_loop(&site, &mut frames.top.slots, store, &test, &body) {
        LoopEnd::Over => give_nothing(frames),
        LoopEnd::Test => {
            let again = share(&test)?;
            value_under(frames, host, store, Item::While(test, body), &again)
        }
        LoopEnd::Body(next) => {
            let block = share(&body)?;
            wait(frames, Item::Turned(test, body))?;
            begin_rest(frames, block, next)
        }
    }
}

/// The body has run: the test comes again, unless a `break` ended it.
pub fn turned<H: Host>(
    frames: &mut Frames,
    host: &H,
    store: &mut Store,
    test: Rc<Expr>,
    body: Rc<Vec<Stmt>>,
) -> Result<Flow, AllocError>
    ensures { Takes (H.setting host.now) (Item.Turned test body) frames.old store.old frames.new store.new result }
{
    match end_of_run(&frames.given) {
        RunEnd::Ran => go_on(frames, host, store, test, body),
        RunEnd::Broke => give_nothing(frames),
        RunEnd::Left => Ok(Flow::Went),
    }
}
