//! `repeat body until test` (Lua 5.1 Reference Manual, 2.4.4).

ghost use Rattle.lua_meaning.specs.Setting.{Setting};
ghost use Rattle.lua_meaning.specs.Works.{ARepeat};
ghost use Rattle.lua_meaning.specs.Loops.{again};
ghost use Rattle.lua_frames.specs.Frames.{here, slots_of};
ghost use Rattle.lua_frames.specs.Follows.{Works, Takes};

use crate::runs::{RunEnd, end_of_run};
use lua_ast::{Expr, Stmt};
use lua_frames::{Flow, Frames, Host, Item, begin_block, give_nothing, share, take_first, wait};
use lua_operators::is_truthy;
use lua_values::Store;
use lua_vm_expressions::value_under;
use std::alloc::AllocError;
use std::rc::Rc;

/// A run of the body, which counts a step, and then the test.
pub fn begin_repeat(
    frames: &mut Frames,
    store: &mut Store,
    body: Rc<Vec<Stmt>>,
    test: Rc<Expr>,
) -> Result<Flow, AllocError>
    ensures { (S : Setting) → Works S (again (ARepeat body.value.items test.value) (here frames.old) (slots_of frames.old))
        frames.old store.old frames.new store.new result }
{
    if !store.count(1) {
        return Ok(Flow::Spent);
    }
    let block = share(&body)?;
    wait(frames, Item::Repeated(body, test))?;
    begin_block(frames, &block)
}

/// The body has run: the test comes, which sees its variables, unless a `break` ended it.
pub fn repeated<H: Host>(
    frames: &mut Frames,
    host: &H,
    store: &mut Store,
    body: Rc<Vec<Stmt>>,
    test: Rc<Expr>,
) -> Result<Flow, AllocError>
    ensures { Takes (H.setting host.now) (Item.Repeated body test) frames.old store.old frames.new store.new result }
{
    match end_of_run(&frames.given) {
        RunEnd::Ran => {
            let next = share(&test)?;
            value_under(frames, host, store, Item::Until(body, test), &next)
        }
        RunEnd::Broke => give_nothing(frames),
        RunEnd::Left => Ok(Flow::Went),
    }
}

/// The test is there: where it doesn't hold, the body runs again.
pub fn until(
    frames: &mut Frames,
    store: &mut Store,
    body: Rc<Vec<Stmt>>,
    test: Rc<Expr>,
) -> Result<Flow, AllocError>
    ensures { (S : Setting) → Takes S (Item.Until body test) frames.old store.old frames.new store.new result }
{
    match take_first(frames) {
        None => Ok(Flow::Went),
        Some(value) => {
            if is_truthy(&value) {
                give_nothing(frames)
            } else {
                begin_repeat(frames, store, body, test)
            }
        }
    }
}
