//! Lists of expressions: all but the last give one value (Lua 5.1 Reference Manual, 2.5).

ghost use Rattle.std.specs.Prelude.{◌<◌, ◌++◌, [], drop, length};
ghost use Rattle.lua_values.specs.Heap.{StoreView};
ghost use Rattle.lua_meaning.specs.Works.{Values, End};
ghost use Rattle.lua_meaning.specs.Setting.{Setting};
ghost use Rattle.lua_meaning.specs.Signs.{on_values, more, values_of};
ghost use Rattle.lua_frames.specs.Items.{resume_item};
ghost use Rattle.lua_frames.specs.Signals.{sign_of};
ghost use Rattle.lua_frames.specs.Frames.{here, slots_of};
ghost use Rattle.lua_frames.specs.Follows.{Works};
ghost use Rattle.lua_vm_expressions.specs.Lists.{rest_of};

use crate::{enter_expr, enter_value};
use lua_ast::Expr;
use lua_frames::{
    Flow, Frames, Host, Item, element, give_many, give_nothing, share, take_first, take_values,
    wait,
};
use lua_values::{Store, Value};
use std::alloc::AllocError;
use std::rc::Rc;

/// Evaluates a list of expressions. A list of one makes no list of values.
pub fn begin_list<H: Host>(
    frames: &mut Frames,
    host: &H,
    store: &mut Store,
    xs: &Rc<Vec<Expr>>,
) -> Result<Flow, AllocError>
    ensures { Works (H.setting host.now) (values_of xs.now.value.items (here frames.old) (slots_of frames.old))
        frames.old store.old frames.new store.new result }
{
    match xs.as_slice() {
        [] => give_nothing(frames),
        [x] => enter_expr(frames, host, store, x),
        _ => {
            let done = frames.lists.values.fresh();
            enter_next(frames, host, store, xs, 0, done)
        }
    }
}

/// Goes on with a list, of which the expression before the index has just given what is given.
pub fn go_on_with_list<H: Host>(
    frames: &mut Frames,
    host: &H,
    store: &mut Store,
    xs: Rc<Vec<Expr>>,
    next: usize,
    done: Vec<Value>,
) -> Result<Flow, AllocError>
    ensures { Works (H.setting host.now) (resume_item (H.setting host.now) (Item.More xs next done) (here frames.old)
        (sign_of frames.old.given) (slots_of frames.old))
        frames.old store.old frames.new store.new result }
{
    if next >= xs.len() {
        return end_list(frames, done);
    }
    match take_first(frames) {
        None => Ok(Flow::Went),
        Some(value) => {
            let mut done = done;
            done.push(value)?;
            enter_next(frames, host, store, &xs, next, done)
        }
    }
}

/// Enters the expression of a list at an index, after those that gave the values that are done.
fn enter_next<H: Host>(
    frames: &mut Frames,
    host: &H,
    store: &mut Store,
    xs: &Rc<Vec<Expr>>,
    next: usize,
    done: Vec<Value>,
) -> Result<Flow, AllocError>
    requires { next < length xs.now.value.items }
    ensures { Works (H.setting host.now) (rest_of (drop next xs.now.value.items) (here frames.old) done.items (slots_of frames.old))
        frames.old store.old frames.new store.new result }
{
    match element(xs, next) {
        None => give_many(frames, done),
        Some(x) => {
            wait(frames, Item::More(share(xs)?, next + 1, done))?;
            if next + 1 < xs.len() {
                enter_value(frames, host, store, x)
            } else {
                enter_expr(frames, host, store, x)
            }
        }
    }
}

/// Ends a list, whose last expression has just given what is given.
fn end_list(frames: &mut Frames, done: Vec<Value>) -> Result<Flow, AllocError>
    ensures { (S : Setting) → (store : StoreView) → Works S (on_values (more [] (here frames.old) done.items) (sign_of frames.old.given) (slots_of frames.old))
        frames.old store frames.new store result }
{
    match take_values(frames)? {
        None => Ok(Flow::Went),
        Some(values) => give_joined(frames, done, values),
    }
}

/// Gives two lists as one.
fn give_joined(
    frames: &mut Frames,
    done: Vec<Value>,
    values: Vec<Value>,
) -> Result<Flow, AllocError>
    ensures { (S : Setting) → (store : StoreView) → Works S (End (Values (done.items ++ values.items)) (slots_of frames.old))
        frames.old store frames.new store result }
{
    let mut all = done;
    let mut values = values;
    all.append(&mut values)?;
    frames.lists.values.spare(values);
    give_many(frames, all)
}
