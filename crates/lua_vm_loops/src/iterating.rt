//! `for NAMES in f, state, control do body end` (Lua 5.1 Reference Manual, 2.4.5).

ghost use Rattle.std.specs.Prelude.{◌≡◌, IfOk};
ghost use Rattle.lua_meaning.specs.Setting.{Setting};
ghost use Rattle.lua_meaning.specs.Signs.{first};
ghost use Rattle.lua_frames.specs.Items.{iterating, passing};
ghost use Rattle.lua_frames.specs.Frames.{here, slots_of};
ghost use Rattle.lua_frames.specs.Follows.{Enters, Works, Takes};
ghost use Rattle.lua_vm_loops.specs.Iterations.{pass_of};

use crate::runs::{RunEnd, end_of_run};
use lua_ast::Stmt;
use lua_frames::{
    Flow, Frames, Host, Item, Iteration, begin_block, give_nothing, set_locals, share, take_value,
    take_values, wait,
};
use lua_values::{Store, Value};
use lua_vm_calls::{enter_call, two};
use resty_base::Boxed;
use std::alloc::AllocError;
use std::rc::Rc;

/// The values of the loop's list are there: its function is called for the first time.
pub fn iterate<H: Host>(
    frames: &mut Frames,
    host: &H,
    store: &mut Store,
    line: u32,
    slots: Rc<Vec<u8>>,
    body: Rc<Vec<Stmt>>,
) -> Result<Flow, AllocError>
    ensures { Takes (H.setting host.now) (Item.Iterate line slots body) frames.old store.old frames.new store.new result }
{
    match take_values(frames)? {
        None => Ok(Flow::Went),
        Some(values) => {
            let mut values = values;
            let iteration = Iteration {
                line,
                slots,
                function: take_value(&mut values, 0),
                state: take_value(&mut values, 1),
                body,
            };
            let control = take_value(&mut values, 2);
            frames.lists.values.spare(values);
            let iteration = Boxed::new(frames.alloc, iteration)?;
            call_next(frames, host, store, iteration, control)
        }
    }
}

/// The function is called with the state and the control value.
fn call_next<H: Host>(
    frames: &mut Frames,
    host: &H,
    store: &mut Store,
    iteration: Boxed<Iteration>,
    control: Value,
) -> Result<Flow, AllocError>
    ensures { Works (H.setting host.now) (iterating iteration control (here frames.old) (slots_of frames.old))
        frames.old store.old frames.new store.new result }
{
    let line = iteration.get().line;
    let function = iteration.get().function.clone()?;
    let state = iteration.get().state.clone()?;
    let args = two(&mut frames.lists, state, control)?;
    wait(frames, Item::Iterated(iteration))?;
    enter_call(frames, host, store, line, function, args)
}

/// The function gave values.
pub fn iterated(
    frames: &mut Frames,
    store: &mut Store,
    iteration: Boxed<Iteration>,
) -> Result<Flow, AllocError>
    ensures { (S : Setting) → Takes S (Item.Iterated iteration) frames.old store.old frames.new store.new result }
{
    match take_values(frames)? {
        None => Ok(Flow::Went),
        Some(values) => pass(frames, store, iteration, values),
    }
}

/// The first of some values, nil of none.
fn first_of(values: &[Value]) -> Result<Value, AllocError>
    ensures { IfOk result (λ value. value ≡ first values.now) }
{
    match values.first() {
        None => Ok(Value::Nil),
        Some(value) => value.clone(),
    }
}

/// The body runs with these values, unless the first of them is nil.
fn pass(
    frames: &mut Frames,
    store: &mut Store,
    iteration: Boxed<Iteration>,
    values: Vec<Value>,
) -> Result<Flow, AllocError>
    ensures { (S : Setting) → Works S (passing iteration (here frames.old) values.items (slots_of frames.old))
        frames.old store.old frames.new store.new result }
{
    let control = first_of(&values)?;
    if control.is_nil() {
        frames.lists.values.spare(values);
        give_nothing(frames)
    } else {
        enter_pass(frames, store, iteration, control, values)
    }
}

/// A run of the body, which counts a step, with these values in the loop's variables; the first is the next control value.
fn enter_pass(
    frames: &mut Frames,
    store: &mut Store,
    iteration: Boxed<Iteration>,
    control: Value,
    values: Vec<Value>,
) -> Result<Flow, AllocError>
    requires { control ≡ first values.items }
    ensures { (S : Setting) → Enters S (pass_of iteration values.items) frames.old store.old frames.new store.new result }
{
    if !store.count(1) {
        return Ok(Flow::Spent);
    }
    let mut values = values;
    set_locals(&mut frames.top.slots, &iteration.get().slots, &mut values);
    frames.lists.values.spare(values);
    let block = share(&iteration.get().body)?;
    wait(frames, Item::Passed(iteration, control))?;
    begin_block(frames, &block)
}

/// The body has run: the function is called again, unless a `break` ended the loop.
pub fn passed<H: Host>(
    frames: &mut Frames,
    host: &H,
    store: &mut Store,
    iteration: Boxed<Iteration>,
    control: Value,
) -> Result<Flow, AllocError>
    ensures { Takes (H.setting host.now) (Item.Passed iteration control) frames.old store.old frames.new store.new result }
{
    match end_of_run(&frames.given) {
        RunEnd::Ran => call_next(frames, host, store, iteration, control),
        RunEnd::Broke => give_nothing(frames),
        RunEnd::Left => Ok(Flow::Went),
    }
}
