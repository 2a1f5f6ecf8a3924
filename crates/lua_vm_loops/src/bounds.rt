//! The bounds of `for NAME = from, to, step do body end` (Lua 5.1 Reference Manual, 2.4.5).

ghost use Rattle.std.specs.Prelude.{◌≡◌, pos, IfOk};
ghost use Rattle.lua_values.specs.declared.values.Value.TheVariants.{Number};
ghost use Rattle.lua_frames.specs.Items.{with_step};
ghost use Rattle.lua_frames.specs.Frames.{here, slots_of};
ghost use Rattle.lua_frames.specs.Follows.{Works, Takes};
ghost use Rattle.lua_vm_loops.specs.Bounds.{AreBounds, step_expr};

use crate::counting::begin_counting;
use lua_ast::{Expr, Stmt};
use lua_frames::{Bounds, Flow, Frames, Host, Item, share, take_first};
use lua_values::{Store, Value};
use lua_vm_expressions::value_under;
use resty_base::{Boxed, Whole};
use std::alloc::AllocError;
use std::rc::Rc;

/// The bounds of a `for` at a line that are evaluated after the first one, with its body.
pub fn bounds_of(
    line: u32,
    slot: u8,
    to: &Rc<Expr>,
    step: &Option<Rc<Expr>>,
    body: &Rc<Vec<Stmt>>,
) -> Result<Bounds, AllocError>
    ensures { IfOk result (λ bounds. AreBounds line slot to.now step.now body.now bounds) }
{
    let to = share(to)?;
    let step = share_step(step)?;
    let body = share(body)?;
    Ok(Bounds {
        line,
        slot,
        to,
        step,
        body,
    })
}

/// A second pointer to a step, if there is one.
fn share_step(step: &Option<Rc<Expr>>) -> Result<Option<Rc<Expr>>, AllocError>
    ensures { IfOk result (λ copy. step_expr copy ≡ step_expr step.now) }
{
    match step {
        None => Ok(None),
        Some(x) => Ok(Some(share(x)?)),
    }
}

/// The first bound is there, and the second one is evaluated.
pub fn for_from<H: Host>(
    frames: &mut Frames,
    host: &H,
    store: &mut Store,
    bounds: Bounds,
) -> Result<Flow, AllocError>
    ensures { Takes (H.setting host.now) (Item.ForFrom bounds) frames.old store.old frames.new store.new result }
{
    match take_first(frames) {
        None => Ok(Flow::Went),
        Some(from) => {
            let from = Boxed::new(frames.alloc, from)?;
            let to = share(&bounds.to)?;
            value_under(frames, host, store, Item::ForTo(bounds, from), &to)
        }
    }
}

/// The second bound is there.
pub fn for_to<H: Host>(
    frames: &mut Frames,
    host: &H,
    store: &mut Store,
    bounds: Bounds,
    from: Boxed<Value>,
) -> Result<Flow, AllocError>
    ensures { Takes (H.setting host.now) (Item.ForTo bounds from) frames.old store.old frames.new store.new result }
{
    match take_first(frames) {
        None => Ok(Flow::Went),
        Some(to) => begin_step(frames, host, store, bounds, from, to),
    }
}

/// The step is evaluated, or is 1 where there is none.
fn begin_step<H: Host>(
    frames: &mut Frames,
    host: &H,
    store: &mut Store,
    bounds: Bounds,
    from: Boxed<Value>,
    to: Value,
) -> Result<Flow, AllocError>
    ensures { Works (H.setting host.now) (with_step (H.setting host.now) bounds (here frames.old) from to (slots_of frames.old))
        frames.old store.old frames.new store.new result }
{
    match &bounds.step {
        None => begin_counting(
            frames,
            host.program(),
            store,
            bounds,
            from.get(),
            &to,
            &one(),
        ),
        Some(step) => {
            let next = share(step)?;
            let to = Boxed::new(frames.alloc, to)?;
            value_under(frames, host, store, Item::ForStep(bounds, from, to), &next)
        }
    }
}

/// The number 1.
fn one() -> Value
    ensures { result ≡ Number (pos 1) }
{
    match Whole::new(1) {
        Some(number) => Value::Number(number),
        None => unreachable!(),
    }
}

/// The step is there, and the loop begins.
pub fn for_step<H: Host>(
    frames: &mut Frames,
    host: &H,
    store: &mut Store,
    bounds: Bounds,
    from: Boxed<Value>,
    to: Boxed<Value>,
) -> Result<Flow, AllocError>
    ensures { Takes (H.setting host.now) (Item.ForStep bounds from to) frames.old store.old frames.new store.new result }
{
    match take_first(frames) {
        None => Ok(Flow::Went),
        Some(step) => begin_counting(
            frames,
            host.program(),
            store,
            bounds,
            from.get(),
            to.get(),
            &step,
        ),
    }
}
