//! Turns of the machine.

ghost use Rattle.std.specs.Prelude.{◌≡◌, IfOk};
ghost use Rattle.lua_frames.specs.Follows.{Turns};
ghost use Rattle.lua_threads.specs.Steps.{RaisesSteps};

use crate::applying::apply;
use lua_frames::{Flow, Frames, Host, leave};
use lua_values::{STEP_LIMIT, Store};
use std::alloc::AllocError;

/// One turn: the innermost item takes what is given, or the innermost call, in which nothing waits, ends.
fn turn<H: Host>(frames: &mut Frames, host: &H, store: &mut Store) -> Result<Flow, AllocError>
    ensures { Turns (H.setting host.now) frames.old store.old frames.new store.new result }
{
    match frames.top.items.pop() {
        Some(item) => apply(frames, host, store, item),
        None => leave(frames),
    }
}

/// Turns until the steps rise, or the thread asks, ends, or has spent its steps. Turns that count nothing hand what is given on to
/// items that wait, each of which takes one; 2^64 - 1 of them would end as if memory didn't suffice.
pub fn step<H: Host>(frames: &mut Frames, host: &H, store: &mut Store) -> Result<Flow, AllocError>
    ensures turns { Turns (H.setting host.now) frames.old store.old frames.new store.new result }
    ensures counts { IfOk result (λ flow. RaisesSteps store.old store.new flow) }
{
    let before = store.steps();
    for _ in 0..u64::MAX {
        match turn(frames, host, store)? {
            Flow::Went => {
                if store.steps() > before {
                    return Ok(Flow::Went);
                }
            }
            Flow::Spent => {
                store.add_steps(STEP_LIMIT);
                return Ok(Flow::Spent);
            }
            flow => return Ok(flow),
        }
    }
    Err(AllocError)
}

/// Steps until the thread asks, ends, or has spent its steps.
pub fn run<H: Host>(frames: &mut Frames, host: &H, store: &mut Store) -> Result<Flow, AllocError>
    ensures turns { Turns (H.setting host.now) frames.old store.old frames.new store.new result }
    ensures counts { IfOk result (λ flow. RaisesSteps store.old store.new flow) }
    ensures stops { IfOk result (λ flow. flow ≡ Flow.Went → ⊥) }
{
    loop {
        match step(frames, host, store)? {
            Flow::Went => {}
            flow => return Ok(flow),
        }
    }
}
