//! The runs of `for NAME = from, to, step do body end` (Lua 5.1 Reference Manual, 2.4.5).

ghost use Rattle.std.specs.Prelude.{◌≡◌};
ghost use Rattle.lua_values.specs.Heap.{StoreView};
ghost use Rattle.lua_meaning.specs.Setting.{Setting};
ghost use Rattle.lua_frames.specs.Items.{counting, counted};
ghost use Rattle.lua_frames.specs.Frames.{here, slots_of};
ghost use Rattle.lua_frames.specs.Follows.{Enters, Works, Takes};
ghost use Rattle.lua_vm_loops.specs.Ranges.{counts_from, run_of, run_from};

use crate::ranges::range_of;
use crate::runs::{RunEnd, begin_rest, end_of_run};
use crate::sites::levels_of;
use lua_ast::Program;
use lua_frames::{
    Bounds, Counter, Flow, Frames, Item, begin_block, give_nothing, put_plain, raise_fault, share,
    wait,
};
use lua_numbers::add;
use lua_operators::Fault;
use lua_values::{Store, Value};
use lua_vm_fast::{CountEnd, Counting, Site, run_for};
use std::alloc::AllocError;

/// The loop begins with these bounds.
pub(crate) fn begin_counting(
    frames: &mut Frames,
    program: &Program,
    store: &mut Store,
    bounds: Bounds,
    from: &Value,
    to: &Value,
    step: &Value,
) -> Result<Flow, AllocError>
    ensures { (S : Setting) → S.program ≡ program.now
        → Works S (counting S bounds (here frames.old) from.now to.now step.now (slots_of frames.old)) frames.old store.old frames.new store.new result }
{
    let Bounds {
        line,
        slot,
        body,
        ..
    } = bounds;
    match range_of(from, to, step) {
        Ok(range) => {
            let counter = Counter {
                line,
                slot,
                at: range.from,
                limit: range.limit,
                step: range.step,
                body,
            };
            count_from(frames, program, store, counter)
        }
        Err(fault) => raise_fault(frames, program, line, fault),
    }
}

/// The loop comes to a counter's number: its runs are done at once as far as that goes.
fn count_from(
    frames: &mut Frames,
    program: &Program,
    store: &mut Store,
    counter: Counter,
) -> Result<Flow, AllocError>
    ensures { (S : Setting) → S.program ≡ program.now
        → Works S (counts_from counter (here frames.old) (slots_of frames.old)) frames.old store.old frames.new store.new result }
{
    let count = Counting {
        slot: counter.slot,
        limit: counter.limit,
        step: counter.step,
    };
    let levels = levels_of(frames);
    let site = Site {
        alloc: frames.alloc,
        program,
        cells: frames.top.cells.as_slice(),
        levels,
    };
    match run_for(
        &site,
        &mut frames.top.slots,
        store,
        &count,
        counter.at,
        &counter.body,
    ) {
        CountEnd::Over => give_nothing(frames),
        CountEnd::Next(at) => enter_run(frames, store, Counter { at, ..counter }),
        CountEnd::Body(at, next) => go_on_with_run(frames, Counter { at, ..counter }, next),
    }
}

/// A run whose statements were run up to an index goes on with that one.
fn go_on_with_run(frames: &mut Frames, counter: Counter, next: usize) -> Result<Flow, AllocError>
    ensures { (S : Setting) → (store : StoreView) → Works S (run_from S counter next (here frames.old) (slots_of frames.old))
        frames.old store frames.new store result }
{
    let block = share(&counter.body)?;
    wait(frames, Item::Counted(counter))?;
    begin_rest(frames, block, next)
}

/// A run of the body, which counts a step, with the counter's number in the loop's variable.
fn enter_run(frames: &mut Frames, store: &mut Store, counter: Counter) -> Result<Flow, AllocError>
    ensures { (S : Setting) → Enters S (run_of counter) frames.old store.old frames.new store.new result }
{
    if !store.count(1) {
        return Ok(Flow::Spent);
    }
    put_plain(frames, counter.slot, Value::Number(counter.at));
    let block = share(&counter.body)?;
    wait(frames, Item::Counted(counter))?;
    begin_block(frames, &block)
}

/// The body has run: the loop goes on, unless a `break` ended it.
pub fn counted(
    frames: &mut Frames,
    program: &Program,
    store: &mut Store,
    counter: Counter,
) -> Result<Flow, AllocError>
    ensures { (S : Setting) → S.program ≡ program.now → Takes S (Item.Counted counter) frames.old store.old frames.new store.new result }
{
    match end_of_run(&frames.given) {
        RunEnd::Ran => count_next(frames, program, store, counter),
        RunEnd::Broke => give_nothing(frames),
        RunEnd::Left => Ok(Flow::Went),
    }
}

/// The loop goes on with its next number, which may be out of the range of numbers.
fn count_next(
    frames: &mut Frames,
    program: &Program,
    store: &mut Store,
    counter: Counter,
) -> Result<Flow, AllocError>
    ensures { (S : Setting) → S.program ≡ program.now
        → Works S (counted S counter (here frames.old) (slots_of frames.old)) frames.old store.old frames.new store.new result }
{
    match add(counter.at, counter.step) {
        Ok(at) => count_from(frames, program, store, Counter { at, ..counter }),
        Err(fault) => raise_fault(frames, program, counter.line, Fault::Number(fault)),
    }
}
