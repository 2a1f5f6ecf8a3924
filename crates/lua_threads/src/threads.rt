//! Threads.

ghost use Rattle.std.specs.Prelude.{List, ◌∷◌, ◌<◌, IfOk, IsSome};
ghost use Rattle.lua_values.specs.Heap.{StoreView};
ghost use Rattle.lua_meaning.specs.Evaluator.{Resume, Ending};
ghost use Rattle.lua_meaning.specs.Setting.{Setting};
ghost use Rattle.lua_meaning.specs.Life.{outcome_of, life};
ghost use Rattle.lua_machine.specs.Finishes.{IsNew, IsOutcome, Resumes, CountsSteps};
ghost use Rattle.lua_frames.specs.Frames.{finish};
ghost use Rattle.lua_frames.specs.Follows.{Follows, Asks};
ghost use Rattle.lua_threads.specs.Steps.{RaisesSteps};
ghost use Rattle.lua_threads.specs.Left.{left, Stops};

use crate::ended::{Ended, end_of};
use crate::run;
use lua_frames::{Flow, Frames, Host, answer, start};
use lua_machine::{Op, Slice};
use lua_meaning::{Position, Resumed};
use lua_values::{STEP_LIMIT, Store, Value, Values};
use std::alloc::{AllocError, Global};

/// Where a thread stands: it hasn't begun, or it is parked at a call that was made at this position.
#[derive(Clone, Copy)]
pub enum Stage {
    New,
    Parked(Option<Position>),
}

/// A thread that hasn't begun, or is parked.
pub struct Thread {
    frames: Frames,
    stage: Stage,
}

/// Written out, so that a crate that drops threads needs no proof of how frames are dropped.
impl Drop for Thread {
    fn drop(self) {
        let Thread {
            frames: _,
            stage: _,
        } = self;
    }
}

impl Thread {
    /// A thread that calls a value with arguments as it is first resumed.
    pub(crate) fn start(alloc: Global, function: Value, args: Values) -> Result<Thread, AllocError>
        ensures { (S : Setting) → IfOk result (λ thread. IsNew (life S function args) (left S thread)) }
    {
        Ok(Thread {
            frames: start(alloc, function, args.into_vec())?,
            stage: Stage::New,
        })
    }

    /// Resumes the thread with what the call gives at which it is parked.
    pub(crate) fn resume<H: Host>(
        self,
        host: &H,
        store: &mut Store,
        given: Resumed,
    ) -> Slice<Thread>
        ensures goes_on { Resumes (left (H.setting host.now)) self (record { store = store.old; answer = given }) store.new result }
        ensures counts { CountsSteps store.old store.new result }
    {
        match self.go_on(host, store, given) {
            Ok(slice) => slice,
            Err(_) => Slice::Memory,
        }
    }

    fn go_on<H: Host>(
        self,
        host: &H,
        store: &mut Store,
        given: Resumed,
    ) -> Result<Slice<Thread>, AllocError>
        ensures comes { (resumes : List Resume) → IfOk result (λ slice. IsOutcome (left (H.setting host.now))
            (left (H.setting host.now) self ((record { store = store.old; answer = given }) ∷ resumes)) resumes store.new slice) }
        ensures counts { IfOk result (λ slice. CountsSteps store.old store.new slice) }
    {
        let Thread { frames, stage } = self;
        match stage {
            Stage::New => run_on(frames, host, store),
            Stage::Parked(position) => {
                if store.steps() >= STEP_LIMIT {
                    return Ok(Slice::Spent);
                }
                let mut frames = frames;
                answer(&mut frames, host.program(), position, given)?;
                run_on(frames, host, store)
            }
        }
    }
}

/// Runs frames until they ask, end or have spent their steps.
fn run_on<H: Host>(frames: Frames, host: &H, store: &mut Store) -> Result<Slice<Thread>, AllocError>
    ensures comes { (resumes : List Resume) → IfOk result (λ slice. IsOutcome (left (H.setting host.now))
        (outcome_of (finish (H.setting host.now) frames (record { store = store.old; resumes = resumes }))) resumes store.new slice) }
    ensures counts { IfOk result (λ slice. CountsSteps store.old store.new slice) }
{
    let mut frames = frames;
    let flow = run(&mut frames, host, store)?;
    slice_of(frames, flow)
}

/// What frames came to that were run.
fn slice_of(frames: Frames, flow: Flow) -> Result<Slice<Thread>, AllocError>
    requires { Stops frames flow }
    ensures comes { (S : Setting) → (o : List Resume → Ending) → (store : StoreView) → Follows S o store frames flow → (resumes : List Resume)
        → IfOk result (λ slice. IsOutcome (left S) (outcome_of (o resumes)) resumes store slice) }
    ensures counts { (old : StoreView) → (new : StoreView) → RaisesSteps old new flow → IfOk result (λ slice. CountsSteps old new slice) }
{
    match flow {
        Flow::Asked => Ok(parked(frames)),
        Flow::Spent => Ok(Slice::Spent),
        Flow::Over => match end_of(frames.alloc, frames.given)? {
            Ended::Done(values) => Ok(Slice::Done(values)),
            Ended::Failed(value) => Ok(Slice::Failed(value)),
        },
        Flow::Went => unreachable!(),
    }
}

/// A thread that is parked at what its frames ask.
fn parked(frames: Frames) -> Slice<Thread>
    requires { IsSome frames.asked }
    ensures comes { (S : Setting) → (o : List Resume → Ending) → (store : StoreView) → Asks S o store frames frames.asked → (resumes : List Resume)
        → IsOutcome (left S) (outcome_of (o resumes)) resumes store result }
    ensures counts { (old : StoreView) → (new : StoreView) → old.steps < new.steps → CountsSteps old new result }
{
    let mut frames = frames;
    match frames.asked.take() {
        None => unreachable!(),
        Some(op) => {
            let stage = Stage::Parked(op.position);
            let op = Op {
                number: op.number,
                args: op.args,
                position: op.position,
            };
            Slice::Parked(Thread { frames, stage }, op)
        }
    }
}
