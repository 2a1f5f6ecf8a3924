//! A handler of a request, which runs until it ends.

ghost use Rattle.std.specs.Prelude.{◌≡◌, ◌≤◌, [], IfOk};
ghost use Rattle.lua_machine.specs.Finishes.{Resumes, CountsSteps};
ghost use Rattle.lua_values.specs.Heap.{step_limit};
ghost use Rattle.run_threads.specs.Handlers as spec;
ghost use Rattle.run_threads.specs.Threads.{IsCome};
ghost use Rattle.run_threads.specs.Views.{answered_seen, running_seen};

use crate::answering::{Answered, Running, answer_call};
use lua_machine::{Machine, Slice};
use lua_meaning::Resumed;
use lua_values::{Store, Value, Values};
use request_api::Req;
use resty_base::ByteLists;
use std::alloc::{AllocError, Global};

/// How a handler ended.
#[derive(Debug, Drop)]
pub enum End {
    Ended,
    Failed(Value),
    /// The steps reached 1,000,000.
    Spent,
}

/// What came of a handler: its request, with what was said of the reply, the bytes of each of its output calls, in order, and how it ended.
#[derive(Debug, Drop)]
pub struct Handled {
    pub req: Req,
    pub pieces: ByteLists,
    pub end: End,
}

/// Runs the handler that a function is, for a request, in a store of its own.
pub fn run_handler<M: Machine>(
    alloc: Global,
    machine: &M,
    function: Value,
    store: Store,
    req: Req,
) -> Result<Handled, AllocError>
    ensures { IfOk result (λ came. came ≡ spec.handled (M.life machine.now function []) store req) }
{
    let thread = machine.start(alloc, function, Values::of(Vec::new(alloc)))?;
    go_on(alloc, machine, thread, begun(alloc, store, req))
}

/// A handler that begins.
fn begun(alloc: Global, store: Store, req: Req) -> Answered
    ensures { answered_seen result ≡ spec.begun store req }
{
    let running = Running {
        req,
        pieces: Vec::new(alloc),
        store,
    };
    Answered {
        answer: Resumed::Values(Values::of(Vec::new(alloc))),
        running,
    }
}

/// Resumes the thread with its answer, and so on until it ends.
fn go_on<M: Machine>(
    alloc: Global,
    machine: &M,
    thread: M::Thread,
    answered: Answered,
) -> Result<Handled, AllocError>
    ensures { IfOk result (IsCome (M.finish machine.now thread) (answered_seen answered)) }
{
    let mut thread = thread;
    let mut answered = answered;
    loop {
        let Answered {
            answer,
            mut running,
        } = answered;
        match resume(machine, thread, &mut running.store, answer) {
            Slice::Parked(left, op) => {
                thread = left;
                answered = answer_call(alloc, running, op.number, op.args.as_slice())?;
            }
            Slice::Done(_) => return Ok(ended(running, End::Ended)),
            Slice::Failed(value) => return Ok(ended(running, End::Failed(value))),
            Slice::Spent => return Ok(ended(running, End::Spent)),
            Slice::Memory => return Err(AllocError),
        }
    }
}

/// Resumes the thread with an answer.
fn resume<M: Machine>(
    machine: &M,
    thread: M::Thread,
    store: &mut Store,
    answer: Resumed,
) -> Slice<M::Thread>
    ensures goes_on { Resumes (M.finish machine.now) thread (record { store = store.old; answer = answer }) store.new result }
    ensures counts { CountsSteps store.old store.new result }
    ensures within { store.new.steps ≤ step_limit }
{
    let slice = machine.resume(thread, store, answer);
    let _steps = store.steps();
    slice
}

/// A handler has ended.
fn ended(running: Running, end: End) -> Handled
    ensures { result ≡ spec.came_to (running_seen running) end }
{
    let Running { req, pieces, .. } = running;
    Handled {
        req,
        pieces: ByteLists::of(pieces),
        end,
    }
}
