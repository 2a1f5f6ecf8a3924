//! What a call of a running handler is given.

ghost use Rattle.std.specs.Prelude.{◌≡◌, ◌≤◌, IfOk};
ghost use Rattle.lua_values.specs.Heap.{step_limit};
ghost use Rattle.run_threads.specs.Handlers as spec;
ghost use Rattle.run_threads.specs.Views.{answered_seen, running_seen};

use lua_meaning::Resumed;
use lua_operators::Fault;
use lua_values::{Store, Value};
use ngx_calls::{Given, Read, Wanted, give, read_operation};
use request_api::{Printed, Req};
use resty_base::Bytes;
use std::alloc::{AllocError, Global};

/// A handler that runs: its request, the bytes of its output calls so far, and its store.
#[derive(Drop)]
pub(crate) struct Running {
    pub(crate) req: Req,
    pub(crate) pieces: Vec<Bytes>,
    pub(crate) store: Store,
}

/// It, and what its thread is resumed with.
#[derive(Drop)]
pub(crate) struct Answered {
    pub(crate) answer: Resumed,
    pub(crate) running: Running,
}

/// What the call of a number is given.
pub(crate) fn answer_call(
    alloc: Global,
    running: Running,
    number: u32,
    args: &[Value],
) -> Result<Answered, AllocError>
    ensures { IfOk result (λ a. answered_seen a ≡ spec.answers_call number args.now (running_seen running)) }
{
    let mut running = running;
    let Read { wanted, steps } = read_operation(alloc, number, args, &running.store)?;
    running.store.add_steps(steps);
    answer(alloc, running, wanted)
}

/// What a call is given, by what it asks for.
fn answer(alloc: Global, running: Running, wanted: Wanted) -> Result<Answered, AllocError>
    ensures { IfOk result (λ a. answered_seen a ≡ spec.answers wanted (running_seen running)) }
{
    match wanted {
        Wanted::Print(bytes) => print(alloc, running, bytes),
        Wanted::Refused(text) => Ok(raise(running, text)),
        Wanted::Unknown => give_to(alloc, running, Given::Nothing),
    }
}

/// An output call of these bytes.
fn print(alloc: Global, running: Running, bytes: Bytes) -> Result<Answered, AllocError>
    ensures { IfOk result (λ a. answered_seen a ≡ spec.answers (Wanted.Print bytes) (running_seen running)) }
{
    let mut running = running;
    match running.req.print(&bytes) {
        Printed::Took => {
            running.pieces.push(bytes)?;
            give_to(alloc, running, Given::One)
        }
        Printed::SeenEof => refuse(alloc, running, b"seen eof"),
        Printed::OverLimit => refuse(alloc, running, b"output limit"),
    }
}

/// The call is given nil and this text.
fn refuse(alloc: Global, running: Running, text: &'static [u8]) -> Result<Answered, AllocError>
    ensures { IfOk result (λ a. answered_seen a ≡ spec.is_given (Given.Fault text.now) (running_seen running)) }
{
    give_to(alloc, running, Given::Fault(Bytes::from_static(text)))
}

/// The call is given this; where the store has no room for it the call fails.
fn give_to(alloc: Global, running: Running, given: Given) -> Result<Answered, AllocError>
    ensures { IfOk result (λ a. answered_seen a ≡ spec.is_given given (running_seen running)) }
{
    let mut running = running;
    match give(alloc, &mut running.store, given)? {
        Some(values) => Ok(Answered {
            answer: Resumed::Values(values),
            running,
        }),
        None => Ok(raise(running, Bytes::from_static(Fault::StorageLimit.text()))),
    }
}

/// The call fails with a text.
fn raise(running: Running, text: Bytes) -> Answered
    ensures { answered_seen result ≡ spec.raises text (running_seen running) }
{
    Answered {
        answer: Resumed::Raise(text),
        running,
    }
}
