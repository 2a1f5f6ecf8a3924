//! A machine in which each thread parks as often as it is told, whatever it runs.
ghost use Rattle.std.specs.Prelude.{◌≡◌, []};
ghost use Rattle.machine_tests.specs.Toy.{plays};

use lua_machine::{Machine, Op, Slice};
use lua_meaning::Resumed;
use lua_values::{Store, Value, Values};
use std::alloc::{AllocError, Global};

/// Each of its threads parks so often at number 0 of the host, and is then done with no values. A resume counts a step.
#[derive(Drop)]
pub struct Toy {
    pub alloc: Global,
    pub parks: u64,
}

/// How often a thread of it still parks.
#[derive(Drop)]
pub struct ToyThread {
    left: u64,
}

/// No values.
fn no_values(alloc: Global) -> Values
    ensures { result ≡ [] }
{
    Values::of(Vec::new(alloc))
}

impl Machine for Toy {
    type Thread = ToyThread;

    ghost life = { λ toy function args. plays toy.parks };

    ghost finish = { λ toy thread. plays thread.left };

    fn start(&self, alloc: Global, function: Value, args: Values) -> Result<ToyThread, AllocError> {
        let _ = (alloc, function, args);
        Ok(ToyThread { left: self.parks })
    }

    fn resume(&self, thread: ToyThread, store: &mut Store, given: Resumed) -> Slice<ToyThread> {
        let _ = given;
        let ToyThread { left } = thread;
        if !store.count(1) {
            return Slice::Spent;
        }
        if left == 0 {
            return Slice::Done(no_values(self.alloc));
        }
        let op = Op {
            number: 0,
            args: no_values(self.alloc),
            position: None,
        };
        Slice::Parked(ToyThread { left: left - 1 }, op)
    }
}
