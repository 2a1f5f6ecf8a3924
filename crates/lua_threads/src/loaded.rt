//! A program with the functions of the host, as a machine.

ghost use Rattle.lua_meaning.specs.Life.{life};
ghost use Rattle.lua_threads.specs.Left.{left};

use crate::threads::Thread;
use lua_ast::Program;
use lua_frames::Host;
use lua_machine::{Machine, Slice};
use lua_meaning::Resumed;
use lua_values::{NativeOut, Natives, Store, Value, Values};
use std::alloc::{AllocError, Global};

/// A program with a library of functions of the host.
pub struct Loaded<N: Natives> {
    pub program: Program,
    pub natives: N,
}

/// Written out, so that a crate that drops one needs no proof of how programs are dropped.
impl<N: Natives + Drop> Drop for Loaded<N> {
    fn drop(self) {
        let Loaded {
            program: _,
            natives: _,
        } = self;
    }
}

impl<N: Natives> Host for Loaded<N> {
    ghost setting = { λ loaded. record { program = loaded.program; count = N.size loaded.natives; lib = N.meaning loaded.natives } };

    fn program(&self) -> &Program {
        &self.program
    }

    fn count(&self) -> u32 {
        self.natives.count()
    }

    fn call(&self, alloc: Global, number: u32, args: &[Value], store: &mut Store) -> NativeOut {
        self.natives.call(alloc, number, args, store)
    }
}

/// What comes of its threads is what the evaluator gives.
impl<N: Natives + Drop> Machine for Loaded<N> {
    type Thread = Thread;

    ghost life = { λ loaded. life (record { program = loaded.program; count = N.size loaded.natives; lib = N.meaning loaded.natives }) };

    ghost finish = { λ loaded. left (record { program = loaded.program; count = N.size loaded.natives; lib = N.meaning loaded.natives }) };

    fn start(&self, alloc: Global, function: Value, args: Values) -> Result<Thread, AllocError> {
        Thread::start(alloc, function, args)
    }

    fn resume(&self, thread: Thread, store: &mut Store, given: Resumed) -> Slice<Thread> {
        thread.resume(self, store, given)
    }
}
