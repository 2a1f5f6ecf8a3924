//! Machines.

ghost use Rattle.std.specs.Prelude.{List, IfOk};
ghost use Rattle.lua_values.specs.declared.values.Value.{Value as LuaValue};
ghost use Rattle.lua_machine.specs.Finishes.{Finish, IsNew, Resumes, CountsSteps};

use crate::Slice;
use lua_meaning::Resumed;
use lua_values::{Store, Value, Values};
use std::alloc::{AllocError, Global};

/// A program with the functions of its host, whose threads it runs.
pub trait Machine: Drop {
    /// A thread that hasn't begun, or is parked.
    type Thread: Drop;

    /// What comes of a thread that calls a value with arguments, by all with which it is resumed.
    ghost life: { Self → LuaValue → List LuaValue → Finish };

    /// What will come of a thread, by all with which it will still be resumed.
    ghost finish: { Self → Self.Thread → Finish };

    /// A thread that calls a value with arguments as it is first resumed.
    fn start(
        &self,
        alloc: Global,
        function: Value,
        args: Values,
    ) -> Result<Self::Thread, AllocError>
        ensures { IfOk result (λ thread. IsNew (life self.now function args) (finish self.now thread)) };

    /// Resumes a thread with what the call gives at which it is parked; what is given to a thread that hasn't begun isn't used.
    fn resume(&self, thread: Self::Thread, store: &mut Store, given: Resumed) -> Slice<Self::Thread>
        ensures goes_on { Resumes (finish self.now) thread (record { store = store.old; answer = given }) store.new result }
        ensures counts { CountsSteps store.old store.new result };
}
