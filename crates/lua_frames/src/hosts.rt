//! What a program runs in.

ghost use Rattle.std.specs.Prelude.{◌≡◌, ◌<◌};
ghost use Rattle.lua_values.specs.NativeCalls.{Answers};
ghost use Rattle.lua_meaning.specs.Setting.{Setting};

use lua_ast::Program;
use lua_values::{NativeOut, Store, Value};
use std::alloc::Global;

/// A program with the functions of the host that it may call.
pub trait Host {
    ghost setting: { Self → Setting };

    /// The program.
    fn program(&self) -> &Program
        ensures { result.now ≡ (setting self.now).program };

    /// How many functions of the host there are.
    fn count(&self) -> u32
        ensures { result ≡ (setting self.now).count };

    /// Calls a function of the host by its number.
    fn call(&self, alloc: Global, number: u32, args: &[Value], store: &mut Store) -> NativeOut
        requires { number < (setting self.now).count }
        ensures { Answers ((setting self.now).lib number args.now store.old.heap) store.old result store.new };
}
