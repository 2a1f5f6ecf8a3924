//! Two functions of the host: one whose answer is left to the outside, and one that gives its arguments.
use lua_values::{NativeOut, Natives, Store, Value, Values};
use std::alloc::{AllocError, Global};

/// Number 0 waits, number 1 gives its arguments.
#[derive(Drop)]
pub struct WaitAndId;

impl Natives for WaitAndId {
    ghost use Rattle.std.specs.Prelude.{nat_eq, if◌then◌else◌};
    ghost use Rattle.lua_values.specs.NativeCalls as calls;

    ghost size = { λ _. 2 };

    ghost meaning = { λ _ number args heap. if nat_eq number 0 then calls.Leaves 0 else calls.Gives args heap 0 };

    fn count(&self) -> u32 {
        2
    }

    fn call(&self, alloc: Global, number: u32, args: &[Value], store: &mut Store) -> NativeOut {
        store.add_steps(0);
        if number == 0 {
            return NativeOut::Outside;
        }
        match args.to_vec(alloc) {
            Ok(values) => NativeOut::Values(Values::of(values)),
            Err(_) => NativeOut::Memory,
        }
    }
}
