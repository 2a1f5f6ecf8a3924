//! The functions of the host, by their numbers, and two libraries of them as one.

ghost use Rattle.std.specs.Prelude.{◌≡◌, ℕ, ◌+◌, ◌-◌, ◌<◌, ◌≤◌};
ghost use Rattle.lua_values.specs.NativeCalls.{Meaning, Answers, both};

use crate::{Store, Value, Values};
use std::alloc::Global;

/// What a function of the host gives: values, a fault, that its answer is left to the outside, or `Memory`.
#[derive(Drop)]
pub enum NativeOut {
    Values(Values),
    Fault(Value),
    Outside,
    Memory,
}

/// Functions of the host, numbered from 0, each of which has a meaning. A call counts its steps in the store.
pub trait Natives {
    ghost size: { Self → ℕ };

    ghost meaning: { Self → Meaning };

    /// How many there are.
    fn count(&self) -> u32
        ensures count { result ≡ size self.now }
        ensures few { result ≤ 4_294_967_290 };

    /// Calls a function of the host by its number.
    fn call(&self, alloc: Global, number: u32, args: &[Value], store: &mut Store) -> NativeOut
        requires { number < size self.now }
        ensures { Answers (meaning self.now number args.now store.old.heap) store.old result store.new };
}

/// Two libraries of such functions as one: the numbers of the first come first.
#[derive(Drop)]
pub struct Both<A: Natives, B: Natives> {
    first: A,
    second: B,
    ghost few: { A.size first + B.size second ≤ 4_294_967_290 },
}

impl<A: Natives, B: Natives> Both<A, B> {
    /// Joins two libraries.
    pub fn new(first: A, second: B) -> Both<A, B>
        requires { A.size first + B.size second ≤ 4_294_967_290 }
        ensures first { result.first ≡ first }
        ensures second { result.second ≡ second }
    {
        Both { first, second }
    }
}

impl<A: Natives, B: Natives> Natives for Both<A, B> {
    ghost size = { λ natives. A.size natives.first + B.size natives.second };

    ghost meaning = { λ natives. both (A.size natives.first) (A.meaning natives.first) (B.meaning natives.second) };

    fn count(&self) -> u32 {
        self.first.count() + self.second.count()
    }

    fn call(&self, alloc: Global, number: u32, args: &[Value], store: &mut Store) -> NativeOut {
        let count = self.first.count();
        if number < count {
            self.first.call(alloc, number, args, store)
        } else {
            self.second.call(alloc, number - count, args, store)
        }
    }
}
