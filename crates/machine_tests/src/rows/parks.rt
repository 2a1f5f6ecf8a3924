//! Threads that park again and again, in any machine: one 50,000 times, and one of another machine up to the limit of steps.
use super::programs::{loaded, put, store_of};
use super::toy::Toy;
use lua_machine::{Machine, Slice};
use lua_meaning::Resumed;
use lua_values::{Store, Value, Values};
use std::alloc::{AllocError, Global};

/// How often a thread that calls a closure without arguments parks until it is done, at most 100,000 times; `None` where it
/// isn't done then.
fn parks_of<M: Machine>(
    machine: &M,
    alloc: Global,
    store: &mut Store,
) -> Result<Option<u64>, AllocError> {
    let mut thread = machine.start(alloc, Value::Closure(0), Values::of(Vec::new(alloc)))?;
    for n in 0..100_000 {
        let given = Resumed::Values(Values::of(Vec::new(alloc)));
        match machine.resume(thread, store, given) {
            Slice::Parked(parked, _) => thread = parked,
            Slice::Done(_) => return Ok(Some(n)),
            _ => return Ok(None),
        }
    }
    Ok(None)
}

/// Writes how often a thread parks, or `not done`, and the steps.
fn see_parks<M: Machine>(machine: &M, alloc: Global, all: &mut String, store: &mut Store) {
    match parks_of(machine, alloc, store) {
        Ok(Some(n)) => {
            let _ = write!(all, "{n} parks");
        }
        Ok(None) => put(all, "not done"),
        Err(_) => put(all, "memory"),
    }
    let steps = store.steps();
    let _ = write!(all, ", {steps} steps; ");
}

/// Writes what is seen of a program.
fn see_text(alloc: Global, all: &mut String, text: &str) {
    match (loaded(alloc, text), store_of(alloc)) {
        (Some(host), Ok(mut store)) => see_parks(&host, alloc, all, &mut store),
        _ => put(all, "refused"),
    }
}

/// Writes what is seen of threads that park three times in one store, at first and after 1,000,000 steps.
fn see_toys(alloc: Global, all: &mut String) {
    match Store::new(alloc) {
        Ok(mut store) => {
            let toy = Toy { alloc, parks: 3 };
            see_parks(&toy, alloc, all, &mut store);
            store.add_steps(1_000_000);
            see_parks(&toy, alloc, all, &mut store);
        }
        Err(_) => put(all, "memory"),
    }
}

/// A thread that parks 50,000 times, and another machine.
const EXPECTED: &str = "50000 parks, 650009 steps; 3 parks, 4 steps; not done, 1000000 steps; ";

#[test]
fn threads_park_in_any_machine(rt: HostRuntime) {
    let mut all = String::new(rt.alloc());
    let text = "local i = 0 while i < 50000 do i = i + 1 w() end return i";
    see_text(rt.alloc(), &mut all, text);
    see_toys(rt.alloc(), &mut all);
    assert_eq!(rt; all.as_str(), EXPECTED);
}
