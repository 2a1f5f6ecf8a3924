//! Calls of chunks while a site starts: each is a thread that is resumed once.

ghost use Rattle.std.specs.Prelude.{◌≡◌, []};
ghost use Rattle.lua_values.specs.Heap.{StoreView};
ghost use Rattle.lua_meaning.specs.Life.{Outcome};
ghost use Rattle.lua_machine.specs.Finishes.{Finish, IsOutcome};
ghost use Rattle.lua_site.specs.Making.{Makes};
ghost use Rattle.lua_site.specs.Calls.{left_by, failure_text, called};

use crate::LuaSiteFault;
use lua_machine::{Machine, Slice};
use lua_meaning::Resumed;
use lua_values::{Store, Value, Values};
use resty_base::Bytes;
use std::alloc::Global;

/// Calls a value, with no step counted before.
pub(crate) fn call<M: Machine>(
    alloc: Global,
    machine: &M,
    store: &mut Store,
    function: Value,
    args: Vec<Value>,
) -> Result<(), LuaSiteFault>
    ensures { Makes (called (M.life machine.now) function args.items store.old.heap) result store.new }
{
    store.clear_steps();
    let thread = machine.start(alloc, function, Values::of(args))?;
    let given = Resumed::Values(Values::of(Vec::new(alloc)));
    end_of(machine.resume(thread, store, given))
}

/// What a call comes to, whose thread is not resumed again. Its values are dropped.
fn end_of<T: Drop>(slice: Slice<T>) -> Result<(), LuaSiteFault>
    ensures { (finish : T → Finish) → (o : Outcome) → (store : StoreView) → IsOutcome finish o [] store slice → Makes (left_by o) result store }
{
    match slice {
        Slice::Done(_) => Ok(()),
        Slice::Failed(value) => Err(LuaSiteFault::Init(failure_text(value))),
        Slice::Parked(_, _) => Err(LuaSiteFault::Init(Bytes::from_static(PARKED))),
        Slice::Spent => Err(LuaSiteFault::Init(Bytes::from_static(SPENT))),
        Slice::Memory => Err(LuaSiteFault::Memory),
    }
}

/// The message where a call asks the outside, which no one answers then.
const PARKED: &[u8] = b"API disabled in the context of init_by_lua*";

/// The message where a call has spent its steps.
const SPENT: &[u8] = b"step budget of 1000000 spent";

/// The message of a failure.
fn failure_text(value: Value) -> Bytes
    ensures { result ≡ failure_text value }
{
    match value {
        Value::Text(text) => text,
        _ => Bytes::from_static(b"unknown reason"),
    }
}
