//! Where an assignment at a key leads, by way of the `__newindex` of what lacks the key (Lua 5.1 Reference Manual, 2.8).

ghost use Rattle.std.specs.Prelude.{◌≡◌, IfOk};
ghost use Rattle.lua_values.specs.Values.{is_nil};
ghost use Rattle.lua_meaning.specs.Indexing.{raw_value};
ghost use Rattle.lua_vm_tables.specs.Chains.{Leads};

use crate::chains::is_function;
use lua_frames::handler;
use lua_operators::Event;
use lua_values::{Store, Value};
use std::alloc::AllocError;

/// Where an assignment at a key leads.
#[derive(Drop)]
pub(crate) enum Destination {
    /// The key is set in this value itself.
    Itself(Value),
    /// This handler is called with this value, the key and what is assigned.
    Calls(Value, Value),
    /// The steps are spent.
    Spent,
}

/// Whether a value lacks a key by itself.
fn lacks(store: &Store, value: &Value, key: &Value) -> bool
    ensures { result ≡ is_nil (raw_value store.now.heap value.now key.now) }
{
    match value {
        Value::Table(t) => store.get(*t, key).is_nil(),
        _ => true,
    }
}

/// Finds where an assignment at a key leads. A handler that is no function is assigned to in turn, which counts a step.
pub(crate) fn find_destination(
    store: &mut Store,
    value: Value,
    key: &Value,
) -> Result<Destination, AllocError>
    ensures { IfOk result (λ to. Leads value key.now store.old to store.new) }
{
    let mut value = value;
    loop {
        if !lacks(store, &value, key) {
            return Ok(Destination::Itself(value));
        }
        let by = handler(store, &value, Event::NewIndex)?;
        if by.is_nil() {
            return Ok(Destination::Itself(value));
        }
        if is_function(&by) {
            return Ok(Destination::Calls(by, value));
        }
        if !store.count(1) {
            return Ok(Destination::Spent);
        }
        value = by;
    }
}
