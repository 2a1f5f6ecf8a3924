//! What an index comes to, by way of the `__index` of what lacks the key (Lua 5.1 Reference Manual, 2.8).

ghost use Rattle.std.specs.Prelude.{◌≡◌, IfOk};
ghost use Rattle.lua_values.specs.Values.{is_nil};
ghost use Rattle.lua_meaning.specs.Metatables.{is_function};
ghost use Rattle.lua_meaning.specs.Indexing.{raw_value, is_table};
ghost use Rattle.lua_vm_tables.specs.Chains.{Reads};

use lua_frames::handler;
use lua_operators::{Event, LuaType, type_of};
use lua_values::{ObjectKind, Store, Value};
use std::alloc::AllocError;

/// What an index comes to.
#[derive(Drop)]
pub(crate) enum Read {
    Gives(Value),
    /// This handler is called with this value and the key.
    Calls(Value, Value),
    /// A value of this type, which is no table and has no handler.
    Unindexable(LuaType),
    /// The steps are spent.
    Spent,
}

/// What a value has at a key by itself, nil of what is no table.
fn raw_value(store: &Store, value: &Value, key: &Value) -> Result<Value, AllocError>
    ensures { IfOk result (λ found. found ≡ raw_value store.now.heap value.now key.now) }
{
    match value {
        Value::Table(t) => store.get(*t, key).clone(),
        _ => Ok(Value::Nil),
    }
}

fn is_table(value: &Value) -> bool
    ensures { result ≡ is_table value.now }
{
    match value {
        Value::Table(_) => true,
        _ => false,
    }
}

/// Whether a handler is called, and not indexed in turn.
pub(crate) fn is_function(value: &Value) -> bool
    ensures { result ≡ is_function value.now }
{
    match value {
        Value::Closure(_) | Value::Native(_) | Value::Object(ObjectKind::Reader, _) => true,
        Value::Nil | Value::Truth(_) | Value::Number(_) | Value::Text(_) => false,
        Value::Table(_) | Value::Thread(_) | Value::Null => false,
        Value::Object(ObjectKind::Socket, _) => false,
        Value::Object(ObjectKind::Semaphore, _) => false,
        Value::Object(ObjectKind::Zone, _) => false,
    }
}

/// Finds what an index comes to. A handler that is no function is indexed in turn, which counts a step.
pub(crate) fn find_value(store: &mut Store, value: Value, key: &Value) -> Result<Read, AllocError>
    ensures { IfOk result (λ read. Reads value key.now store.old read store.new) }
{
    let mut value = value;
    loop {
        let found = raw_value(store, &value, key)?;
        if !found.is_nil() {
            return Ok(Read::Gives(found));
        }
        let by = handler(store, &value, Event::Index)?;
        if by.is_nil() {
            if is_table(&value) {
                return Ok(Read::Gives(Value::Nil));
            }
            return Ok(Read::Unindexable(type_of(&value)));
        }
        if is_function(&by) {
            return Ok(Read::Calls(by, value));
        }
        if !store.count(1) {
            return Ok(Read::Spent);
        }
        value = by;
    }
}
