//! The handlers of metatables.

ghost use Rattle.std.specs.Prelude.{◌≡◌, IfOk};
ghost use Rattle.lua_meaning.specs.Metatables.{metatable_of, handler};

use lua_operators::Event;
use lua_values::{Store, TypeKind, Value};
use resty_base::Bytes;
use std::alloc::AllocError;

/// The metatable of a value.
fn metatable_of(store: &Store, value: &Value) -> Option<u32>
    ensures { result ≡ metatable_of store.now.heap value.now }
{
    match value {
        Value::Table(t) => store.metatable(*t),
        Value::Text(_) => store.type_metatable(TypeKind::Text),
        Value::Object(kind, _) => store.type_metatable(TypeKind::Object(*kind)),
        _ => None,
    }
}

/// The handler that a value has for an event, nil where it has none (Lua 5.1 Reference Manual, 2.8).
pub fn handler(store: &Store, value: &Value, event: Event) -> Result<Value, AllocError>
    ensures { IfOk result (λ by. by ≡ handler store.now.heap value.now event) }
{
    match metatable_of(store, value) {
        None => Ok(Value::Nil),
        Some(t) => {
            let key = Value::Text(Bytes::from_static(event.key()));
            store.get(t, &key).clone()
        }
    }
}
