//! `getmetatable` and `setmetatable` (Lua 5.1 Reference Manual, 5.1).

ghost use Rattle.std.specs.Prelude.{◌≡◌, IfOk};
ghost use Rattle.lua_lib_base.specs.Results.{IsOutcome};
ghost use Rattle.lua_lib_basic.specs.Metatables.{metatable_of, protection, shown, getmetatable, set_metatable, setmetatable};

use lua_lib_base::{Args, Given, Refusal, Unanswered};
use lua_operators::Event;
use lua_values::{Store, TypeKind, Value};
use resty_base::Bytes;
use std::alloc::{AllocError, Global};

/// `getmetatable(object)`: the field `__metatable` of its metatable, or else this itself; nil where it has none.
pub(crate) fn getmetatable(
    alloc: Global,
    args: &Args<'_>,
    store: &Store,
) -> Result<Given, Unanswered>
    ensures { IsOutcome (getmetatable args.now.values.now store.now.heap) store.now result store.now }
{
    let object = args.any(1)?;
    let shown = shown(store, metatable_of(store, object))?;
    Ok(Given::one(alloc, shown)?)
}

/// `setmetatable(table, metatable)`: gives the table; nil takes its metatable away.
pub(crate) fn setmetatable(
    alloc: Global,
    args: &Args<'_>,
    store: &mut Store,
) -> Result<Given, Unanswered>
    ensures { IsOutcome (setmetatable args.now.values.now store.old.heap) store.old result store.new }
{
    let t = args.table(1)?;
    let meta = args.table_or_nil(2)?;
    set_metatable(alloc, store, t, meta)
}

/// Gives a table this metatable, unless the one that it has is protected.
fn set_metatable(
    alloc: Global,
    store: &mut Store,
    t: u32,
    meta: Option<u32>,
) -> Result<Given, Unanswered>
    ensures { IsOutcome (set_metatable store.old.heap t meta) store.old result store.new }
{
    let field = protection(store, store.metatable(t))?;
    if !field.is_nil() {
        return Err(Unanswered::from(Refusal::ProtectedMetatable));
    }
    store.set_metatable(t, meta)?;
    Ok(Given::one(alloc, Value::Table(t))?)
}

/// The metatable of a value.
fn metatable_of(store: &Store, value: &Value) -> Option<u32>
    ensures { result ≡ metatable_of store.now.heap value.now }
{
    match value {
        Value::Table(t) => store.metatable(*t),
        Value::Text(_) => store.type_metatable(TypeKind::Text),
        Value::Object(kind, _) => store.type_metatable(TypeKind::Object(*kind)),
        _ => None,
    }
}

/// The field `__metatable` of a metatable, nil without one.
fn protection(store: &Store, meta: Option<u32>) -> Result<Value, AllocError>
    ensures { IfOk result (λ value. value ≡ protection store.now.heap meta) }
{
    match meta {
        None => Ok(Value::Nil),
        Some(t) => {
            let key = Value::Text(Bytes::from_static(Event::Metatable.key()));
            store.get(t, &key).clone()
        }
    }
}

/// What is shown of a metatable: its field `__metatable`, or else itself.
fn shown(store: &Store, meta: Option<u32>) -> Result<Value, AllocError>
    ensures { IfOk result (λ value. value ≡ shown store.now.heap meta) }
{
    match meta {
        None => Ok(Value::Nil),
        Some(t) => {
            let field = protection(store, meta)?;
            if field.is_nil() {
                Ok(Value::Table(t))
            } else {
                Ok(field)
            }
        }
    }
}
