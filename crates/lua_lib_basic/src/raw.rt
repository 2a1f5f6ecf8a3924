//! `rawequal`, `rawget` and `rawset` (Lua 5.1 Reference Manual, 5.1).

ghost use Rattle.std.specs.Prelude.{◌≡◌};
ghost use Rattle.lua_values.specs.Heap.{StoreView};
ghost use Rattle.lua_lib_base.specs.Results.{IsOutcome};
ghost use Rattle.lua_lib_basic.specs.Raw.{rawequal, rawget, set_raw, rawset};

use lua_lib_base::{Args, Given, Unanswered};
use lua_values::{Store, Value};
use std::alloc::Global;

/// `rawequal(v1, v2)`: whether they are one value.
pub(crate) fn rawequal(alloc: Global, args: &Args<'_>) -> Result<Given, Unanswered>
    ensures { (store : StoreView) → IsOutcome (rawequal args.now.values.now store.heap) store result store }
{
    let first = args.any(1)?;
    let second = args.any(2)?;
    Ok(Given::one(alloc, Value::Truth(first == second))?)
}

/// `rawget(table, index)`: the value at a key, without a metatable.
pub(crate) fn rawget(alloc: Global, args: &Args<'_>, store: &Store) -> Result<Given, Unanswered>
    ensures { IsOutcome (rawget args.now.values.now store.now.heap) store.now result store.now }
{
    let t = args.table(1)?;
    let key = args.any(2)?;
    let value = store.get(t, key).clone()?;
    Ok(Given::one(alloc, value)?)
}

/// `rawset(table, index, value)`: sets a value at a key, without a metatable, and gives the table.
pub(crate) fn rawset(alloc: Global, args: &Args<'_>, store: &mut Store) -> Result<Given, Unanswered>
    ensures { IsOutcome (rawset args.now.values.now store.old.heap) store.old result store.new }
{
    let t = args.table(1)?;
    let key = args.any(2)?.clone()?;
    let value = args.any(3)?.clone()?;
    set_raw(alloc, store, t, key, value)
}

/// Sets a value at a key of a table, and gives the table.
fn set_raw(
    alloc: Global,
    store: &mut Store,
    t: u32,
    key: Value,
    value: Value,
) -> Result<Given, Unanswered>
    ensures { IsOutcome (set_raw store.old.heap t key value) store.old result store.new }
{
    store.set(t, key, value)?;
    Ok(Given::one(alloc, Value::Table(t))?)
}
