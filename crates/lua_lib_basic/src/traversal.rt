//! `next`, `pairs`, `ipairs` and the function that `ipairs` gives (Lua 5.1 Reference Manual, 5.1).

ghost use Rattle.std.specs.Prelude.{◌≡◌, ◌<◌, IfOk};
ghost use Rattle.lua_values.specs.Heap.{StoreView};
ghost use Rattle.lua_lib_base.specs.Results.{IsOutcome};
ghost use Rattle.lua_lib_basic.specs.Traversal.{next_values, next, pairs, ipairs, element_at, element, ipairs_step};

use lua_lib_base::{Args, Given, Unanswered, small_number};
use lua_numbers::add;
use lua_values::{Store, Value};
use resty_base::Whole;
use std::alloc::{AllocError, Global};

/// What a program finds `next` and the step of `ipairs` as.
const NEXT: u32 = 131;

const IPAIRS_STEP: u32 = 174;

/// `next(table, index)`: the next key and its value, or nil; the first for nil.
pub(crate) fn next(alloc: Global, args: &Args<'_>, store: &Store) -> Result<Given, Unanswered>
    ensures { IsOutcome (next args.now.values.now store.now.heap) store.now result store.now }
{
    let t = args.table(1)?;
    let values = match args.argument(2) {
        Some(key) => next_values(alloc, store, t, key)?,
        None => next_values(alloc, store, t, &Value::Nil)?,
    };
    Ok(Given::of(values))
}

/// The key that comes next and its value, or nil.
fn next_values(alloc: Global, store: &Store, t: u32, key: &Value) -> Result<Vec<Value>, AllocError>
    ensures { IfOk result (λ values. values.items ≡ next_values store.now.heap t key.now) }
{
    match store.next(t, key)? {
        Some((key, value)) => Ok(vec![in alloc; key, value]?),
        None => Ok(vec![in alloc; Value::Nil]?),
    }
}

/// `pairs(table)`: `next`, the table and nil.
pub(crate) fn pairs(alloc: Global, args: &Args<'_>) -> Result<Given, Unanswered>
    ensures { (store : StoreView) → IsOutcome (pairs args.now.values.now store.heap) store result store }
{
    let t = args.table(1)?;
    Ok(Given::of(vec![in alloc; Value::Native(NEXT), Value::Table(t), Value::Nil]?))
}

/// `ipairs(table)`: its step, the table and 0.
pub(crate) fn ipairs(alloc: Global, args: &Args<'_>) -> Result<Given, Unanswered>
    ensures { (store : StoreView) → IsOutcome (ipairs args.now.values.now store.heap) store result store }
{
    let t = args.table(1)?;
    Ok(Given::of(vec![in alloc;
        Value::Native(IPAIRS_STEP),
        Value::Table(t),
        Value::Number(small_number(0)),
    ]?))
}

/// The step of `ipairs`, of a table and an index: the next index and the value there, or nothing where that is nil.
pub(crate) fn ipairs_step(
    alloc: Global,
    args: &Args<'_>,
    store: &Store,
) -> Result<Given, Unanswered>
    ensures { IsOutcome (ipairs_step args.now.values.now store.now.heap) store.now result store.now }
{
    let t = args.table(1)?;
    let index = args.number(2)?;
    Ok(Given::of(element(alloc, store, t, index)?))
}

/// The index after this one and the value there, or nothing.
fn element(alloc: Global, store: &Store, t: u32, index: Whole) -> Result<Vec<Value>, AllocError>
    ensures { IfOk result (λ values. values.items ≡ element store.now.heap t index) }
{
    match add(index, small_number(1)) {
        Ok(next) => element_at(alloc, store, t, next),
        Err(_) => Ok(Vec::new(alloc)),
    }
}

/// An index and the value there, or nothing where that is nil.
fn element_at(alloc: Global, store: &Store, t: u32, index: Whole) -> Result<Vec<Value>, AllocError>
    ensures { IfOk result (λ values. values.items ≡ element_at store.now.heap t index) }
{
    let key = Value::Number(index);
    let value = store.get(t, &key);
    if value.is_nil() {
        Ok(Vec::new(alloc))
    } else {
        let value = value.clone()?;
        Ok(vec![in alloc; key, value]?)
    }
}
