//! `select` and `unpack` (Lua 5.1 Reference Manual, 5.1).

ghost use Rattle.std.specs.Prelude.{◌≡◌, ◌<◌, ◌≤◌, ℕ, pos, ◌+ℤ◌, drop, length, IfOk};
ghost use Rattle.resty_base.specs.WholeNumber.{IsWhole};
ghost use Rattle.lua_values.specs.Border.{border_of};
ghost use Rattle.lua_values.specs.Heap.{StoreView, step_limit};
ghost use Rattle.lua_values.specs.Pairs.{value_at};
ghost use Rattle.lua_values.specs.StoreCalls.{pairs_of};
ghost use Rattle.lua_values.specs.declared.values.Value.TheVariants.{Number as OfNumber};
ghost use Rattle.lua_lib_base.specs.Arguments.{argument, number_or_at};
ghost use Rattle.lua_lib_base.specs.Results.{IsOutcome, Agrees};
ghost use Rattle.lua_lib_basic.specs.Lists.{asks_count, passed, selected, select, count_between, elements, unpacked, unpack};

use lua_lib_base::{Args, Given, Refusal, Unanswered, Work, count_number, small_number};
use lua_values::{STEP_LIMIT, Store, Value, Values};
use resty_base::{Bytes, Whole};
use std::alloc::{AllocError, Global};

/// `select(index, ..)`: the arguments after this one from an index on, counted from the end where it is negative; of `#` their number.
pub(crate) fn select(alloc: Global, args: &Args<'_>) -> Result<Given, Unanswered>
    ensures { (store : StoreView) → IsOutcome (select args.now.values.now store.heap) store result store }
{
    let others = after_first(args.values);
    if asks_count(args) {
        let count = count_number(others.len() as u64)?;
        return Ok(Given::one(alloc, Value::Number(count))?);
    }
    let index = args.number(1)?;
    selected(alloc, others, index)
}

/// Whether the first argument is the text `#`.
fn asks_count(args: &Args<'_>) -> bool
    ensures { result ≡ asks_count (argument args.now.values.now 1) }
{
    match args.argument(1) {
        None => false,
        Some(value) => *value == Value::Text(Bytes::from_static(b"#")),
    }
}

/// All values but the first.
fn after_first(values: &[Value]) -> &[Value]
    ensures { result.now ≡ drop 1 values.now }
{
    match values {
        [] => values,
        [_, others @ ..] => others,
    }
}

/// The values from an index on.
fn selected(alloc: Global, values: &[Value], index: Whole) -> Result<Given, Unanswered>
    ensures { (store : StoreView) → IsOutcome (selected store.heap values.now index) store result store }
{
    match passed(values.len(), index.get()) {
        Some(count) => Ok(Given::of(values_after(values, count).to_vec(alloc)?)),
        None => Err(Unanswered::from(Refusal::Index(1))),
    }
}

/// How many of so many values are passed over; none where there is no such index.
fn passed(count: usize, index: i64) -> Option<usize>
    ensures { result ≡ passed count index }
{
    let distance = index.unsigned_abs();
    if index > 0 {
        Some((distance - 1) as usize)
    } else if index < 0 && distance <= count as u64 {
        Some(count - distance as usize)
    } else {
        None
    }
}

/// The values after the first `count`, none where there are no more.
fn values_after(values: &[Value], count: usize) -> &[Value]
    ensures { result.now ≡ drop count values.now }
{
    &values[count.min(values.len())..]
}

/// `unpack(list, i, j)`: the values at the numbers from `i`, or 1, to `j`, or the length of the table.
pub(crate) fn unpack(alloc: Global, args: &Args<'_>, store: &Store) -> Result<Given, Unanswered>
    ensures { IsOutcome (unpack args.now.values.now store.now.heap) store.now result store.now }
{
    let t = args.table(1)?;
    let first = args.number_or(2, small_number(1))?;
    let last = last_index(args, store, t)?;
    unpacked(alloc, store, t, first, last)
}

/// The third argument, or the length of the table.
fn last_index(args: &Args<'_>, store: &Store, t: u32) -> Result<Whole, Unanswered>
    ensures { Agrees (number_or_at args.now.values.now 3 (pos (border_of (pairs_of store.now.heap t)))) result }
{
    if args.is_absent(3) {
        Ok(count_number(store.border(t))?)
    } else {
        Ok(args.number(3)?)
    }
}

/// The values at the numbers from one to another. None is made where the steps aren't enough for them.
fn unpacked(
    alloc: Global,
    store: &Store,
    t: u32,
    first: Whole,
    last: Whole,
) -> Result<Given, Unanswered>
    ensures { IsOutcome (unpacked store.now.heap t first last) store.now result store.now }
{
    let count = count_between(first, last);
    let values = if count < STEP_LIMIT - store.steps() {
        elements(alloc, store, t, first, count)?
    } else {
        Vec::new(alloc)
    };
    Ok(Given {
        values: Values::of(values),
        work: Work::giving(count),
    })
}

/// How many numbers there are from one to another.
fn count_between(first: Whole, last: Whole) -> u64
    ensures count { result ≡ count_between first last }
    ensures within { (k : ℕ) → k < result → IsWhole (first +ℤ pos k) }
{
    let (first, last) = (first.get(), last.get());
    if last < first {
        0
    } else {
        (last - first + 1) as u64
    }
}

/// The values at so many numbers from one on.
fn elements(
    alloc: Global,
    store: &Store,
    t: u32,
    first: Whole,
    count: u64,
) -> Result<Vec<Value>, AllocError>
    requires within { (k : ℕ) → k < count → IsWhole (first +ℤ pos k) }
    requires few { count ≤ step_limit }
    ensures { IfOk result (λ values. values.items ≡ elements (pairs_of store.now.heap t) first count) }
{
    let mut values = Vec::new(alloc);
    for k in 0..count {
        values.push(element(store, t, first, k)?)?;
    }
    Ok(values)
}

/// The value at the number that comes `k` after another.
fn element(store: &Store, t: u32, first: Whole, k: u64) -> Result<Value, AllocError>
    requires within { IsWhole (first +ℤ pos k) }
    requires few { k ≤ step_limit }
    ensures { IfOk result (λ value. value ≡ value_at (pairs_of store.now.heap t) (OfNumber (first +ℤ pos k))) }
{
    match Whole::new(first.get() + k as i64) {
        Some(index) => store.get(t, &Value::Number(index)).clone(),
        None => unreachable!(),
    }
}
