//! `tonumber` and `type` (Lua 5.1 Reference Manual, 5.1).

ghost use Rattle.std.specs.Prelude.{◌≡◌, ◌≤◌, IfSome};
ghost use Rattle.lua_values.specs.Heap.{StoreView};
ghost use Rattle.lua_lib_base.specs.Results.{IsOutcome};
ghost use Rattle.lua_lib_basic.specs.Conversions.{number_or_nil, converted, in_base, as_base, tonumber, type_};

use crate::numerals::numeral;
use lua_lib_base::{Args, Given, Refusal, Unanswered, give_made, small_number};
use lua_operators::{number_of, type_of};
use lua_values::{Store, Value};
use resty_base::{Bytes, Whole};
use std::alloc::Global;

/// `tonumber(e, base)`: the number of a value, or nil; in a base other than 10, that of a text of digits without a sign.
pub(crate) fn tonumber(alloc: Global, args: &Args<'_>) -> Result<Given, Unanswered>
    ensures { (store : StoreView) → IsOutcome (tonumber args.now.values.now store.heap) store result store }
{
    let value = args.any(1)?;
    let base = args.number_or(2, small_number(10))?;
    converted(alloc, args, value, base)
}

/// The number of a value, or of the first argument as a text in a base other than 10.
fn converted(
    alloc: Global,
    args: &Args<'_>,
    value: &Value,
    base: Whole,
) -> Result<Given, Unanswered>
    ensures { (store : StoreView) → IsOutcome (converted args.now.values.now store.heap value.now base) store result store }
{
    if base.get() == 10 {
        return Ok(Given::one(alloc, number_or_nil(number_of(value)))?);
    }
    let text = args.text(alloc, 1)?;
    in_base(alloc, text.as_slice(), base)
}

/// The number that a text writes in a base, or nil.
fn in_base(alloc: Global, text: &[u8], base: Whole) -> Result<Given, Unanswered>
    ensures { (store : StoreView) → IsOutcome (in_base store.heap text.now (as_base base)) store result store }
{
    match as_base(base) {
        Some(base) => Ok(Given::one(alloc, number_or_nil(numeral(text, base)))?),
        None => Err(Unanswered::from(Refusal::Base(2))),
    }
}

/// A number from 2 to 36.
fn as_base(base: Whole) -> Option<u32>
    ensures value { result ≡ as_base base }
    ensures range { IfSome result (λ base. (2 ≤ base) × (base ≤ 36)) }
{
    let base = base.get();
    if 2 <= base && base <= 36 {
        Some(base as u32)
    } else {
        None
    }
}

/// A number, or nil.
fn number_or_nil(number: Option<Whole>) -> Value
    ensures { result ≡ number_or_nil number }
{
    match number {
        Some(number) => Value::Number(number),
        None => Value::Nil,
    }
}

/// `type(v)`: the name of a value's type, a text that is made.
pub(crate) fn type_name(
    alloc: Global,
    args: &Args<'_>,
    store: &mut Store,
) -> Result<Given, Unanswered>
    ensures { IsOutcome (type_ args.now.values.now store.old.heap) store.old result store.new }
{
    let value = args.any(1)?;
    give_made(alloc, store, Bytes::from_static(type_of(value).name()))
}
