//! The calls of a zone, on its items.

ghost use Rattle.std.specs.Prelude.{◌≡◌, ℕ, ℤ, ◌+ℤ◌, ◌≤◌, List, map, Option, is_some, false, IsOk, IfOk, IfSome, OnOk, OnErr};
ghost use Rattle.std.specs.List.{IsDistinct};
ghost use Rattle.resty_base.specs.WholeNumber.{IsWhole};
ghost use Rattle.shared_rules.specs.declared.items.Item.{Item};
ghost use Rattle.shared_rules.specs.Keys.{same_key};
ghost use Rattle.shared_rules.specs.Items.{used, found};
ghost use Rattle.shared_rules.specs.Dictionary as plain;
ghost use Rattle.shared_rules.specs.Ranges.{IsNumbered, IsTtl};
ghost use Rattle.shared_dict.specs.Calls as calls;
ghost use Rattle.shared_dict.specs.Calls.{refused, if_whole, is_beginning, FindsNoText, HasWholeNumbers};

use crate::items::Items;
use crate::values::copy_of;
use resty_base::{Bytes, DictAnswer, DictValue, GREATEST_WHOLE, How, Ms};
use shared_rules::Item;
use std::alloc::{AllocError, Global};

/// What an `incr` does: nothing but its answer, another number in the item's place, or an item that begins with a number.
#[derive(Drop)]
pub(crate) enum Increment {
    Refused(DictAnswer),
    Raised(i64),
    Begun(i64),
}

impl Items {
    /// What a `get` answers; a text is shared.
    pub(crate) fn foresee_get(&self, now: Ms, key: &Bytes) -> Result<DictAnswer, AllocError>
        ensures answer { IfOk result (λ a. a ≡ (plain.get (found now.0 key.now self.now) self.now).0) }
        ensures succeeds { FindsNoText (found now.0 key.now self.now) → IsOk result }
    {
        match self.there(now, key) {
            Some(kept) => Ok(DictAnswer::Found(copy_of(&kept.value)?, kept.flags)),
            None => Ok(DictAnswer::Nothing),
        }
    }

    /// A `get`.
    pub(crate) fn get(&mut self, now: Ms, key: &Bytes) -> Result<DictAnswer, AllocError>
        ensures answer { IfOk result (λ a. a ≡ (plain.get (found now.0 key.now self.old) self.old).0) }
        ensures items { OnOk result (self.new ≡ (plain.get (found now.0 key.now self.old) self.old).1) }
        ensures unchanged { OnErr result (self.new ≡ self.old) }
        ensures succeeds { FindsNoText (found now.0 key.now self.old) → IsOk result }
    {
        let answer = self.foresee_get(now, key)?;
        if is_found(&answer) {
            self.promote(key);
        }
        Ok(answer)
    }

    /// Why nothing is stored: an `Add` finds the item there, or a `Replace` doesn't.
    pub(crate) fn refusal(&self, how: How, now: Ms, key: &Bytes) -> Option<DictAnswer>
        ensures { result ≡ refused how (is_some (found now.0 key.now self.now)) }
    {
        refusal(how, self.is_there(now, key))
    }

    /// A `set`, an `add` or a `replace`.
    pub(crate) fn set(
        &mut self,
        alloc: Global,
        size: u64,
        how: How,
        now: Ms,
        item: Item,
    ) -> Result<DictAnswer, AllocError>
        requires { used self.old ≤ size }
        ensures answer { IfOk result (λ a. a ≡ (plain.stored size how (found now.0 item.key self.old) item self.old).0) }
        ensures items { OnOk result (self.new ≡ (plain.stored size how (found now.0 item.key self.old) item self.old).1) }
        ensures unchanged { OnErr result (self.new ≡ self.old) }
    {
        match self.refusal(how, now, &item.key) {
            Some(answer) => Ok(answer),
            None => self.store(alloc, size, item),
        }
    }

    /// Whether the item of the key is there.
    fn is_there(&self, now: Ms, key: &Bytes) -> bool
        ensures { result ≡ is_some (found now.0 key.now self.now) }
    {
        self.there(now, key).is_some()
    }

    /// What an `incr` of the key does.
    pub(crate) fn increment(&self, now: Ms, key: &Bytes, by: i64, init: Option<i64>) -> Increment
        requires kept { HasWholeNumbers self.now }
        requires by { IsWhole by }
        requires init { IfSome init IsWhole }
        ensures { result ≡ calls.increment by init (found now.0 key.now self.now) }
    {
        match self.there(now, key) {
            Some(kept) => raised(&kept.value, by),
            None => begun(init, by),
        }
    }

    /// An `incr` that does so; an item that begins has the time to live.
    pub(crate) fn increase(
        &mut self,
        alloc: Global,
        size: u64,
        now: Ms,
        key: &Bytes,
        ttl: u64,
        step: Increment,
    ) -> Result<DictAnswer, AllocError>
        requires moment { now.0 ≤ 99_999_999_999_999 }
        requires ttl { IsTtl ttl }
        requires size { used self.old ≤ size }
        requires step { (by : ℤ) × (init : Option ℤ) × (step ≡ calls.increment by init (found now.0 key.now self.old)) }
        ensures answer { (by : ℤ) (init : Option ℤ) → step ≡ calls.increment by init (found now.0 key.now self.old)
            → IfOk result (λ a. a ≡ (plain.incr size now.0 key.now by init ttl (found now.0 key.now self.old) self.old).0) }
        ensures items { (by : ℤ) (init : Option ℤ) → step ≡ calls.increment by init (found now.0 key.now self.old)
            → OnOk result (self.new ≡ (plain.incr size now.0 key.now by init ttl (found now.0 key.now self.old) self.old).1) }
        ensures unchanged { OnErr result (self.new ≡ self.old) }
        ensures succeeds { is_beginning step ≡ false → IsOk result }
    {
        match step {
            Increment::Refused(answer) => Ok(answer),
            Increment::Raised(n) => {
                self.set_value(key, DictValue::Number(n));
                Ok(DictAnswer::Number(n, false))
            }
            Increment::Begun(n) => {
                let item = item_of(now, key, &DictValue::Number(n), ttl, 0)?;
                let answer = self.store(alloc, size, item)?;
                Ok(as_number(n, answer))
            }
        }
    }

    /// What an `incr` answers that does so.
    pub(crate) fn foresee_increase(&self, size: u64, key: &Bytes, step: Increment) -> DictAnswer
        requires distinct { IsDistinct same_key (map (λ item. item.key) self.now) }
        requires size { used self.now ≤ size }
        ensures { (now ttl : ℕ) (by : ℤ) (init : Option ℤ) → step ≡ calls.increment by init (found now key.now self.now)
            → result ≡ (plain.incr size now key.now by init ttl (found now key.now self.now) self.now).0 }
    {
        match step {
            Increment::Refused(answer) => answer,
            Increment::Raised(n) => DictAnswer::Number(n, false),
            Increment::Begun(n) => as_number(
                n,
                self.foresee_store(size, key, &DictValue::Number(n)),
            ),
        }
    }
}

/// An item that is stored now; its texts are shared.
pub(crate) fn item_of(
    now: Ms,
    key: &Bytes,
    value: &DictValue,
    ttl: u64,
    flags: u32,
) -> Result<Item, AllocError>
    requires moment { now.0 ≤ 99_999_999_999_999 }
    requires ttl { IsTtl ttl }
    ensures { IfOk result (λ item. item ≡ record { key = key.now; value = value.now; flags = flags; expiry = plain.expiry_at now.0 ttl }) }
{
    Ok(Item {
        key: key.clone()?,
        value: copy_of(value)?,
        flags,
        expiry: expiry_at(now, ttl),
    })
}

/// When an item expires that is stored now, where a time to live of 0 is for ever.
fn expiry_at(now: Ms, ttl: u64) -> Option<Ms>
    requires moment { now.0 ≤ 99_999_999_999_999 }
    requires ttl { IsTtl ttl }
    ensures { result ≡ plain.expiry_at now.0 ttl }
{
    if ttl == 0 {
        None
    } else {
        Some(Ms(now.0 + ttl))
    }
}

/// Whether a `get` found a value.
fn is_found(answer: &DictAnswer) -> bool
    ensures { result ≡ calls.is_found answer.now }
{
    matches!(answer, DictAnswer::Found(_, _))
}

fn refusal(how: How, is_there: bool) -> Option<DictAnswer>
    ensures { result ≡ refused how is_there }
{
    match (how, is_there) {
        (How::Add, true) => Some(DictAnswer::Exists),
        (How::Replace, false) => Some(DictAnswer::Missing),
        _ => None,
    }
}

/// What an `incr` of a value that is there does.
fn raised(value: &DictValue, by: i64) -> Increment
    requires value { IsNumbered value.now }
    requires by { IsWhole by }
    ensures { result ≡ calls.increment_of by value.now }
{
    match value {
        DictValue::Number(n) => match sum(*n, by) {
            Some(number) => Increment::Raised(number),
            None => Increment::Refused(DictAnswer::OutOfRange),
        },
        _ => Increment::Refused(DictAnswer::NotNumber),
    }
}

/// What an `incr` without an item does.
fn begun(init: Option<i64>, by: i64) -> Increment
    requires init { IfSome init IsWhole }
    requires by { IsWhole by }
    ensures { result ≡ calls.begin_with by init }
{
    match init {
        Some(n) => match sum(n, by) {
            Some(number) => Increment::Begun(number),
            None => Increment::Refused(DictAnswer::OutOfRange),
        },
        None => Increment::Refused(DictAnswer::Missing),
    }
}

/// The sum, where it is within the range.
fn sum(n: i64, by: i64) -> Option<i64>
    requires n { IsWhole n }
    requires by { IsWhole by }
    ensures { result ≡ if_whole (n +ℤ by) }
{
    let sum = n + by;
    if -GREATEST_WHOLE <= sum && sum <= GREATEST_WHOLE {
        Some(sum)
    } else {
        None
    }
}

/// The answer of an `incr` that stored its number.
fn as_number(n: i64, answer: DictAnswer) -> DictAnswer
    ensures { (items : List Item) → result ≡ (plain.as_number n (answer, items)).0 }
{
    match answer {
        DictAnswer::Done(any) => DictAnswer::Number(n, any),
        other => other,
    }
}
