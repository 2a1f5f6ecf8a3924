//! A zone: its calls.

ghost use Rattle.std.specs.Prelude.{◌≡◌, ℕ, ◌≤◌, [], IsOk, IfOk, OnOk, OnErr};
ghost use Rattle.shared_rules.specs.Dictionary as plain;
ghost use Rattle.shared_rules.specs.Dictionary.{dict};
ghost use Rattle.shared_rules.specs.Ranges.{IsInRange, IsWithin};
ghost use Rattle.shared_dict.specs.Calls.{AnswersWithoutMemory, ForeseesWithoutMemory};

use crate::calls::item_of;
use crate::items::Items;
use resty_base::{ByteLists, DictAnswer, DictCall, Ms};
use shared_rules::stays_within;
use std::alloc::{AllocError, Global};
use std::marker::Model;

/// A zone of a shared dictionary, which contracts see as its size and its items, the most recent first. It answers as the plain
/// dictionary does (lua-nginx-module, ngx.shared.DICT).
#[derive(Drop)]
pub struct Zone {
    size: u64,
    items: Items,
}

impl Model for Zone {
    ghost use Rattle.shared_rules.specs.Ranges.{IsWithin};
    ghost use Rattle.shared_dict.specs.Zones.{ZoneView};

    ghost Value = { ZoneView };

    ghost view = { λ zone. record { size = zone.size; items = zone.items } };

    ghost invariant = { λ zone. IsWithin zone.size zone.items };
}

impl Zone {
    /// A zone without items, which may count at most `size` bytes; takes no memory.
    pub fn new(size: u64) -> Zone
        ensures { result ≡ record { size = size; items = [] } }
    {
        Zone {
            size,
            items: Items::new(),
        }
    }

    /// Answers a call at a moment. Out of memory leaves the zone as it was.
    pub fn ask(&mut self, alloc: Global, now: Ms, call: &DictCall) -> Result<DictAnswer, AllocError>
        requires moment { now.0 ≤ 99_999_999_999_999 }
        requires range { IsInRange call.now }
        ensures answer { IfOk result (λ a. a ≡ (dict self.old.size call.now now.0 self.old.items).0) }
        ensures items { OnOk result (self.new ≡ record self.old { items = (dict self.old.size call.now now.0 self.old.items).1 }) }
        ensures unchanged { OnErr result (self.new ≡ self.old) }
        ensures succeeds { AnswersWithoutMemory call.now now.0 self.old.items → IsOk result }
    {
        stays_within();
        ask(&mut self.items, self.size, alloc, now, call)
    }

    /// What the zone answers a call at a moment; the zone stays as it is.
    pub fn foresee(&self, alloc: Global, now: Ms, call: &DictCall) -> Result<DictAnswer, AllocError>
        requires { IsInRange call.now }
        ensures answer { IfOk result (λ a. a ≡ (dict self.now.size call.now now.0 self.now.items).0) }
        ensures succeeds { ForeseesWithoutMemory call.now now.0 self.now.items → IsOk result }
    {
        foresee(&self.items, self.size, alloc, now, call)
    }
}

/// Answers a call, and changes the items.
fn ask(
    items: &mut Items,
    size: u64,
    alloc: Global,
    now: Ms,
    call: &DictCall,
) -> Result<DictAnswer, AllocError>
    requires moment { now.0 ≤ 99_999_999_999_999 }
    requires range { IsInRange call.now }
    requires within { IsWithin size items.old }
    ensures answer { IfOk result (λ a. a ≡ (dict size call.now now.0 items.old).0) }
    ensures items { OnOk result (items.new ≡ (dict size call.now now.0 items.old).1) }
    ensures unchanged { OnErr result (items.new ≡ items.old) }
    ensures succeeds { AnswersWithoutMemory call.now now.0 items.old → IsOk result }
{
    match call {
        DictCall::Get(key) => items.get(now, key),
        DictCall::Store {
            how,
            key,
            value,
            ttl,
            flags,
        } => {
            let item = item_of(now, key, value, *ttl, *flags)?;
            items.set(alloc, size, *how, now, item)
        }
        DictCall::Delete(key) => {
            items.take_out(key);
            Ok(DictAnswer::Done(false))
        }
        DictCall::Incr { key, by, init, ttl } => {
            let step = items.increment(now, key, *by, *init);
            items.increase(alloc, size, now, key, *ttl, step)
        }
        DictCall::FlushAll => {
            items.expire(now);
            Ok(DictAnswer::Done(false))
        }
        DictCall::FlushExpired(n) => Ok(DictAnswer::Count(items.sweep(alloc, now, limit(*n))?)),
        DictCall::Keys(n) => {
            let keys = items.keys(alloc, now, limit(*n))?;
            Ok(DictAnswer::Names(ByteLists::of(keys)))
        }
    }
}

/// What a call is answered; nothing changes.
fn foresee(
    items: &Items,
    size: u64,
    alloc: Global,
    now: Ms,
    call: &DictCall,
) -> Result<DictAnswer, AllocError>
    requires range { IsInRange call.now }
    requires within { IsWithin size items.now }
    ensures answer { IfOk result (λ a. a ≡ (dict size call.now now.0 items.now).0) }
    ensures succeeds { ForeseesWithoutMemory call.now now.0 items.now → IsOk result }
{
    match call {
        DictCall::Get(key) => items.foresee_get(now, key),
        DictCall::Store {
            how,
            key,
            value,
            ..
        } => match items.refusal(*how, now, key) {
            Some(answer) => Ok(answer),
            None => Ok(items.foresee_store(size, key, value)),
        },
        DictCall::Delete(_) | DictCall::FlushAll => Ok(DictAnswer::Done(false)),
        DictCall::Incr { key, by, init, .. } => {
            let step = items.increment(now, key, *by, *init);
            Ok(items.foresee_increase(size, key, step))
        }
        DictCall::FlushExpired(n) => Ok(DictAnswer::Count(items.count_doomed(now, limit(*n)))),
        DictCall::Keys(n) => {
            let keys = items.keys(alloc, now, limit(*n))?;
            Ok(DictAnswer::Names(ByteLists::of(keys)))
        }
    }
}

/// At most how many a call is for, where 0 is for all.
fn limit(n: u32) -> u32
    ensures { result ≡ plain.limit n }
{
    if n == 0 { u32::MAX } else { n }
}
