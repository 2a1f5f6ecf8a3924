//! The items of a zone, in the order of their last use.

ghost use Rattle.std.specs.Prelude.{◌≡◌, ℕ, ◌+◌, ◌-◌, ◌<◌, ◌≤◌, ◌^◌, [], length, map, take, drop, find};
ghost use Rattle.std.specs.Prelude.{option_map, option_copied, OnOk, OnErr, IfOk, Some, IsSome, Option, List};
ghost use Rattle.resty_base.specs.declared.dictionary.DictValue.{DictValue};
ghost use Rattle.std.specs.List.{IsDistinct};
ghost use Rattle.shared_rules.specs.Keys.{same_key};
ghost use Rattle.shared_rules.specs.declared.items.Item.{Item};
ghost use Rattle.shared_rules.specs.Items.{used, size_of, value_size, found, has_key, first, without, but_last, swept};
ghost use Rattle.shared_rules.specs.Dictionary.{expired, store, keys_there};
ghost use Rattle.shared_dict.specs.Zones.{promoted, trimmed, is_trim, is_crowded, fits_after, doomed};
ghost use Rattle.shared_dict.specs.Kept.{Entry, bytes_of, kept_of, content, content_of};

use crate::kept::{Flush, Kept};
use crate::recent::Recent;
use crate::scans::{count_doomed, doomed, expiry_of, fits, is_before, keys};
use crate::sizes::size_of;
use resty_base::{Bytes, DictAnswer, DictValue, Ms};
use shared_rules::Item;
use std::alloc::{AllocError, Global};
use std::marker::Model;

/// The items of a zone, which contracts see as a list, the most recent first.
#[derive(Drop)]
pub(crate) struct Items {
    recent: Recent,
    bytes: u128,
    last: u64,
    flush: Flush,
}

impl Model for Items {
    ghost use Rattle.std.specs.Prelude.{List};
    ghost use Rattle.shared_rules.specs.declared.items.Item.{Item};
    ghost use Rattle.shared_dict.specs.Kept.{items_of, IsCounted};

    ghost Value = { List Item };

    ghost view = { λ items. items_of items.flush items.recent };

    ghost invariant = { λ items. IsCounted items.recent items.bytes items.last items.flush };
}

impl Items {
    /// No items; takes no memory.
    pub(crate) fn new() -> Items
        ensures { result ≡ [] }
    {
        Items {
            recent: Recent::new(),
            bytes: 0,
            last: 0,
            flush: Flush { last: 0, at: Ms(0) },
        }
    }

    /// How many items there are.
    fn len(&self) -> usize
        ensures { result ≡ length self.now }
    {
        self.recent.len()
    }

    /// How many bytes all items count.
    pub(crate) fn used(&self) -> u128
        ensures { result ≡ used self.now }
    {
        self.bytes
    }

    /// What is kept of the item of the key, where it is there.
    pub(crate) fn there(&self, now: Ms, key: &Bytes) -> Option<&Kept>
        ensures { content (option_copied result) ≡ content_of (found now.0 key.now self.now) }
    {
        let kept = self.recent.peek(key)?;
        if is_before(now, expiry_of(self.flush, kept)) {
            Some(kept)
        } else {
            None
        }
    }

    /// The item of the key comes first, where there is one.
    pub(crate) fn promote(&mut self, key: &Bytes)
        ensures { self.new ≡ promoted key.now self.old }
    {
        self.recent.promote(key);
    }

    /// Takes out the item of the key.
    pub(crate) fn take_out(&mut self, key: &Bytes)
        ensures { self.new ≡ without key.now self.old }
    {
        self.bytes -= bytes_of(self.recent.take(key));
    }

    /// Takes out the last item.
    pub(crate) fn pop_last(&mut self)
        ensures { self.new ≡ but_last self.old }
    {
        self.bytes -= bytes_of(self.recent.pop());
    }

    /// Takes out the first item.
    pub(crate) fn pop_first(&mut self)
        ensures { self.new ≡ drop 1 self.old }
    {
        self.bytes -= bytes_of(self.recent.pop_first());
    }

    /// The item of the key comes first with another value, which counts as many bytes.
    pub(crate) fn set_value(&mut self, key: &Bytes, value: DictValue)
        requires { (item : Item) × (find (has_key key.now) self.old ≡ Some item) × (value_size value ≡ value_size item.value) }
        ensures { (item : Item) → find (has_key key.now) self.old ≡ Some item → self.new ≡ first (record item { value = value }) self.old }
    {
        self.recent.set_value(key, value);
    }

    /// Puts an item first, in the place of that of its key.
    pub(crate) fn put(&mut self, alloc: Global, item: Item) -> Result<(), AllocError>
        requires { used self.old < 2 ^ 64 }
        ensures done { OnOk result (self.new ≡ first item self.old) }
        ensures unchanged { OnErr result (self.new ≡ self.old) }
    {
        if self.last == u64::MAX {
            return Err(AllocError);
        }
        let added = size_of(&item.key, &item.value);
        let freed = self.recent.bytes_at(&item.key);
        let number = self.last + 1;
        let (key, kept) = numbered(item, number);
        self.recent.put(alloc, key, kept)?;
        self.last = number;
        self.bytes = self.bytes - freed + added;
        Ok(())
    }

    /// Evicts the last items while all count more bytes than the size, at most 30, but never the first.
    pub(crate) fn trim(&mut self, size: u64)
        ensures { self.new ≡ trimmed 30 size self.old }
    {
        for _count in 0..30_u32 {
            if self.is_trim(size) {
                return;
            }
            self.pop_last();
        }
    }

    fn is_trim(&self, size: u64) -> bool
        ensures { result ≡ is_trim size self.now }
    {
        self.used() <= u128::from(size) || self.len() < 2
    }

    /// Stores an item, for which others may be evicted.
    pub(crate) fn store(
        &mut self,
        alloc: Global,
        size: u64,
        item: Item,
    ) -> Result<DictAnswer, AllocError>
        requires { used self.old ≤ size }
        ensures answer { IfOk result (λ a. a ≡ (store size item self.old).0) }
        ensures items { OnOk result (self.new ≡ (store size item self.old).1) }
        ensures unchanged { OnErr result (self.new ≡ self.old) }
    {
        self.put(alloc, item)?;
        let before = self.len();
        self.trim(size);
        let any = self.len() < before;
        if self.used() <= u128::from(size) {
            return Ok(DictAnswer::Done(any));
        }
        self.pop_first();
        Ok(DictAnswer::NoMemory(any))
    }

    /// What storing an item of the key and the value answers.
    pub(crate) fn foresee_store(&self, size: u64, key: &Bytes, value: &DictValue) -> DictAnswer
        requires distinct { IsDistinct same_key (map (λ item. item.key) self.now) }
        requires within { used self.now ≤ size }
        ensures { (item : Item) → item.key ≡ key.now → item.value ≡ value.now → result ≡ (store size item self.now).0 }
    {
        let more = size_of(key, value);
        let rest = self.bytes_without(key);
        let any = is_crowded(size, rest, more);
        if self.fits(size, key, rest, more) {
            DictAnswer::Done(any)
        } else {
            DictAnswer::NoMemory(any)
        }
    }

    /// How many bytes the items count without that of the key.
    fn bytes_without(&self, key: &Bytes) -> u128
        ensures bytes { result ≡ used (without key.now self.now) }
        ensures fewer { result ≤ used self.now }
    {
        self.bytes - self.recent.bytes_at(key)
    }

    /// Whether so many bytes more fit after at most 30 evictions, where the item of the key was taken out.
    fn fits(&self, size: u64, key: &Bytes, rest: u128, more: u128) -> bool
        requires distinct { IsDistinct same_key (map (λ item. item.key) self.now) }
        requires rest { rest ≡ used (without key.now self.now) }
        requires small { rest + more < 2 ^ 128 }
        ensures { result ≡ fits_after 30 size more (without key.now self.now) }
    {
        match self.recent.entries() {
            Some(entries) => fits(entries, key, size, rest, more),
            None => more <= u128::from(size),
        }
    }

    /// Takes out items that aren't there, the last first, at most so many, and returns how many.
    pub(crate) fn sweep(&mut self, alloc: Global, now: Ms, most: u32) -> Result<u32, AllocError>
        requires { IsDistinct same_key (map (λ item. item.key) self.old) }
        ensures count { IfOk result (λ n. n ≡ length self.old - length (swept now.0 most self.old)) }
        ensures items { OnOk result (self.new ≡ swept now.0 most self.old) }
        ensures unchanged { OnErr result (self.new ≡ self.old) }
    {
        let keys = self.doomed(alloc, now, most)?;
        for key in &keys {
            self.take_out(key);
        }
        Ok(keys.len() as u32)
    }

    /// The keys of the items that a sweep takes out.
    fn doomed(&self, alloc: Global, now: Ms, most: u32) -> Result<Vec<Bytes>, AllocError>
        ensures { IfOk result (λ keys. keys.items ≡ doomed now.0 most self.now) }
    {
        match self.recent.entries() {
            Some(entries) => doomed(alloc, entries, self.flush, now, most),
            None => Ok(Vec::new(alloc)),
        }
    }

    /// How many items a sweep takes out.
    pub(crate) fn count_doomed(&self, now: Ms, most: u32) -> u32
        ensures { result ≡ length (doomed now.0 most self.now) }
    {
        match self.recent.entries() {
            Some(entries) => count_doomed(entries, self.flush, now, most),
            None => 0,
        }
    }

    /// The keys of the items that are there, at most so many.
    pub(crate) fn keys(&self, alloc: Global, now: Ms, most: u32) -> Result<Vec<Bytes>, AllocError>
        ensures { IfOk result (λ keys. keys.items ≡ take most (keys_there now.0 self.now)) }
    {
        match self.recent.entries() {
            Some(entries) => keys(alloc, entries, self.flush, now, most),
            None => Ok(Vec::new(alloc)),
        }
    }

    /// Every item expires now.
    pub(crate) fn expire(&mut self, now: Ms)
        ensures { self.new ≡ expired now.0 self.old }
    {
        self.flush = Flush {
            last: self.last,
            at: now,
        };
    }
}

/// The bytes that an entry counts, if there is one.
fn bytes_of(entry: Option<(Bytes, Kept)>) -> u128
    ensures { result ≡ bytes_of entry }
{
    match entry {
        Some((key, kept)) => size_of(&key, &kept.value),
        None => 0,
    }
}

/// An item as it is kept, by its number.
fn numbered(item: Item, number: u64) -> (Bytes, Kept)
    ensures { result ≡ kept_of number item }
{
    let Item {
        key,
        value,
        flags,
        expiry,
    } = item;
    let kept = Kept {
        value,
        flags,
        expiry,
        number,
    };
    (key, kept)
}

/// Whether something is evicted of items that count `rest` bytes, for so many more.
fn is_crowded(size: u64, rest: u128, more: u128) -> bool
    requires { rest + more < 2 ^ 128 }
    ensures { result ≡ is_crowded size rest more }
{
    rest > 0 && rest + more > u128::from(size)
}
