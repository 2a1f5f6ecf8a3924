//! A map in the order of its last use, which is made with its first entry.

ghost use Rattle.std.specs.Prelude.{◌≡◌, ◌-◌, ◌^◌, [], ◌∷◌, length, take, slice_get, option_copied, OnOk, OnErr, IfOk, None, drop, Some};
ghost use Rattle.std.specs.Map.{lookup, lookup_entry, remove_entry};
ghost use Rattle.lru.specs.LruCache.{lru_cache, last_entry, promoted};
ghost use Rattle.shared_rules.specs.Keys.{same_key};
ghost use Rattle.shared_dict.specs.Kept.{Entry, listed, put_first, with_value, bytes_of, IsMade};

use crate::kept::Kept;
use crate::sizes::size_of;
use lru::{Iter, LruCache};
use resty_base::{Bytes, DictValue};
use std::alloc::{AllocError, Global};
use std::marker::Model;

/// What is kept of items by their keys, which contracts see as a list of entries, the most recently used first. Nothing leaves it
/// by itself.
#[derive(Drop)]
pub(crate) struct Recent {
    made: Option<LruCache<Bytes, Kept>>,
}

impl Model for Recent {
    ghost use Rattle.std.specs.Prelude.{List};
    ghost use Rattle.shared_dict.specs.Kept.{Entry, entries_of, HasRoom};

    ghost Value = { List Entry };

    ghost view = { λ recent. entries_of recent.made };

    ghost invariant = { λ recent. HasRoom recent.made };
}

impl Recent {
    /// No entry; takes no memory.
    pub(crate) fn new() -> Recent
        ensures { result ≡ [] }
    {
        Recent { made: None }
    }

    /// What is kept by the key.
    pub(crate) fn peek(&self, key: &Bytes) -> Option<&Kept>
        ensures { option_copied result ≡ lookup (same_key key.now) self.now }
    {
        match &self.made {
            Some(map) => map.peek(key),
            None => None,
        }
    }

    /// The entry of the key comes first, where there is one.
    pub(crate) fn promote(&mut self, key: &Bytes)
        ensures { self.new ≡ promoted (same_key key.now) self.old }
    {
        if let Some(map) = &mut self.made {
            let _was_there = map.promote(key);
        }
    }

    /// Takes out the entry of the key.
    pub(crate) fn take(&mut self, key: &Bytes) -> Option<(Bytes, Kept)>
        ensures taken { result ≡ lookup_entry (same_key key.now) self.old }
        ensures left { self.new ≡ remove_entry (same_key key.now) self.old }
    {
        match &mut self.made {
            Some(map) => map.pop_entry(key),
            None => None,
        }
    }

    /// Takes out the last entry.
    pub(crate) fn pop(&mut self) -> Option<(Bytes, Kept)>
        ensures taken { result ≡ last_entry self.old }
        ensures left { self.new ≡ take (length self.old - 1) self.old }
    {
        match &mut self.made {
            Some(map) => map.pop_lru(),
            None => None,
        }
    }

    /// Takes out the first entry.
    pub(crate) fn pop_first(&mut self) -> Option<(Bytes, Kept)>
        ensures taken { result ≡ slice_get self.old 0 }
        ensures left { self.new ≡ drop 1 self.old }
    {
        match &mut self.made {
            Some(map) => map.pop_mru(),
            None => None,
        }
    }

    /// The entry of the key comes first, where there is one, with another value.
    pub(crate) fn set_value(&mut self, key: &Bytes, value: DictValue)
        ensures { (e : Entry) → lookup_entry (same_key key.now) self.old ≡ Some e
            → self.new ≡ with_value value e ∷ remove_entry (same_key key.now) self.old }
    {
        if let Some(map) = &mut self.made {
            set_in(map, key, value);
        }
    }

    /// How many entries there are.
    pub(crate) fn len(&self) -> usize
        ensures { result ≡ length self.now }
    {
        match &self.made {
            Some(map) => map.len(),
            None => 0,
        }
    }

    /// The entries, the most recently used first; none where no map is made.
    pub(crate) fn entries(&self) -> Option<Iter<'_, Bytes, Kept>>
        ensures { listed result ≡ self.now }
    {
        match &self.made {
            Some(map) => Some(map.iter()),
            None => None,
        }
    }

    /// The bytes that the entry of the key counts, if there is one.
    pub(crate) fn bytes_at(&self, key: &Bytes) -> u128
        ensures { result ≡ bytes_of (lookup_entry (same_key key.now) self.now) }
    {
        match self.peek(key) {
            Some(kept) => size_of(key, &kept.value),
            None => 0,
        }
    }

    /// Puts an entry first, in the place of that of its key.
    pub(crate) fn put(&mut self, alloc: Global, key: Bytes, kept: Kept) -> Result<(), AllocError>
        ensures done { OnOk result (self.new ≡ put_first key kept self.old) }
        ensures unchanged { OnErr result (self.new ≡ self.old) }
    {
        let mut map = made_or_new(alloc, self.made.take())?;
        let put = put_in(&mut map, key, kept);
        self.made = Some(map);
        put
    }
}

/// Puts an entry first into a map whose capacity is above any length, so that no other leaves.
fn put_in(map: &mut LruCache<Bytes, Kept>, key: Bytes, kept: Kept) -> Result<(), AllocError>
    requires { map.old.cap ≡ 2 ^ 64 - 1 }
    ensures done { OnOk result (map.new ≡ lru_cache (put_first key kept map.old.entries) map.old.cap) }
    ensures unchanged { OnErr result (map.new ≡ map.old) }
{
    let _below_capacity = map.len();
    match map.put(key, kept) {
        Ok(_) => Ok(()),
        Err(_) => Err(AllocError),
    }
}

/// The entry of the key comes first in the map, where there is one, with another value.
fn set_in(map: &mut LruCache<Bytes, Kept>, key: &Bytes, value: DictValue)
    ensures entries { (e : Entry) → lookup_entry (same_key key.now) map.old.entries ≡ Some e
        → map.new.entries ≡ with_value value e ∷ remove_entry (same_key key.now) map.old.entries }
    ensures capacity { map.new.cap ≡ map.old.cap }
{
    if let Some(kept) = map.get_mut(key) {
        kept.value = value;
    }
}

/// The map, which is made where it isn't yet.
fn made_or_new(
    alloc: Global,
    made: Option<LruCache<Bytes, Kept>>,
) -> Result<LruCache<Bytes, Kept>, AllocError>
    ensures done { IfOk result (IsMade made) }
    ensures refused { OnErr result (made ≡ None) }
{
    match made {
        Some(map) => Ok(map),
        None => LruCache::unbounded(alloc),
    }
}
