//! Values by number, the most recent first.

ghost use Rattle.std.specs.Prelude.{◌≡◌, ℕ, ◌-◌, ◌^◌, nat_eq, [], ◌∷◌, length, slice_get, Option, Some, None, option_map, IfOk, OnOk, OnErr};
ghost use Rattle.std.specs.Map.{lookup, remove_entry};

use lru::LruCache;
use std::alloc::{AllocError, Global};
use std::marker::Model;

/// Values by number, the most recent first. A call takes the same time however many there are.
#[derive(Drop)]
pub struct Recent<V> {
    alloc: Global,
    values: Option<LruCache<u64, V>>,
}

impl<V> Model for Recent<V> {
    ghost use Rattle.std.specs.Prelude.{ℕ, List};
    ghost use Rattle.sock_pool.specs.Recent.{entries_in, IsUnbounded};

    ghost Value = { List (ℕ × V) };

    ghost view = { λ r. entries_in r.values };

    ghost invariant = { λ r. IsUnbounded r.values };
}

impl<V: Drop> Recent<V> {
    /// No value; takes no memory.
    pub fn new(alloc: Global) -> Recent<V>
        ensures { result ≡ [] }
    {
        Recent {
            alloc,
            values: None,
        }
    }

    /// How many there are.
    pub fn len(&self) -> usize
        ensures { result ≡ length self.now }
    {
        match &self.values {
            Some(values) => values.len(),
            None => 0,
        }
    }

    /// Puts a value first, and returns the one that its number had, which leaves.
    pub fn put(&mut self, number: u64, value: V) -> Result<Option<V>, AllocError>
        ensures old { IfOk result (λ old. old ≡ lookup (nat_eq number) self.old) }
        ensures done { OnOk result (self.new ≡ (number, value) ∷ remove_entry (nat_eq number) self.old) }
        ensures kept { OnErr result (self.new ≡ self.old) }
        ensures absent { OnErr result (lookup (nat_eq number) self.old ≡ None) }
    {
        if self.values.is_none() {
            self.values = Some(LruCache::unbounded(self.alloc)?);
        }
        let Some(values) = &mut self.values else {
            return Err(AllocError);
        };
        put_first(values, number, value)
    }

    /// Takes the value of a number out.
    pub fn take_out(&mut self, number: u64) -> Option<V>
        ensures value { result ≡ lookup (nat_eq number) self.old }
        ensures rest { self.new ≡ remove_entry (nat_eq number) self.old }
    {
        match &mut self.values {
            Some(values) => values.pop(&number),
            None => None,
        }
    }

    /// The number of the first.
    pub fn first(&self) -> Option<u64>
        ensures { result ≡ option_map (λ e. e.0) (slice_get self.now 0) }
    {
        let (number, _) = self.values.as_ref()?.peek_mru()?;
        Some(*number)
    }

    /// The number of the last.
    pub fn last(&self) -> Option<u64>
        ensures { result ≡ option_map (λ e. e.0) (slice_get self.now (length self.now - 1)) }
    {
        let (number, _) = self.values.as_ref()?.peek_lru()?;
        Some(*number)
    }
}

/// Puts a value first, where nothing leaves for want of room.
fn put_first<V: Drop>(
    values: &mut LruCache<u64, V>,
    number: u64,
    value: V,
) -> Result<Option<V>, AllocError>
    requires { values.old.cap ≡ 2 ^ 64 - 1 }
    ensures old { IfOk result (λ old. old ≡ lookup (nat_eq number) values.old.entries) }
    ensures done { OnOk result (values.new.entries ≡ (number, value) ∷ remove_entry (nat_eq number) values.old.entries) }
    ensures kept { OnErr result (values.new.entries ≡ values.old.entries) }
    ensures absent { OnErr result (lookup (nat_eq number) values.old.entries ≡ None) }
    ensures cap { values.new.cap ≡ values.old.cap }
{
    let _count = values.len();
    match values.put(number, value) {
        Ok(old) => Ok(old),
        Err(_) => Err(AllocError),
    }
}
