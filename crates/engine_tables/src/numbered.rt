//! Values by rising numbers.

ghost use Rattle.std.specs.Prelude.{◌≡◌, ◌<◌, ◌++◌, ◌∷◌, [], nat_eq, None, OnOk, option_copied};
ghost use Rattle.std.specs.Map.{lookup, remove_entry};

use indexmap::IndexMap;
use std::alloc::{AllocError, Global};
use std::marker::Model;

/// Values in the order in which they were put, each with a number; numbers rise. Its room is for how many more may be put without memory.
/// A call takes the same time however many there are.
#[derive(Drop)]
pub struct Numbered<V> {
    by_number: IndexMap<u64, V>,
    next: u64,
}

impl<V> Model for Numbered<V> {
    ghost use Rattle.std.specs.Prelude.{nat_eq};
    ghost use Rattle.indexmap.specs.IndexMap.{get, spare};
    ghost use Rattle.engine_tables.specs.Numbered.{NumberedView, below, room_of, IsFresh};

    ghost Value = { NumberedView V };

    ghost view = { λ n. record { entries = below (get nat_eq n.by_number) n.next; room = room_of n.next (spare n.by_number) } };

    ghost invariant = { λ n. IsFresh (get nat_eq n.by_number) n.next };
}

impl<V: Drop> Numbered<V> {
    /// No value; takes no memory.
    pub fn new(alloc: Global) -> Numbered<V>
        ensures { result.entries ≡ [] }
    {
        Numbered {
            by_number: IndexMap::new(alloc),
            next: 0,
        }
    }

    /// Makes room for one more.
    pub fn reserve(&mut self) -> Result<(), AllocError>
        ensures entries { self.new.entries ≡ self.old.entries }
        ensures done { OnOk result (0 < self.new.room) }
    {
        if self.next == u64::MAX {
            return Err(AllocError);
        }
        self.by_number.reserve(1)
    }

    /// Puts a value last, and returns its number.
    pub fn push(&mut self, value: V) -> u64
        requires { 0 < self.old.room }
        ensures done { self.new.entries ≡ self.old.entries ++ (result, value) ∷ [] }
        ensures fresh { lookup (nat_eq result) self.old.entries ≡ None }
    {
        let number = self.next;
        let _was = self.by_number.insert(number, value);
        self.next = number + 1;
        number
    }

    /// The value of a number.
    pub fn get(&self, number: u64) -> Option<&V>
        ensures { option_copied result ≡ lookup (nat_eq number) self.now.entries }
    {
        self.by_number.get(&number)
    }

    /// Takes the value of a number out.
    pub fn take(&mut self, number: u64) -> Option<V>
        ensures value { result ≡ lookup (nat_eq number) self.old.entries }
        ensures left { self.new.entries ≡ remove_entry (nat_eq number) self.old.entries }
    {
        self.by_number.swap_remove(&number)
    }
}
