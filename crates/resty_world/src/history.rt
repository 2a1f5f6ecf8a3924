//! A history that is kept, with its room.

use crate::Entry;
use std::alloc::{AllocError, Global};
use std::marker::Model;

/// A history that is kept. Contracts see its entries, the newest first, and its room: how many more it takes without memory.
#[derive(Debug, Drop)]
pub struct History {
    entries: Vec<Entry>,
}

impl Model for History {
    ghost use Rattle.std.specs.Prelude.{reverse, ◌-◌, vec_len, vec_capacity};
    ghost use Rattle.resty_world.specs.KeptHistory.{Kept};

    ghost Value = { Kept };

    ghost view = { λ h. record { entries = reverse h.entries.items; room = vec_capacity h.entries - vec_len h.entries } };
}

impl History {
    ghost use Rattle.std.specs.Prelude.{◌≡◌, ◌+◌, ◌<◌, ◌≤◌, ◌==◌, [], ◌∷◌, reverse, length, OnOk, OnErr};

    /// The empty history; takes no memory.
    pub fn new(alloc: Global) -> History
        ensures { result.entries ≡ [] }
    {
        History {
            entries: Vec::new(alloc),
        }
    }

    /// Makes room for so many entries more.
    pub fn reserve(&mut self, additional: usize) -> Result<(), AllocError>
        ensures entries { self.new.entries ≡ self.old.entries }
        ensures ok { OnOk result (additional ≤ self.new.room) }
        ensures err { OnErr result (self.old.room ≤ self.new.room) }
    {
        self.entries.reserve(additional)
    }

    /// Adds an entry within the room.
    pub fn push_reserved(&mut self, entry: Entry)
        requires { 0 < self.old.room }
        ensures entries { self.new.entries ≡ entry ∷ self.old.entries }
        ensures room { self.new.room + 1 ≡ self.old.room }
    {
        self.entries.push_reserved(entry);
    }

    /// How many entries there are.
    pub fn len(&self) -> usize
        ensures { result ≡ length self.now.entries }
    {
        self.entries.len()
    }

    /// Whether there is none.
    pub fn is_empty(&self) -> bool
        ensures { result ≡ (length self.now.entries == 0) }
    {
        self.entries.is_empty()
    }

    /// How many entries it takes without memory.
    pub fn room(&self) -> usize
        ensures { result ≡ self.now.room }
    {
        self.entries.capacity() - self.entries.len()
    }

    /// The entries, the oldest first.
    pub fn as_slice(&self) -> &[Entry]
        ensures { result.now ≡ reverse self.now.entries }
    {
        self.entries.as_slice()
    }
}
