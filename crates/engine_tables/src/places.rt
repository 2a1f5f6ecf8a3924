//! The places of strands.

ghost use Rattle.std.specs.Prelude.{◌≡◌, ◌<◌, ◌++◌, ◌∷◌, [], nat_eq, slice_get, Option, None, option_map, OnOk, if◌then◌else◌};
ghost use Rattle.std.specs.Map.{lookup, remove_entry};
ghost use Rattle.resty_base.specs.declared.names.StrandId.{StrandId};
ghost use Rattle.resty_world.specs.Ids.{same_strand};
ghost use Rattle.indexmap.specs.IndexMap.{spare};
ghost use Rattle.engine_tables.specs.Places.{places_of, room_for};

use indexmap::IndexMap;
use resty_base::StrandId;
use std::alloc::{AllocError, Global};

/// A number for each place of a strand that was put, in the order in which they were put; of each strand by itself.
#[derive(Drop)]
pub struct Places {
    alloc: Global,
    by_strand: IndexMap<StrandId, IndexMap<u32, u64>>,
}

impl Places {
    /// No place; takes no memory.
    pub fn new(alloc: Global) -> Places
        ensures { (s : StrandId) → places_of result s ≡ [] }
    {
        Places {
            alloc,
            by_strand: IndexMap::new(alloc),
        }
    }

    /// Makes room for one more of a strand.
    pub fn reserve(&mut self, who: StrandId) -> Result<(), AllocError>
        ensures places { (s : StrandId) → places_of self.new s ≡ places_of self.old s }
        ensures done { OnOk result (0 < room_for self.new who) }
    {
        if let Some(own) = self.by_strand.get_mut(&who) {
            return own.reserve(1);
        }
        self.add(who)
    }

    /// Makes room for a strand's first place.
    fn add(&mut self, who: StrandId) -> Result<(), AllocError>
        requires { places_of self.old who ≡ [] }
        ensures places { (s : StrandId) → places_of self.new s ≡ places_of self.old s }
        ensures done { OnOk result (0 < room_for self.new who) }
    {
        let mut own = IndexMap::new(self.alloc);
        own.reserve(1)?;
        match self.by_strand.insert(who, own) {
            Ok(_) => Ok(()),
            Err(_) => Err(AllocError),
        }
    }

    /// Puts a strand's place last.
    pub fn put(&mut self, who: StrandId, at: u32, number: u64)
        requires room { 0 < room_for self.old who }
        requires free { lookup (nat_eq at) (places_of self.old who) ≡ None }
        ensures { (s : StrandId) → places_of self.new s ≡ (if same_strand s who then places_of self.old s ++ (at, number) ∷ [] else places_of self.old s) }
    {
        if let Some(own) = self.by_strand.get_mut(&who) {
            put_last(own, at, number);
        }
    }

    /// The number at a strand's place.
    pub fn number(&self, who: StrandId, at: u32) -> Option<u64>
        ensures { result ≡ lookup (nat_eq at) (places_of self.now who) }
    {
        let own = self.by_strand.get(&who)?;
        let number = own.get(&at)?;
        Some(*number)
    }

    /// The first place of a strand.
    pub fn first(&self, who: StrandId) -> Option<u32>
        ensures { result ≡ option_map (λ p. p.0) (slice_get (places_of self.now who) 0) }
    {
        let own = self.by_strand.get(&who)?;
        let (at, _) = own.get_index(0)?;
        Some(*at)
    }

    /// Takes a strand's place out, and returns its number.
    pub fn take(&mut self, who: StrandId, at: u32) -> Option<u64>
        ensures number { result ≡ lookup (nat_eq at) (places_of self.old who) }
        ensures left { (s : StrandId) → places_of self.new s
            ≡ (if same_strand s who then remove_entry (nat_eq at) (places_of self.old s) else places_of self.old s) }
    {
        let own = self.by_strand.get_mut(&who)?;
        own.shift_remove(&at)
    }

    /// Gives up the room of a strand that has no place.
    pub fn forget(&mut self, who: StrandId)
        requires { places_of self.old who ≡ [] }
        ensures { (s : StrandId) → places_of self.new s ≡ places_of self.old s }
    {
        let _room = self.by_strand.swap_remove(&who);
    }
}

/// Puts a place last, where there is room.
fn put_last(own: &mut IndexMap<u32, u64>, at: u32, number: u64)
    requires room { 0 < spare own.old }
    requires free { lookup (nat_eq at) own.old.entries ≡ None }
    ensures { own.new.entries ≡ own.old.entries ++ (at, number) ∷ [] }
{
    let _was = own.insert(at, number);
}
