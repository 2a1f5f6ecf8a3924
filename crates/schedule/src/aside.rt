//! The strands for which room is set aside.

ghost use Rattle.std.specs.Prelude.{◌≡◌, ◌+◌, ◌*◌, ◌<◌, ◌≤◌, [], length, true, false, OnOk, if◌then◌else◌};
ghost use Rattle.resty_base.specs.declared.names.StrandId.{StrandId as Strand};
ghost use Rattle.resty_world.specs.Calls.{uses_aside, room_of};
ghost use Rattle.resty_world.specs.Ids.{same_strand};
ghost use Rattle.schedule.specs.Aside.{is_aside, HasAside, IsNoted};

use indexmap::IndexSet;
use resty_base::StrandId;
use resty_world::{Entry, TimerAnswer};
use std::alloc::{AllocError, Global};
use std::marker::Model;

/// The strands for each of which a history has room for one later entry.
#[derive(Drop)]
pub struct Aside {
    strands: IndexSet<StrandId>,
}

impl Model for Aside {
    ghost use Rattle.indexmap.specs.IndexSet.{spare};
    ghost use Rattle.schedule.specs.Aside.{Aside as StrandsAside};

    ghost Value = { StrandsAside };

    ghost view = { λ aside. record { strands = aside.strands.keys; free = spare aside.strands } };
}

impl Aside {
    /// None; takes no memory.
    pub fn new(alloc: Global) -> Aside
        ensures { result.strands ≡ [] }
    {
        Aside {
            strands: IndexSet::new(alloc),
        }
    }

    /// How many strands there are.
    pub fn len(&self) -> usize
        ensures { result ≡ length self.now.strands }
    {
        self.strands.len()
    }

    /// Makes way for so many strands more.
    pub fn reserve(&mut self, more: usize) -> Result<(), AllocError>
        ensures strands { self.new.strands ≡ self.old.strands }
        ensures free { self.old.free ≤ self.new.free }
        ensures ok { OnOk result (more ≤ self.new.free) }
    {
        self.strands.reserve(more)
    }

    /// Adds a strand, which needs no memory.
    pub fn add(&mut self, strand: StrandId)
        requires { 0 < self.old.free }
        ensures aside { (s : Strand) → is_aside self.new s ≡ (if same_strand s strand then true else is_aside self.old s) }
        ensures count { length self.new.strands ≤ length self.old.strands + 1 }
        ensures free { self.old.free ≤ self.new.free + 1 }
    {
        let Ok(_) = self.strands.insert(strand) else {
            unreachable!()
        };
    }

    /// Takes a strand out, if it is there.
    pub fn remove(&mut self, strand: StrandId)
        ensures aside { (s : Strand) → is_aside self.new s ≡ (if same_strand s strand then false else is_aside self.old s) }
        ensures count { length self.new.strands + (if is_aside self.old strand then 1 else 0) ≡ length self.old.strands }
        ensures free { self.old.free ≤ self.new.free }
    {
        self.strands.swap_remove(&strand);
    }

    /// Adds the strand for which an entry sets room aside, and takes out the one whose room it uses.
    pub fn note(&mut self, entry: &Entry)
        requires free { room_of (uses_aside entry.now) ≤ self.old.free }
        requires aside { HasAside self.old (uses_aside entry.now) }
        ensures noted { IsNoted entry.now self.old self.new }
        ensures count { length self.new.strands + 1 ≤ length self.old.strands + 2 * room_of (uses_aside entry.now) }
        ensures free { self.old.free ≤ self.new.free + room_of (uses_aside entry.now) }
    {
        match entry {
            Entry::Timer(_, _, TimerAnswer::Job(number)) => self.add(StrandId::Job(*number)),
            Entry::Turned(number) => self.remove(StrandId::Conn(*number)),
            Entry::Dropped(strand) => self.remove(*strand),
            _ => {}
        }
    }
}
