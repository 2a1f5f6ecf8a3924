//! How the connections, the sockets and the strands of a world stand.

ghost use Rattle.std.specs.Prelude.{◌≡◌, ◌≢◌, ◌<◌, [], None, OnOk, if◌then◌else◌, true, false, nat_eq};
ghost use Rattle.resty_base.specs.declared.names.Id.{Id as Name};
ghost use Rattle.resty_world.specs.Ids.{same_id};
ghost use Rattle.live_world.specs.Standings.{nothing, kept_at, standing_at, has_job};

use indexmap::{IndexMap, IndexSet};
use resty_base::Id;
use std::alloc::{AllocError, Global};
use std::marker::Model;

/// How a connection or a socket stands.
#[derive(Clone, Copy)]
pub struct Standing {
    pub is_open: bool,
    /// No bytes of it come any more.
    pub has_ended: bool,
    /// Room is set aside for its strand.
    pub is_aside: bool,
}

/// How the connections and the sockets stand, and the jobs for which room is set aside. What isn't there stands nowhere.
#[derive(Drop)]
pub struct Standings {
    ids: IndexMap<Id, Standing>,
    jobs: IndexSet<u64>,
}

impl Model for Standings {
    ghost use Rattle.indexmap.specs.IndexMap.{spare};
    ghost use Rattle.indexmap.specs.IndexSet.{spare as set_spare};
    ghost use Rattle.live_world.specs.Kept.{Kept};

    ghost Value = { Kept };

    ghost view = { λ s. record { ids = s.ids.entries; jobs = s.jobs.keys; id_room = spare s.ids; job_room = set_spare s.jobs } };
}

/// How stands what isn't there.
pub const NOWHERE: Standing = Standing {
    is_open: false,
    has_ended: false,
    is_aside: false,
};

impl Standings {
    ghost use Rattle.std.specs.Prelude.{ℕ, ◌≤◌, ◌+◌};

    /// None; takes no memory.
    pub fn new(alloc: Global) -> Standings
        ensures ids { result.ids ≡ [] }
        ensures jobs { result.jobs ≡ [] }
    {
        Standings {
            ids: IndexMap::new(alloc),
            jobs: IndexSet::new(alloc),
        }
    }

    /// Makes room for a connection or a socket more.
    pub fn reserve_id(&mut self) -> Result<(), AllocError>
        ensures ids { self.new.ids ≡ self.old.ids }
        ensures jobs { self.new.jobs ≡ self.old.jobs }
        ensures job_room { self.new.job_room ≡ self.old.job_room }
        ensures ok { OnOk result (0 < self.new.id_room) }
    {
        self.ids.reserve(1)
    }

    /// Makes room for a job more.
    pub fn reserve_job(&mut self) -> Result<(), AllocError>
        ensures ids { self.new.ids ≡ self.old.ids }
        ensures jobs { self.new.jobs ≡ self.old.jobs }
        ensures ok { OnOk result (0 < self.new.job_room) }
    {
        self.jobs.reserve(1)
    }

    /// How the id stands.
    pub fn at(&self, id: Id) -> Standing
        ensures { result ≡ standing_at self.now.ids id }
    {
        match self.ids.get(&id) {
            Some(standing) => *standing,
            None => NOWHERE,
        }
    }

    /// Lets a new id stand so, which needs no memory.
    pub fn add(&mut self, id: Id, standing: Standing)
        requires { 0 < self.old.id_room }
        ensures ids { (x : Name) → standing_at self.new.ids x ≡ (if same_id x id then standing else standing_at self.old.ids x) }
        ensures jobs { self.new.jobs ≡ self.old.jobs }
        ensures job_room { self.new.job_room ≡ self.old.job_room }
    {
        let Ok(_) = self.ids.insert(id, standing) else {
            unreachable!()
        };
    }

    /// Lets an id that is there stand so, which needs no memory.
    pub fn change(&mut self, id: Id, standing: Standing)
        requires { kept_at self.old.ids id ≢ None }
        ensures ids { (x : Name) → standing_at self.new.ids x ≡ (if same_id x id then standing else standing_at self.old.ids x) }
        ensures jobs { self.new.jobs ≡ self.old.jobs }
        ensures job_room { self.new.job_room ≡ self.old.job_room }
    {
        let Ok(_) = self.ids.insert(id, standing) else {
            unreachable!()
        };
    }

    /// Takes an id out, if it is there.
    pub fn remove(&mut self, id: Id)
        ensures ids { (x : Name) → standing_at self.new.ids x ≡ (if same_id x id then nothing else standing_at self.old.ids x) }
        ensures jobs { self.new.jobs ≡ self.old.jobs }
        ensures job_room { self.new.job_room ≡ self.old.job_room }
    {
        self.ids.swap_remove(&id);
    }

    /// Sets room aside for a job, which needs no memory.
    pub fn add_job(&mut self, number: u64)
        requires { 0 < self.old.job_room }
        ensures ids { self.new.ids ≡ self.old.ids }
        ensures jobs { (n : ℕ) → has_job self.new.jobs n ≡ (if nat_eq n number then true else has_job self.old.jobs n) }
        ensures job_room { self.old.job_room ≤ self.new.job_room + 1 }
    {
        let Ok(_) = self.jobs.insert(number) else {
            unreachable!()
        };
    }

    /// Gives up the room of a job, if there is some.
    pub fn remove_job(&mut self, number: u64)
        ensures ids { self.new.ids ≡ self.old.ids }
        ensures jobs { (n : ℕ) → has_job self.new.jobs n ≡ (if nat_eq n number then false else has_job self.old.jobs n) }
        ensures job_room { self.old.job_room ≤ self.new.job_room }
    {
        self.jobs.swap_remove(&number);
    }
}
