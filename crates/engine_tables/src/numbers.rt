//! The numbers of the deadlines of strands.

ghost use Rattle.std.specs.Prelude.{◌≡◌, ◌<◌, ℕ, nat_eq, Some, None, Option, OnOk, OnErr, IfSome, IfNone, IsSome, if◌then◌else◌};
ghost use Rattle.indexmap.specs.IndexMap.{get};
ghost use Rattle.resty_base.specs.declared.names.StrandId.{StrandId};
ghost use Rattle.engine_tables.specs.Numbers.{number_at, count_at, changed};

use indexmap::IndexMap;
use resty_base::StrandId;
use std::alloc::{AllocError, Global};

/// The numbers of the deadlines that are armed, by strand and by the strand's own number.
#[derive(Drop)]
pub struct Numbers {
    alloc: Global,
    by_strand: IndexMap<StrandId, IndexMap<u32, u64>>,
}

impl Numbers {
    /// No number; takes no memory.
    pub fn new(alloc: Global) -> Numbers
        ensures { (s : StrandId) (j : ℕ) → number_at result s j ≡ None }
    {
        Numbers {
            alloc,
            by_strand: IndexMap::new(alloc),
        }
    }

    /// Puts the number of a strand's deadline.
    pub fn put(&mut self, who: StrandId, k: u32, number: u64) -> Result<(), AllocError>
        ensures done { OnOk result ((s : StrandId) (j : ℕ) → number_at self.new s j ≡ changed who k (Some number) (number_at self.old) s j) }
        ensures kept { OnErr result ((s : StrandId) (j : ℕ) → number_at self.new s j ≡ number_at self.old s j) }
    {
        if let Some(own) = self.by_strand.get_mut(&who) {
            return match put_own(own, k, number) {
                Ok(()) => Ok(()),
                Err(err) => Err(err),
            };
        }
        self.add(who, k, number)
    }

    /// Puts the number of a strand's only deadline.
    fn add(&mut self, who: StrandId, k: u32, number: u64) -> Result<(), AllocError>
        requires { (j : ℕ) → number_at self.old who j ≡ None }
        ensures done { OnOk result ((s : StrandId) (j : ℕ) → number_at self.new s j ≡ changed who k (Some number) (number_at self.old) s j) }
        ensures kept { OnErr result ((s : StrandId) (j : ℕ) → number_at self.new s j ≡ number_at self.old s j) }
    {
        let mut own = IndexMap::new(self.alloc);
        put_own(&mut own, k, number)?;
        match self.by_strand.insert(who, own) {
            Ok(_) => Ok(()),
            Err(_) => Err(AllocError),
        }
    }

    /// Takes the number of a strand's deadline out.
    pub fn take(&mut self, who: StrandId, k: u32) -> Option<u64>
        ensures number { result ≡ number_at self.old who k }
        ensures left { (s : StrandId) (j : ℕ) → number_at self.new s j ≡ changed who k None (number_at self.old) s j }
        ensures fewer { IfSome result (λ n. count_at self.new who < count_at self.old who) }
    {
        let Some(own) = self.by_strand.get_mut(&who) else {
            return None;
        };
        let number = own.swap_remove(&k);
        if own.len() == 0 {
            let _empty = self.by_strand.swap_remove(&who);
        }
        number
    }

    /// The strand's own number for one of its deadlines.
    pub fn first_of(&self, who: StrandId) -> Option<u32>
        ensures some { IfSome result (λ k. IsSome (number_at self.now who k)) }
        ensures none { IfNone result ((k : ℕ) → number_at self.now who k ≡ None) }
    {
        let own = self.by_strand.get(&who)?;
        let (k, _) = own.get_index(0)?;
        Some(*k)
    }
}

/// Puts the number of a deadline by its strand's own number.
fn put_own(own: &mut IndexMap<u32, u64>, k: u32, number: u64) -> Result<(), AllocError>
    ensures done { OnOk result ((j : ℕ) → get nat_eq own.new j ≡ (if nat_eq k j then Some number else get nat_eq own.old j)) }
    ensures kept { OnErr result ((j : ℕ) → get nat_eq own.new j ≡ get nat_eq own.old j) }
{
    match own.insert(k, number) {
        Ok(_) => Ok(()),
        Err(_) => Err(AllocError),
    }
}
