//! Deadlines.

ghost use Rattle.std.specs.Prelude.{◌≡◌, ℕ, ◌+◌, ◌<◌, ◌^◌, ◌-◌, [], nat_lt, nat_eq, OnOk, IfOk, OnErr, Option, option_map, IfSome};
ghost use Rattle.std.specs.Map.{remove_entry};
ghost use Rattle.wakes.specs.Times.{DeadlinesView, armed_with, due_at, without_any, soonest};

use resty_base::{Ms, StrandId};
use std::alloc::{AllocError, Global};
use std::collections::{BTreeMap, BTreeSet};
use std::marker::Model;

/// Whose a deadline is: a strand's, by the strand's number for it; the start of a job; the end of an idle socket's time.
#[derive(Clone, Copy, Debug, PartialEq, Eq)]
pub enum Whose {
    Strand(StrandId, u32),
    Job(u64),
    Idle(u64),
}

/// A deadline that is armed: its moment, and whose it is.
#[derive(Clone, Copy, Debug, PartialEq, Eq)]
pub struct Armed {
    pub at: Ms,
    pub whose: Whose,
}

/// The deadlines that are armed. Each has a number, and numbers rise from 1 on.
#[derive(Drop)]
pub struct Deadlines {
    by_number: BTreeMap<u64, Armed>,
    by_moment: BTreeSet<(u64, u64)>,
    last: u64,
}

impl Model for Deadlines {
    ghost use Rattle.wakes.specs.Times.{DeadlinesView};
    ghost use Rattle.wakes.specs.Kept.{IsIndexed};

    ghost Value = { DeadlinesView };

    ghost view = { λ d. record { armed = d.by_number.entries; last = d.last } };

    ghost invariant = { λ d. IsIndexed d.by_number d.by_moment d.last };
}

impl Deadlines {
    /// No deadline; takes no memory.
    pub fn new(alloc: Global) -> Deadlines
        ensures { result ≡ record { armed = []; last = 0 } }
    {
        Deadlines {
            by_number: BTreeMap::new(alloc),
            by_moment: BTreeSet::new(alloc),
            last: 0,
        }
    }

    /// Whether there is a number for one more.
    pub fn has_number(&self) -> bool
        ensures { result ≡ nat_lt self.now.last (2 ^ 64 - 1) }
    {
        self.last < u64::MAX
    }

    /// Arms a deadline, and returns its number.
    pub fn arm(&mut self, at: Ms, whose: Whose) -> Result<u64, AllocError>
        requires { self.old.last < 2 ^ 64 - 1 }
        ensures number { IfOk result (λ n. n ≡ self.old.last + 1) }
        ensures done { OnOk result (self.new ≡ armed_with self.old at whose) }
        ensures kept { OnErr result (self.new ≡ self.old) }
    {
        let number = self.last + 1;
        self.by_moment.insert((at.0, number))?;
        let Ok(_) = self.by_number.insert(number, Armed { at, whose }) else {
            let _was_there = self.by_moment.remove(&(at.0, number));
            return Err(AllocError);
        };
        self.last = number;
        Ok(number)
    }

    /// Takes the deadline of this number out, where it is armed.
    pub fn cancel(&mut self, number: u64)
        ensures { self.new ≡ record self.old { armed = remove_entry (nat_eq number) self.old.armed } }
    {
        if let Some(armed) = self.by_number.remove(&number) {
            let _was_there = self.by_moment.remove(&(armed.at.0, number));
        }
    }

    /// Takes out the deadline that comes first, where its moment is at or before `now`, and returns whose it is.
    pub fn due(&mut self, now: Ms) -> Option<Whose>
        ensures whose { result ≡ option_map (λ d. d.1.whose) (due_at now.0 self.old.armed) }
        ensures left { self.new ≡ record self.old { armed = without_any (due_at now.0 self.old.armed) self.old.armed } }
    {
        let (number, armed) = self.first()?;
        if now.0 < armed.at.0 {
            return None;
        }
        self.cancel(number);
        Some(armed.whose)
    }

    /// The moment of the deadline that comes first.
    pub fn earliest(&self) -> Option<Ms>
        ensures { result ≡ option_map (λ d. d.1.at) (soonest self.now.armed) }
    {
        let (_, armed) = self.first()?;
        Some(armed.at)
    }

    /// The deadline that comes first, with its number.
    fn first(&self) -> Option<(u64, Armed)>
        ensures { result ≡ soonest self.now.armed }
    {
        let Some(&(_, number)) = self.by_moment.first() else {
            return None;
        };
        let Some(armed) = self.by_number.get(&number) else {
            return None;
        };
        Some((number, *armed))
    }
}
