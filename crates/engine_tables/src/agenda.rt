//! The deadlines of strands.

ghost use Rattle.std.specs.Prelude.{◌≡◌, ◌<◌, ◌∷◌, ◌++◌, [], Option, None, IsSome, option_map, OnOk, OnErr};
ghost use Rattle.executions.specs.Agenda.{OfStrand, without_one, without_those, is_number, is_of, least, whose};
ghost use Rattle.engine_tables.specs.Agenda.{agenda_of, first_moment, without_given};
ghost use Rattle.engine_tables.specs.Numbers.{number_at, count_at};
ghost use Rattle.engine_tables.specs.Kept.{IsKept, strand_of, without_due};
ghost use Rattle.wakes.specs.Times.{due_at};

use crate::numbers::Numbers;
use resty_base::{Ms, StrandId};
use std::alloc::{AllocError, Global};
use std::marker::Model;
use wakes::{Deadlines, Whose};

/// The deadlines of strands that are armed, each by its strand and the strand's own number for it, in the order of arming.
#[derive(Drop)]
pub struct Agenda {
    numbers: Numbers,
    deadlines: Deadlines,
}

impl Model for Agenda {
    ghost use Rattle.std.specs.Prelude.{List, ℕ};
    ghost use Rattle.executions.specs.Agenda.{Whose as Owner};
    ghost use Rattle.engine_tables.specs.Agenda.{agenda_of};
    ghost use Rattle.engine_tables.specs.Numbers.{number_at};
    ghost use Rattle.engine_tables.specs.Kept.{IsKept};

    ghost Value = { List (Owner × ℕ) };

    ghost view = { λ a. agenda_of a.deadlines.armed };

    ghost invariant = { λ a. IsKept (number_at a.numbers) a.deadlines };
}

impl Agenda {
    /// No deadline; takes no memory.
    pub fn new(alloc: Global) -> Agenda
        ensures { result ≡ [] }
    {
        Agenda {
            numbers: Numbers::new(alloc),
            deadlines: Deadlines::new(alloc),
        }
    }

    /// Arms a deadline of a strand; one that is armed already counts as armed now. Where it isn't armed, the old one isn't either.
    pub fn arm(&mut self, who: StrandId, k: u32, at: Ms) -> Result<(), AllocError>
        ensures done { OnOk result (self.new ≡ without_one (is_number who k) self.old ++ (OfStrand who k, at.0) ∷ []) }
        ensures refused { OnErr result (self.new ≡ without_one (is_number who k) self.old) }
    {
        cancel(&mut self.numbers, &mut self.deadlines, who, k);
        arm(&mut self.numbers, &mut self.deadlines, who, k, at)
    }

    /// Takes a deadline of a strand out, if it is armed.
    pub fn cancel(&mut self, who: StrandId, k: u32)
        ensures { self.new ≡ without_one (is_number who k) self.old }
    {
        cancel(&mut self.numbers, &mut self.deadlines, who, k);
    }

    /// Takes all deadlines of a strand out.
    pub fn end(&mut self, who: StrandId)
        ensures { self.new ≡ without_those (is_of who) self.old }
    {
        end(&mut self.numbers, &mut self.deadlines, who);
    }

    /// Takes the deadline out that comes first, if its moment is at or before `now`: the earliest, among equals the one that was armed first.
    pub fn due(&mut self, now: Ms) -> Option<(StrandId, u32)>
        ensures whose { option_map (λ d. OfStrand d.0 d.1) result ≡ whose (least now.0 self.old) }
        ensures left { self.new ≡ without_given result self.old }
    {
        due(&mut self.numbers, &mut self.deadlines, now)
    }

    /// The moment of the deadline that comes first.
    pub fn earliest(&self) -> Option<Ms>
        ensures { option_map (λ at. at.0) result ≡ first_moment self.now }
    {
        self.deadlines.earliest()
    }
}

/// Takes a deadline of a strand out, with its number.
fn cancel(numbers: &mut Numbers, deadlines: &mut Deadlines, who: StrandId, k: u32)
    requires { IsKept (number_at numbers.old) deadlines.old }
    ensures kept { IsKept (number_at numbers.new) deadlines.new }
    ensures left { agenda_of deadlines.new.armed ≡ without_one (is_number who k) (agenda_of deadlines.old.armed) }
    ensures gone { number_at numbers.new who k ≡ None }
    ensures fewer { IsSome (number_at numbers.old who k) → count_at numbers.new who < count_at numbers.old who }
{
    if let Some(number) = numbers.take(who, k) {
        deadlines.cancel(number);
    }
}

/// Arms a deadline of a strand that isn't armed.
fn arm(
    numbers: &mut Numbers,
    deadlines: &mut Deadlines,
    who: StrandId,
    k: u32,
    at: Ms,
) -> Result<(), AllocError>
    requires kept { IsKept (number_at numbers.old) deadlines.old }
    requires gone { number_at numbers.old who k ≡ None }
    ensures kept { IsKept (number_at numbers.new) deadlines.new }
    ensures done { OnOk result (agenda_of deadlines.new.armed ≡ agenda_of deadlines.old.armed ++ (OfStrand who k, at.0) ∷ []) }
    ensures refused { OnErr result (agenda_of deadlines.new.armed ≡ agenda_of deadlines.old.armed) }
{
    if !deadlines.has_number() {
        return Err(AllocError);
    }
    let number = deadlines.arm(at, Whose::Strand(who, k))?;
    let Ok(()) = numbers.put(who, k, number) else {
        deadlines.cancel(number);
        return Err(AllocError);
    };
    Ok(())
}

/// Takes all deadlines of a strand out.
fn end(numbers: &mut Numbers, deadlines: &mut Deadlines, who: StrandId)
    requires { IsKept (number_at numbers.old) deadlines.old }
    ensures kept { IsKept (number_at numbers.new) deadlines.new }
    ensures left { agenda_of deadlines.new.armed ≡ without_those (is_of who) (agenda_of deadlines.old.armed) }
{
    while let Some(k) = numbers.first_of(who) {
        cancel(numbers, deadlines, who, k);
    }
}

/// Takes the deadline out that comes first, if its moment is at or before `now`.
fn due(numbers: &mut Numbers, deadlines: &mut Deadlines, now: Ms) -> Option<(StrandId, u32)>
    requires { IsKept (number_at numbers.old) deadlines.old }
    ensures kept { IsKept (number_at numbers.new) deadlines.new }
    ensures whose { option_map (λ d. OfStrand d.0 d.1) result ≡ whose (least now.0 (agenda_of deadlines.old.armed)) }
    ensures left { agenda_of deadlines.new.armed ≡ without_given result (agenda_of deadlines.old.armed) }
{
    let due = due_strand(deadlines, now)?;
    let _number = numbers.take(due.0, due.1);
    Some(due)
}

/// Takes the deadline out that comes first, if its moment is at or before `now`, and returns whose it is.
fn due_strand(deadlines: &mut Deadlines, now: Ms) -> Option<(StrandId, u32)>
    ensures strand { result ≡ strand_of (due_at now.0 deadlines.old.armed) }
    ensures left { deadlines.new ≡ without_due now.0 deadlines.old }
{
    match deadlines.due(now)? {
        Whose::Strand(who, k) => Some((who, k)),
        _ => None,
    }
}
