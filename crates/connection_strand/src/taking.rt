//! Turns of the run, and what a connection tells it.

ghost use Rattle.std.specs.Prelude.{◌≡◌, ◌++◌, [], None};
ghost use Rattle.connection_strand.specs.Acts.{is_question, kept_with, sockets_after, without_all};

use crate::state::{Connection, Progress, Turn, going, put};
use connection_plan::ServiceContract;
use run_contract::{RunAct, RunSeen, RunTurn};
use std::alloc::AllocError;
use strand_contract::{Act, Answer, Place};

/// Whether the act is a question, which ends a turn.
fn is_question<J>(act: &Act<J>) -> bool
    ensures { result ≡ is_question act.now }
{
    match act {
        Act::Dict(_, _)
        | Act::Take(_)
        | Act::Dial(_, _)
        | Act::Keep(_, _, _, _)
        | Act::Timer(_, _) => true,
        Act::Ready(_)
        | Act::Unready(_)
        | Act::Offer(_)
        | Act::Arm(_, _)
        | Act::Cancel(_)
        | Act::HangUp(_)
        | Act::Log(_)
        | Act::Gone => false,
    }
}

/// Takes the number out of these.
pub(crate) fn take_out(numbers: &mut Vec<u32>, number: u32)
    ensures { numbers.new.items ≡ without_all number numbers.old.items }
{
    numbers.retain(|n| *n != number);
}

impl<R: ServiceContract> Connection<R> {
    ghost use Rattle.std.specs.Prelude.{◌∷◌, ◌+◌, ◌*◌, not, true, IfOk, Ok, Some};
    ghost use Rattle.run_contract.specs.Calls as runs;
    ghost use Rattle.run_contract.specs.Calls.{size_of};
    ghost use Rattle.run_contract.specs.declared.turns.RunTurn.{RunTurn};
    ghost use Rattle.connection_strand.specs.Views.{view_of};
    ghost use Rattle.connection_strand.specs.Costs.{unit, Spends, Pays};
    ghost use Rattle.connection_strand.specs.Turns.{TakesTurn, TakesPart, Tells, Gives};

    /// Makes an act of the run its own. It reports whether the connection's turn goes on: a question ends it.
    fn take_act(
        &mut self,
        progress: &mut Progress<R::Job>,
        act: Act<R::Job>,
    ) -> Result<bool, AllocError>
        ensures goes_on { IfOk result (λ on. on ≡ not (is_question act)) }
        ensures acts { IfOk result (λ on. progress.new.acts.items ≡ progress.old.acts.items ++ act ∷ []) }
        ensures offered { progress.new.is_offered ≡ progress.old.is_offered }
        ensures sockets { self.new.sockets.items ≡ sockets_after act self.old.sockets.items }
        ensures keeping { self.new.keeping ≡ kept_with act self.old.keeping }
        ensures kept { self.new ≡ record self.old { sockets = self.new.sockets; keeping = self.new.keeping } }
    {
        let goes_on = !is_question(&act);
        match &act {
            Act::HangUp(Place::Sock(number)) => take_out(&mut self.sockets, *number),
            Act::Keep(number, _, _, _) => self.keeping = Some(*number),
            _ => {}
        }
        going(put(&mut progress.acts, act), goes_on)
    }

    /// Takes a part of the run's turn: an act, or a word, which is heard. It reports whether the connection's turn goes on.
    fn take_part(
        &mut self,
        turn: &Turn,
        site: &R::Site,
        progress: &mut Progress<R::Job>,
        part: RunAct<R::Job>,
    ) -> Result<bool, AllocError>
        ensures moves { let view = view_of (R.meaning site.now) (R.serving site.now) in IfOk result (λ on.
            TakesPart view turn.now.moment.0 on part self.old progress.old self.new progress.new) }
        ensures costs { IfOk result (λ on. Spends R.left R.bound unit self.old progress.old self.new progress.new) }
    {
        match part {
            RunAct::Act(act) => self.take_act(progress, act),
            RunAct::Say(word) => {
                let heard = self.hear_word(turn, site, progress, &word);
                drop(word);
                going(heard, true)
            }
        }
    }

    /// Takes the run's turn, part by part. It reports whether the connection's turn goes on: a question to the outside ends it.
    fn take_parts(
        &mut self,
        turn: &Turn,
        site: &R::Site,
        progress: &mut Progress<R::Job>,
        next: &mut RunTurn<R::Job>,
    ) -> Result<bool, AllocError>
        ensures moves { let view = view_of (R.meaning site.now) (R.serving site.now) in IfOk result (λ on.
            TakesTurn view turn.now.moment.0 on next.old self.old progress.old self.new progress.new) }
        ensures costs { IfOk result (λ on. Spends R.left R.bound (unit * size_of next.old) self.old progress.old self.new progress.new) }
    {
        self.waits.asks = next.asks;
        let mut goes_on = true;
        while let Some(part) = next.does.pop_front() {
            goes_on = self.take_part(turn, site, progress, part)?;
        }
        Ok(goes_on)
    }

    /// Takes the turn that the run took, where it had the memory for it.
    fn take_next(
        &mut self,
        turn: &Turn,
        site: &R::Site,
        progress: &mut Progress<R::Job>,
        next: Result<RunTurn<R::Job>, AllocError>,
    ) -> Result<bool, AllocError>
        ensures { let view = view_of (R.meaning site.now) (R.serving site.now) in IfOk result (λ on. (taken : RunTurn R.Job) × (next ≡ Ok taken)
            × TakesTurn view turn.now.moment.0 on taken self.old progress.old self.new progress.new
            × Spends R.left R.bound (unit * size_of taken) self.old progress.old self.new progress.new) }
    {
        match next {
            Ok(next) => {
                let mut next = next;
                self.take_parts(turn, site, progress, &mut next)
            }
            Err(error) => Err(error),
        }
    }

    /// Takes the run that begins, and its first turn, where there was the memory for them.
    pub(crate) fn take_run(
        &mut self,
        turn: &Turn,
        site: &R::Site,
        progress: &mut Progress<R::Job>,
        begun: Result<(R, RunTurn<R::Job>), AllocError>,
    ) -> Result<bool, AllocError>
        ensures { let view = view_of (R.meaning site.now) (R.serving site.now) in IfOk result (λ on.
            (run : R) × (first : RunTurn R.Job) × (begun ≡ Ok (run, first))
            × TakesTurn view turn.now.moment.0 on first (record self.old { run = Some run }) progress.old self.new progress.new
            × Spends R.left R.bound (unit * size_of first) (record self.old { run = Some run }) progress.old self.new progress.new) }
    {
        match begun {
            Ok((run, first)) => {
                self.run = Some(run);
                self.take_next(turn, site, progress, Ok(first))
            }
            Err(error) => Err(error),
        }
    }

    /// Tells the run this, and takes its turn.
    pub(crate) fn tell(
        &mut self,
        turn: &Turn,
        site: &R::Site,
        progress: &mut Progress<R::Job>,
        seen: RunSeen,
    ) -> Result<bool, AllocError>
        requires { (run : R) → self.old.run ≡ Some run
            → runs.MayBeTold (R.meaning site.now) turn.now.moment.0 seen run }
        ensures moves { let view = view_of (R.meaning site.now) (R.serving site.now) in IfOk result (λ on.
            Tells view turn.now.moment.0 seen on self.old progress.old self.new progress.new) }
        ensures costs { runs.is_own_turn seen ≡ true → (self.old.run ≡ None → ⊥) →
            IfOk result (λ on. Pays R.left R.bound unit self.old progress.old self.new progress.new) }
    {
        match &mut self.run {
            Some(run) => {
                self.waits = self.waits.told(&seen);
                let next = run.given(turn.alloc, site, turn.moment, seen);
                self.take_next(turn, site, progress, next)
            }
            None => {
                drop(seen);
                Ok(false)
            }
        }
    }

    /// Gives the run the answer to its question, and takes its turn.
    pub(crate) fn answered(
        &mut self,
        turn: &Turn,
        site: &R::Site,
        progress: &mut Progress<R::Job>,
        answer: Answer,
    ) -> Result<bool, AllocError>
        requires { (run : R) → self.old.run ≡ Some run
            → runs.MayBeAnswered (R.meaning site.now) answer run }
        ensures moves { let view = view_of (R.meaning site.now) (R.serving site.now) in IfOk result (λ on.
            Gives view turn.now.moment.0 answer on self.old progress.old self.new progress.new) }
        ensures costs { (self.old.run ≡ None → ⊥) → IfOk result (λ on. Pays R.left R.bound unit self.old progress.old self.new progress.new) }
    {
        match &mut self.run {
            Some(run) => {
                let next = run.answer(turn.alloc, site, turn.moment, answer);
                self.take_next(turn, site, progress, next)
            }
            None => {
                drop(answer);
                Ok(false)
            }
        }
    }
}
