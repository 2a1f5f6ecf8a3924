//! After a turn's own moves: the run is told what it waits for, and the next requests begin.

use crate::client::{Stage, Timer};
use crate::state::{Connection, Progress, Turn, going};
use connection_plan::ServiceContract;
use run_contract::{Asking, RunSeen};
use std::alloc::AllocError;

impl<R: ServiceContract> Connection<R> {
    ghost use Rattle.std.specs.Prelude.{◌≡◌, true, is_some, IfOk, Some, None};
    ghost use Rattle.strand_plans.specs.Moves.{Look};
    ghost use Rattle.run_contract.specs.declared.turns.Asking.TheVariants as asking;
    ghost use Rattle.run_contract.specs.Conditions.{MayHear, asks_body};
    ghost use Rattle.connection_plan.specs.Turns.{waiting, answer_asked, answer_body, ask_body, tell_body, flush, settle};
    ghost use Rattle.connection_plan.specs.Clients as stage;
    ghost use Rattle.connection_strand.specs.Views.{view_of, service};
    ghost use Rattle.connection_strand.specs.Costs.{unit, Pays, Costs, Settles};
    ghost use Rattle.connection_strand.specs.Kept.{Kept, seen_of_body, waits_of};
    ghost use Rattle.connection_strand.specs.Standing.{Ends, GoesOn, Hears, Steps, IsAt, IsWithin};
    ghost use Rattle.connection_strand.specs.Turns.{SettlesOn};

    /// The run is told this of the body that it asks or waits for.
    fn tell_body(
        &mut self,
        turn: &Turn,
        site: &R::Site,
        progress: &mut Progress<R::Job>,
        seen: RunSeen,
    ) -> Result<bool, AllocError>
        requires within { let view = view_of (R.meaning site.now) (R.serving site.now) in IsAt view stage.Busy self.old progress.old }
        requires body { let w = waits_of self.old.waits in MayHear (asks_body w.asks) w.body w.asks }
        requires seen { (client : Kept) × (seen_of_body client ≡ Some seen) }
        ensures moves { let view = view_of (R.meaning site.now) (R.serving site.now) in IfOk result (λ on. GoesOn view stage.Busy on
            (λ again. tell_body (service view) turn.now.moment.0 again (Some seen)) self.old progress.old self.new progress.new) }
        ensures costs { IfOk result (λ on. Pays R.left R.bound unit self.old progress.old self.new progress.new) }
    {
        match self.end_timer(site, progress, Timer::Body) {
            Ok(()) => self.tell(turn, site, progress, seen),
            Err(error) => {
                drop(seen);
                Err(error)
            }
        }
    }

    /// The run that waits for the body gets it, or its refusal, unless more may come.
    fn ask_body(
        &mut self,
        turn: &Turn,
        site: &R::Site,
        progress: &mut Progress<R::Job>,
    ) -> Result<bool, AllocError>
        requires within { let view = view_of (R.meaning site.now) (R.serving site.now) in IsAt view stage.Busy self.old progress.old }
        requires body { self.old.waits.body ≡ true }
        requires unasked { self.old.waits.asks ≡ None }
        ensures moves { let view = view_of (R.meaning site.now) (R.serving site.now) in IfOk result (λ on. GoesOn view stage.Busy on
            (λ again. Look (λ b s. ask_body (service view) turn.now.moment.0 again b s.client)) self.old progress.old self.new progress.new) }
        ensures costs { IfOk result (λ on. Settles R.left R.bound on self.old progress.old self.new progress.new) }
    {
        match self.client.body_seen(turn.alloc)? {
            Some(seen) => self.tell_body(turn, site, progress, seen),
            None => Ok(false),
        }
    }

    /// The run is told that the body that it asks for isn't there yet; more of it is waited for.
    fn put_off_body(
        &mut self,
        turn: &Turn,
        site: &R::Site,
        progress: &mut Progress<R::Job>,
    ) -> Result<bool, AllocError>
        requires within { let view = view_of (R.meaning site.now) (R.serving site.now) in IsAt view stage.Busy self.old progress.old }
        requires asks { is_some self.old.waits.asks ≡ true }
        ensures moves { let view = view_of (R.meaning site.now) (R.serving site.now) in IfOk result (λ on. GoesOn view stage.Busy on
            (λ again. answer_body (service view) turn.now.moment.0 again None) self.old progress.old self.new progress.new) }
        ensures costs { IfOk result (λ on. Settles R.left R.bound on self.old progress.old self.new progress.new) }
    {
        match self.wait_more(turn, site, progress) {
            Ok(()) => self.tell(turn, site, progress, RunSeen::NotYet),
            Err(error) => Err(error),
        }
    }

    /// The run that asks for the body is answered.
    fn answer_body(
        &mut self,
        turn: &Turn,
        site: &R::Site,
        progress: &mut Progress<R::Job>,
        max: u64,
    ) -> Result<bool, AllocError>
        requires within { let view = view_of (R.meaning site.now) (R.serving site.now) in IsAt view stage.Busy self.old progress.old }
        requires asks { self.old.waits.asks ≡ Some (asking.Body max) }
        ensures moves { let view = view_of (R.meaning site.now) (R.serving site.now) in IfOk result (λ on. GoesOn view stage.Busy on
            (λ again. Look (λ b s. answer_asked (service view) turn.now.moment.0 again b s.client (asking.Body max)))
            self.old progress.old self.new progress.new) }
        ensures costs { IfOk result (λ on. Settles R.left R.bound on self.old progress.old self.new progress.new) }
    {
        self.client.limit = max;
        match self.client.body_seen(turn.alloc)? {
            Some(seen) => self.tell_body(turn, site, progress, seen),
            None => self.put_off_body(turn, site, progress),
        }
    }

    /// The run that waits is told what is there; a client that took the last reply is hung up.
    fn waiting(
        &mut self,
        turn: &Turn,
        site: &R::Site,
        progress: &mut Progress<R::Job>,
    ) -> Result<bool, AllocError>
        requires within { let view = view_of (R.meaning site.now) (R.serving site.now) in IsAt view stage.Busy self.old progress.old }
        requires unasked { self.old.waits.asks ≡ None }
        ensures moves { let view = view_of (R.meaning site.now) (R.serving site.now) in IfOk result (λ on. GoesOn view stage.Busy on
            (λ again. Look (λ b s. waiting (service view) turn.now.moment.0 again b s)) self.old progress.old self.new progress.new) }
        ensures costs { IfOk result (λ on. Settles R.left R.bound on self.old progress.old self.new progress.new) }
    {
        if self.client.is_all_taken() && self.waits.taken {
            return self.tell(turn, site, progress, RunSeen::AllTaken);
        }
        if self.client.is_to_close() {
            return going(self.lose(turn, site, progress), false);
        }
        if self.waits.body {
            return self.ask_body(turn, site, progress);
        }
        Ok(false)
    }

    /// The run is over: once all is taken the connection closes, or goes on with the next request.
    fn flush(
        &mut self,
        turn: &Turn,
        site: &R::Site,
        progress: &mut Progress<R::Job>,
    ) -> Result<bool, AllocError>
        ensures moves { let view = view_of (R.meaning site.now) (R.serving site.now) in IfOk result (λ on. Hears view on
            (λ again. Look (λ b s. flush (service view) turn.now.moment.0 again b s.client)) self.old progress.old self.new progress.new) }
        ensures costs { IfOk result (λ on. Settles R.left R.bound on self.old progress.old self.new progress.new) }
    {
        if !self.client.is_all_taken() {
            return Ok(false);
        }
        if !self.client.is_open || self.client.reply.closes_after() {
            return going(self.finish(site, progress), false);
        }
        self.next(turn, site, progress)
    }

    /// Settles one thing, and reports whether there may be more: a run that goes on is answered what it asks, or told what it waits for.
    fn settle_once(
        &mut self,
        turn: &Turn,
        site: &R::Site,
        progress: &mut Progress<R::Job>,
    ) -> Result<bool, AllocError>
        requires { let view = view_of (R.meaning site.now) (R.serving site.now) in IsWithin view self.old progress.old }
        ensures moves { let view = view_of (R.meaning site.now) (R.serving site.now) in IfOk result (λ on. Steps view on
            (settle (service view) turn.now.moment.0) self.old progress.old self.new progress.new) }
        ensures costs { IfOk result (λ on. Settles R.left R.bound on self.old progress.old self.new progress.new) }
    {
        match self.client.stage {
            Stage::Busy => match self.waits.asks {
                Some(asking) => match asking {
                    Asking::Body(max) => self.answer_body(turn, site, progress, max),
                    Asking::AllTaken => {
                        let seen = self.client.taken_seen();
                        self.tell(turn, site, progress, seen)
                    }
                },
                None => self.waiting(turn, site, progress),
            },
            Stage::Flush => self.flush(turn, site, progress),
            Stage::Idle | Stage::Head | Stage::Drop | Stage::Over => Ok(false),
        }
    }

    /// Settles all that is there.
    pub(crate) fn settle_all(
        &mut self,
        turn: &Turn,
        site: &R::Site,
        progress: &mut Progress<R::Job>,
    ) -> Result<(), AllocError>
        requires { let view = view_of (R.meaning site.now) (R.serving site.now) in IsWithin view self.old progress.old }
        ensures moves { let view = view_of (R.meaning site.now) (R.serving site.now) in IfOk result (λ done. Ends view
            (settle (service view) turn.now.moment.0) self.old progress.old self.new progress.new) }
        ensures costs { IfOk result (λ done. Costs R.left R.bound 5 self.old progress.old self.new progress.new) }
    {
        let mut goes_on = true;
        while goes_on {
            goes_on = self.settle_once(turn, site, progress)?;
        }
        Ok(())
    }

    /// Settles all that is there, where the turn went on so far.
    pub(crate) fn settle_on(
        &mut self,
        turn: &Turn,
        site: &R::Site,
        progress: &mut Progress<R::Job>,
        went: Result<bool, AllocError>,
    ) -> Result<(), AllocError>
        requires { let view = view_of (R.meaning site.now) (R.serving site.now) in IfOk went (λ on. on ≡ true → IsWithin view self.old progress.old) }
        ensures moves { let view = view_of (R.meaning site.now) (R.serving site.now) in IfOk result (λ done.
            SettlesOn view turn.now.moment.0 went self.old progress.old self.new progress.new) }
        ensures costs { IfOk result (λ done. Costs R.left R.bound 5 self.old progress.old self.new progress.new) }
    {
        match went {
            Ok(goes_on) => {
                if goes_on {
                    self.settle_all(turn, site, progress)
                } else {
                    Ok(())
                }
            }
            Err(error) => Err(error),
        }
    }
}
