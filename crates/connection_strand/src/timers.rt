//! Timers of a connection begin and end.

use crate::client::{Timer, later};
use crate::state::{Connection, Progress, Turn, put, put_if};
use connection_plan::ServiceContract;
use std::alloc::AllocError;
use strand_contract::Act;

impl<R: ServiceContract> Connection<R> {
    ghost use Rattle.std.specs.Prelude.{◌≡◌, IfOk};
    ghost use Rattle.connection_plan.specs.Turns.{begin_timer, end_timer};
    ghost use Rattle.connection_strand.specs.Kept.{timer_of};
    ghost use Rattle.connection_strand.specs.Views.{view_of, service};
    ghost use Rattle.connection_strand.specs.Costs.{Spends};
    ghost use Rattle.connection_strand.specs.Standing.{Goes};

    /// A timer begins, also anew.
    pub(crate) fn begin_timer(
        &mut self,
        turn: &Turn,
        site: &R::Site,
        progress: &mut Progress<R::Job>,
        timer: Timer,
    ) -> Result<(), AllocError>
        ensures moves { let view = view_of (R.meaning site.now) (R.serving site.now) in IfOk result (λ done. Goes view
            (begin_timer (service view) turn.now.moment.0 (timer_of timer)) self.old progress.old self.new progress.new) }
        ensures waits { self.new.waits ≡ self.old.waits }
        ensures costs { IfOk result (λ done. Spends R.left R.bound 5 self.old progress.old self.new progress.new) }
    {
        let time = timer.time(R::default_times(site), self.client.times);
        self.client.set_armed(timer, true);
        put(
            &mut progress.acts,
            Act::Arm(timer.number(), later(turn.moment, time)),
        )
    }

    /// What it waited for is there.
    pub(crate) fn end_timer(
        &mut self,
        _site: &R::Site,
        progress: &mut Progress<R::Job>,
        timer: Timer,
    ) -> Result<(), AllocError>
        ensures moves { let view = view_of (R.meaning _site.now) (R.serving _site.now) in IfOk result (λ done. Goes view
            (end_timer (service view) 0 (timer_of timer)) self.old progress.old self.new progress.new) }
        ensures waits { self.new.waits ≡ self.old.waits }
        ensures count { self.new.count ≡ self.old.count }
        ensures reply { self.new.client.reply ≡ self.old.client.reply }
        ensures costs { IfOk result (λ done. Spends R.left R.bound 0 self.old progress.old self.new progress.new) }
    {
        let is_armed = self.client.is_armed(timer);
        self.client.set_armed(timer, false);
        put_if(is_armed, &mut progress.acts, Act::Cancel(timer.number()))
    }
}
