//! What a run says, and what the connection does then.

ghost use Rattle.std.specs.Prelude.{◌≡◌};
ghost use Rattle.connection_plan.specs.Turns.{continue_reply};

use crate::client::{Reply, Stage, Timer};
use crate::state::{Connection, Progress, Turn, both};
use connection_plan::ServiceContract;
use resty_base::Bytes;
use run_contract::Said;
use std::alloc::AllocError;

/// The reply that lets a client send the body (RFC 9110, 15.2.1).
fn continue_reply() -> Bytes
    ensures { result ≡ continue_reply }
{
    Bytes::from_static(b"HTTP/1.1 100 Continue\r\n\r\n")
}

impl<R: ServiceContract> Connection<R> {
    ghost use Rattle.std.specs.Prelude.{IfOk, ◌≡◌};
    ghost use Rattle.run_contract.specs.declared.turns.Said.TheVariants as said;
    ghost use Rattle.strand_plans.specs.Moves.{Look};
    ghost use Rattle.connection_plan.specs.Clients as stage;
    ghost use Rattle.connection_plan.specs.Turns.{let_send, wait_more, await_body};
    ghost use Rattle.connection_strand.specs.Views.{view_of, service};
    ghost use Rattle.connection_strand.specs.Costs.{unit, Spends};
    ghost use Rattle.connection_strand.specs.Standing.{Goes, GoesAt};
    ghost use Rattle.connection_strand.specs.Turns.{HearsWord};

    /// While nothing of the reply was sent, the first wait for more of a body lets the client send it.
    pub(crate) fn let_send(
        &mut self,
        site: &R::Site,
        progress: &mut Progress<R::Job>,
    ) -> Result<(), AllocError>
        ensures moves { let view = view_of (R.meaning site.now) (R.serving site.now) in IfOk result (λ done. Goes view
            (λ m. Look (λ b s. let_send (service view) 0 s.client s.client.reply m)) self.old progress.old self.new progress.new) }
        ensures waits { self.new.waits ≡ self.old.waits }
        ensures costs { IfOk result (λ done. Spends R.left R.bound 401 self.old progress.old self.new progress.new) }
    {
        match self.client.reply {
            Reply::Unsent => {
                if self.client.waited {
                    return Ok(());
                }
                self.client.waited = true;
                if self.client.expects {
                    let reply = continue_reply();
                    let sent = self.send(site, progress, &reply);
                    drop(reply);
                    sent
                } else {
                    Ok(())
                }
            }
            Reply::Begun | Reply::Whole(_) => Ok(()),
        }
    }

    /// More of the body is waited for: the client may send it, and the timer begins.
    pub(crate) fn wait_more(
        &mut self,
        turn: &Turn,
        site: &R::Site,
        progress: &mut Progress<R::Job>,
    ) -> Result<(), AllocError>
        ensures moves { let view = view_of (R.meaning site.now) (R.serving site.now) in IfOk result (λ done. Goes view
            (λ m. Look (λ b s. wait_more (service view) turn.now.moment.0 s.client m)) self.old progress.old self.new progress.new) }
        ensures waits { self.new.waits ≡ self.old.waits }
        ensures costs { IfOk result (λ done. Spends R.left R.bound 406 self.old progress.old self.new progress.new) }
    {
        let sent = self.let_send(site, progress);
        both(sent, self.begin_timer(turn, site, progress, Timer::Body))
    }

    /// A piece of the body came: where the run waits for more of it, the timer begins anew.
    pub(crate) fn await_body(
        &mut self,
        turn: &Turn,
        site: &R::Site,
        progress: &mut Progress<R::Job>,
    ) -> Result<(), AllocError>
        ensures { let view = view_of (R.meaning site.now) (R.serving site.now) in IfOk result (λ done. GoesAt view stage.Busy
            (await_body (service view) turn.now.moment.0) self.old progress.old self.new progress.new) }
    {
        if self.waits.body && self.client.awaits_body() {
            self.wait_more(turn, site, progress)
        } else {
            Ok(())
        }
    }

    /// The run is over: it waits for no more of the body, and the reply is left to be taken.
    fn end_run(&mut self, site: &R::Site, progress: &mut Progress<R::Job>) -> Result<(), AllocError>
        ensures moves { let view = view_of (R.meaning site.now) (R.serving site.now) in IfOk result (λ done.
            HearsWord view 0 said.Over self.old progress.old self.new progress.new) }
        ensures costs { IfOk result (λ done. Spends R.left R.bound unit self.old progress.old self.new progress.new) }
    {
        let body = self.end_timer(site, progress, Timer::Body);
        self.client.stage = Stage::Flush;
        self.run = None;
        body
    }

    /// The run says this.
    pub(crate) fn hear_word(
        &mut self,
        turn: &Turn,
        site: &R::Site,
        progress: &mut Progress<R::Job>,
        word: &Said,
    ) -> Result<(), AllocError>
        ensures moves { let view = view_of (R.meaning site.now) (R.serving site.now) in IfOk result (λ done.
            HearsWord view turn.now.moment.0 word.now self.old progress.old self.new progress.new) }
        ensures costs { IfOk result (λ done. Spends R.left R.bound unit self.old progress.old self.new progress.new) }
    {
        match word {
            Said::Send(bytes) => {
                let _ = bytes.len();
                self.client.reply = self.client.reply.begun();
                self.send(site, progress, bytes)
            }
            Said::WantsNoBody => {
                self.waits.body = false;
                self.end_timer(site, progress, Timer::Body)
            }
            Said::Times(times) => {
                self.client.set_times(*times);
                Ok(())
            }
            Said::Ended(closes) => {
                self.client.reply = Reply::Whole(*closes);
                Ok(())
            }
            Said::Over => self.end_run(site, progress),
        }
    }
}
