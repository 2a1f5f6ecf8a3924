//! Requests in turn: heads that are heard, and what is waited for; and the end of a client.

use crate::client::{Reply, Stage, Timer};
use crate::state::{Connection, Progress, Turn, both, ended, going, put, put_if};
use crate::waits::Waits;
use client_line::{Held, LineOut};
use connection_plan::ServiceContract;
use http_in::Head;
use run_contract::RunSeen;
use std::alloc::AllocError;
use strand_contract::{Act, Place};
use uri_args::Target;

impl<R: ServiceContract> Connection<R> {
    ghost use Rattle.std.specs.Prelude.{◌≡◌, ◌++◌, ◌+◌, ◌*◌, IfOk, true, false};
    ghost use Rattle.strand_contract.specs.declared.turns.Place.TheVariants as place;
    ghost use Rattle.client_line.specs.Records as line;
    ghost use Rattle.client_line.specs.declared.requests.LineOut.TheVariants as answer;
    ghost use Rattle.strand_plans.specs.Moves.{Look, HangUp};
    ghost use Rattle.connection_plan.specs.Clients.{is_last};
    ghost use Rattle.connection_plan.specs.Timers as timer;
    ghost use Rattle.connection_plan.specs.Turns.{send, finish, lose, begin, end_timer, refuse, heard_by, next};
    ghost use Rattle.connection_strand.specs.Views.{view_of, service};
    ghost use Rattle.connection_strand.specs.Standing.{Goes, Ends, Hears, IsWithin, IsUnasked};
    ghost use Rattle.connection_strand.specs.Kept.{kept};
    ghost use Rattle.connection_strand.specs.Costs.{unit, Spends, Pays, Costs, Heard, Settles, Falls};
    ghost use Rattle.connection_strand.specs.Acts.{hang_ups};
    ghost use Rattle.connection_strand.specs.Turns.{IsAnswered, IsRefusedAt};

    /// Its open sockets are hung up.
    fn hang_up_sockets(&self, progress: &mut Progress<R::Job>) -> Result<(), AllocError>
        ensures acts { IfOk result (λ done. progress.new.acts.items ≡ progress.old.acts.items ++ hang_ups self.now.sockets.items) }
        ensures offered { progress.new.is_offered ≡ progress.old.is_offered }
    {
        for socket in &self.sockets {
            put(&mut progress.acts, Act::HangUp(Place::Sock(*socket)))?;
        }
        Ok(())
    }

    /// The life is over: what is open is hung up.
    pub(crate) fn finish(
        &mut self,
        _site: &R::Site,
        progress: &mut Progress<R::Job>,
    ) -> Result<(), AllocError>
        ensures moves { let view = view_of (R.meaning _site.now) (R.serving _site.now) in IfOk result (λ done. Ends view
            finish self.old progress.old self.new progress.new) }
        ensures costs { IfOk result (λ done. Costs R.left R.bound 0 self.old progress.old self.new progress.new) }
        ensures falls { IfOk result (λ done. Falls R.left R.bound self.old progress.old self.new progress.new) }
    {
        let client = put_if(
            self.client.is_open,
            &mut progress.acts,
            Act::HangUp(Place::Client),
        );
        let sockets = self.hang_up_sockets(progress);
        self.client.stage = Stage::Over;
        let gone = put(&mut progress.acts, Act::Gone);
        both(client, both(sockets, gone))
    }

    /// The client is hung up, and nothing of it is waited for.
    fn let_client_go(
        &mut self,
        site: &R::Site,
        progress: &mut Progress<R::Job>,
    ) -> Result<(), AllocError>
        ensures moves { let view = view_of (R.meaning site.now) (R.serving site.now) in IfOk result (λ done.
            Goes view
            (λ m. HangUp place.Client (end_timer (service view) 0 timer.Body (end_timer (service view) 0 timer.Send m)))
            self.old progress.old self.new progress.new) }
        ensures waits { self.new.waits ≡ self.old.waits }
        ensures costs { IfOk result (λ done. Spends R.left R.bound 0 self.old progress.old self.new progress.new) }
        ensures pays { self.old.client.is_open ≡ true → IfOk result (λ done. Pays R.left R.bound 3 self.old progress.old self.new progress.new) }
    {
        let client = put_if(
            self.client.is_open,
            &mut progress.acts,
            Act::HangUp(Place::Client),
        );
        self.client.hang_up();
        let body = self.end_timer(site, progress, Timer::Body);
        let send = self.end_timer(site, progress, Timer::Send);
        both(client, both(body, send))
    }

    /// The client is lost: it is hung up, and a run that goes on is told so.
    pub(crate) fn lose(
        &mut self,
        turn: &Turn,
        site: &R::Site,
        progress: &mut Progress<R::Job>,
    ) -> Result<(), AllocError>
        requires within { let view = view_of (R.meaning site.now) (R.serving site.now) in IsWithin view self.old progress.old }
        requires unasked { IsUnasked self.old }
        ensures moves { let view = view_of (R.meaning site.now) (R.serving site.now) in IfOk result (λ done. Ends view
            (lose (service view) turn.now.moment.0) self.old progress.old self.new progress.new) }
        ensures costs { IfOk result (λ done. Costs R.left R.bound 0 self.old progress.old self.new progress.new) }
        ensures falls { self.old.client.is_open ≡ true → IfOk result (λ done. Falls R.left R.bound self.old progress.old self.new progress.new) }
    {
        match self.client.stage {
            Stage::Busy => match self.let_client_go(site, progress) {
                Ok(()) => {
                    if self.waits.client {
                        ended(self.tell(turn, site, progress, RunSeen::ClientGone))
                    } else {
                        Ok(())
                    }
                }
                Err(error) => Err(error),
            },
            Stage::Idle | Stage::Head | Stage::Flush | Stage::Drop | Stage::Over => {
                self.finish(site, progress)
            }
        }
    }

    /// A head came: a request begins, and its run takes its first turn. It reports whether the turn goes on.
    fn begin_request(
        &mut self,
        turn: &Turn,
        site: &R::Site,
        progress: &mut Progress<R::Job>,
        head: Head,
        target: Target,
    ) -> Result<bool, AllocError>
        ensures moves { let view = view_of (R.meaning site.now) (R.serving site.now) in IfOk result (λ on. Hears view on
            (λ rest. end_timer (service view) turn.now.moment.0 timer.Header (begin (service view) turn.now.moment.0 rest head target))
            self.old progress.old self.new progress.new) }
        ensures costs { IfOk result (λ done. Spends R.left R.bound (unit * (R.bound + 1)) self.old progress.old self.new progress.new) }
    {
        let times = R::times_of(site, &head, &target);
        let expects = head.expects;
        let begun = R::begin(turn.alloc, site, turn.moment, self.count, head, target);
        let header = self.end_timer(site, progress, Timer::Header);
        self.client.begin_request(times, expects);
        self.waits = Waits::at_first(true);
        let went = self.take_run(turn, site, progress, begun);
        both(header, went)
    }

    /// Sends the reply to a head that is refused.
    fn send_refusal(
        &mut self,
        turn: &Turn,
        site: &R::Site,
        progress: &mut Progress<R::Job>,
        code: u16,
    ) -> Result<(), AllocError>
        ensures moves { let view = view_of (R.meaning site.now) (R.serving site.now) in IfOk result (λ done.
            Goes view (send (service view) 0 (view.serving.refusal code turn.now.moment.0)) self.old progress.old self.new progress.new) }
        ensures costs { IfOk result (λ done. Spends R.left R.bound unit self.old progress.old self.new progress.new) }
    {
        let reply = R::refusal(turn.alloc, site, code, turn.moment)?;
        let _ = reply.len();
        self.send(site, progress, &reply)
    }

    /// The client gets the reply to a head that is refused, and the connection closes once that is taken.
    fn refuse_head(
        &mut self,
        turn: &Turn,
        site: &R::Site,
        progress: &mut Progress<R::Job>,
        code: u16,
    ) -> Result<(), AllocError>
        ensures moves { let view = view_of (R.meaning site.now) (R.serving site.now) in IfOk result (λ done. Hears view false
            (λ rest. refuse (service view) turn.now.moment.0 (line.Over code) code) self.old progress.old self.new progress.new) }
        ensures costs { is_last (kept self.old.client).reply ≡ false →
            IfOk result (λ done. Costs R.left R.bound 0 self.old progress.old self.new progress.new) }
    {
        self.client.stage = Stage::Flush;
        self.client.times = R::default_times(site);
        self.client.reply = Reply::Whole(true);
        let sent = self.send_refusal(turn, site, progress, code);
        if self.client.is_all_taken() {
            both(sent, self.finish(site, progress))
        } else {
            sent
        }
    }

    /// A head is refused: nothing more is read; after a fault in a body that is dropped the connection closes.
    fn refuse(
        &mut self,
        turn: &Turn,
        site: &R::Site,
        progress: &mut Progress<R::Job>,
        code: u16,
    ) -> Result<(), AllocError>
        ensures moves { let view = view_of (R.meaning site.now) (R.serving site.now) in IfOk result (λ done.
            IsRefusedAt self.old.client.line.came.at → Hears view false
            (λ rest. Look (λ b s. end_timer (service view) turn.now.moment.0 timer.Header (refuse (service view) turn.now.moment.0 s.client.came.at code)))
            self.old progress.old self.new progress.new) }
        ensures costs { is_last (kept self.old.client).reply ≡ false →
            IfOk result (λ done. Costs R.left R.bound 0 self.old progress.old self.new progress.new) }
    {
        let held = self.client.line.held();
        let header = self.end_timer(site, progress, Timer::Header);
        match held {
            Held::Begun => both(header, self.refuse_head(turn, site, progress, code)),
            Held::Request | Held::Body | Held::Nothing => both(header, self.finish(site, progress)),
        }
    }

    /// More is waited for: a timer begins, or goes on; a client that ended is hung up.
    fn hear_no_more(
        &mut self,
        turn: &Turn,
        site: &R::Site,
        progress: &mut Progress<R::Job>,
        anew: bool,
    ) -> Result<bool, AllocError>
        ensures moves { let view = view_of (R.meaning site.now) (R.serving site.now) in IfOk result (λ on. Hears view on
            (λ rest. Look (λ b s. heard_by (service view) turn.now.moment.0 anew rest s.client.came s.client.ended answer.Waiting))
            self.old progress.old self.new progress.new) }
        ensures costs { IfOk result (λ on. Heard R.left R.bound answer.Waiting on self.old progress.old self.new progress.new) }
    {
        if self.client.has_ended {
            going(self.finish(site, progress), false)
        } else if anew {
            let timer = self.client.wait();
            going(self.begin_timer(turn, site, progress, timer), false)
        } else {
            Ok(false)
        }
    }

    /// What came was answered so. Where more is waited for, a timer begins, or goes on; a client that ended is hung up.
    pub(crate) fn heard(
        &mut self,
        turn: &Turn,
        site: &R::Site,
        progress: &mut Progress<R::Job>,
        anew: bool,
        out: LineOut,
    ) -> Result<bool, AllocError>
        ensures moves { let view = view_of (R.meaning site.now) (R.serving site.now) in IfOk result (λ on.
            IsAnswered out self.old.client.line.came.at → Hears view on
            (λ rest. Look (λ b s. heard_by (service view) turn.now.moment.0 anew rest s.client.came s.client.ended out))
            self.old progress.old self.new progress.new) }
        ensures costs { is_last (kept self.old.client).reply ≡ false →
            IfOk result (λ on. Heard R.left R.bound out on self.old progress.old self.new progress.new) }
    {
        match out {
            LineOut::Request(head, target) => {
                self.begin_request(turn, site, progress, head, target)
            }
            LineOut::Refused(code) => going(self.refuse(turn, site, progress, code), false),
            LineOut::Waiting => self.hear_no_more(turn, site, progress, anew),
            LineOut::Memory => Err(AllocError),
        }
    }

    /// The reply is taken: the rest of the body is dropped, and what follows it is read.
    pub(crate) fn next(
        &mut self,
        turn: &Turn,
        site: &R::Site,
        progress: &mut Progress<R::Job>,
    ) -> Result<bool, AllocError>
        ensures moves { let view = view_of (R.meaning site.now) (R.serving site.now) in IfOk result (λ on. Hears view on
            (λ rest. Look (λ b s. next (service view) turn.now.moment.0 rest s.client)) self.old progress.old self.new progress.new) }
        ensures costs { is_last (kept self.old.client).reply ≡ false →
            IfOk result (λ on. Settles R.left R.bound on self.old progress.old self.new progress.new) }
    {
        self.client.line.done();
        match self.client.line.fed(&[]) {
            LineOut::Memory => Err(AllocError),
            out => self.heard(turn, site, progress, true, out),
        }
    }
}
