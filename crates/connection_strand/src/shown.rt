//! What a connection is shown: its client, its sockets, its run's threads and deadlines.

use crate::client::{Stage, Timer};
use crate::sights::{Event, Sight, Taking, sight_of};
use crate::state::{Connection, Progress, Turn, both, ended, going};
use client_line::LineOut;
use connection_plan::ServiceContract;
use resty_base::Bytes;
use run_contract::{RunSeen, SockSeen};
use std::alloc::AllocError;
use strand_contract::Seen;

/// Nothing is done with an answer.
fn let_go(_out: LineOut) {}

impl<R: ServiceContract> Connection<R> {
    ghost use Rattle.std.specs.Prelude.{◌≡◌, IfOk, true, false};
    ghost use Rattle.strand_contract.specs.declared.turns.Place.TheVariants as place;
    ghost use Rattle.strand_contract.specs.declared.turns.Seen.TheVariants as seens;
    ghost use Rattle.strand_contract.specs.Calls.{is_own_turn};
    ghost use Rattle.client_line.specs.Feeding.{fed};
    ghost use Rattle.strand_plans.specs.Moves.{Look};
    ghost use Rattle.run_contract.specs.Calls as runs;
    ghost use Rattle.run_contract.specs.Runs.{is_of_client};
    ghost use Rattle.connection_plan.specs.Connections.{came_at, ends_at};
    ghost use Rattle.connection_strand.specs.Views.{view_of, service};
    ghost use Rattle.connection_strand.specs.Costs.{unit, Pays, Falls};
    ghost use Rattle.connection_strand.specs.Standing.{Ends, Hears, IsWithin, IsFreeAt, IsUnasked};
    ghost use Rattle.connection_strand.specs.Turns.{IsAnswered};
    ghost use Rattle.connection_plan.specs.Turns.{heard_by, settle};
    ghost use Rattle.connection_strand.specs.Shown.{heard_at, seen_of_event, seen_of_taking, sock_seen, MayShow, Shows, MayTellRun, TellsRun, MayGoOn, GoesOn};

    /// The answer to what came is heard, and what is there is settled.
    fn hear(
        &mut self,
        turn: &Turn,
        site: &R::Site,
        progress: &mut Progress<R::Job>,
        anew: bool,
        out: LineOut,
    ) -> Result<(), AllocError>
        requires answered { IsAnswered out self.old.client.line.came.at }
        requires within { let view = view_of (R.meaning site.now) (R.serving site.now) in IsFreeAt view self.old progress.old }
        ensures { let view = view_of (R.meaning site.now) (R.serving site.now) in IfOk result (λ done. Hears view false
            (λ rest. Look (λ b s. heard_by (service view) turn.now.moment.0 anew (settle (service view) turn.now.moment.0) s.client.came s.client.ended out))
            self.old progress.old self.new progress.new) }
    {
        let went = self.heard(turn, site, progress, anew, out);
        self.settle_on(turn, site, progress, went)
    }

    /// Bytes came that are answered so.
    fn hear_at(
        &mut self,
        turn: &Turn,
        site: &R::Site,
        progress: &mut Progress<R::Job>,
        out: LineOut,
    ) -> Result<(), AllocError>
        requires answered { IsAnswered out self.old.client.line.came.at }
        requires within { let view = view_of (R.meaning site.now) (R.serving site.now) in IsWithin view self.old progress.old }
        ensures { let view = view_of (R.meaning site.now) (R.serving site.now) in IfOk result (λ done. Ends view
            (Look (λ b s. heard_at (service view) turn.now.moment.0 s.client.stage out s.client.came s.client.ended))
            self.old progress.old self.new progress.new) }
    {
        match self.client.stage {
            Stage::Busy => {
                let_go(out);
                let went = going(self.await_body(turn, site, progress), true);
                self.settle_on(turn, site, progress, went)
            }
            Stage::Head => self.hear(turn, site, progress, false, out),
            Stage::Idle | Stage::Drop => self.hear(turn, site, progress, true, out),
            Stage::Flush | Stage::Over => {
                let_go(out);
                Ok(())
            }
        }
    }

    /// The client sent bytes.
    fn came(
        &mut self,
        turn: &Turn,
        site: &R::Site,
        progress: &mut Progress<R::Job>,
        bytes: Bytes,
    ) -> Result<(), AllocError>
        requires { let view = view_of (R.meaning site.now) (R.serving site.now) in IsWithin view self.old progress.old }
        ensures { let view = view_of (R.meaning site.now) (R.serving site.now) in IfOk result (λ done. Ends view
            (Look (λ b s. came_at (service view) turn.now.moment.0 s.client.stage (fed s.client.came bytes) s))
            self.old progress.old self.new progress.new) }
    {
        let answer = self.client.line.fed(&bytes);
        drop(bytes);
        match answer {
            LineOut::Memory => Err(AllocError),
            out => self.hear_at(turn, site, progress, out),
        }
    }

    /// The client sends no more: a run that goes on is told, and what the client asked for is still answered.
    fn hear_end(
        &mut self,
        turn: &Turn,
        site: &R::Site,
        progress: &mut Progress<R::Job>,
    ) -> Result<(), AllocError>
        requires within { let view = view_of (R.meaning site.now) (R.serving site.now) in IsWithin view self.old progress.old }
        requires unasked { IsUnasked self.old }
        ensures { let view = view_of (R.meaning site.now) (R.serving site.now) in IfOk result (λ done. Ends view
            (Look (λ b s. ends_at (service view) turn.now.moment.0 s.client.stage s))
            self.old progress.old self.new progress.new) }
    {
        match self.client.stage {
            Stage::Busy => {
                self.client.has_ended = true;
                if self.waits.client {
                    self.go_on(turn, site, progress, RunSeen::ClientEnded)
                } else {
                    self.settle_all(turn, site, progress)
                }
            }
            Stage::Flush => {
                self.client.has_ended = true;
                Ok(())
            }
            _ => self.finish(site, progress),
        }
    }

    /// The client takes bytes again.
    fn resume(
        &mut self,
        _turn: &Turn,
        site: &R::Site,
        progress: &mut Progress<R::Job>,
    ) -> Result<(), AllocError>
        ensures { let view = view_of (R.meaning site.now) (R.serving site.now) in IfOk result (λ done. Shows view _turn.now.moment.0
            (seens.Ready place.Client) self.old progress.old self.new progress.new) }
    {
        self.client.is_put_off = false;
        let send = self.end_timer(site, progress, Timer::Send);
        both(send, self.ask_for_offer(site, progress))
    }

    /// The client took so many of the bytes that it was offered.
    fn took(
        &mut self,
        turn: &Turn,
        site: &R::Site,
        progress: &mut Progress<R::Job>,
        count: usize,
    ) -> Result<(), AllocError>
        requires { let view = view_of (R.meaning site.now) (R.serving site.now) in MayShow view turn.now.moment.0
            (seens.Took place.Client count) self.old progress.old }
        ensures moves { let view = view_of (R.meaning site.now) (R.serving site.now) in IfOk result (λ done. Shows view turn.now.moment.0
            (seens.Took place.Client count) self.old progress.old self.new progress.new) }
        ensures falls { IfOk result (λ done. Falls R.left R.bound self.old progress.old self.new progress.new) }
    {
        let count = self.client.line.queued().len().min(count);
        self.client.line.took(count);
        self.settle_all(turn, site, progress)
    }

    /// The client takes no bytes for now.
    fn put_off(
        &mut self,
        turn: &Turn,
        site: &R::Site,
        progress: &mut Progress<R::Job>,
    ) -> Result<(), AllocError>
        requires { let view = view_of (R.meaning site.now) (R.serving site.now) in MayShow view turn.now.moment.0
            (seens.Later place.Client) self.old progress.old }
        ensures moves { let view = view_of (R.meaning site.now) (R.serving site.now) in IfOk result (λ done. Shows view turn.now.moment.0
            (seens.Later place.Client) self.old progress.old self.new progress.new) }
        ensures falls { IfOk result (λ done. Falls R.left R.bound self.old progress.old self.new progress.new) }
    {
        self.client.is_put_off = true;
        self.begin_timer(turn, site, progress, Timer::Send)
    }

    /// A run that goes on is told this. It reports whether the turn goes on.
    fn to_run(
        &mut self,
        turn: &Turn,
        site: &R::Site,
        progress: &mut Progress<R::Job>,
        seen: RunSeen,
    ) -> Result<bool, AllocError>
        requires { let view = view_of (R.meaning site.now) (R.serving site.now) in MayTellRun view turn.now.moment.0 seen self.old progress.old }
        ensures moves { let view = view_of (R.meaning site.now) (R.serving site.now) in IfOk result (λ on. TellsRun view turn.now.moment.0 seen on
            self.old progress.old self.new progress.new) }
        ensures costs { is_of_client seen ≡ false → runs.is_own_turn seen ≡ true →
            IfOk result (λ on. Pays R.left R.bound unit self.old progress.old self.new progress.new) }
    {
        match self.client.stage {
            Stage::Busy => self.tell(turn, site, progress, seen),
            _ => Ok(false),
        }
    }

    /// A run that goes on is told this, and what is there is settled.
    fn go_on(
        &mut self,
        turn: &Turn,
        site: &R::Site,
        progress: &mut Progress<R::Job>,
        seen: RunSeen,
    ) -> Result<(), AllocError>
        requires { let view = view_of (R.meaning site.now) (R.serving site.now) in MayGoOn view turn.now.moment.0 seen self.old progress.old }
        ensures moves { let view = view_of (R.meaning site.now) (R.serving site.now) in IfOk result (λ done. GoesOn view turn.now.moment.0 seen
            self.old progress.old self.new progress.new) }
        ensures falls { is_of_client seen ≡ false → runs.is_own_turn seen ≡ true →
            IfOk result (λ done. Falls R.left R.bound self.old progress.old self.new progress.new) }
    {
        let went = self.to_run(turn, site, progress, seen);
        self.settle_on(turn, site, progress, went)
    }

    /// What comes at a socket of the run.
    fn sock(
        &mut self,
        turn: &Turn,
        site: &R::Site,
        progress: &mut Progress<R::Job>,
        socket: u32,
        seen: SockSeen,
    ) -> Result<(), AllocError>
        requires { let view = view_of (R.meaning site.now) (R.serving site.now) in MayShow view turn.now.moment.0
            (sock_seen socket seen) self.old progress.old }
        ensures moves { let view = view_of (R.meaning site.now) (R.serving site.now) in IfOk result (λ done. Shows view turn.now.moment.0
            (sock_seen socket seen) self.old progress.old self.new progress.new) }
        ensures falls { runs.is_own_at seen ≡ true → IfOk result (λ done. Falls R.left R.bound self.old progress.old self.new progress.new) }
    {
        match seen {
            SockSeen::Took(count) => {
                let count = self.piece_at(site, socket).len().min(count);
                self.go_on(
                    turn,
                    site,
                    progress,
                    RunSeen::Sock(socket, SockSeen::Took(count)),
                )
            }
            _ => self.go_on(turn, site, progress, RunSeen::Sock(socket, seen)),
        }
    }

    /// A deadline is due: one of the connection's own timers ran out, or one of the run's, which only wakes.
    fn due(
        &mut self,
        turn: &Turn,
        site: &R::Site,
        progress: &mut Progress<R::Job>,
        number: u32,
    ) -> Result<(), AllocError>
        requires { let view = view_of (R.meaning site.now) (R.serving site.now) in MayShow view turn.now.moment.0
            (seens.Due number) self.old progress.old }
        ensures moves { let view = view_of (R.meaning site.now) (R.serving site.now) in IfOk result (λ done. Shows view turn.now.moment.0
            (seens.Due number) self.old progress.old self.new progress.new) }
        ensures falls { IfOk result (λ done. Falls R.left R.bound self.old progress.old self.new progress.new) }
    {
        if number == 0 {
            self.client.is_waiting = false;
            return self.lose(turn, site, progress);
        }
        if number == 1 {
            self.client.is_sending = false;
            return self.lose(turn, site, progress);
        }
        ended(self.to_run(turn, site, progress, RunSeen::Due(number)))
    }

    /// Takes the turn that begins with what it is shown.
    pub(crate) fn see(
        &mut self,
        turn: &Turn,
        site: &R::Site,
        progress: &mut Progress<R::Job>,
        seen: Seen,
    ) -> Result<(), AllocError>
        requires { let view = view_of (R.meaning site.now) (R.serving site.now) in MayShow view turn.now.moment.0 seen self.old progress.old }
        ensures moves { let view = view_of (R.meaning site.now) (R.serving site.now) in IfOk result (λ done. Shows view turn.now.moment.0
            seen self.old progress.old self.new progress.new) }
        ensures falls { is_own_turn seen ≡ true → IfOk result (λ done. Falls R.left R.bound self.old progress.old self.new progress.new) }
    {
        match sight_of(seen) {
            Sight::Sock(k, shown) => self.sock(turn, site, progress, k, shown),
            Sight::Bytes(bytes) => self.came(turn, site, progress, bytes),
            Sight::Taking(taking) => self.see_taking(turn, site, progress, taking),
            Sight::Event(event) => self.see_event(turn, site, progress, event),
        }
    }

    /// Takes the turn that begins with how its client takes bytes.
    fn see_taking(
        &mut self,
        turn: &Turn,
        site: &R::Site,
        progress: &mut Progress<R::Job>,
        taking: Taking,
    ) -> Result<(), AllocError>
        requires { let view = view_of (R.meaning site.now) (R.serving site.now) in MayShow view turn.now.moment.0
            (seen_of_taking taking) self.old progress.old }
        ensures moves { let view = view_of (R.meaning site.now) (R.serving site.now) in IfOk result (λ done. Shows view turn.now.moment.0
            (seen_of_taking taking) self.old progress.old self.new progress.new) }
        ensures falls { is_own_turn (seen_of_taking taking) ≡ true → IfOk result (λ done. Falls R.left R.bound self.old progress.old self.new progress.new) }
    {
        match taking {
            Taking::Ready => self.resume(turn, site, progress),
            Taking::Took(count) => self.took(turn, site, progress, count),
            Taking::Later => self.put_off(turn, site, progress),
            Taking::Lost => self.lose(turn, site, progress),
        }
    }

    /// Takes the turn that begins with what is of its client or of itself, but for bytes.
    fn see_event(
        &mut self,
        turn: &Turn,
        site: &R::Site,
        progress: &mut Progress<R::Job>,
        event: Event,
    ) -> Result<(), AllocError>
        requires { let view = view_of (R.meaning site.now) (R.serving site.now) in MayShow view turn.now.moment.0
            (seen_of_event event) self.old progress.old }
        ensures moves { let view = view_of (R.meaning site.now) (R.serving site.now) in IfOk result (λ done. Shows view turn.now.moment.0
            (seen_of_event event) self.old progress.old self.new progress.new) }
        ensures falls { is_own_turn (seen_of_event event) ≡ true → IfOk result (λ done. Falls R.left R.bound self.old progress.old self.new progress.new) }
    {
        match event {
            Event::Ended => self.hear_end(turn, site, progress),
            Event::Broken => self.lose(turn, site, progress),
            Event::Due(number) => self.due(turn, site, progress, number),
            Event::Run(thread) => self.go_on(turn, site, progress, RunSeen::Run(thread)),
            Event::Stop => self.finish(site, progress),
        }
    }
}
