//! The connection meets the contract of a strand: what it is shown, and the answers that it gets.

ghost use Rattle.std.specs.Prelude.{◌≡◌, IfOk, Ok};
ghost use Rattle.connection_strand.specs.Following.{is_client};
ghost use Rattle.connection_strand.specs.Shown.{takes_as};

use crate::client::{Client, Stage, Timer};
use crate::state::{Connection, Progress, Turn, acts_of, ended, going};
use crate::taking::take_out;
use crate::waits::Waits;
use connection_plan::ServiceContract;
use resty_base::{Bytes, Ms};
use std::alloc::{AllocError, Global};
use std::collections::VecDeque;
use strand_contract::{Acts, Answer, Place, Seen, Start, StrandContract};

/// With so many bytes held no more are wanted, until they are read.
const ENOUGH: usize = 65_536;

/// Whether it begins for a client.
fn is_client<J>(start: &Start<J>) -> bool
    ensures { result ≡ is_client start.now }
{
    matches!(start, Start::Client(_))
}

/// The two, where there was the memory for the second.
fn paired<T: Drop, U: Drop>(first: T, second: Result<U, AllocError>) -> Result<(T, U), AllocError>
    ensures { IfOk result (λ pair. (pair.0 ≡ first) × (second ≡ Ok pair.1)) }
{
    match second {
        Ok(second) => Ok((first, second)),
        Err(error) => Err(error),
    }
}

/// Whether the turn begins as the client takes bytes: its offer goes on.
fn takes(seen: &Seen) -> bool
    ensures { result ≡ takes_as seen.now }
{
    matches!(seen, Seen::Took(Place::Client, _))
}

impl<R: ServiceContract> Connection<R> {
    ghost use Rattle.std.specs.Prelude.{◌≡◌, ◌++◌, ◌+◌, ◌∷◌, ◌||◌, [], IfOk, true, false, None};
    ghost use Rattle.strand_contract.specs.Actions.{Did, Began};
    ghost use Rattle.strand_plans.specs.Moves.{Done};
    ghost use Rattle.strand_plans.specs.Plans.{stepped, unborn_state};
    ghost use Rattle.run_contract.specs.Runs.{waits_at_first};
    ghost use Rattle.connection_plan.specs.Connections.{connection_plan};
    ghost use Rattle.connection_strand.specs.Views.{view_of, service};
    ghost use Rattle.connection_strand.specs.Standing.{Went};
    ghost use Rattle.connection_strand.specs.Following.{IsNew, is_client};
    ghost use Rattle.connection_strand.specs.Kept.{kept, fresh, waits_of, wants_offer};
    ghost use Rattle.connection_strand.specs.Acts.{sockets_with, count_with};
    ghost use Rattle.connection_strand.specs.Costs.{Falls};
    ghost use Rattle.connection_strand.specs.Shown.{HasPieceAt, offered_as};
    ghost use Rattle.connection_strand.specs.Turns.{MayTakeAnswer, TakesAnswer};

    /// A connection that begins, with or without a client; takes no memory.
    fn new(alloc: Global, site: &R::Site, is_open: bool) -> Connection<R>
        ensures client { kept result.client ≡ fresh (R.serving site.now).default_times is_open }
        ensures run { result.run ≡ None }
        ensures waits { waits_of result.waits ≡ waits_at_first is_open }
        ensures sockets { result.sockets.items ≡ [] }
        ensures count { result.count ≡ 0 }
        ensures keeping { result.keeping ≡ None }
        ensures taking { result.is_taking ≡ false }
    {
        Connection {
            client: Client::new(alloc, R::default_times(site), is_open),
            run: None,
            waits: Waits::at_first(is_open),
            sockets: Vec::new(alloc),
            count: 0,
            keeping: None,
            is_taking: false,
        }
    }

    /// The first turn of a new connection: a head is waited for, or the job begins to run. It reports whether the turn goes on.
    fn take_first_turn(
        &mut self,
        turn: &Turn,
        site: &R::Site,
        progress: &mut Progress<R::Job>,
        start: Start<R::Job>,
    ) -> Result<bool, AllocError>
        requires connection { IsNew (R.serving site.now).default_times (is_client start) self.old }
        requires acts { progress.old.acts.items ≡ [] }
        requires offered { progress.old.is_offered ≡ false }
        ensures { let view = view_of (R.meaning site.now) (R.serving site.now) in let plan = connection_plan (service view) in IfOk result (λ on.
            Went view on
            (stepped plan turn.now.moment.0 (Did (Began turn.now.moment.0 start)) (unborn_state plan)) self.new progress.new Done) }
    {
        match start {
            Start::Client(_) => {
                going(self.begin_timer(turn, site, progress, Timer::Header), true)
            }
            Start::Job(_, premature, job) => {
                let begun = R::begin_job(turn.alloc, site, turn.moment, premature, job);
                self.client.stage = Stage::Busy;
                self.take_run(turn, site, progress, begun)
            }
        }
    }

    /// The piece that is offered next at the socket.
    pub(crate) fn piece_at(&self, site: &R::Site, socket: u32) -> &[u8]
        ensures { let view = view_of (R.meaning site.now) (R.serving site.now) in HasPieceAt view self.now socket result.now }
    {
        match (&self.run, self.client.stage) {
            (Some(run), Stage::Busy) => run.queued(site, socket),
            _ => &[],
        }
    }

    /// A socket opens: it has the next number.
    fn open_socket(&mut self) -> Result<(), AllocError>
        ensures sockets { IfOk result (λ done. self.new.sockets.items ≡ self.old.sockets.items ++ self.old.count ∷ []) }
        ensures count { IfOk result (λ done. self.new.count ≡ self.old.count + 1) }
        ensures kept { IfOk result (λ done. self.new ≡ record self.old { sockets = self.new.sockets; count = self.new.count }) }
    {
        let Some(count) = self.count.checked_add(1) else {
            return Err(AllocError);
        };
        self.sockets.push(self.count)?;
        self.count = count;
        Ok(())
    }

    /// What the answer does to the sockets: one that was dialled or taken opens, one that was kept is the pool's.
    fn take_in(&mut self, answer: &Answer) -> Result<(), AllocError>
        ensures sockets { IfOk result (λ done. self.new.sockets.items ≡ sockets_with answer.now self.old.keeping self.old.count self.old.sockets.items) }
        ensures count { IfOk result (λ done. self.new.count ≡ count_with answer.now self.old.count) }
        ensures kept { IfOk result (λ done. self.new ≡ record self.old { sockets = self.new.sockets; count = self.new.count }) }
    {
        match answer {
            Answer::Dialled(true) | Answer::Took(Some(_)) => self.open_socket(),
            Answer::Kept => {
                if let Some(socket) = self.keeping {
                    take_out(&mut self.sockets, socket);
                }
                Ok(())
            }
            Answer::Dialled(false) | Answer::Took(None) | Answer::Dict(_) | Answer::Timer(_) => Ok(
                (),
            ),
        }
    }

    /// Takes the turn that begins with the answer to its question: the run is given it, and what is there is settled.
    fn take_answer(
        &mut self,
        turn: &Turn,
        site: &R::Site,
        progress: &mut Progress<R::Job>,
        answer: Answer,
    ) -> Result<(), AllocError>
        requires { let view = view_of (R.meaning site.now) (R.serving site.now) in MayTakeAnswer view turn.now.moment.0
            answer self.old progress.old }
        ensures moves { let view = view_of (R.meaning site.now) (R.serving site.now) in IfOk result (λ done. TakesAnswer view turn.now.moment.0
            answer self.old progress.old self.new progress.new) }
        ensures falls { IfOk result (λ done. Falls R.left R.bound self.old progress.old self.new progress.new) }
    {
        match self.take_in(&answer) {
            Ok(()) => {
                self.keeping = None;
                let went = self.answered(turn, site, progress, answer);
                self.settle_on(turn, site, progress, went)
            }
            Err(error) => {
                drop(answer);
                Err(error)
            }
        }
    }

    /// Whether an offer of the client is queued or goes on as the turn begins.
    fn is_offered(&self, seen: &Seen) -> bool
        ensures { result ≡ offered_as seen.now (kept self.now.client) }
    {
        match seen {
            Seen::Took(Place::Client, _) => true,
            Seen::Ready(Place::Client) | Seen::Later(Place::Client) | Seen::Lost(Place::Client) =>
                false,
            _ => self.client.wants_offer(),
        }
    }

    /// Whether an offer of the client is queued or goes on while a question waits.
    fn is_still_offered(&self) -> bool
        ensures { result ≡ (self.now.is_taking || wants_offer (kept self.now.client)) }
    {
        self.is_taking || self.client.wants_offer()
    }
}

impl<R: ServiceContract> StrandContract for Connection<R> {
    ghost use Rattle.std.specs.Prelude.{◌≡◌, [], ◌∷◌, IfOk};
    ghost use Rattle.strand_contract.specs.Actions.{Did, Began};
    ghost use Rattle.strand_plans.proofs.Ledgers.{asks-last};
    ghost use Rattle.strand_plans.proofs.Grows.{grows};
    ghost use Rattle.strand_plans.proofs.PlanLaws.{silent, asks-fit, hangs-up-open, leaves-nothing-open, keeps, wakes-quietly, ends-at-stop};
    ghost use Rattle.strand_plans.proofs.Executions as executions;
    ghost use Rattle.connection_plan.specs.Conditions.{MayAsk};
    ghost use Rattle.connection_plan.specs.Connections.{connection_plan, connection_behavior};
    ghost use Rattle.connection_plan.proofs.Meets.{meets};
    ghost use Rattle.connection_strand.specs.Views.{view_of, service, Known};
    ghost use Rattle.connection_strand.specs.Costs.{left_of};
    ghost use Rattle.connection_strand.specs.Following.{Follows};
    ghost use Rattle.connection_strand.specs.FollowingLaws.{still-follows};

    type Site = R::Site;

    type Job = R::Job;

    ghost meaning = { λ site. let view = view_of (R.meaning site) (R.serving site) in record {
      behavior = connection_behavior (service view);
      stands = Follows view;
    } };

    ghost left = { left_of R.left R.bound };

    ghost still = { λ site strand a es. still-follows (view_of (R.meaning site) (R.serving site)) (R.apart site) strand a es };

    ghost quiet = { λ site. executions.quiet (connection_plan (service (view_of (R.meaning site) (R.serving site)))) };

    ghost silent = { λ site. silent (connection_plan (service (view_of (R.meaning site) (R.serving site)))) };

    ghost grows = { λ site. grows (connection_plan (service (view_of (R.meaning site) (R.serving site)))) };

    ghost asks_last = { λ site. asks-last (connection_plan (service (view_of (R.meaning site) (R.serving site)))) };

    ghost asks_fit = { λ site. let view = view_of (R.meaning site) (R.serving site) in
        asks-fit (connection_plan (service view)) (Known view) (MayAsk (service view)) (meets (service view) view.meaning.holds (R.meets site)) };

    ghost hangs_up_open = { λ site. let view = view_of (R.meaning site) (R.serving site) in
        hangs-up-open (connection_plan (service view)) (Known view) (MayAsk (service view)) (meets (service view) view.meaning.holds (R.meets site)) };

    ghost leaves_nothing_open = { λ site. let view = view_of (R.meaning site) (R.serving site) in
        leaves-nothing-open (connection_plan (service view)) (Known view) (MayAsk (service view)) (meets (service view) view.meaning.holds (R.meets site)) };

    ghost keeps = { λ site. let view = view_of (R.meaning site) (R.serving site) in
        keeps (connection_plan (service view)) (Known view) (MayAsk (service view)) (meets (service view) view.meaning.holds (R.meets site)) };

    ghost wakes_quietly = { λ site. let view = view_of (R.meaning site) (R.serving site) in
        wakes-quietly (connection_plan (service view)) (Known view) (MayAsk (service view)) (meets (service view) view.meaning.holds (R.meets site)) };

    ghost ends_at_stop = { λ site. let view = view_of (R.meaning site) (R.serving site) in
        ends-at-stop (connection_plan (service view)) (Known view) (MayAsk (service view)) (meets (service view) view.meaning.holds (R.meets site)) };

    fn connections(site: &R::Site) -> u32 {
        <R as ServiceContract>::connections(site)
    }

    fn zones(site: &R::Site) -> u32 {
        R::zones(site)
    }

    fn zone_name(site: &R::Site, zone: u32) -> Option<&Bytes> {
        R::zone_name(site, zone)
    }

    fn zone_size(site: &R::Site, zone: u32) -> u64 {
        R::zone_size(site, zone)
    }

    fn begin(
        alloc: Global,
        site: &R::Site,
        now: Ms,
        start: Start<R::Job>,
    ) -> Result<(Self, Acts<R::Job>), AllocError>
        ensures { let view = view_of (R.meaning site.now) (R.serving site.now) in IfOk result (λ r.
            Follows view r.0 (Did (Began now.0 start) ∷ [])
            × (r.1.items ≡ (connection_behavior (service view)).acts (Did (Began now.0 start) ∷ []))) }
    {
        let mut connection = Connection::new(alloc, site, is_client(&start));
        let turn = Turn { alloc, moment: now };
        let mut progress = Progress {
            acts: VecDeque::new(alloc),
            is_offered: false,
        };
        let went = connection.take_first_turn(&turn, site, &mut progress, start);
        paired(connection, acts_of(progress, ended(went)))
    }

    fn given(
        &mut self,
        alloc: Global,
        site: &R::Site,
        now: Ms,
        seen: Seen,
    ) -> Result<Acts<R::Job>, AllocError> {
        let turn = Turn { alloc, moment: now };
        let mut progress = Progress {
            acts: VecDeque::new(alloc),
            is_offered: self.is_offered(&seen),
        };
        self.keeping = None;
        self.is_taking = takes(&seen);
        let done = self.see(&turn, site, &mut progress, seen);
        acts_of(progress, done)
    }

    fn answer(
        &mut self,
        alloc: Global,
        site: &R::Site,
        now: Ms,
        answer: Answer,
    ) -> Result<Acts<R::Job>, AllocError> {
        let turn = Turn { alloc, moment: now };
        let mut progress = Progress {
            acts: VecDeque::new(alloc),
            is_offered: self.is_still_offered(),
        };
        let done = self.take_answer(&turn, site, &mut progress, answer);
        acts_of(progress, done)
    }

    fn queued(&self, site: &R::Site, place: Place) -> &[u8] {
        match place {
            Place::Client => self.client.line.queued(),
            Place::Sock(socket) => self.piece_at(site, socket),
        }
    }

    fn wants(&self, place: Place) -> bool {
        match place {
            Place::Client => match self.client.stage {
                Stage::Idle | Stage::Head | Stage::Drop => true,
                Stage::Busy => self.waits.body || self.client.line.held_len() < ENOUGH,
                Stage::Flush => self.client.line.held_len() < ENOUGH,
                Stage::Over => false,
            },
            Place::Sock(socket) => match &self.run {
                Some(run) => run.wants(socket),
                None => false,
            },
        }
    }
}
