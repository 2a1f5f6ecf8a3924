//! The contract that a run meets.

use crate::{RunSeen, RunTurn};
use http_in::Head;
use resty_base::{Bytes, Ms};
use std::alloc::{AllocError, Global};
use strand_contract::Answer;
use uri_args::Target;

/// What answers one request of a connection, or is a timer job, by what it does and not by how it does it. Once it ran out of memory it may
/// only be dropped.
pub trait RunContract: Drop {
    ghost use Rattle.std.specs.Prelude.{◌≡◌, ◌<◌, ◌≤◌, ◌+◌, true, ℕ, IfOk, option_map};
    ghost use Rattle.strand_plans.specs.Ledgers.{Ledger};
    ghost use Rattle.run_contract.specs.Runs.{name_at};
    ghost use Rattle.run_contract.specs.Alike.{AreAlike};
    ghost use Rattle.run_contract.specs.Conditions.{IsRun};
    ghost use Rattle.run_contract.specs.Calls.{Meaning, is_own_turn, size_of, Begins, BeginsJob, MayBeTold, TakesTurn, MayBeAnswered, TakesAnswer, HasPiece};

    /// What all runs of one server share.
    type Site: Drop;

    /// How a timer job starts.
    type Job: Drop;

    /// What a run keeps beside the ledger of its strand, as its plan has it.
    ghost Inner: { Type 0 };

    /// What the runs of a site do, what a run knows, and to what it may have come.
    ghost meaning: { Self.Site → Meaning Self Self.Job Inner };

    /// How much it can do until it waits for a socket or the client, counted in turns, acts, words and questions.
    ghost left: { Self → ℕ };

    /// The most that a run can do so from its beginning, that turn with it.
    ghost most: { Self.Site → ℕ };

    /// How many dictionaries the site has; they are numbered from 0.
    fn zones(site: &Self::Site) -> u32
        ensures { result ≡ (meaning site.now).plan.zones };

    /// The name of the dictionary of that number; none where the site has no such dictionary.
    fn zone_name(site: &Self::Site, zone: u32) -> Option<&Bytes>
        ensures { option_map (λ name. name.now) result ≡ name_at (meaning site.now).plan zone };

    /// Its size in bytes.
    fn zone_size(site: &Self::Site, zone: u32) -> u64
        ensures { result ≡ (meaning site.now).plan.zone_size zone };

    /// Begins to answer a request at the moment `now`; its connection had so many sockets before. A request that no handler answers needs no thread:
    /// its reply may be said here, whole.
    fn begin(
        alloc: Global,
        site: &Self::Site,
        now: Ms,
        sockets: u32,
        head: Head,
        target: Target,
    ) -> Result<(Self, RunTurn<Self::Job>), AllocError>
        ensures turn { IfOk result (λ r. Begins (meaning site.now) now.0 sockets head target r.0 r.1) }
        ensures left { IfOk result (λ r. left r.0 + size_of r.1 ≤ most site.now) };

    /// Begins as a timer job at the moment `now`, before its time where the server stops. It has no client.
    fn begin_job(
        alloc: Global,
        site: &Self::Site,
        now: Ms,
        premature: bool,
        job: Self::Job,
    ) -> Result<(Self, RunTurn<Self::Job>), AllocError>
        ensures { IfOk result (λ r. BeginsJob (meaning site.now) now.0 premature job r.0 r.1) };

    /// Takes the turn that begins with what it is told, at the present moment.
    fn given(
        &mut self,
        alloc: Global,
        site: &Self::Site,
        now: Ms,
        seen: RunSeen,
    ) -> Result<RunTurn<Self::Job>, AllocError>
        requires { MayBeTold (meaning site.now) now.0 seen self.old }
        ensures turn { IfOk result (λ turn. TakesTurn (meaning site.now) now.0 seen self.old self.new turn) }
        ensures left { is_own_turn seen ≡ true → IfOk result (λ turn. left self.new + size_of turn < left self.old) };

    /// Takes the turn that begins with the answer to the act that awaits it.
    fn answer(
        &mut self,
        alloc: Global,
        site: &Self::Site,
        now: Ms,
        answer: Answer,
    ) -> Result<RunTurn<Self::Job>, AllocError>
        requires { MayBeAnswered (meaning site.now) answer self.old }
        ensures turn { IfOk result (λ turn. TakesAnswer (meaning site.now) now.0 answer self.old self.new turn) }
        ensures left { IfOk result (λ turn. left self.new + size_of turn < left self.old) };

    /// The piece that is offered next at the socket of this number, nothing where it isn't open. It takes no memory.
    fn queued(&self, site: &Self::Site, socket: u32) -> &[u8]
        ensures { HasPiece (meaning site.now) self.now socket result.now };

    /// Whether it wants bytes of the socket now: a hint that changes nothing of what is promised.
    fn wants(&self, socket: u32) -> bool;

    /// What a run has to show of its plan.
    ghost meets: { (site : Self.Site) → IsRun (meaning site).plan (meaning site).holds };

    /// What concerns only the client, or only the queue of offers, leaves it as it is.
    ghost apart: { (site : Self.Site) (run : Self) (b c : Ledger Self.Job) (r : Inner) → AreAlike b c
        → (meaning site).stands run b r → (meaning site).stands run c r };
}
