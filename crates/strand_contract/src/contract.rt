//! The contract that a strand meets: its calls, each a turn of its behavior, and the laws of what it does.

use crate::{Acts, Answer, Place, Seen, Start};
use resty_base::{Bytes, Ms};
use std::alloc::{AllocError, Global};

/// One strand, by what it does and not by how it does it. Once it ran out of memory it may only be dropped.
pub trait StrandContract: Drop {
    ghost use Rattle.std.specs.Prelude.{◌≡◌, ◌<◌, ◌+◌, List, ℕ, ◌∷◌, IfOk, true, length, option_map};
    ghost use Rattle.strand_contract.specs.Actions.{LocalAction};
    ghost use Rattle.strand_contract.specs.Behaviors.{Meaning, name_at};
    ghost use Rattle.strand_contract.specs.Calls.{is_own_turn, Begins, MayBeShown, TakesTurn, MayBeAnswered, TakesAnswer, HasPiece};
    ghost use Rattle.strand_contract.specs.Laws.{is_still, IsQuiet, IsSilent, Grows, AsksLast, AsksFit, HangsUpOpen, LeavesNothingOpen, Keeps};
    ghost use Rattle.strand_contract.specs.Laws.{WakesQuietly, EndsAtStop};

    /// What all strands of one server share.
    type Site: Drop;

    /// How a timer job starts.
    type Job: Drop;

    /// What the site's strands do, and to which of its own executions a strand may have come.
    ghost meaning: { Self.Site → Meaning Self Self.Job };

    /// How much it can do until it is at rest, counted in turns and acts.
    ghost left: { Self → ℕ };

    /// How many connections may be open at a time.
    fn connections(site: &Self::Site) -> u32
        ensures { result ≡ (meaning site.now).behavior.connections };

    /// How many dictionaries the site has; they are numbered from 0.
    fn zones(site: &Self::Site) -> u32
        ensures { result ≡ (meaning site.now).behavior.zones };

    /// The name of the dictionary of that number; none where the site has no such dictionary.
    fn zone_name(site: &Self::Site, zone: u32) -> Option<&Bytes>
        ensures { option_map (λ name. name.now) result ≡ name_at (meaning site.now).behavior zone };

    /// Its size in bytes.
    fn zone_size(site: &Self::Site, zone: u32) -> u64
        ensures { result ≡ (meaning site.now).behavior.zone_size zone };

    /// Begins at the moment `now`.
    fn begin(
        alloc: Global,
        site: &Self::Site,
        now: Ms,
        start: Start<Self::Job>,
    ) -> Result<(Self, Acts<Self::Job>), AllocError>
        ensures { IfOk result (λ r. Begins (meaning site.now) now start r.0 r.1.items) };

    /// Takes the turn that begins with what it is shown, at the present moment.
    fn given(
        &mut self,
        alloc: Global,
        site: &Self::Site,
        now: Ms,
        seen: Seen,
    ) -> Result<Acts<Self::Job>, AllocError>
        requires { MayBeShown (meaning site.now) now seen self.old }
        ensures turn { IfOk result (λ acts. TakesTurn (meaning site.now) now seen self.old self.new acts.items) }
        ensures left { is_own_turn seen ≡ true → IfOk result (λ acts. left self.new + length acts.items < left self.old) };

    /// Takes the turn that begins with the answer to the act that awaits it.
    fn answer(
        &mut self,
        alloc: Global,
        site: &Self::Site,
        now: Ms,
        answer: Answer,
    ) -> Result<Acts<Self::Job>, AllocError>
        requires { MayBeAnswered (meaning site.now) now answer self.old }
        ensures turn { IfOk result (λ acts. TakesAnswer (meaning site.now) now answer self.old self.new acts.items) }
        ensures left { IfOk result (λ acts. left self.new + length acts.items < left self.old) };

    /// The piece that is offered next at the place, while the strand lives. It takes no memory.
    fn queued(&self, site: &Self::Site, place: Place) -> &[u8]
        ensures { HasPiece (meaning site.now) self.now place result.now };

    /// Whether it wants bytes of the place now: a hint that changes nothing of what is promised. A live world doesn't
    /// read an id whose bytes aren't wanted.
    fn wants(&self, place: Place) -> bool;

    /// What is no turn of its own leaves it as it is.
    ghost still: { (site : Self.Site) (strand : Self) (a : LocalAction Self.Job) (es : List (LocalAction Self.Job))
        → is_still a ≡ true → (meaning site).stands strand es → (meaning site).stands strand (a ∷ es) };

    /// What is no turn of its own gives no acts.
    ghost quiet: { (site : Self.Site) → IsQuiet (meaning site).behavior };

    /// What is no turn of its own sends nothing.
    ghost silent: { (site : Self.Site) → IsSilent (meaning site).behavior };

    /// What was sent stays sent: more comes after it.
    ghost grows: { (site : Self.Site) → Grows (meaning site).behavior };

    /// Only its last act awaits an answer or ends its life.
    ghost asks_last: { (site : Self.Site) → AsksLast (meaning site).behavior };

    /// A dictionary that it calls is there, and the call is in range; a socket that it keeps is open, and for at most so long.
    ghost asks_fit: { (site : Self.Site) → AsksFit (meaning site).behavior };

    /// It hangs up what is open, while it lives.
    ghost hangs_up_open: { (site : Self.Site) → HangsUpOpen (meaning site).behavior };

    /// Its life is over only once nothing of it is open.
    ghost leaves_nothing_open: { (site : Self.Site) → LeavesNothingOpen (meaning site).behavior };

    /// At rest it holds nothing back.
    ghost keeps: { (site : Self.Site) → Keeps (meaning site).behavior };

    /// When a deadline is due, and when a job begins, it awaits no answer and arms nothing: so one moment's turns come to an end.
    ghost wakes_quietly: { (site : Self.Site) → WakesQuietly (meaning site).behavior };

    /// Stop ends its life.
    ghost ends_at_stop: { (site : Self.Site) → EndsAtStop (meaning site).behavior };
}
