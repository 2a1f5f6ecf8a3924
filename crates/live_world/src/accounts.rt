//! What a live world keeps count of.

ghost use Rattle.std.specs.Prelude.{◌≤◌, ℕ};
ghost use Rattle.resty_base.specs.Counting.{Rose};

use crate::standings::{NOWHERE, Standing, Standings};
use resty_base::{Id, StrandId};
use resty_world::{Dial, Entry, Event, LAST_MOMENT, Noted, TimerAnswer, Wrote};
use std::alloc::Global;

/// The most bytes that an event has.
const LONGEST: usize = 65_536;

/// How the ids and the strands of a live world stand, and its counts.
#[derive(Drop)]
pub struct Accounts {
    pub standings: Standings,
    pub arrivals: u64,
    pub dials: u64,
    pub faults: u64,
    pub losses: u64,
    pub port: Option<u16>,
    /// How many entries may still be noted, each with room for the job that it may accept.
    pub spare: u64,
    ghost job_room: { spare ≤ standings.job_room },
}

/// A count that rises, and stands at its last value.
pub fn one_more(count: u64) -> u64
    ensures { Rose count result }
{
    count.saturating_add(1)
}

impl Accounts {
    ghost use Rattle.std.specs.Prelude.{◌≡◌, ◌<◌, IfSome, IfNone, true, if◌then◌else◌, Some};
    ghost use Rattle.resty_base.specs.declared.names.Id.{Id as Name};
    ghost use Rattle.resty_world.specs.Book.{KeepsTold, KeepsNumbers, KeepsCourse, KeepsCounts};
    ghost use Rattle.resty_world.specs.declared.answers.Listened.TheVariants as listened;
    ghost use Rattle.resty_world.specs.declared.answers.Logged.TheVariants as logged;
    ghost use Rattle.resty_world.specs.Contract.{Listens, Puts, Dials, HangsUp, Forgets, Logs, MakesRoom, Notes};
    ghost use Rattle.resty_world.specs.Given.{Gave};
    ghost use Rattle.resty_world.specs.Calls.{HasRoom, uses_aside, is_noted, IsPiece};
    ghost use Rattle.resty_world.specs.Ids.{is_own, same_strand};
    ghost use Rattle.resty_base.specs.declared.names.StrandId.{StrandId as Strand};
    ghost use Rattle.live_world.specs.Accounts.{book_of, IsNew};
    ghost use Rattle.std.specs.Prelude.{false, List, length};

    /// Nothing has happened; takes no memory.
    pub fn new(alloc: Global) -> Accounts
        ensures { IsNew (book_of result) }
    {
        Accounts {
            standings: Standings::new(alloc),
            arrivals: 0,
            dials: 0,
            faults: 0,
            losses: 0,
            port: None,
            spare: 0,
        }
    }

    /// The world listens on this port.
    pub fn listens(&mut self, port: u16)
        ensures { Listens port listened.Up (book_of self.old) (book_of self.new) }
    {
        self.port = Some(port);
    }

    /// Listening failed.
    pub fn listens_in_vain(&mut self)
        ensures { (port : ℕ) → Listens port listened.Failed (book_of self.old) (book_of self.new) }
    {
        self.faults = one_more(self.faults);
    }

    /// The event, where it fits what is known; then it is counted.
    pub fn gives(&mut self, event: Event) -> Option<Event>
        ensures some { IfSome result (λ event. Gave (book_of self.old) (book_of self.new) event) }
        ensures none { IfNone result (book_of self.new ≡ book_of self.old) }
    {
        if self.fits(&event) { Some(event) } else { None }
    }

    /// Counts the event, where it fits what is known: whether it does.
    fn fits(&mut self, event: &Event) -> bool
        ensures yes { result ≡ true → Gave (book_of self.old) (book_of self.new) event.now }
        ensures no { result ≡ false → book_of self.new ≡ book_of self.old }
    {
        match event {
            Event::Arrive(number) => self.arrives(*number),
            Event::Bytes(id, bytes) => self.may_bring(*id, bytes.len()),
            Event::Ended(id) => self.ends(*id),
            Event::Broken(id) => self.breaks(*id),
            Event::Ready(id) => self.standings.at(*id).is_open,
            Event::Dialled(number) | Event::Refused(number) => {
                self.standings.at(Id::Sock(*number)).is_open
            }
            Event::Moment(now) => now.0 <= LAST_MOMENT,
            Event::Fault => {
                self.faults = one_more(self.faults);
                true
            }
            Event::Memory => true,
            Event::Stop | Event::BadLine(_) => false,
        }
    }

    /// Whether so many bytes of the id may come.
    fn may_bring(&self, id: Id, count: usize) -> bool
        ensures open { result ≡ true → (book_of self.now).is_open id ≡ true }
        ensures going_on { result ≡ true → (book_of self.now).has_ended id ≡ false }
        ensures some { result ≡ true → 0 < count }
        ensures within { result ≡ true → count ≤ 65_536 }
    {
        let standing = self.standings.at(id);
        standing.is_open && !standing.has_ended && 0 < count && count <= LONGEST
    }

    /// The world fails.
    pub fn faults_at_end(&mut self) -> Event
        ensures { Gave (book_of self.old) (book_of self.new) result }
    {
        self.faults = one_more(self.faults);
        Event::Fault
    }

    /// The number of the next connection, once there is memory for it.
    pub fn reserve(&mut self) -> Option<u64>
        ensures { book_of self.new ≡ book_of self.old }
    {
        if self.standings.reserve_id().is_err() {
            return None;
        }
        self.arrivals.checked_add(1)
    }

    /// The connection of this number arrives, where it is the next one, and there is memory for it.
    fn arrives(&mut self, number: u64) -> bool
        ensures yes { result ≡ true → Gave (book_of self.old) (book_of self.new) (Event.Arrive number) }
        ensures no { result ≡ false → book_of self.new ≡ book_of self.old }
    {
        let Some(next) = self.arrivals.checked_add(1) else {
            return false;
        };
        if number != next || self.standings.reserve_id().is_err() {
            return false;
        }
        self.arrivals = next;
        self.standings.add(
            Id::Conn(number),
            Standing {
                is_open: true,
                has_ended: false,
                is_aside: true,
            },
        );
        true
    }

    /// No bytes of the id come any more, where it is open.
    fn ends(&mut self, id: Id) -> bool
        ensures yes { result ≡ true → Gave (book_of self.old) (book_of self.new) (Event.Ended id) }
        ensures no { result ≡ false → book_of self.new ≡ book_of self.old }
    {
        let standing = self.standings.at(id);
        if !standing.is_open {
            return false;
        }
        self.standings.change(
            id,
            Standing {
                has_ended: true,
                ..standing
            },
        );
        true
    }

    /// The id breaks, where it is open, and something is lost.
    fn breaks(&mut self, id: Id) -> bool
        ensures yes { result ≡ true → Gave (book_of self.old) (book_of self.new) (Event.Broken id) }
        ensures no { result ≡ false → book_of self.new ≡ book_of self.old }
    {
        if !self.ends(id) {
            return false;
        }
        self.losses = one_more(self.losses);
        true
    }

    /// The answer of a write of a piece of so many bytes; where it broke, something is lost.
    pub fn wrote(&mut self, answer: Wrote)
        ensures { (id : Name) → (bytes : List ℕ) → IsPiece (length bytes) answer → Puts id bytes answer (book_of self.old) (book_of self.new) }
    {
        if answer == Wrote::Broken {
            self.losses = one_more(self.losses);
        }
    }

    /// The socket that was dialled, where there is memory for it.
    pub fn dials(&mut self) -> Dial
        ensures { (who : Strand) → (host : List ℕ) → (port : ℕ) → Dials who host port result (book_of self.old) (book_of self.new) }
    {
        let Some(number) = self.dials.checked_add(1) else {
            return Dial::Memory;
        };
        if self.standings.reserve_id().is_err() {
            return Dial::Memory;
        }
        self.dials = number;
        self.standings.add(
            Id::Sock(number),
            Standing {
                is_open: true,
                has_ended: false,
                is_aside: false,
            },
        );
        Dial::Started(number)
    }

    /// Dialling failed.
    pub fn dials_in_vain(&mut self)
        ensures { (who : Strand) → (host : List ℕ) → (port : ℕ) → Dials who host port Dial.Failed (book_of self.old) (book_of self.new) }
    {
        self.losses = one_more(self.losses);
    }

    /// The id is closed.
    pub fn hang_up(&mut self, id: Id)
        requires { (book_of self.old).is_open id ≡ true }
        ensures { HangsUp id (book_of self.old) (book_of self.new) }
    {
        let standing = self.standings.at(id);
        match id {
            Id::Conn(_) => self.standings.change(
                id,
                Standing {
                    is_open: false,
                    ..standing
                },
            ),
            Id::Sock(_) => self.standings.remove(id),
        }
    }

    /// The strand is over.
    pub fn forget(&mut self, who: StrandId)
        requires { (x : Name) → is_own who x ≡ true → (book_of self.old).is_open x ≡ false }
        ensures { Forgets who (book_of self.old) (book_of self.new) }
    {
        match who {
            StrandId::Conn(number) => self.standings.remove(Id::Conn(number)),
            StrandId::Job(number) => self.standings.remove_job(number),
        }
    }

    /// A log line wasn't written.
    pub fn logs_in_vain(&mut self)
        ensures { (who : Strand) → (line : List ℕ) → Logs who line logged.Failed (book_of self.old) (book_of self.new) }
    {
        self.faults = one_more(self.faults);
    }

    /// Makes room for one entry that is noted.
    pub fn make_room(&mut self) -> Noted
        ensures { MakesRoom result (book_of self.old) (book_of self.new) }
    {
        if self.spare > 0 {
            return Noted::Done;
        }
        if self.standings.reserve_job().is_err() {
            return Noted::Memory;
        }
        self.spare = 1;
        Noted::Done
    }

    /// An entry is noted.
    pub fn note(&mut self, entry: &Entry)
        requires kind { is_noted entry.now ≡ true }
        requires room { HasRoom (book_of self.old) (uses_aside entry.now) }
        ensures { Notes entry.now (Some entry.now) (book_of self.old) (book_of self.new) }
    {
        match entry {
            Entry::Dropped(who) => self.uses(*who),
            Entry::Turned(number) => self.uses(StrandId::Conn(*number)),
            Entry::Timer(_, _, TimerAnswer::Job(number)) => {
                self.spare -= 1;
                self.standings.add_job(*number);
            }
            _ => self.spare -= 1,
        }
    }

    /// Uses the room that is set aside for the strand.
    fn uses(&mut self, who: StrandId)
        requires { (book_of self.old).strand_aside who ≡ true }
        ensures is_open { (x : Name) → (book_of self.new).is_open x ≡ (book_of self.old).is_open x }
        ensures has_ended { (x : Name) → (book_of self.new).has_ended x ≡ (book_of self.old).has_ended x }
        ensures strand_aside { (s : Strand) → (book_of self.new).strand_aside s ≡ (if same_strand s who then false else (book_of self.old).strand_aside s) }
        ensures entered { KeepsTold (book_of self.old) (book_of self.new) }
        ensures numbers { KeepsNumbers (book_of self.old) (book_of self.new) }
        ensures course { KeepsCourse (book_of self.old) (book_of self.new) }
        ensures counts { KeepsCounts (book_of self.old) (book_of self.new) }
        ensures spare { self.new.spare ≡ self.old.spare }
    {
        match who {
            StrandId::Conn(number) => {
                let id = Id::Conn(number);
                let standing = self.standings.at(id);
                self.standings.change(
                    id,
                    Standing {
                        is_aside: false,
                        ..standing
                    },
                );
            }
            StrandId::Job(number) => self.standings.remove_job(number),
        }
    }
}
