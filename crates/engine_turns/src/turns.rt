//! The turns of the strands that live: what is held of each, and how its acts are carried out, it is woken, its threads run and its places are
//! offered.

use engine_base::{Seat, ToCome};
use engine_tables::{Agenda, Seats};
use resty_base::{Id, Ms, StrandId};
use resty_world::{Entry, Logged, World, Wrote};
use std::alloc::Global;
use std::collections::VecDeque;
use strand_contract::{Act, Acts, Place, Seen, StrandContract};
use wakes::RunQueue;

/// The strands that live, the threads that are to run, the places that are to be offered, and the deadlines that are armed.
#[derive(Drop)]
pub struct Turns<S> {
    pub alloc: Global,
    pub seats: Seats<Seat<S>>,
    pub run_queue: RunQueue,
    pub offer_queue: VecDeque<(StrandId, Place)>,
    /// Whether places are offered now, and no threads run.
    pub in_offers: bool,
    pub now: Ms,
    pub agenda: Agenda,
    /// How many connections are open.
    pub connections: u64,
    /// What the newest event still brings about by itself.
    pub to_come: ToCome,
    /// Whether a log line wasn't written in this step.
    pub log_failed: bool,
}

/// How an act was carried out.
#[derive(Clone, Copy, Debug, PartialEq, Eq)]
pub(crate) enum Carried {
    Done,
    /// The strand's life is over.
    Over,
    /// It couldn't be, and the strand is to be given up.
    Refused,
}

impl<S: StrandContract> Turns<S> {
    ghost use Rattle.std.specs.Prelude.{◌≡◌, ◌<◌, ◌≤◌, ◌+◌, List, [], ◌∷◌, Bool, true, false, None, MatchOption, IfSome, length};
    ghost use Rattle.strand_contract.specs.Calls.{is_own_turn};
    ghost use Rattle.strand_contract.specs.declared.turns.Act.{Act};
    ghost use Rattle.resty_world.specs.Book.{Book};
    ghost use Rattle.resty_base.specs.declared.names.Id.{Id};
    ghost use Rattle.resty_base.specs.declared.names.StrandId.{StrandId};
    ghost use Rattle.executions.specs.Agenda.{without_those, is_of, least, whose};
    ghost use Rattle.engine_base.specs.declared.seats.ToCome.{ToCome};
    ghost use Rattle.engine_base.specs.Right.{IsFresh};
    ghost use Rattle.engine_turns.specs.Turns.{Stands, Rests, IsTurn, IsBusy, IsDone, IsFalling, IsCarried, KeepsPhase, work, left_of};
    ghost use Rattle.engine_turns.specs.Worked.{Works};

    /// No strands, at the moment 0; takes no memory.
    pub fn new(alloc: Global) -> Turns<S>
        ensures { (site : S.Site) (book : Book) → IsFresh book → Rests (S.meaning site) result book }
    {
        Turns {
            alloc,
            seats: Seats::new(alloc),
            run_queue: RunQueue::new(alloc),
            offer_queue: VecDeque::new(alloc),
            in_offers: false,
            now: Ms(0),
            agenda: Agenda::new(alloc),
            connections: 0,
            to_come: ToCome::Nothing,
            log_failed: false,
        }
    }

    /// Gives a strand up: notes that it was dropped, closes its connection, and takes its seat and its deadlines away.
    pub fn give_up<W: World>(&mut self, connection: u64, is_open: bool, world: &mut W)
        requires { (site : S.Site) × IsFalling (S.meaning site) connection is_open self.old (W.book world.old) }
        ensures standing { (site : S.Site) → IsFalling (S.meaning site) connection is_open self.old (W.book world.old)
            → Stands (S.meaning site) self.new (W.book world.new) }
        ensures works { Works W.same W.book self.old self.new world.old world.new }
        ensures kept { self.new ≡ record self.old {
          seats = self.new.seats;
          connections = self.new.connections;
          agenda = without_those (is_of (StrandId.Conn connection)) self.old.agenda;
        } }
        ensures work { work S.left self.new ≤ work S.left self.old }
    {
        let who = StrandId::Conn(connection);
        let _ = world.note(Entry::Dropped(who));
        self.agenda.end(who);
        self.seats.end(who);
        if is_open {
            world.hang_up(Id::Conn(connection));
            self.connections = self.connections.saturating_sub(1);
        }
        world.forget(who);
    }

    /// Carries out one act of a turn.
    fn carry_out<W: World>(
        &mut self,
        connection: u64,
        seat: &mut Seat<S>,
        act: Act<S::Job>,
        world: &mut W,
    ) -> Carried
        requires { (site : S.Site) × (rest : List (Act S.Job)) × (go : Bool)
            × IsBusy (S.meaning site) connection seat.old (act ∷ rest) go self.old (W.book world.old) }
        ensures carried { (site : S.Site) (rest : List (Act S.Job)) (go : Bool)
            → IsBusy (S.meaning site) connection seat.old (act ∷ rest) go self.old (W.book world.old)
            → IsCarried (S.meaning site) connection seat.new rest go self.new (W.book world.new) result }
        ensures works { Works W.same W.book self.old self.new world.old world.new }
        ensures phase { KeepsPhase self.old self.new }
        ensures strand { seat.new.strand ≡ seat.old.strand }
        ensures work { work S.left self.new ≤ work S.left self.old + 1 }
    {
        match act {
            Act::Ready(thread) => match self.run_queue.reserve(1) {
                Ok(()) => {
                    self.run_queue.push(StrandId::Conn(connection), thread);
                    Carried::Done
                }
                Err(_) => Carried::Refused,
            },
            Act::Unready(thread) => {
                self.run_queue.remove(StrandId::Conn(connection), thread);
                Carried::Done
            }
            Act::Offer(place) => match self
                .offer_queue
                .push_back((StrandId::Conn(connection), place))
            {
                Ok(()) => Carried::Done,
                Err(_) => Carried::Refused,
            },
            Act::Arm(number, at) => match self.agenda.arm(StrandId::Conn(connection), number, at) {
                Ok(()) => Carried::Done,
                Err(_) => Carried::Refused,
            },
            Act::Cancel(number) => {
                self.agenda.cancel(StrandId::Conn(connection), number);
                Carried::Done
            }
            Act::HangUp(place) => match place {
                Place::Client => {
                    world.hang_up(Id::Conn(connection));
                    seat.is_open = false;
                    self.connections = self.connections.saturating_sub(1);
                    Carried::Done
                }
                Place::Sock(_) => Carried::Refused,
            },
            Act::Log(line) => match world.write_log(
                self.alloc,
                StrandId::Conn(connection),
                line.as_slice(),
            ) {
                Logged::Done => Carried::Done,
                Logged::Failed => {
                    self.log_failed = true;
                    Carried::Done
                }
                Logged::Memory => Carried::Refused,
            },
            Act::Gone => {
                self.agenda.end(StrandId::Conn(connection));
                self.seats.end(StrandId::Conn(connection));
                world.forget(StrandId::Conn(connection));
                Carried::Over
            }
            // There are no sockets, dictionaries, pools and timers yet.
            _ => Carried::Refused,
        }
    }

    /// Carries out the acts of a turn; the strand comes back if it still lives.
    pub fn carry<W: World>(
        &mut self,
        connection: u64,
        mut seat: Seat<S>,
        mut acts: Acts<S::Job>,
        going: bool,
        world: &mut W,
    ) -> Option<Seat<S>>
        requires { (site : S.Site) × IsBusy (S.meaning site) connection seat acts.items going self.old (W.book world.old) }
        ensures lives { (site : S.Site) → IsBusy (S.meaning site) connection seat acts.items going self.old (W.book world.old)
            → MatchOption result (Stands (S.meaning site) self.new (W.book world.new))
            (λ next. IsBusy (S.meaning site) connection next [] going self.new (W.book world.new)) }
        ensures works { Works W.same W.book self.old self.new world.old world.new }
        ensures phase { KeepsPhase self.old self.new }
        ensures work { work S.left self.new + left_of S.left result ≤ work S.left self.old + S.left seat.strand + length acts.items }
    {
        while let Some(act) = acts.pop_front() {
            match self.carry_out(connection, &mut seat, act, world) {
                Carried::Done => {}
                Carried::Over => return None,
                Carried::Refused => {
                    self.give_up(connection, seat.is_open, world);
                    return None;
                }
            }
        }
        Some(seat)
    }

    /// Shows the strand something, and carries out what follows; it comes back if it still lives.
    fn show<W: World>(
        &mut self,
        site: &S::Site,
        connection: u64,
        mut seat: Seat<S>,
        seen: Seen,
        going: bool,
        world: &mut W,
    ) -> Option<Seat<S>>
        requires { IsTurn (S.meaning site.now) connection seat seen going self.old (W.book world.old) }
        ensures lives { MatchOption result (Stands (S.meaning site.now) self.new (W.book world.new))
            (λ next. IsBusy (S.meaning site.now) connection next [] going self.new (W.book world.new)) }
        ensures works { Works W.same W.book self.old self.new world.old world.new }
        ensures phase { KeepsPhase self.old self.new }
        ensures work { is_own_turn seen ≡ true → work S.left self.new + left_of S.left result ≤ work S.left self.old + S.left seat.strand }
        ensures less { is_own_turn seen ≡ true
            → IfSome result (λ next. work S.left self.new + S.left next.strand < work S.left self.old + S.left seat.strand) }
    {
        match seat.strand.given(self.alloc, site, self.now, seen) {
            Ok(acts) => self.carry(connection, seat, acts, going, world),
            Err(_) => {
                self.give_up(connection, seat.is_open, world);
                None
            }
        }
    }

    /// Says to the world whether the strand wants bytes of its client, where that changed and the connection is open.
    fn say_wanted<W: World>(connection: u64, seat: &mut Seat<S>, world: &mut W)
        requires { seat.old.is_open ≡ true → (W.book world.old).is_open (Id.Conn connection) ≡ true }
        ensures seat { seat.new ≡ record seat.old { wanted = seat.new.wanted } }
        ensures book { W.book world.new ≡ W.book world.old }
        ensures same { W.same world.old world.new }
    {
        let wanted = seat.strand.wants(Place::Client);
        if seat.is_open && wanted != seat.wanted {
            world.wants(Id::Conn(connection), wanted);
            seat.wanted = wanted;
        }
    }

    /// Gives a strand that began its seat, once its first turn is over; out of memory it is given up.
    pub fn begin<W: World>(&mut self, connection: u64, mut seat: Seat<S>, world: &mut W)
        requires { (site : S.Site) × IsDone (S.meaning site) connection seat self.old (W.book world.old) }
        ensures standing { (site : S.Site) → IsDone (S.meaning site) connection seat self.old (W.book world.old)
            → Stands (S.meaning site) self.new (W.book world.new) }
        ensures works { Works W.same W.book self.old self.new world.old world.new }
        ensures phase { KeepsPhase self.old self.new }
        ensures work { work S.left self.new ≤ work S.left self.old + S.left seat.strand }
    {
        Self::say_wanted(connection, &mut seat, world);
        let is_open = seat.is_open;
        match self.seats.begin(connection, seat) {
            Ok(()) => {}
            Err(_) => self.give_up(connection, is_open, world),
        }
    }

    /// Gives a strand its seat again, once its turn is over. The seat was vacant during the turn, so that it takes no memory.
    pub fn put_back<W: World>(&mut self, connection: u64, mut seat: Seat<S>, world: &mut W)
        requires { (site : S.Site) × IsDone (S.meaning site) connection seat self.old (W.book world.old) }
        ensures standing { (site : S.Site) → IsDone (S.meaning site) connection seat self.old (W.book world.old)
            → Stands (S.meaning site) self.new (W.book world.new) }
        ensures works { Works W.same W.book self.old self.new world.old world.new }
        ensures phase { KeepsPhase self.old self.new }
        ensures work { work S.left self.new ≤ work S.left self.old + S.left seat.strand }
    {
        Self::say_wanted(connection, &mut seat, world);
        let is_open = seat.is_open;
        if !self.seats.put_back(connection, seat) {
            self.give_up(connection, is_open, world);
        }
    }

    /// Shows the strand something, and gives it its seat again if it still lives.
    pub fn take_turn<W: World>(
        &mut self,
        site: &S::Site,
        connection: u64,
        seat: Seat<S>,
        seen: Seen,
        world: &mut W,
    )
        requires { IsTurn (S.meaning site.now) connection seat seen false self.old (W.book world.old) }
        ensures standing { Stands (S.meaning site.now) self.new (W.book world.new) }
        ensures works { Works W.same W.book self.old self.new world.old world.new }
        ensures phase { KeepsPhase self.old self.new }
        ensures work { is_own_turn seen ≡ true → work S.left self.new ≤ work S.left self.old + S.left seat.strand }
    {
        if let Some(next) = self.show(site, connection, seat, seen, false, world) {
            self.put_back(connection, next, world);
        }
    }

    /// Shows its strand the deadline that is due first, and says whether one was due.
    fn wake_next<W: World>(&mut self, site: &S::Site, world: &mut W) -> bool
        requires standing { Stands (S.meaning site.now) self.old (W.book world.old) }
        requires in_offers { self.old.in_offers ≡ false }
        requires to_come { self.old.to_come ≡ ToCome.Wakings }
        ensures standing { Stands (S.meaning site.now) self.new (W.book world.new) }
        ensures works { Works W.same W.book self.old self.new world.old world.new }
        ensures phase { KeepsPhase self.old self.new }
        ensures none { result ≡ false → whose (least self.new.now.0 self.new.agenda) ≡ None }
        ensures less { result ≡ true → work S.left self.new < work S.left self.old }
    {
        let Some((who, number)) = self.agenda.due(self.now) else {
            return false;
        };
        // Whose deadline is armed is a connection's strand, and has a seat.
        let Some(seat) = self.seats.take(who) else {
            return true;
        };
        let StrandId::Conn(connection) = who else {
            return true;
        };
        self.take_turn(site, connection, seat, Seen::Due(number), world);
        true
    }

    /// Shows their strands all deadlines that are due: the earliest first, of equals the one that was armed first.
    pub fn wake<W: World>(&mut self, site: &S::Site, world: &mut W)
        requires standing { Stands (S.meaning site.now) self.old (W.book world.old) }
        requires in_offers { self.old.in_offers ≡ false }
        requires to_come { self.old.to_come ≡ ToCome.Wakings }
        ensures standing { Stands (S.meaning site.now) self.new (W.book world.new) }
        ensures works { Works W.same W.book self.old self.new world.old world.new }
        ensures to_come { self.new.to_come ≡ ToCome.Nothing }
    {
        while self.wake_next(site, world) {}
        self.to_come = ToCome::Nothing;
    }

    /// Runs the first thread in the queue whose strand lives, and says whether there was one.
    fn run_next<W: World>(&mut self, site: &S::Site, world: &mut W) -> bool
        requires standing { Stands (S.meaning site.now) self.old (W.book world.old) }
        requires in_offers { self.old.in_offers ≡ false }
        requires to_come { self.old.to_come ≡ ToCome.Nothing }
        ensures standing { Stands (S.meaning site.now) self.new (W.book world.new) }
        ensures works { Works W.same W.book self.old self.new world.old world.new }
        ensures phase { KeepsPhase self.old self.new }
        ensures none { result ≡ false → self.new.run_queue.threads ≡ [] }
        ensures offers { result ≡ false → self.new.offer_queue.items ≡ self.old.offer_queue.items }
        ensures kept { work S.left self.new ≤ work S.left self.old }
        ensures less { result ≡ true → work S.left self.new < work S.left self.old }
    {
        while let Some((who, thread)) = self.run_queue.pop() {
            if let Some(seat) = self.seats.take(who) {
                if let StrandId::Conn(connection) = who {
                    self.take_turn(site, connection, seat, Seen::Run(thread), world);
                    return true;
                }
            }
        }
        false
    }

    /// Offers what the client is sent piece by piece, until nothing is left or it is put off.
    fn offer<W: World>(&mut self, site: &S::Site, connection: u64, mut seat: Seat<S>, world: &mut W)
        requires { IsBusy (S.meaning site.now) connection seat [] true self.old (W.book world.old) }
        ensures standing { Stands (S.meaning site.now) self.new (W.book world.new) }
        ensures works { Works W.same W.book self.old self.new world.old world.new }
        ensures phase { KeepsPhase self.old self.new }
        ensures work { work S.left self.new ≤ work S.left self.old + S.left seat.strand }
    {
        loop {
            let piece = seat.strand.queued(site, Place::Client);
            if piece.is_empty() {
                self.put_back(connection, seat, world);
                return;
            }
            match world.put_bytes(self.alloc, Id::Conn(connection), piece) {
                Wrote::Took(count) => match self.show(
                    site,
                    connection,
                    seat,
                    Seen::Took(Place::Client, count),
                    true,
                    world,
                ) {
                    Some(next) => seat = next,
                    None => return,
                },
                Wrote::Later => {
                    self.take_turn(site, connection, seat, Seen::Later(Place::Client), world);
                    return;
                }
                Wrote::Broken => {
                    self.take_turn(site, connection, seat, Seen::Lost(Place::Client), world);
                    return;
                }
                Wrote::Memory => {
                    self.give_up(connection, seat.is_open, world);
                    return;
                }
            }
        }
    }

    /// Offers the first place in the queue whose strand lives, and says whether there was one.
    fn offer_next<W: World>(&mut self, site: &S::Site, world: &mut W) -> bool
        requires standing { Stands (S.meaning site.now) self.old (W.book world.old) }
        requires in_offers { self.old.in_offers ≡ true }
        requires to_come { self.old.to_come ≡ ToCome.Nothing }
        ensures standing { Stands (S.meaning site.now) self.new (W.book world.new) }
        ensures works { Works W.same W.book self.old self.new world.old world.new }
        ensures phase { KeepsPhase self.old self.new }
        ensures none { result ≡ false → self.new.offer_queue.items ≡ [] }
        ensures runs { result ≡ false → self.new.run_queue.threads ≡ self.old.run_queue.threads }
        ensures kept { work S.left self.new ≤ work S.left self.old }
        ensures less { result ≡ true → work S.left self.new < work S.left self.old }
    {
        while let Some((who, place)) = self.offer_queue.pop_front() {
            if let Some(seat) = self.seats.take(who) {
                if let StrandId::Conn(connection) = who {
                    self.offer_place(site, connection, place, seat, world);
                    return true;
                }
            }
        }
        false
    }

    /// Offers a place of a strand whose turn it is.
    fn offer_place<W: World>(
        &mut self,
        site: &S::Site,
        connection: u64,
        place: Place,
        seat: Seat<S>,
        world: &mut W,
    )
        requires client { place ≡ Place.Client → IsBusy (S.meaning site.now) connection seat [] true self.old (W.book world.old) }
        requires falls { IsFalling (S.meaning site.now) connection seat.is_open self.old (W.book world.old) }
        ensures standing { Stands (S.meaning site.now) self.new (W.book world.new) }
        ensures works { Works W.same W.book self.old self.new world.old world.new }
        ensures phase { KeepsPhase self.old self.new }
        ensures work { work S.left self.new ≤ work S.left self.old + S.left seat.strand }
    {
        match place {
            Place::Client => self.offer(site, connection, seat, world),
            // No strand has a socket yet.
            Place::Sock(_) => self.give_up(connection, seat.is_open, world),
        }
    }

    /// One turn, of a thread or of a place; false where both queues are empty.
    fn turn<W: World>(&mut self, site: &S::Site, world: &mut W) -> bool
        requires standing { Stands (S.meaning site.now) self.old (W.book world.old) }
        requires to_come { self.old.to_come ≡ ToCome.Nothing }
        ensures standing { Stands (S.meaning site.now) self.new (W.book world.new) }
        ensures works { Works W.same W.book self.old self.new world.old world.new }
        ensures to_come { self.new.to_come ≡ ToCome.Nothing }
        ensures none { result ≡ false → (self.new.run_queue.threads ≡ []) × (self.new.offer_queue.items ≡ []) }
        ensures less { result ≡ true → work S.left self.new < work S.left self.old }
    {
        if self.in_offers {
            if self.offer_next(site, world) {
                return true;
            }
            self.in_offers = false;
            self.run_next(site, world)
        } else {
            if self.run_next(site, world) {
                return true;
            }
            self.in_offers = true;
            self.offer_next(site, world)
        }
    }

    /// All turns, until both queues are empty.
    pub fn settle<W: World>(&mut self, site: &S::Site, world: &mut W)
        requires standing { Stands (S.meaning site.now) self.old (W.book world.old) }
        requires to_come { self.old.to_come ≡ ToCome.Nothing }
        ensures rests { Rests (S.meaning site.now) self.new (W.book world.new) }
        ensures works { Works W.same W.book self.old self.new world.old world.new }
    {
        while self.turn(site, world) {}
        self.in_offers = false;
    }
}
