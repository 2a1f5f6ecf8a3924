//! The live world.

ghost use Rattle.std.specs.Prelude.{◌≡◌, length};
ghost use Rattle.resty_world.specs.Calls.{IsPiece};
ghost use Rattle.live_world.specs.Accounts.{book_of, IsNew};

use crate::accounts::Accounts;
use crate::reckoning::Reckoning;
use crate::sockets::{Failure, Next, Sockets};
use crate::stream::Seen;
use mio::net::TcpStream;
use resty_base::{Id, Ms};
use resty_world::{Event, LAST_MOMENT, Wrote};
use std::alloc::Global;
use std::io::Write;
use std::net::{Ipv4Addr, Net, SocketAddr};
use std::time::Clock;

/// A world of loopback sockets, the clock of the system, and a log. It reports no history, and keeps something of the ids that are
/// open and of the strands that live alone.
///
/// It never gives Stop: whoever runs it ends it from outside, or by a number of events.
#[derive(Drop)]
pub struct Live<'a, R: Net + Clock, W: Write> {
    pub(crate) rt: &'a R,
    pub(crate) log: W,
    /// No socket can get the number of a standard descriptor.
    pub(crate) may_listen: bool,
    pub(crate) accounts: Accounts,
    pub(crate) sockets: Option<Sockets>,
    pub(crate) reckoning: Reckoning,
    /// The last moment that was given, in milliseconds since 1970.
    pub(crate) moment: u64,
}

/// The token under which the poll reports an id; that of a number past half of all is none.
pub fn token_of(id: Id) -> Option<usize> {
    match id {
        Id::Conn(number) => usize::try_from(number.checked_mul(2)?).ok(),
        Id::Sock(number) => usize::try_from(number.checked_mul(2)?.checked_add(1)?).ok(),
    }
}

/// The id of a token.
fn id_of(token: usize) -> Id {
    let number = token as u64 / 2;
    if token % 2 == 0 {
        Id::Conn(number)
    } else {
        Id::Sock(number)
    }
}

/// The event that a look at an id gives.
fn event_of(id: Id, seen: Seen) -> Option<Event> {
    match seen {
        Seen::Nothing => None,
        Seen::Bytes(bytes) => Some(Event::Bytes(id, bytes)),
        Seen::Ended => Some(Event::Ended(id)),
        Seen::Broken => Some(Event::Broken(id)),
        Seen::Ready => Some(Event::Ready(id)),
        Seen::Connected => match id {
            Id::Sock(number) => Some(Event::Dialled(number)),
            Id::Conn(_) => None,
        },
        Seen::Refused => match id {
            Id::Sock(number) => Some(Event::Refused(number)),
            Id::Conn(_) => None,
        },
    }
}

impl<'a, R: Net + Clock, W: Write> Live<'a, R, W> {
    /// A world at which nothing has happened; takes no memory. It may listen where the standard descriptors are open: else a socket gets
    /// the number of one, and what is written there.
    pub fn new(alloc: Global, rt: &'a R, log: W, may_listen: bool) -> Live<'a, R, W>
        ensures { IsNew (book_of result.accounts) }
    {
        Live {
            rt,
            log,
            may_listen,
            accounts: Accounts::new(alloc),
            sockets: None,
            reckoning: Reckoning::new(),
            moment: 0,
        }
    }

    /// The port that it listens on, where that is known; for a world that was asked to listen on port 0.
    pub fn port(&self) -> Option<u16> {
        match &self.sockets {
            Some(sockets) => sockets.port().ok(),
            None => None,
        }
    }

    /// Whether the connection or the socket is open.
    pub fn is_open(&self, id: Id) -> bool
        ensures { result ≡ (book_of self.now.accounts).is_open id }
    {
        self.accounts.standings.at(id).is_open
    }

    /// The moment by the clocks, which doesn't fall.
    pub(crate) fn now(&mut self) -> u64
        ensures { self.new.accounts ≡ self.old.accounts }
    {
        self.reckoning
            .read(self.rt)
            .min(LAST_MOMENT)
            .max(self.moment)
    }

    /// What comes next: an event, or nothing, and then it is to be called again.
    pub(crate) fn turn(&mut self, alloc: Global, until: Option<Ms>) -> Option<Event>
        ensures { book_of self.new.accounts ≡ book_of self.old.accounts }
    {
        let now = self.now();
        if has_come(until, now) {
            return self.moment_at(now);
        }
        self.attend(alloc, now, until)
    }

    /// What comes of the sockets now, up to the given moment.
    fn attend(&mut self, alloc: Global, now: u64, until: Option<Ms>) -> Option<Event>
        ensures { book_of self.new.accounts ≡ book_of self.old.accounts }
    {
        let Some(sockets) = &mut self.sockets else {
            return Some(Event::Fault);
        };
        if !sockets.has_next() {
            return poll(sockets, now, until);
        }
        if now > self.moment {
            return self.moment_at(now);
        }
        let next = sockets.next(alloc, now);
        self.given(next)
    }

    /// The event that the first in the line gives.
    fn given(&mut self, next: Next) -> Option<Event>
        ensures { book_of self.new.accounts ≡ book_of self.old.accounts }
    {
        match next {
            Next::Nothing => None,
            Next::Accepted(socket) => self.register(socket),
            Next::Seen(token, seen) => event_of(id_of(token), seen),
        }
    }

    /// Connects to a host and a port under the next socket's token.
    pub(crate) fn connect(&mut self, host: [u8; 4], port: u16) -> Result<(), Failure>
        ensures { self.new.accounts ≡ self.old.accounts }
    {
        let next = Id::Sock(self.accounts.dials.saturating_add(1));
        match (&mut self.sockets, token_of(next)) {
            (Some(sockets), Some(token)) => {
                sockets.connect(
                    self.rt,
                    token,
                    SocketAddr::from((Ipv4Addr::from(host), port)),
                )
            }
            _ => Err(Failure::Failed),
        }
    }

    /// Writes a first part of the bytes.
    pub(crate) fn write(&mut self, id: Id, bytes: &[u8]) -> Wrote
        ensures accounts { self.new.accounts ≡ self.old.accounts }
        ensures piece { IsPiece (length bytes.now) result }
    {
        match (&mut self.sockets, token_of(id)) {
            (Some(sockets), Some(token)) => within(sockets.write(token, bytes), bytes.len()),
            _ => Wrote::Broken,
        }
    }

    /// The moment is given.
    fn moment_at(&mut self, now: u64) -> Option<Event>
        ensures { self.new.accounts ≡ self.old.accounts }
    {
        self.moment = now;
        Some(Event::Moment(Ms(now)))
    }

    /// Registers a connection that was accepted, which arrives; without memory for it, or where it can't be polled, it is closed unseen.
    fn register(&mut self, socket: TcpStream) -> Option<Event>
        ensures { book_of self.new.accounts ≡ book_of self.old.accounts }
    {
        let Some((number, token)) = self.next_arrival() else {
            drop(socket);
            return None;
        };
        let Some(sockets) = &mut self.sockets else {
            drop(socket);
            return None;
        };
        match sockets.register(token, socket) {
            Ok(()) => Some(Event::Arrive(number)),
            Err(_) => None,
        }
    }

    /// The number of the next connection and its token, once there is memory for it.
    fn next_arrival(&mut self) -> Option<(u64, usize)>
        ensures { book_of self.new.accounts ≡ book_of self.old.accounts }
    {
        let number = self.accounts.reserve()?;
        let token = token_of(Id::Conn(number))?;
        Some((number, token))
    }
}

/// Whether a moment that may not be there has come.
fn has_come(moment: Option<Ms>, now: u64) -> bool {
    match moment {
        Some(moment) => moment.0 <= now,
        None => false,
    }
}

/// Polls; a poll that fails is a fault.
fn poll(sockets: &mut Sockets, now: u64, until: Option<Ms>) -> Option<Event> {
    match sockets.poll(now, until.map(|at| at.0)) {
        Ok(()) => None,
        Err(_) => Some(Event::Fault),
    }
}

/// The answer, which is of at least one byte and of no more than there are.
fn within(answer: Wrote, bytes: usize) -> Wrote
    ensures { IsPiece bytes result }
{
    match answer {
        Wrote::Took(count) if count == 0 || count > bytes => Wrote::Broken,
        answer => answer,
    }
}
