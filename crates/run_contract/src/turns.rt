//! What a run is told by its connection, and what a turn of it comes to.

use resty_base::{Bytes, Ms};
use std::collections::VecDeque;
use strand_contract::Act;

/// What comes at a socket of a run.
#[derive(Drop)]
pub enum SockSeen {
    Bytes(Bytes),
    /// The peer sends no more.
    Ended,
    Broken,
    /// The socket takes bytes again.
    Ready,
    /// So many of the offered bytes were taken.
    Took(usize),
    /// The socket takes none for now.
    Later,
    /// The write broke.
    Lost,
    /// It is connected, or was refused.
    Dialled,
    Refused,
}

/// What a run is told.
#[derive(Drop)]
pub enum RunSeen {
    /// The thread of this number runs.
    Run(u32),
    /// The deadline of this number, from 2 on, is due.
    Due(u32),
    /// The body that it asked for, whole; and whether more of it was waited for before any of the reply was sent: a client that holds its
    /// body back until it gets a 100 reply got one exactly then.
    Body(Bytes, bool),
    /// The status by which the body that it asked for is refused.
    BodyRefused(u16),
    /// All that was sent to the client was taken.
    AllTaken,
    /// What it asked its connection for isn't there yet, and can still come: it is told once that is there. A client that holds its body back until it
    /// gets a 100 reply got one, where the body was asked for and nothing of the reply was sent.
    NotYet,
    /// The client sends no more. Bytes can still be sent to it.
    ClientEnded,
    /// The client was hung up: nothing more reaches it.
    ClientGone,
    /// Something came at the socket of this number. A connection's sockets are numbered from 0, through all of its runs.
    Sock(u32, SockSeen),
}

/// How long a location has its connection wait: for the next request, for more of a body, until the client takes bytes.
#[derive(Clone, Copy)]
pub struct LocationTimes {
    pub keepalive: Ms,
    pub body: Ms,
    pub send: Ms,
}

/// What a run says to its connection.
#[derive(Drop)]
pub enum Said {
    /// These bytes of the reply come next.
    Send(Bytes),
    /// It doesn't wait for the body any more.
    WantsNoBody,
    /// Another location answers the request: timers that begin after this go by its times.
    Times(LocationTimes),
    /// The reply is whole, and whether the connection is to be closed after it.
    Ended(bool),
    /// Nothing of the run is left to be done.
    Over,
}

/// What a run asks its connection, which answers before anything else happens.
#[derive(Clone, Copy)]
pub enum Asking {
    /// The body of its request, with at most so many bytes of content.
    Body(u64),
    /// Whether the client took all that was sent to it.
    AllTaken,
}

/// One thing that a turn of a run does: an act, or a word to its connection.
#[derive(Drop)]
pub enum RunAct<J> {
    Act(Act<J>),
    Say(Said),
}

/// A turn of a run: what it does, in order, and what it asks its connection then. A question to the outside is the last of its acts; where there is one,
/// the connection is asked nothing.
#[derive(Drop)]
pub struct RunTurn<J> {
    pub does: VecDeque<RunAct<J>>,
    pub asks: Option<Asking>,
}
