//! What a connection is shown, told apart: what comes at a socket of its run, and what is of its client or of itself.

ghost use Rattle.std.specs.Prelude.{◌≡◌};
ghost use Rattle.connection_strand.specs.Shown.{seen_of};

use resty_base::Bytes;
use run_contract::SockSeen;
use strand_contract::{Place, Seen};

/// What a connection is shown.
#[derive(Drop)]
pub(crate) enum Sight {
    /// It comes at the socket of this number.
    Sock(u32, SockSeen),
    /// The client sent bytes.
    Bytes(Bytes),
    Taking(Taking),
    Event(Event),
}

/// How the client takes bytes.
#[derive(Clone, Copy)]
pub(crate) enum Taking {
    /// It takes bytes again, took so many, takes none for now, or is lost.
    Ready,
    Took(usize),
    Later,
    Lost,
}

/// What is of the client or of the connection itself, but for bytes.
#[derive(Clone, Copy)]
pub(crate) enum Event {
    /// The client sends no more, or broke.
    Ended,
    Broken,
    /// The deadline of this number is due, this thread may go on, or the program stops.
    Due(u32),
    Run(u32),
    Stop,
}

/// What it is shown, told apart.
pub(crate) fn sight_of(seen: Seen) -> Sight
    ensures { seen ≡ seen_of result }
{
    match seen {
        Seen::Bytes(Place::Client, bytes) => Sight::Bytes(bytes),
        Seen::Bytes(Place::Sock(k), bytes) => Sight::Sock(k, SockSeen::Bytes(bytes)),
        Seen::Ended(Place::Client) => Sight::Event(Event::Ended),
        Seen::Ended(Place::Sock(k)) => Sight::Sock(k, SockSeen::Ended),
        Seen::Broken(Place::Client) => Sight::Event(Event::Broken),
        Seen::Broken(Place::Sock(k)) => Sight::Sock(k, SockSeen::Broken),
        Seen::Ready(Place::Client) => Sight::Taking(Taking::Ready),
        Seen::Ready(Place::Sock(k)) => Sight::Sock(k, SockSeen::Ready),
        Seen::Took(Place::Client, count) => Sight::Taking(Taking::Took(count)),
        Seen::Took(Place::Sock(k), count) => Sight::Sock(k, SockSeen::Took(count)),
        Seen::Later(Place::Client) => Sight::Taking(Taking::Later),
        Seen::Later(Place::Sock(k)) => Sight::Sock(k, SockSeen::Later),
        Seen::Lost(Place::Client) => Sight::Taking(Taking::Lost),
        Seen::Lost(Place::Sock(k)) => Sight::Sock(k, SockSeen::Lost),
        Seen::Dialled(k) => Sight::Sock(k, SockSeen::Dialled),
        Seen::Refused(k) => Sight::Sock(k, SockSeen::Refused),
        Seen::Due(number) => Sight::Event(Event::Due(number)),
        Seen::Run(thread) => Sight::Event(Event::Run(thread)),
        Seen::Stop => Sight::Event(Event::Stop),
    }
}
