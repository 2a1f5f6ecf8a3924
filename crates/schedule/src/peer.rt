//! What is kept of a connection or a socket.

use resty_base::Id;

/// What a replay keeps of a connection or a socket.
#[derive(Clone, Copy)]
pub struct Peer {
    pub is_open: bool,
    /// It ended or broke: no bytes of it come any more.
    pub has_ended: bool,
    /// How many bytes it takes before a write is put off; none is all.
    pub room: Option<u64>,
    /// How many of its next writes break.
    pub put_fails: u64,
}

impl Peer {
    ghost use Rattle.std.specs.Prelude.{◌≡◌, ◌≢◌, ◌<◌, ◌≤◌, Some, IfSome};
    ghost use Rattle.schedule.specs.Peers.{fresh, closed_peer};
    ghost use Rattle.schedule.specs.Steps.{TakesLeast, less};

    /// One that is new.
    pub fn new() -> Peer
        ensures { result ≡ fresh }
    {
        Peer {
            is_open: true,
            has_ended: false,
            room: None,
            put_fails: 0,
        }
    }

    /// How many bytes of a piece of this length it takes.
    pub fn takes(&self, length: usize) -> usize
        requires some { 0 < length }
        requires free { self.now.room ≢ Some 0 }
        ensures least { TakesLeast length self.now.room result }
        ensures some { 0 < result }
        ensures within { result ≤ length }
    {
        match self.room {
            Some(room) if room < length as u64 => room as usize,
            _ => length,
        }
    }

    /// The same, once it has taken so many bytes.
    pub fn having_taken(&self, count: usize) -> Peer
        requires { IfSome self.now.room (λ room. count ≤ room) }
        ensures { result ≡ record self.now { room = less count self.now.room } }
    {
        Peer {
            room: self.room.map(|room| room - count as u64),
            ..*self
        }
    }

    /// The same, once it was hung up: of a socket it isn't known any more whether it ended.
    pub fn hung_up(&self, id: Id) -> Peer
        ensures { result ≡ closed_peer id self.now }
    {
        Peer {
            is_open: false,
            has_ended: self.has_ended && matches!(id, Id::Conn(_)),
            ..*self
        }
    }
}
