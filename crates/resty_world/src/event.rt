//! Events: what a world gives.

use resty_base::{Bytes, Id, Ms};
use std::alloc::AllocError;

/// The last moment that a world gives.
pub const LAST_MOMENT: u64 = 99_999_999_999_999;

/// What a world gives: an event from `Arrive` to `Stop`, or why there is none.
#[derive(Debug, PartialEq, Eq, Drop)]
pub enum Event {
    /// A connection arrived; they are numbered from 1.
    Arrive(u64),
    /// From 1 to 65,536 bytes came.
    Bytes(Id, Bytes),
    /// The peer sends no more.
    Ended(Id),
    /// The connection or the socket broke.
    Broken(Id),
    /// It takes bytes again.
    Ready(Id),
    /// The socket is connected.
    Dialled(u64),
    /// The socket's peer refused.
    Refused(u64),
    /// The present moment, at most 99,999,999,999,999.
    Moment(Ms),
    /// The world stops.
    Stop,
    /// The world failed.
    Fault,
    /// This line of the world's schedule names an id that was never there; lines are numbered from 1.
    BadLine(u64),
    /// Out of memory.
    Memory,
}

impl Event {
    ghost use Rattle.std.specs.Prelude.{◌≡◌, IfOk};

    /// The same event, whose bytes are shared.
    pub fn shared(&self) -> Result<Event, AllocError>
        ensures { IfOk result (λ copy. copy ≡ self.now) }
    {
        Ok(match self {
            Event::Arrive(number) => Event::Arrive(*number),
            Event::Bytes(id, bytes) => Event::Bytes(*id, bytes.clone()?),
            Event::Ended(id) => Event::Ended(*id),
            Event::Broken(id) => Event::Broken(*id),
            Event::Ready(id) => Event::Ready(*id),
            Event::Dialled(number) => Event::Dialled(*number),
            Event::Refused(number) => Event::Refused(*number),
            Event::Moment(now) => Event::Moment(*now),
            Event::Stop => Event::Stop,
            Event::Fault => Event::Fault,
            Event::BadLine(number) => Event::BadLine(*number),
            Event::Memory => Event::Memory,
        })
    }
}
