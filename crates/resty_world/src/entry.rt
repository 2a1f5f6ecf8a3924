//! The entries of a history.

use crate::{Event, TimerAnswer};
use resty_base::{Boxed, Bytes, DictAnswer, DictCall, Id, Ms, StrandId};

/// One entry of a history: what was given, what was done, what was answered.
#[derive(Debug, Drop)]
pub enum Entry {
    /// An event from `Arrive` to `Stop`.
    Given(Event),
    /// The bytes were taken.
    Put(Id, Bytes),
    /// A write would wait.
    Later(Id),
    /// A write broke.
    Lost(Id),
    /// The id was hung up.
    Close(Id),
    /// A socket was dialled at a host and port: its number, none where that failed.
    Dial(StrandId, [u8; 4], u16, Option<u64>),
    /// A log line, and whether it was written.
    Log(StrandId, Bytes, bool),
    /// A call of the dictionary of that name, and its answer.
    Dict(StrandId, Bytes, Boxed<DictCall>, Boxed<DictAnswer>),
    /// An idle socket of that key was taken from the pool: its number and its uses, none where there was none.
    Take(StrandId, Bytes, Option<(u64, u32)>),
    /// A socket went back to the pool: its key, how long it may be idle, the pool's size, and the socket that was closed for it.
    Keep(StrandId, u64, Bytes, Ms, u32, Option<u64>),
    /// A timer job was asked for, due at that moment.
    Timer(StrandId, Ms, TimerAnswer),
    /// The job started.
    Start(u64),
    /// The connection was turned away.
    Turned(u64),
    /// The strand was given up as memory ran out.
    Dropped(StrandId),
}
