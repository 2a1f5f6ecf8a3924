//! What a strand is shown, what it asks for, and the answers that it gets.

use resty_base::{Boxed, Bytes, DictAnswer, DictCall, Ms};
use resty_world::TimerAnswer;
use std::collections::VecDeque;

/// How a strand begins: as the client of a connection's number; or as a timer job of a number, whether that is premature
/// (it starts after Stop), and what it starts with.
#[derive(Drop)]
pub enum Start<J> {
    Client(u64),
    Job(u64, bool, J),
}

/// A strand's client connection, or one of its sockets, by the strand's own count from 0.
#[derive(Clone, Copy, Debug, PartialEq, Eq, PartialOrd, Ord, Hash)]
pub enum Place {
    Client,
    Sock(u32),
}

/// What a strand is shown.
#[derive(Drop)]
pub enum Seen {
    Bytes(Place, Bytes),
    /// The peer sends no more.
    Ended(Place),
    Broken(Place),
    /// The place takes bytes again.
    Ready(Place),
    /// So many of the offered bytes were taken.
    Took(Place, usize),
    /// The place takes none for now.
    Later(Place),
    /// The write broke.
    Lost(Place),
    /// A socket is connected, or was refused.
    Dialled(u32),
    Refused(u32),
    /// The deadline of this number is due.
    Due(u32),
    /// The thread of this number runs.
    Run(u32),
    Stop,
}

/// What a turn asks of the engine that holds the strand.
#[derive(Debug, Drop)]
pub enum Act<J> {
    /// Puts a thread at the end of the run queue, or takes out one that ended while it was there.
    Ready(u32),
    Unready(u32),
    /// Puts a place at the end of the offer queue.
    Offer(Place),
    /// Arms the deadline of a number at a moment, or cancels it.
    Arm(u32, Ms),
    Cancel(u32),
    HangUp(Place),
    /// Writes a log line.
    Log(Bytes),
    /// Calls the dictionary of that number.
    Dict(u32, Boxed<DictCall>),
    /// Takes an idle socket of that key from the pool.
    Take(Bytes),
    Dial([u8; 4], u16),
    /// Gives a socket to the pool: its number, its key, how long it may be idle, the pool's size.
    Keep(u32, Bytes, Ms, u32),
    /// Asks for a timer job at a moment.
    Timer(Ms, J),
    /// The strand's life is over.
    Gone,
}

/// The acts of a turn in order.
pub type Acts<J> = VecDeque<Act<J>>;

/// The answer to the last act of a turn.
#[derive(Drop)]
pub enum Answer {
    Dict(DictAnswer),
    /// The uses of the socket that was taken.
    Took(Option<u32>),
    /// Whether the dialling began.
    Dialled(bool),
    Kept,
    Timer(TimerAnswer),
}
