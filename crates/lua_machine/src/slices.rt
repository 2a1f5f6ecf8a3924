//! What a resume of a thread comes to.

use lua_meaning::Position;
use lua_values::{Value, Values};

/// A call of the host's functions that is left to the outside, from the position at which it is called.
#[derive(Debug, Drop)]
pub struct Op {
    pub number: u32,
    pub args: Values,
    pub position: Option<Position>,
}

/// What a resume of a thread comes to.
#[derive(Drop)]
pub enum Slice<T> {
    /// A call is left to the outside, whose answer the thread is resumed with.
    Parked(T, Op),
    Done(Values),
    Failed(Value),
    /// The steps reached 1,000,000.
    Spent,
    /// Out of memory; the thread is gone.
    Memory,
}
