//! An idle socket of the pool.

use resty_base::{Bytes, Ms};

/// An idle socket of the pool.
#[derive(Debug, PartialEq, Eq, Drop)]
pub struct Idle {
    /// What it is connected to, or the name that the pool was given.
    pub key: Bytes,
    /// The number of the socket.
    pub sock: u64,
    /// How often it was taken from the pool so far.
    pub uses: u32,
    /// The moment from which on it is to be closed; without one it may be idle for ever.
    pub until: Option<Ms>,
}
