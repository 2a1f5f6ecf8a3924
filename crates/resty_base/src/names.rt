//! Names of moments, connections, sockets, strands and header fields.

use crate::Bytes;

/// A moment: milliseconds since 1970, or a span of milliseconds.
#[derive(Clone, Copy, Debug, PartialEq, Eq, PartialOrd, Ord, Hash)]
pub struct Ms(pub u64);

/// A connection that arrived, or a socket that was dialled; each kind is numbered from 1.
#[derive(Clone, Copy, Debug, PartialEq, Eq, PartialOrd, Ord, Hash)]
pub enum Id {
    Conn(u64),
    Sock(u64),
}

/// A strand: a client connection with its requests in turn, or a timer job; each kind is numbered from 1.
#[derive(Clone, Copy, Debug, PartialEq, Eq, PartialOrd, Ord, Hash)]
pub enum StrandId {
    Conn(u64),
    Job(u64),
}

/// A header field: its name and its value.
#[derive(Debug, PartialEq, Eq, Drop)]
pub struct Pair2 {
    pub name: Bytes,
    pub value: Bytes,
}
