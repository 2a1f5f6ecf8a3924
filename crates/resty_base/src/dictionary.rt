//! The calls of a shared dictionary, and their answers.

use crate::{ByteLists, Bytes};

/// A value that a shared dictionary keeps.
#[derive(Debug, PartialEq, Eq, Drop)]
pub enum DictValue {
    Text(Bytes),
    Number(i64),
    Truth(bool),
}

/// How a value is stored: always, only where the key is absent, only where it is there.
#[derive(Clone, Copy, Debug, PartialEq, Eq)]
pub enum How {
    Set,
    Add,
    Replace,
}

/// A call of a shared dictionary. A time to live is in milliseconds, 0 for ever.
#[derive(Debug, PartialEq, Eq, Drop)]
pub enum DictCall {
    Get(Bytes),
    Store {
        how: How,
        key: Bytes,
        value: DictValue,
        ttl: u64,
        flags: u32,
    },
    Delete(Bytes),
    Incr {
        key: Bytes,
        by: i64,
        init: Option<i64>,
        ttl: u64,
    },
    FlushAll,
    FlushExpired(u32),
    Keys(u32),
}

/// The answer of a shared dictionary. A `bool` says that valid items were evicted.
#[derive(Debug, Drop)]
pub enum DictAnswer {
    /// The value with its flags.
    Found(DictValue, u32),
    Nothing,
    Done(bool),
    Exists,
    Missing,
    NoMemory(bool),
    NotNumber,
    OutOfRange,
    Number(i64, bool),
    Count(u32),
    Names(ByteLists),
}
