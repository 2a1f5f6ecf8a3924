//! What is kept of an item.

use resty_base::{DictValue, Ms};

/// What is kept of an item beside its key. Its number tells which flush it was stored before.
#[derive(Drop)]
pub(crate) struct Kept {
    pub(crate) value: DictValue,
    pub(crate) flags: u32,
    pub(crate) expiry: Option<Ms>,
    pub(crate) number: u64,
}

/// The last flush of all items: the number of the last one that was stored before it, and its moment.
#[derive(Clone, Copy)]
pub(crate) struct Flush {
    pub(crate) last: u64,
    pub(crate) at: Ms,
}
