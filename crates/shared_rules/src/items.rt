//! An item of a shared dictionary.

use resty_base::{Bytes, DictValue, Ms};

/// An item of a shared dictionary. It is there at each moment before its expiry, and for ever without one.
#[derive(Debug, PartialEq, Eq, Drop)]
pub struct Item {
    pub key: Bytes,
    pub value: DictValue,
    pub flags: u32,
    pub expiry: Option<Ms>,
}
