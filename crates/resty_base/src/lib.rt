//! What every crate of resty stands on: shared bytes, the numbers and names of the outside, the calls of a
//! dictionary, and the files and sinks through which the program reads and writes.
#![tactic(auto)]

mod boxed;
mod dictionary;
mod files;
mod lists;
mod names;
mod range;
mod sinks;
mod slices;
mod whole_numbers;

pub use boxed::Boxed;
pub use bytes::Bytes;
pub use dictionary::{DictAnswer, DictCall, DictValue, How};
pub use files::{DiskFiles, Fetched, Files, MemFiles};
pub use lists::ByteLists;
pub use names::{Id, Ms, Pair2, StrandId};
pub use range::whole;
pub use sinks::{MemSink, Put, Sink, SinkFault, StdSink, put_all, put_pieces};
pub use slices::{byte_at, bytes_after, first_bytes};
pub use whole_numbers::{GREATEST_WHOLE, Whole};
