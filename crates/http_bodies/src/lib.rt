//! Bodies of requests, however their bytes are cut (RFC 9112, sections 6.3 and 7.1).
#![tactic(auto)]

mod ahead;
mod bodies;
mod laws;
mod runs;
mod skips;
mod states;

pub use bodies::{BodyIn, BodyRead};
pub use laws::pieces_are_read_as_their_bytes_joined;
pub use skips::{begun_skip, skip};
pub use states::{BodyState, DataOf};
