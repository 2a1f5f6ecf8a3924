//! The connection of a client: the bytes that come, cut into requests, and the bytes that wait to be sent.
#![tactic(auto)]

pub mod answers;
mod at;
mod bodies;
mod heads;
mod held;
mod laws;
mod line;
mod requests;

pub use laws::{
    bytes_have_one_list_of_requests, requests_are_those_of_the_bytes, two_pieces_are_one_of_both,
};
pub use line::{Held, Line};
pub use requests::LineOut;
