//! Heads of requests, however their bytes are cut (RFC 9112, sections 2, 3, 5, 6 and 9.3).
#![tactic(auto)]

mod framing;
mod heads;
mod hosts;
mod laws;
mod lines;
mod options;
mod scan;

pub use framing::BodyKind;
pub use heads::{Head, HeadRead, head_in, head_of};
pub use laws::{
    answers_to_heads_stay, heads_have_one_answer, pieces_are_scanned_as_their_bytes_joined,
};
pub use scan::HeadScan;
