//! Replies to requests of HTTP/1.1 and 1.0: heads with their dates, chunks, and the replies that the server makes itself.
#![tactic(auto)]

mod bodies;
mod chunks;
mod dates;
mod ends;
mod heads;
mod laws;
mod reasons;
mod statuses;
mod texts;

pub use bodies::{body_bytes, framing, reply};
pub use chunks::{ChunkStart, chunk_start, chunk_text, last_chunk};
pub use dates::date_text;
pub use ends::Framing;
pub use heads::{ReplyHead, head_text};
pub use laws::{dates_are_of_the_calendar, sizes_read_back};
pub use reasons::reason;
pub use statuses::{built_in, status_body};
