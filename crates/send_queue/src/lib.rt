//! What waits to be sent to a client, in blocks that are offered one at a time.
#![tactic(auto)]

mod blocks;
mod queue;

pub use queue::SendQueue;
