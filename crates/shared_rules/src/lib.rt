//! What a shared dictionary, the pool of idle sockets and the timers answer, on plain lists: the definitions by which the
//! crates that keep them in another form are judged.
#![tactic(auto)]

mod items;
mod laws;
mod sockets;

pub use items::Item;
pub use laws::{counts_used, stays_small, stays_within};
pub use sockets::Idle;
