//! The strand of a client's connection, or of a timer job, over any run: it goes by the plan of moves.
#![tactic(auto)]

mod client;
mod requests;
mod saying;
mod sending;
mod settling;
mod shown;
mod sights;
mod state;
mod strand;
mod taking;
mod timers;
mod waits;

pub use state::Connection;
