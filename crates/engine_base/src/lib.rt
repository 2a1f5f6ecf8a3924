//! What the engine stands on: what is in a strand's seat, and what the engine holds against an execution.
#![tactic(auto)]

mod seats;

pub use seats::{Seat, ToCome};
