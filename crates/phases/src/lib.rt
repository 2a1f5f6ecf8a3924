//! The handlers of a request, in order: what follows a handler that ended so.
#![tactic(auto)]

mod following;
mod laws;
mod outcomes;

pub use following::after;
pub use laws::{is_bounded, logs_last};
pub use outcomes::{Next, Outcome, Phase, Sent};
