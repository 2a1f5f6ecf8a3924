//! Statements of the machine: how they begin, and how they go on: blocks, assignments, `if` and `return`.
#![tactic(auto)]

mod assigning;
mod blocks;
mod faults;
mod functions;
mod returns;
mod statements;
mod targets;

pub use assigning::{assign, assign_to_slot, locals, stores};
pub use blocks::{arm, rest};
pub use returns::{return_called, return_given};
pub use statements::discard;
pub use targets::{target_at, target_key};
