//! What is known of a machine that runs Lua from outside: it starts threads and resumes them, and what will come of each is its
//! `finish`.
#![tactic(auto)]

mod machines;
mod slices;

pub use machines::Machine;
pub use slices::{Op, Slice};
