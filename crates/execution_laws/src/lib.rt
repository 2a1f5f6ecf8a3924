//! Laws of executions: what came to one strand decides what it does, and what the world gives and answers leaves nothing free in that of all strands.
#![tactic(auto)]

pub mod examples;
pub mod histories;
pub mod strands;
