//! Shortcuts of the machine: expressions, assignments, `if`s, loops and calls that want no handler are run at once, and what a table lacks is found in its
//! `__index`.
#![tactic(auto)]

mod bodies;
mod branches;
mod calls;
mod concatenation;
mod counting;
mod entries;
mod loops;
mod numbers;
mod operators;
mod places;
mod statements;
mod steps;
mod tests;

pub use calls::Site;
pub use counting::{CountEnd, Counting, run_for};
pub use loops::{LoopEnd, run_loop};
pub use statements::run_block;
