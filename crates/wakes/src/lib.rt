//! What comes next: the threads that wait for their run, and the deadlines that are armed.
#![tactic(auto)]

mod deadlines;
mod run_queue;

pub use deadlines::{Armed, Deadlines, Whose};
pub use run_queue::RunQueue;
