//! The commands of the program: its words, the files that they name, the run, and what is written.
#![tactic(auto)]

mod checking;
mod command_line;
mod endings;
pub mod laws;
mod messages;
mod program;
mod reading;
mod replaying;
mod serving;
mod work;
mod writing;

pub use endings::Status;
pub use messages::{put_out_of_memory, put_usage};
pub use program::resty;
