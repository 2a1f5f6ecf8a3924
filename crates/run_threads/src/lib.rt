//! The threads of a run: a handler of a request runs in one thread, which is resumed with what its calls give until it ends.
#![tactic(auto)]

mod answering;
mod handlers;
mod laws;

pub use handlers::{End, Handled, run_handler};
pub use laws::times_never_show;
