//! Calls of any value: of the program's functions, and of the host's, of which `pcall`, `xpcall`, `error`, `assert` and
//! `tostring` are the machine's own; and calls of the handlers of metatables.
#![tactic(auto)]

mod callees;
mod entering;
mod errors;
mod handlers;
mod library;
mod natives;
mod parameters;
mod protected;
mod texts;

pub use callees::{arguments, call, callee, tail_arguments, tail_callee};
pub use entering::{enter_call, enter_tail_call};
pub use handlers::{call_for_one, call_for_truth, one, three, two};
