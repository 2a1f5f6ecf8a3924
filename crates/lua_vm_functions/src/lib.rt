//! Calls of the program's functions: what a call of a value comes to, and a Lua function in a frame of its own, or in place of
//! its caller.
#![tactic(auto)]

mod callee;
mod functions;

pub use callee::{Callee, find_callee};
pub use functions::call_closure;
