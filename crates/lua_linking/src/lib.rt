//! Programs of Lua linked: the names of the modules that one requires, and two joined into one.
#![tactic(auto)]

mod expressions;
mod joining;
mod laws;
mod mentions;
mod named_expressions;
mod named_statements;
mod names;
mod statements;

pub use joining::join;
pub use laws::joined_programs_are_whole;
pub use names::{names_in, names_of, names_of_each};
