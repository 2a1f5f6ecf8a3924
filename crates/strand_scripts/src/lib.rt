//! A strand for tests, which does what a list of operations says.
#![tactic(auto)]

mod line;
mod program;
mod strand;

pub use program::{Op, Program, Site};
pub use strand::{NoJob, ScriptStrand, Wait};
