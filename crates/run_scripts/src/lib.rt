//! A run for tests, which does what a script says.
#![tactic(auto)]

mod run;
mod script;
mod service;
mod steps;

pub use run::ScriptedRun;
pub use script::{Script, Step};
