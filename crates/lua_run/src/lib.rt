//! The runs of a site of Lua: each request gets the reply that its location's handler makes, run alone, or one that the server makes itself.
#![tactic(auto)]

mod answers;
mod contract;
pub mod laws;
mod run;
mod serving;
mod sites;

pub use run::LuaRun;
pub use sites::Site;
