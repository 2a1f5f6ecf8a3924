//! How a site of Lua starts. The chunks of its texts become closures of one store, in which its preludes and then its init block
//! run; what these made is frozen, and each run of the site begins with a copy of it and three tables of its own.
#![tactic(auto)]

mod calls;
mod faults;
mod laws;
mod loading;
mod making;
mod natives_table;
mod run_tables;
mod sites;

pub use faults::LuaSiteFault;
pub use laws::{init_is_frozen, runs_have_their_tables, starts_agree, starts_stand};
pub use sites::{LuaSite, start_lua};
