//! A site, from the files that hold it: its configuration is read, the chunks of its Lua are joined into one program, and it is started.
#![tactic(auto)]

mod chunks;
mod faults;
mod handlers;
mod laws;
mod loading;
mod machine;
mod starting;

pub use faults::SiteFault;
pub use laws::sites_are_known;
pub use loading::load_site;
pub use machine::{HostFunctions, SiteMachine};
