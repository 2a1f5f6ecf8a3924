//! What a connection knows of the run that answers a request: the turns that it takes, as a function of what it is told, and the calls by
//! which it takes them.
#![tactic(auto)]

mod contract;
mod stored;
mod turns;

pub use contract::RunContract;
pub use stored::{NoJob, StoredReply, StoredSite};
pub use turns::{Asking, LocationTimes, RunAct, RunSeen, RunTurn, Said, SockSeen};
