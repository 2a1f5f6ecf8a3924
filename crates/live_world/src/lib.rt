//! The live world: loopback sockets, the clock of the system, and a log.
#![tactic(auto)]

mod accounts;
mod descriptors;
mod live;
mod log;
mod reckoning;
mod sockets;
mod standings;
mod stream;
mod world;

pub use descriptors::open_standard;
pub use live::Live;
