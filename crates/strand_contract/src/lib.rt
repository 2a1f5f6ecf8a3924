//! What the engine knows of a strand: the turns that it takes, as a function of what happened to it, and the calls by which it takes them.
#![tactic(auto)]

mod contract;
mod mute;
mod turns;

pub use contract::StrandContract;
pub use mute::{Mute, MuteSite};
pub use turns::{Act, Acts, Answer, Place, Seen, Start};
