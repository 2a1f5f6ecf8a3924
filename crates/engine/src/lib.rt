//! Many strands over one world: its events, each with the turns that follow.
#![tactic(auto)]

mod engine;
mod events;
mod server;

pub use engine::{Engine, Stepped};
pub use server::{Ended, serve};
