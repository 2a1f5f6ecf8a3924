//! The threads of Lua, and the loop that runs one: each begins with a call, is resumed, parks where the outside must answer, and ends.
#![tactic(auto)]

mod applying;
mod ended;
mod loaded;
mod threads;
mod turns;

pub use loaded::Loaded;
pub use threads::{Stage, Thread};
pub use turns::{run, step};
