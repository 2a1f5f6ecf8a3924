//! The outside as resty sees it: what happens, what is answered, the history of both, and the trait of a world.
#![tactic(auto)]

mod answers;
mod entry;
mod event;
mod history;
mod schedule_line;
mod world;

pub use answers::{Dial, Listened, Logged, Noted, TimerAnswer, Wrote};
pub use entry::Entry;
pub use event::{Event, LAST_MOMENT};
pub use history::History;
pub use schedule_line::SchedLine;
pub use world::World;
