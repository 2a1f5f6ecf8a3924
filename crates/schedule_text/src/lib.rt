//! Schedules and histories as texts: both are lines, and each line has one spelling.
#![tactic(auto)]

mod events;
mod fault;
mod laws;
mod ranges;
mod reading;
mod schedule;
mod text;

pub use events::events_of;
pub use fault::SchedFault;
pub use laws::{
    a_history_is_known_by_its_text, a_line_is_known_by_its_text, a_schedule_is_known_by_its_text,
    an_entry_is_known_by_its_text, no_schedule_is_refused,
};
pub use reading::{history_of, schedule_of};
pub use resty_world::SchedLine;
pub use schedule::Schedule;
pub use text::{history_text, schedule_text};
