//! The world in memory that goes by the lines of a schedule.
#![tactic(auto)]

mod ahead;
mod aside;
mod course;
mod laws;
mod peer;
mod peers;
mod replay;

pub use laws::stop_ends_the_schedule;
pub use replay::Replay;
pub use schedule_text::{
    SchedFault, SchedLine, Schedule, a_history_is_known_by_its_text,
    a_schedule_is_known_by_its_text, history_of, history_text, no_schedule_is_refused, schedule_of,
    schedule_text,
};
