//! The lines of a schedule.

use crate::Event;
use resty_base::Id;

/// One line of a schedule: an event, or a setting of the world that gives it.
#[derive(Debug, PartialEq, Eq, Drop)]
pub enum SchedLine {
    /// An event from `Arrive` to `Stop`.
    Given(Event),
    /// From here on the id takes so many bytes more; none is all.
    Room(Id, Option<u64>),
    /// The next event is a fault.
    FailNext,
    /// The next dialling fails.
    FailDial,
    /// The next log line isn't written.
    FailLog,
    /// Listening fails.
    FailListen,
    /// The next write to the id breaks.
    FailPut(Id),
}
