//! What the next line of a schedule is.

/// What the next line of a schedule is to a world that is asked for an event.
#[derive(Clone, Copy)]
pub enum Ahead {
    /// There is no line left.
    Nothing,
    /// It names an id that was never there.
    Absent,
    /// It is passed, and no event is given by it.
    Quiet,
    /// It makes the event that is asked for a fault.
    Fault,
    /// It is an event to give.
    Due,
}
