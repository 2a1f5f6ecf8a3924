//! Laws of the definitions, each the contract of a function that does nothing.

ghost use Rattle.schedule.specs.Told.{StopEndsSchedules};

/// A law: where the newest event of a history that a schedule tells is `stop`, all lines were passed.
pub fn stop_ends_the_schedule()
    ensures { StopEndsSchedules }
{}
