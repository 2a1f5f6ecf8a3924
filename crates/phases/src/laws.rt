//! Laws of the order of handlers, each the contract of a function that does nothing.

ghost use Rattle.phases.specs.Laws.{IsBounded, LogsLast};

/// However its handlers end, what is done for a request is over soon.
pub fn is_bounded()
    ensures { IsBounded }
{}

/// The log's handler comes once, at the end.
pub fn logs_last()
    ensures { LogsLast }
{}
