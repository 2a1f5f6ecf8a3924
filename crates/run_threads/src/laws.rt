//! Laws of the definitions, each the contract of a function.

ghost use Rattle.run_threads.specs.Threads.{TimesNeverShow};

/// How often a handler's thread may be resumed never shows, if it is as often as steps are left.
pub fn times_never_show()
    ensures { TimesNeverShow }
{}
