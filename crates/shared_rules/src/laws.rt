//! Laws of the plain rules, each the contract of a function that does nothing.

ghost use Rattle.shared_rules.specs.Laws.{StaysWithin, CountsUsed, StaysSmall};

/// Whatever a dictionary is asked, each key stays once in it, its bytes within its size, its numbers and expiries in their ranges.
pub fn stays_within()
    ensures { StaysWithin }
{}

/// How many bytes the items count after an item leaves, changes or expires.
pub fn counts_used()
    ensures { CountsUsed }
{}

/// A pool has no more sockets of a key than the size of its keeps.
pub fn stays_small()
    ensures { StaysSmall }
{}
