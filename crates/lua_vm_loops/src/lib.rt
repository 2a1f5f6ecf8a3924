//! Loops of the machine: `while`, `repeat`, the `for` that counts and the `for` that calls a function, by the evaluator's work.
#![tactic(auto)]

mod bounds;
mod counting;
mod iterating;
mod ranges;
mod repeats;
mod runs;
mod sites;
mod whiles;

pub use bounds::{bounds_of, for_from, for_step, for_to};
pub use counting::counted;
pub use iterating::{iterate, iterated, passed};
pub use repeats::{begin_repeat, repeated, until};
pub use sites::levels_of;
pub use whiles::{turned, while_test};
