//! What a Lua program means (Lua 5.1 Reference Manual, 2.4 to 2.8): the work of each node of its tree, the evaluator that
//! does it, and the life of a thread. All of it is in `specs/`; the code has the few types that a machine shares with it,
//! and laws.
#![tactic(auto)]

mod equations;
mod laws;
mod positions;
mod resumes;
mod rows;
mod slots;

pub use equations::direct_equations;
pub use laws::{depth_never_shows, evaluator_evaluates, only_evaluator, works_in_order};
pub use positions::Position;
pub use resumes::Resumed;
pub use rows::{parked_row, spoiled_rows, worked_rows};
pub use slots::Slot;
