//! What the machine is made of: the frames of the calls that haven't ended, the items that wait in them, and the signal that
//! the innermost item takes. `specs/` says what they stand for: `finish` is what is left of a thread, by the evaluator, and every
//! function of the machine promises that what it leaves stands for what was to be done (`Works`).
#![tactic(auto)]

mod calling;
mod ending;
mod ends;
mod faults;
mod flow;
mod frames;
mod hosts;
mod items;
mod kept;
mod locals;
mod loops;
mod metatables;
mod positions;
mod signals;
mod stack;
mod starting;
mod taking;
mod targets;
mod threads;
mod waiting;

pub use calling::{frame_with, leave, push_frame, replace_frame};
pub use ends::{give_break, give_many, give_nothing, give_one, raise_value};
pub use faults::{raise_fault, raise_given, raise_operand};
pub use flow::{Flow, Op};
pub use frames::{Frame, Kind};
pub use hosts::Host;
pub use items::Item;
pub use kept::{Kept, Lists};
pub use locals::{put_plain, set_locals, take_value};
pub use loops::{Bounds, Counter, Iteration};
pub use metatables::handler;
pub use positions::{position_at, positioned, raise};
pub use signals::Signal;
pub use stack::Stack;
pub use starting::{answer, start};
pub use taking::{take_first, take_values};
pub use targets::{Assignment, Constructor, Target};
pub use threads::Frames;
pub use waiting::{begin_block, element, share, wait};
