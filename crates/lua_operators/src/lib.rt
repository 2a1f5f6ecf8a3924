//! The operators of Lua on plain values: types, conversions, arithmetic, comparison, concatenation and length, with the
//! keys of metatable events, the texts of faults and their positions. No store is asked and no metatable: where an
//! operator needs one, its answer says so.
#![tactic(auto)]

mod arithmetic;
mod comparison;
mod concatenation;
mod conversions;
mod events;
mod faults;
mod laws;
mod outcome;
mod positions;
mod types;

pub use arithmetic::{ArithmeticOperator, computed, negated};
pub use comparison::{ComparisonOperator, compared, equality};
pub use concatenation::{concatenated, length};
pub use conversions::{number_of, text_of};
pub use events::Event;
pub use faults::{
    Fault, OperandFault, argument_fault, arithmetic_fault, comparison_fault, concatenation_fault,
    module_fault, phase_fault,
};
pub use laws::{less_is_below, or_equal_is_not_above, same_type_is_equal};
pub use outcome::Outcome;
pub use positions::with_position;
pub use types::{LuaType, is_truthy, type_of};
