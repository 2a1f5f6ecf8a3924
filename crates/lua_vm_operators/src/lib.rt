//! Operators of the machine: their operands, `and` and `or`; and operators on values, each of which does the evaluator's work, by way
//! of the handlers of metatables where it isn't defined on its operands.
#![tactic(auto)]

mod arithmetic;
mod comparison;
mod concatenation;
mod handlers;
mod lengths;
mod operands;
mod operators;

pub use operands::{and_then, binary, first, key, or_else, right, truth, unary};
