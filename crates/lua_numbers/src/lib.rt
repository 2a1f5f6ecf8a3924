//! The numbers of the Lua profile: whole arithmetic with its faults, and numbers as text.
#![tactic(auto)]

mod arithmetic;
mod faults;
mod laws;
mod powers;
mod texts;

pub use arithmetic::{add, div, modulo, mul, neg, sub};
pub use faults::NumFault;
pub use laws::{digits_are_read, text_is_read_back};
pub use powers::pow;
pub use texts::{after_blanks, before_blanks, is_blank, number_of, numeral_of, text_of};
