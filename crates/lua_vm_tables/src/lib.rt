//! Tables of the machine: indexes and assignments at keys, by way of the handlers of metatables, calls of methods, and the items
//! of table constructors.
#![tactic(auto)]

mod chains;
mod constructors;
mod destinations;
mod indexing;
mod methods;
mod setting;

pub use constructors::{
    item_at_key, item_at_number, item_key, items_at_numbers, next_item, next_items,
};
pub use indexing::{at, index, store_at};
pub use methods::{
    method, method_arguments, method_callee, tail_method, tail_method_arguments, tail_method_callee,
};
