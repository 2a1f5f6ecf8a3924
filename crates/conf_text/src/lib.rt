//! The text of a configuration: its words, and the items that they make.
#![tactic(auto)]

mod endings;
mod fronts;
mod items;
mod laws;
mod layout;
mod tokens;

pub use endings::Ending;
pub use items::{Item, items_of};
pub use laws::a_text_has_one_list_of_items;
