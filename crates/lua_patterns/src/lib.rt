//! Patterns of Lua 5.1: the first match in a subject, with its captures, within a number of tests.
#![tactic(auto)]

mod answers;
mod balance;
mod captures;
mod classes;
mod items;
mod matcher;
mod search;

pub use answers::{Found, PatFault, Searched};
pub use captures::Cap;
pub use search::find_in;
