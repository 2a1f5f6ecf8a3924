//! The basic functions of Lua's library (Lua 5.1 Reference Manual, 5.1) that need no call of a Lua function, those that the
//! library's own texts call, and the numbers of them all. The numbers of functions that aren't built leave their answer to the outside.
#![tactic(auto)]

mod conversions;
mod dispatch;
mod functions;
mod laws;
mod library;
mod lists;
mod metatables;
mod modules;
mod numerals;
mod own_text;
mod raw;
mod traversal;

pub use functions::{BasicFunction, Function, PreludeFunction};
pub use laws::{library_is_lawful, only_one_shares_metatables};
pub use library::Library;
pub use own_text::prelude;
