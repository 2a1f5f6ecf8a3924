//! What the crates of HTTP share: header fields, names without regard to case, lists within values, and hosts.
#![tactic(auto)]

mod fields;
mod hosts;
mod lists;
mod names;
mod splits;

pub use fields::Fields;
pub use hosts::plain_host;
pub use lists::{elements, trimmed};
pub use names::{lower, same_name};
pub use splits::split_once;
