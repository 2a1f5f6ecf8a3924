//! Shared dictionaries: a zone keeps its items in the order of their last use, and answers as the plain dictionary does.
#![tactic(auto)]

mod calls;
mod items;
mod kept;
mod recent;
mod scans;
mod sizes;
mod values;
mod zone;

pub use zone::Zone;
