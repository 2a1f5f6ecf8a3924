//! One exchange, written out whole: that the definitions of a run allow it, and none of its spoiled histories.
#![tactic(auto)]

pub mod laws;
