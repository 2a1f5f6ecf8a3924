//! Strands as plans of moves: what a turn does, one move after the other, and every law of a strand's contract, proved once for any plan.
#![tactic(auto)]

pub mod laws;
