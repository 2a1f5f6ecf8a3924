//! The turns of the strands that live: their acts are carried out, their threads run and their places are offered, until nothing is left.
#![tactic(auto)]

mod turns;

pub use turns::Turns;
