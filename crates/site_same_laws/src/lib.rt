//! Programs and sites that are the same but for where their parts stand in memory live, start and are read alike: laws, and no code that runs.
#![tactic(auto)]

mod programs;
mod readings;
mod sets;

pub use programs::{
    joined_programs_are_same, same_programs_have_same_names, same_programs_live_alike,
};
pub use readings::readings_are_known;
pub use sets::{equal_lives_start_alike, same_sets_start_alike, same_sets_stay_same};
