//! Tests of the program, and of the crates that it stands on, by their public calls.
#![tactic(auto)]

#[cfg(test)]
mod base;
#[cfg(test)]
mod mute;
#[cfg(test)]
mod program;
#[cfg(test)]
mod replays;
#[cfg(test)]
mod rows;
#[cfg(test)]
mod schedule_texts;
#[cfg(test)]
mod scripted;
#[cfg(test)]
mod served;
#[cfg(test)]
mod world;
