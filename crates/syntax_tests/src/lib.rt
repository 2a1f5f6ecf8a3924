//! Tests of the crates that read Lua and configurations, by their public calls: numbers, trees, tokens, operators, programs, sets of modules and the
//! reading of their files, and what a configuration says.
#![tactic(auto)]

#[cfg(test)]
mod configurations;
#[cfg(test)]
mod module_reading;
#[cfg(test)]
mod module_sets;
#[cfg(test)]
mod names;
#[cfg(test)]
mod numbers;
#[cfg(test)]
mod parsing;
#[cfg(test)]
mod rows;
#[cfg(test)]
mod tokens;
#[cfg(test)]
mod trees;
