//! Tests of the machine of Lua, and of what it stands on, by their public calls: values and their store, patterns, operators, the library's functions, and
//! rows of small programs, with their steps and units.
#![tactic(auto)]

#[cfg(test)]
mod library;
#[cfg(test)]
mod operators;
#[cfg(test)]
mod patterns;
#[cfg(test)]
mod rows;
#[cfg(test)]
mod stores;
#[cfg(test)]
mod texts;
#[cfg(test)]
mod values;
