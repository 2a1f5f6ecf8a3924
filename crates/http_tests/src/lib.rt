//! Tests of the crates of HTTP, by their public calls: rows of what is given, and what is seen of each.
#![tactic(auto)]

#[cfg(test)]
mod base;
#[cfg(test)]
mod handlers;
#[cfg(test)]
mod lines;
#[cfg(test)]
mod queues;
#[cfg(test)]
mod records;
#[cfg(test)]
mod replies;
#[cfg(test)]
mod requests;
#[cfg(test)]
mod rows;
#[cfg(test)]
mod targets;
#[cfg(test)]
mod texts;
