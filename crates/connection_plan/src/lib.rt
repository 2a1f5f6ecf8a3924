//! A client's connection over whatever answers its requests, as a plan of moves: what it asks of its site, what it does for each event, and its laws.
#![tactic(auto)]

pub mod laws;
mod services;
mod stored;

pub use services::{ServiceContract, Times};
