//! What an engine holds of its strands, without the strands and the world: their seats, and the deadlines that are armed for them.
#![tactic(auto)]

mod agenda;
mod numbered;
mod numbers;
mod places;
mod seats;
mod sockets;

pub use agenda::Agenda;
pub use seats::Seats;
pub use sockets::{Socket, Sockets};
