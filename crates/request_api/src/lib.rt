//! The record of a request: what a program may ask of its head, and what it makes of the reply.
#![tactic(auto)]

mod arguments;
mod faults;
mod fields;
mod heads;
mod lengths;
mod names;
mod replies;
mod requests;
mod values;
mod variables;

pub use faults::ReqFault;
pub use replies::{Printed, Reply};
pub use requests::Req;
