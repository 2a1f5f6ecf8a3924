//! The calls of `ngx` as values: which functions of the host they are, what each asks for, and what it gives.
#![tactic(auto)]

mod answers;
mod natives;
mod operations;
mod own_text;
mod printing;

pub use answers::{Given, give};
pub use natives::NgxNatives;
pub use operations::{Read, Wanted, read_operation};
pub use own_text::prelude;
