//! The pool of idle sockets, which keepalive fills.
#![tactic(auto)]

mod keys;
mod pool;
mod recent;

pub use pool::Pool;
