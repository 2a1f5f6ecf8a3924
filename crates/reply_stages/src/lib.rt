//! The stages of a reply: for which server and location a request is, the reply of its handler by what that printed and how it ended, the
//! replies that the server makes itself, and the lines of the log.
#![tactic(auto)]

mod lines;
mod replies;
mod scopes;

pub use lines::line_of;
pub use replies::{Sent, by_handler, of_status, refusal};
pub use scopes::{Scope, scope_of};
