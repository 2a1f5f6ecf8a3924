//! Laws of what Lua programs mean: what each construct comes to, as equations, and what a whole thread leaves of the heap in which it ran.
#![tactic(auto)]

mod equations;
mod standing;

pub use equations::{calls_are, expressions_are, loops_are, operators_are, statements_are};
pub use standing::{calls_keep_standing, lives_keep_standing, resumes_keep_standing};
