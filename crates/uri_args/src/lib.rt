//! Targets of requests: escapes of bytes, paths, and arguments as lists of names with values.
#![tactic(auto)]

mod arguments;
mod escapes;
mod laws;
mod paths;
mod shared;
mod targets;

pub use arguments::{Pair, args_of, args_text};
pub use escapes::{escape, unescape};
pub use laws::unescape_undoes_escape;
pub use paths::path_of;
pub use targets::{Target, target_of};
