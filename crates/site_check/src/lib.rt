//! The text of a site, checked: its configuration, and the grammar of its blocks of Lua.
#![tactic(auto)]

mod checking;
mod faults;
mod laws;

pub use checking::{SiteRead, read_site};
pub use faults::CheckFault;
pub use laws::no_site_is_refused;
