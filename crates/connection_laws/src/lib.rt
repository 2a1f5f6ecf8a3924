//! Laws of connections: over runs that mind their own a connection replies to each request, and logs, as its run does alone.
//! Not shown: that a run learns all that happened, and that a reply which is taken is followed at once.
#![tactic(auto)]

pub mod laws;
