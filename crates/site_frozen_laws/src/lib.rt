//! Laws of what stands in the heaps of running Lua: of the threads of a machine, resume by resume, of sites that have
//! started, with their runs, and of handlers of requests. Laws, and no code that runs.
#![tactic(auto)]

mod laws;

pub use laws::{
    handlers_leave_what_init_made, runs_leave_what_init_made, sound_sets_stand,
    started_sites_stand, threads_keep_standing,
};
