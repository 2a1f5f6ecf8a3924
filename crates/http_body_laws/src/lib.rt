//! That what is read as a chunked body is one by the grammar of RFC 9112, section 7.1, and that refusals come where none can follow.
#![tactic(auto)]

mod laws;

pub use laws::{
    chunked_bodies_are_read, others_go_on, refused_are_no_bodies, refused_are_too_large,
    too_large_are_refused, whole_are_chunked_bodies,
};
