//! Runs of data, which are read at once.

ghost use Rattle.std.specs.Prelude.{◌≡◌, ◌<◌, ◌≤◌};
ghost use Rattle.http_bodies.specs.Runs as spec;

use crate::states::{BodyState, DataOf, data_end};

/// How many of `count` bytes are data, where one and `more` are still to come.
pub(crate) fn run_length(more: u64, count: usize) -> usize
    ensures value { result ≡ spec.run_length more count }
    ensures within { result ≤ count }
    ensures some { 0 < count → 0 < result }
{
    if more < count as u64 {
        more as usize + 1
    } else {
        count
    }
}

/// How far the body is after them.
pub(crate) fn after_run(more: u64, of: DataOf, count: usize) -> BodyState
    ensures { result ≡ spec.after_run more of count }
{
    if more < count as u64 {
        data_end(of)
    } else {
        BodyState::Data(more - count as u64, of)
    }
}
