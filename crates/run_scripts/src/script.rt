//! What scripted runs go by.

use resty_base::{Bytes, Ms};
use run_contract::{Asking, LocationTimes};

/// What is done at once, in this order.
#[derive(Drop)]
pub struct Step {
    /// Another location answers the request: its times hold from now on.
    pub moves_on: Option<LocationTimes>,
    /// A log line is written.
    pub logs: Option<Bytes>,
    /// A part of the reply is sent.
    pub says: Option<Bytes>,
}

/// What a run does: it is counted, where its script says so, begins, asks its connection one thing, and ends with the answer. While what it asked for isn't
/// there a thread of it sleeps; where that wakes first, the run ends with what the thread does.
#[derive(Drop)]
pub struct Script {
    /// The name of the site's one dictionary.
    pub dictionary: Bytes,
    /// The key under which the dictionary counts the runs.
    pub counts: Option<Bytes>,
    pub first: Step,
    pub asks: Asking,
    /// With the answer, where that comes at once.
    pub answered: Step,
    /// Before the thread sleeps so long.
    pub not_yet: Step,
    pub sleeps: Ms,
    /// With an answer that comes later.
    pub later: Step,
    /// When the thread wakes.
    pub woken: Step,
    /// When the client sends no more, and the run goes on.
    pub client_ends: Step,
    /// Whether the connection is closed after the reply.
    pub closes: bool,
}
