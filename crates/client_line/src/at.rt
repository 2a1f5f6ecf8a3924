//! What is read next of the bytes that came from a client.

use http_bodies::{BodyIn, BodyState};
use http_in::{BodyKind, HeadScan};

/// What is read next.
#[derive(Debug, Drop)]
pub(crate) enum At {
    /// A head; so many of the bytes that are held were scanned for its end.
    Head(HeadScan, usize),
    /// A request is present: its body so far, where it was asked for, how it is framed, and how far it has come without a limit.
    Present(Option<BodyIn>, BodyKind, BodyState),
    /// The rest of a body, which is dropped as it comes.
    Dropping(BodyState),
    /// Nothing: a head was refused with this status.
    Over(u16),
}
