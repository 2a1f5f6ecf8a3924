//! What the engine holds of a strand, and what is still to come of the newest event.

/// A strand in its seat.
#[derive(Drop)]
pub struct Seat<S> {
    /// What it does.
    pub strand: S,
    /// Whether its client's connection is open.
    pub is_open: bool,
    /// Whether it wants bytes of its client, as the world was told last.
    pub wanted: bool,
}

/// What the newest event still brings about by itself.
#[derive(Clone, Copy, Debug, PartialEq, Eq)]
pub enum ToCome {
    /// Nothing: all of it has come.
    Nothing,
    /// A moment wakes what is due at it.
    Wakings,
    /// Stop ends each strand that began after this connection; after none, all.
    Endings(Option<u64>),
}
