//! How a client knows the end of a body (RFC 9112, 6.3).
ghost use Rattle.std.specs.Prelude.{◌≡◌};
ghost use Rattle.http_reply.specs.Bodies as bodies;

/// What tells the end of a body.
#[derive(Debug, Clone, Copy, PartialEq, Eq)]
pub enum Framing {
    /// There is no body.
    Bodiless,
    /// The body has so many bytes.
    Counted(u64),
    /// The body comes in chunks.
    Chunked,
    /// The body ends where the connection closes.
    UntilClose,
}

impl Framing {
    /// Whether a body of so many bytes is shorter than its head says.
    pub fn falls_short(self, made: u64) -> bool
        ensures { result ≡ bodies.falls_short self made }
    {
        match self {
            Framing::Counted(count) => made < count,
            _ => false,
        }
    }
}
