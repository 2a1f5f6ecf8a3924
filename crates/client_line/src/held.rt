//! Bytes that are held until they are read.

ghost use Rattle.std.specs.Prelude.{◌≡◌, ◌==◌, ◌++◌, [], length, take, drop, OnOk, OnErr};
ghost use Rattle.client_line.specs.Views.{all_of};

use bytes::BytesMut;
use resty_base::Bytes;
use std::alloc::{AllocError, Global};

/// Bytes that came: those in front were cut off as a head that couldn't be read out of memory, and mostly there are none.
#[derive(Debug, Drop)]
pub(crate) struct HeldBytes {
    pub(crate) front: Bytes,
    pub(crate) rest: BytesMut,
}

impl HeldBytes {
    /// No bytes; takes no memory.
    pub(crate) fn new(alloc: Global) -> HeldBytes
        ensures front { result.front ≡ [] }
        ensures rest { result.rest.items ≡ [] }
    {
        HeldBytes {
            front: Bytes::new(),
            rest: BytesMut::new(alloc),
        }
    }

    /// Whether there are none.
    pub(crate) fn is_empty(&self) -> bool
        ensures { result ≡ (length (all_of self.now) == 0) }
    {
        self.front.is_empty() && self.rest.is_empty()
    }

    /// Puts a piece after the bytes; they are in one buffer then.
    pub(crate) fn push(&mut self, alloc: Global, piece: &[u8]) -> Result<(), AllocError>
        ensures front { OnOk result (self.new.front ≡ []) }
        ensures rest { OnOk result (self.new.rest.items ≡ all_of self.old ++ piece.now) }
        ensures kept { OnErr result (all_of self.new ≡ all_of self.old) }
    {
        if self.front.is_empty() {
            return self.rest.extend_from_slice(piece);
        }
        let mut joined = BytesMut::new(alloc);
        joined.reserve(self.front.len().saturating_add(self.rest.len()))?;
        joined.extend_from_slice(&self.front)?;
        joined.extend_from_slice(&self.rest)?;
        joined.extend_from_slice(piece)?;
        self.rest = joined;
        self.front = Bytes::new();
        Ok(())
    }

    /// Puts a head back that was cut off, up to `count` bytes in all.
    pub(crate) fn put_back(&mut self, head: Bytes, count: usize)
        requires { self.old.front ≡ [] }
        ensures { all_of self.new ≡ take count (head ++ self.old.rest.items) }
    {
        let more = count.saturating_sub(head.len());
        let mut head = head;
        head.truncate(count);
        self.front = head;
        self.rest.truncate(more);
    }
}

/// Lets the first bytes go; a buffer without bytes keeps no memory.
pub(crate) fn advance(alloc: Global, bytes: &mut BytesMut, count: usize)
    ensures { bytes.new.items ≡ drop count bytes.old.items }
{
    if bytes.len() <= count {
        *bytes = BytesMut::new(alloc);
    } else {
        bytes.advance(count);
    }
}
