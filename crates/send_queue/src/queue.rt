//! The bytes that wait to be sent.

ghost use Rattle.std.specs.Prelude.{◌≡◌, ◌≤◌, ◌==◌, length, OnOk, OnErr};
ghost use Rattle.send_queue.specs.Queues as spec;

use crate::blocks::{BLOCK, append, filled, first, put, room};
use resty_base::{Bytes, bytes_after, first_bytes};
use std::alloc::{AllocError, Global};
use std::collections::VecDeque;
use std::marker::Model;

/// The bytes that wait to be sent to a client. They are offered in blocks that end at multiples of 16,384 bytes of all that was queued.
///
/// Contracts see the bytes, how many were taken after the last such multiple, and whether the client is gone.
#[derive(Drop)]
pub struct SendQueue {
    alloc: Global,
    /// Shared pieces, each of which ends where a block does.
    pieces: VecDeque<Bytes>,
    /// The beginning of the block after them.
    begun: Vec<u8>,
    /// How many bytes of the first piece, or of the begun block where there is none, were taken.
    taken: usize,
    /// How many bytes were taken after the last multiple.
    phase: usize,
    is_gone: bool,
}

impl Model for SendQueue {
    ghost use Rattle.std.specs.Prelude.{◌<◌, ◌++◌, drop};
    ghost use Rattle.std.specs.List.{concat};
    ghost use Rattle.send_queue.specs.Records.{Sending};
    ghost use Rattle.send_queue.specs.Layout.{IsLaidOut};

    ghost Value = { Sending };

    ghost view = { λ q. record { bytes = drop q.taken (concat q.pieces.items ++ q.begun.items); phase = q.phase; gone = q.is_gone } };

    ghost invariant = { λ q. (q.phase < 16_384) × IsLaidOut q.phase q.taken q.pieces.items q.begun.items };
}

impl SendQueue {
    /// Nothing waits; takes no memory.
    pub fn new(alloc: Global) -> SendQueue
        ensures { result ≡ spec.nothing }
    {
        SendQueue {
            alloc,
            pieces: VecDeque::new(alloc),
            begun: Vec::new(alloc),
            taken: 0,
            phase: 0,
            is_gone: false,
        }
    }

    /// Puts the bytes after those that wait. Whole blocks of a longer piece share its memory.
    pub fn queue(&mut self, piece: &Bytes) -> Result<(), AllocError>
        ensures done { OnOk result (self.new ≡ spec.queued self.old piece.now) }
        ensures kept { OnErr result (self.new ≡ self.old) }
    {
        if self.is_gone {
            return Ok(());
        }
        let room = room(&self.pieces, &self.begun, self.taken, self.phase);
        if piece.len() < room {
            return append(&mut self.begun, piece, room);
        }
        let end = room + (piece.len() - room) / BLOCK * BLOCK;
        let middle = piece.slice(room..end)?;
        let mut rest = Vec::new(self.alloc);
        append(&mut rest, bytes_after(piece, end), BLOCK)?;
        self.pieces.reserve(2)?;
        let whole = filled(self.alloc, &mut self.begun, piece, room)?;
        put(&mut self.pieces, whole, middle);
        self.begun = rest;
        Ok(())
    }

    /// The bytes that are offered next: up to the next multiple of 16,384.
    pub fn queued(&self) -> &[u8]
        ensures { result.now ≡ spec.offered self.now }
    {
        let rest = bytes_after(first(&self.pieces, &self.begun), self.taken);
        first_bytes(rest, BLOCK - self.phase)
    }

    /// Whether no bytes wait.
    pub fn is_empty(&self) -> bool
        ensures { result ≡ (length self.now.bytes == 0) }
    {
        first(&self.pieces, &self.begun).len() <= self.taken
    }

    /// So many of the offered bytes were taken.
    pub fn took(&mut self, count: usize)
        requires { count ≤ length (spec.offered self.old) }
        ensures { self.new ≡ spec.taken self.old count }
    {
        let left = first(&self.pieces, &self.begun).len() - self.taken;
        self.phase = (self.phase + count) % BLOCK;
        if count < left {
            self.taken += count;
            return;
        }
        self.taken = 0;
        if self.pieces.pop_front().is_none() {
            self.begun = Vec::new(self.alloc);
        } else if self.pieces.is_empty() {
            self.pieces = VecDeque::new(self.alloc);
        }
    }

    /// The client is gone: what waits is dropped, and nothing is kept any more.
    pub fn gone(&mut self)
        ensures { self.new ≡ spec.dropped self.old }
    {
        self.pieces = VecDeque::new(self.alloc);
        self.begun = Vec::new(self.alloc);
        self.taken = 0;
        self.is_gone = true;
    }
}
