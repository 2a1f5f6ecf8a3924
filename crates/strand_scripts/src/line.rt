//! A strand's connection to its client: what was sent, what of it was taken, and whether it is open.

use resty_base::{Bytes, bytes_after, first_bytes};
use std::alloc::{AllocError, Global};
use std::marker::Model;

/// No piece crosses a multiple of so many sent bytes.
const PIECE: usize = 16_384;

/// A strand's connection to its client.
#[derive(Debug, Drop)]
pub struct Line {
    is_open: bool,
    /// The client takes no bytes for now.
    is_put_off: bool,
    /// The strand's life was ended.
    is_over: bool,
    bytes: Vec<u8>,
    taken: usize,
}

impl Model for Line {
    ghost use Rattle.strand_scripts.specs.Lines.{Sending};

    ghost Value = { Sending };

    ghost view = { λ line. record {
      opened = line.is_open;
      off = line.is_put_off;
      over = line.is_over;
      sent = line.bytes.items;
      taken = line.taken;
    } };
}

impl Line {
    ghost use Rattle.std.specs.Prelude.{◌≡◌, not, length, take, OnOk, if◌then◌else◌, []};
    ghost use Rattle.strand_contract.specs.Alone.{is_some_left};
    ghost use Rattle.strand_scripts.specs.Lines as spec;

    /// Nothing was sent; takes no memory.
    pub(crate) fn new(alloc: Global, is_open: bool) -> Line
        ensures { result ≡ spec.fresh is_open }
    {
        Line {
            is_open,
            is_put_off: false,
            is_over: false,
            bytes: Vec::new(alloc),
            taken: 0,
        }
    }

    pub(crate) fn is_open(&self) -> bool
        ensures { result ≡ self.now.opened }
    {
        self.is_open
    }

    /// Whether these bytes are to be offered: nothing waits before them, and the client takes bytes.
    pub(crate) fn wants_offer(&self, text: &Bytes) -> bool
        ensures { result ≡ spec.wants_offer text.now self.now }
    {
        self.is_open && !text.is_empty() && self.is_done() && !self.is_put_off
    }

    /// Sends these after those that are there, where the connection is open.
    pub(crate) fn send(&mut self, text: &Bytes) -> Result<(), AllocError>
        ensures { OnOk result (self.new ≡ spec.sent_more text.now self.old) }
    {
        if self.is_open {
            self.bytes.extend_from_slice(text.as_slice())?;
        }
        Ok(())
    }

    /// What isn't taken yet.
    fn rest(&self) -> &[u8]
        ensures { result.now ≡ spec.left_to_send self.now }
    {
        bytes_after(&self.bytes, self.taken)
    }

    /// The next piece.
    pub(crate) fn piece(&self) -> &[u8]
        ensures { result.now ≡ spec.next_piece self.now }
    {
        first_bytes(self.rest(), PIECE - self.taken % PIECE)
    }

    /// What is offered next: nothing where it isn't open.
    pub(crate) fn queued(&self) -> &[u8]
        ensures { result.now ≡ (if self.now.opened then spec.next_piece self.now else []) }
    {
        if self.is_open { self.piece() } else { &[] }
    }

    /// So many bytes of the piece were taken.
    pub(crate) fn take(&mut self, count: usize)
        ensures { self.new ≡ spec.count_taken (length (take count (spec.next_piece self.old))) self.old }
    {
        let count = self.piece().len().min(count);
        self.taken += count;
        self.is_put_off = false;
    }

    /// Whether all was taken.
    pub(crate) fn is_done(&self) -> bool
        ensures { is_some_left (spec.left_to_send self.now) ≡ not result }
    {
        self.rest().is_empty()
    }

    /// Whether the client takes none for now.
    pub(crate) fn put_off(&mut self, is_put_off: bool)
        ensures { self.new ≡ spec.put_off is_put_off self.old }
    {
        self.is_put_off = is_put_off;
    }

    /// The life is over, and the connection isn't open any more.
    pub(crate) fn end(&mut self)
        ensures { self.new ≡ spec.ended self.old }
    {
        self.is_open = false;
        self.is_over = true;
    }
}
