//! A client's line.

ghost use Rattle.std.specs.Prelude.{◌≡◌, ◌≢◌, ◌≤◌, ◌↔◌, ◌==◌, true, length, OnOk, OnErr};
ghost use Rattle.client_line.specs.Lines as spec;
ghost use Rattle.send_queue.specs.Queues as queues;

use crate::at::At;
use crate::bodies::read_body;
use crate::heads::{fed_head, fed_rest};
use crate::held::{HeldBytes, advance};
use crate::requests::LineOut;
use http_bodies::{BodyIn, BodyRead, BodyState, skip};
use http_in::HeadScan;
use resty_base::Bytes;
use send_queue::SendQueue;
use std::alloc::{AllocError, Global};
use std::marker::Model;

/// What the line is at.
#[derive(Clone, Copy, Debug, PartialEq, Eq)]
pub enum Held {
    /// A request is present.
    Request,
    /// The body of the request before isn't whole, or there was a fault in it.
    Body,
    /// No byte of a further request came.
    Nothing,
    /// A byte of a further request came.
    Begun,
}

/// The bytes that came from a client and aren't read yet, and those that wait to be sent to it.
#[derive(Drop)]
pub struct Line {
    alloc: Global,
    held: HeldBytes,
    at: At,
    sending: SendQueue,
}

impl Model for Line {
    ghost use Rattle.client_line.specs.Records.{Connection};
    ghost use Rattle.client_line.specs.Views.{at_of, all_of, IsKept};

    ghost Value = { Connection };

    ghost view = { λ line. record { came = record { at = at_of line.at; held = all_of line.held }; sending = line.sending } };

    ghost invariant = { λ line. IsKept line.at line.held };
}

impl Line {
    /// A line on which nothing came; takes no memory.
    pub fn new(alloc: Global) -> Line
        ensures { result ≡ record { came = spec.nothing; sending = queues.nothing } }
    {
        Line {
            alloc,
            held: HeldBytes::new(alloc),
            at: At::Head(HeadScan::new(), 0),
            sending: SendQueue::new(alloc),
        }
    }

    /// Takes a further piece of what the client sent, and reads on up to the next request. While one is present the piece is held.
    pub fn fed(&mut self, piece: &[u8]) -> LineOut
        ensures led { result ≢ LineOut.Memory → spec.IsFed self.old.came piece.now result self.new.came }
        ensures sending { self.new.sending ≡ self.old.sending }
        ensures kept { result ≡ LineOut.Memory → self.new ≡ self.old }
    {
        match &self.at {
            At::Head(scan, scanned) => {
                match fed_head(self.alloc, &mut self.held, *scan, *scanned, piece) {
                    Ok((out, at)) => {
                        self.at = at;
                        out
                    }
                    Err(_) => LineOut::Memory,
                }
            }
            At::Present(_, _, _) => match self.held.rest.extend_from_slice(piece) {
                Ok(()) => LineOut::Waiting,
                Err(_) => LineOut::Memory,
            },
            At::Dropping(state) => match fed_rest(self.alloc, &mut self.held, *state, piece) {
                Ok((out, at)) => {
                    self.at = at;
                    out
                }
                Err(_) => LineOut::Memory,
            },
            At::Over(code) => LineOut::Refused(*code),
        }
    }

    /// Takes as much of the present request's body as is there. The first limit for the content of a body stands.
    pub fn body(&mut self, max: u64) -> BodyRead
        ensures answered { result ≢ BodyRead.Memory → result ≡ spec.body_answer self.old.came max }
        ensures taken { result ≢ BodyRead.Memory → self.new ≡ record self.old { came = spec.after_asked self.old.came max } }
        ensures kept { result ≡ BodyRead.Memory → self.new ≡ self.old }
    {
        match &mut self.at {
            At::Present(body, kind, skips) => {
                read_body(self.alloc, &mut self.held.rest, body, *kind, skips, max)
            }
            _ => BodyRead::Whole(0),
        }
    }

    /// Whether the present request's body isn't whole, nor refused, with what is there of it. Nothing is taken of it, and no memory.
    pub fn waits_for_body(&self, max: u64) -> bool
        ensures { result ≡ true ↔ spec.body_answer self.now.came max ≡ BodyRead.More }
    {
        match &self.at {
            At::Present(Some(body), _, _) => body.waits(&self.held.rest),
            At::Present(None, kind, _) => BodyIn::new(self.alloc, *kind, max).waits(
                &self.held.rest,
            ),
            _ => false,
        }
    }

    /// The content of the present request's body that was taken.
    pub fn body_bytes(&self) -> &[u8]
        ensures { result.now ≡ spec.content self.now.came.at }
    {
        match &self.at {
            At::Present(Some(body), _, _) => body.bytes(),
            _ => &[],
        }
    }

    /// Ends the present request: what is there of its body is dropped, and its rest as it comes.
    pub fn done(&mut self)
        ensures { self.new ≡ record self.old { came = spec.done self.old.came } }
    {
        if let At::Present(_, _, skips) = &self.at {
            let (state, count) = skip(*skips, &self.held.rest);
            if state == BodyState::Whole {
                self.at = At::Head(HeadScan::new(), 0);
                advance(self.alloc, &mut self.held.rest, count);
            } else {
                self.at = At::Dropping(state);
                self.held = HeldBytes::new(self.alloc);
            }
        }
    }

    /// What the line is at.
    pub fn held(&self) -> Held
        ensures { result ≡ spec.held_in self.now.came.at self.now.came.held }
    {
        match &self.at {
            At::Present(_, _, _) => Held::Request,
            At::Dropping(_) => Held::Body,
            At::Head(_, _) if self.held.is_empty() => Held::Nothing,
            At::Head(_, _) | At::Over(_) => Held::Begun,
        }
    }

    /// How many bytes are held.
    pub fn held_len(&self) -> usize
        ensures { result ≡ length self.now.came.held }
    {
        self.held.front.len() + self.held.rest.len()
    }

    /// Puts bytes after those that wait to be sent.
    pub fn queue(&mut self, bytes: &Bytes) -> Result<(), AllocError>
        ensures done { OnOk result (self.new ≡ record self.old { sending = queues.queued self.old.sending bytes.now }) }
        ensures kept { OnErr result (self.new ≡ self.old) }
    {
        self.sending.queue(bytes)
    }

    /// The bytes that are offered to the client next: up to the next multiple of 16,384.
    pub fn queued(&self) -> &[u8]
        ensures { result.now ≡ queues.offered self.now.sending }
    {
        self.sending.queued()
    }

    /// Whether no bytes wait to be sent.
    pub fn is_all_sent(&self) -> bool
        ensures { result ≡ (length self.now.sending.bytes == 0) }
    {
        self.sending.is_empty()
    }

    /// So many of the offered bytes were taken.
    pub fn took(&mut self, count: usize)
        requires { count ≤ length (queues.offered self.old.sending) }
        ensures { self.new ≡ record self.old { sending = queues.taken self.old.sending count } }
    {
        self.sending.took(count);
    }

    /// The client is gone: what waits to be sent is dropped, and nothing more is kept.
    pub fn gone(&mut self)
        ensures { self.new ≡ record self.old { sending = queues.dropped self.old.sending } }
    {
        self.sending.gone();
    }
}
