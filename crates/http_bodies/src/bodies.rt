//! Bodies: their content, and what the bytes of a connection say of them.

ghost use Rattle.std.specs.Prelude.{◌≡◌, ◌≢◌, List, [], take, length, IfOk, OnErr};
ghost use Rattle.http_bodies.specs.Bodies.{begun, begun_state, body_at, after_bytes, used, answer_at};

use crate::ahead::state_after;
use crate::runs::{after_run, run_length};
use crate::states::{BodyState, DataOf};
use http_in::BodyKind;
use resty_base::{bytes_after, first_bytes};
use std::alloc::{AllocError, Global};
use std::marker::Model;

/// What bytes were read as.
#[derive(Clone, Copy, Debug, PartialEq, Eq)]
pub enum BodyRead {
    /// The body isn't whole yet.
    More,
    /// The body is whole; so many bytes of this piece belong to it.
    Whole(usize),
    /// No body, whatever follows: the status of the reply.
    Refused(u16),
    /// Out of memory; the body is as it was.
    Memory,
}

/// A body that comes piece by piece, with its content so far. Contracts see its limit, how far it has come, and its content.
#[derive(Debug, Drop)]
pub struct BodyIn {
    max: u64,
    state: BodyState,
    content: Vec<u8>,
}

impl Model for BodyIn {
    ghost use Rattle.http_bodies.specs.Records.{Body};

    ghost Value = { Body };

    ghost view = { λ body. record { max = body.max; state = body.state; content = body.content.items } };
}

impl BodyIn {
    ghost use Rattle.std.specs.Prelude.{not};
    ghost use Rattle.http_bodies.specs.States.{is_settled};

    /// A body of which no byte came, whose content may have `max` bytes; takes no memory.
    pub fn new(alloc: Global, kind: BodyKind, max: u64) -> BodyIn
        ensures { result ≡ begun kind max }
    {
        BodyIn {
            max,
            state: begun_state(kind, max),
            content: Vec::new(alloc),
        }
    }

    /// Reads a further piece. After a refusal the same one again.
    pub fn feed(&mut self, piece: &[u8]) -> BodyRead
        ensures taken { result ≢ BodyRead.Memory → self.new ≡ after_bytes self.old piece.now }
        ensures answered { result ≢ BodyRead.Memory → result ≡ answer_at (after_bytes self.old piece.now).state (used self.old piece.now) }
        ensures kept { result ≡ BodyRead.Memory → self.new ≡ self.old }
    {
        let before = self.content.len();
        match read(self.max, self.state, &mut self.content, piece) {
            Ok((state, count)) => {
                self.state = state;
                answer_at(state, count)
            }
            Err(_) => {
                self.content.truncate(before);
                BodyRead::Memory
            }
        }
    }

    /// Whether a further piece would leave it neither whole nor refused. Nothing is read, and it takes no memory.
    pub fn waits(&self, piece: &[u8]) -> bool
        ensures { result ≡ not (is_settled (after_bytes self.now piece.now).state) }
    {
        let room = self.max.saturating_sub(self.content.len() as u64);
        !state_after(self.state, room, piece).is_settled()
    }

    /// The content so far.
    pub fn bytes(&self) -> &[u8]
        ensures { result.now ≡ self.now.content }
    {
        self.content.as_slice()
    }
}

/// How far a body is of which no byte came: a length above the limit is refused at once.
pub(crate) fn begun_state(kind: BodyKind, max: u64) -> BodyState
    ensures { result ≡ begun_state kind max }
{
    match kind {
        BodyKind::Nothing => BodyState::Whole,
        BodyKind::Length(length) if length > max => BodyState::Refused(413),
        BodyKind::Length(0) => BodyState::Whole,
        BodyKind::Length(length) => BodyState::Data(length - 1, DataOf::Body),
        BodyKind::Chunked => BodyState::Digits(0, 0),
    }
}

/// What a body that is so far is answered with, `count` bytes of the last piece being its own.
fn answer_at(state: BodyState, count: usize) -> BodyRead
    ensures { result ≡ answer_at state count }
{
    match state {
        BodyState::Whole => BodyRead::Whole(count),
        BodyState::Refused(code) => BodyRead::Refused(code),
        _ => BodyRead::More,
    }
}

/// Reads a piece into the content: how far the body is after it, and how many bytes of it belong to the body.
fn read(
    max: u64,
    state: BodyState,
    content: &mut Vec<u8>,
    piece: &[u8],
) -> Result<(BodyState, usize), AllocError>
    ensures moved { IfOk result (λ r. body_at max r.0 content.new.items ≡ after_bytes (body_at max state content.old.items) piece.now) }
    ensures counted { IfOk result (λ r. r.1 ≡ used (body_at max state content.old.items) piece.now) }
    ensures kept { OnErr result (take (length content.old.items) content.new.items ≡ content.old.items) }
{
    let mut state = state;
    let mut rest = piece;
    while let [byte, others @ ..] = rest {
        if state.is_settled() {
            return Ok((state, piece.len() - rest.len()));
        }
        match state {
            BodyState::Data(more, of) => {
                let count = run_length(more, rest.len());
                let data = first_bytes(rest, count);
                content.extend_from_slice(data)?;
                state = after_run(more, of, rest.len());
                rest = bytes_after(rest, count);
            }
            _ => {
                state = state.after(max.saturating_sub(content.len() as u64), *byte);
                rest = others;
            }
        }
    }
    Ok((state, piece.len()))
}
