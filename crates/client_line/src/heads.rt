//! Heads, found in the bytes that are held and cut off them.

ghost use Rattle.std.specs.Prelude.{◌≡◌, ◌≢◌, ◌≤◌, ◌++◌, Some, [], length, take, drop, IfOk, OnErr};
ghost use Rattle.http_in.specs.Ends.{head_end};
ghost use Rattle.client_line.specs.Requests.{IsOf};
ghost use Rattle.client_line.specs.Records.{Head};
ghost use Rattle.client_line.specs.Lines.{came_at, drops};
ghost use Rattle.client_line.specs.Views.{all_of, IsScanned, LeadsTo};

use crate::at::At;
use crate::held::{HeldBytes, advance};
use crate::requests::{LineOut, request_in};
use http_bodies::{BodyState, begun_skip, skip};
use http_in::HeadScan;
use resty_base::bytes_after;
use std::alloc::{AllocError, Global};

/// With so many bytes a head must have ended.
const HEAD_LIMIT: usize = 16_384;

/// A further piece comes after the bytes of a head of which so many were scanned: what it leads to, and what is read next.
pub(crate) fn fed_head(
    alloc: Global,
    held: &mut HeldBytes,
    scan: HeadScan,
    scanned: usize,
    piece: &[u8],
) -> Result<(LineOut, At), AllocError>
    requires { IsScanned scan scanned (all_of held.old) }
    ensures led { IfOk result (λ r. LeadsTo (came_at Head (all_of held.old ++ piece.now)) r.0 r.1 held.new) }
    ensures kept { OnErr result (all_of held.new ≡ all_of held.old) }
{
    let before = held.front.len() + held.rest.len();
    held.push(alloc, piece)?;
    let total = held.rest.len();
    let mut scan = scan;
    match scan.read(bytes_after(&held.rest, scanned)) {
        Some(more) => cut_head(alloc, held, before, scanned + more),
        None if total < HEAD_LIMIT => Ok((LineOut::Waiting, At::Head(scan, total))),
        None => {
            *held = HeldBytes::new(alloc);
            Ok((LineOut::Refused(431), At::Over(431)))
        }
    }
}

/// Cuts a whole head of `end` bytes off what is held, and reads it. Out of memory only the first `before` bytes are held.
fn cut_head(
    alloc: Global,
    held: &mut HeldBytes,
    before: usize,
    end: usize,
) -> Result<(LineOut, At), AllocError>
    requires joined { held.old.front ≡ [] }
    requires whole { head_end held.old.rest.items ≡ Some end }
    ensures led { IfOk result (λ r. LeadsTo (came_at Head held.old.rest.items) r.0 r.1 held.new) }
    ensures kept { OnErr result (all_of held.new ≡ take before held.old.rest.items) }
{
    let Ok(head) = held.rest.freeze_to(end) else {
        held.rest.truncate(before);
        return Err(AllocError);
    };
    match head.clone() {
        Ok(shared) => match request_in(alloc, shared) {
            LineOut::Request(head, target) => {
                let body = head.body;
                advance(alloc, &mut held.rest, 0);
                Ok((
                    LineOut::Request(head, target),
                    At::Present(None, body, begun_skip(body)),
                ))
            }
            LineOut::Refused(code) => {
                *held = HeldBytes::new(alloc);
                Ok((LineOut::Refused(code), At::Over(code)))
            }
            LineOut::Waiting | LineOut::Memory => {
                held.put_back(head, before);
                Err(AllocError)
            }
        },
        Err(_) => {
            held.put_back(head, before);
            Err(AllocError)
        }
    }
}

/// A further piece comes after the bytes of a body that is dropped and so far: what it leads to, and what is read next.
pub(crate) fn fed_rest(
    alloc: Global,
    held: &mut HeldBytes,
    state: BodyState,
    piece: &[u8],
) -> Result<(LineOut, At), AllocError>
    requires { all_of held.old ≡ [] }
    ensures led { IfOk result (λ r. LeadsTo (drops state piece.now) r.0 r.1 held.new) }
    ensures kept { OnErr result (all_of held.new ≡ all_of held.old) }
{
    let (state, count) = skip(state, piece);
    match state {
        BodyState::Whole => fed_head(alloc, held, HeadScan::new(), 0, bytes_after(piece, count)),
        BodyState::Refused(_) => Ok((LineOut::Refused(400), At::Dropping(state))),
        _ => Ok((LineOut::Waiting, At::Dropping(state))),
    }
}
