//! The body of the request that is present.

ghost use Rattle.std.specs.Prelude.{◌≡◌, ◌≢◌};
ghost use Rattle.http_bodies.specs.Bodies.{after_bytes};
ghost use Rattle.client_line.specs.Records.{Present};
ghost use Rattle.client_line.specs.Lines as spec;
ghost use Rattle.client_line.specs.Views.{taken_of};

use crate::held::advance;
use bytes::BytesMut;
use http_bodies::{BodyIn, BodyRead, BodyState, skip};
use http_in::BodyKind;
use resty_base::first_bytes;
use std::alloc::Global;

/// Reads what is held of a body, and lets it go; the body is begun with this limit where it wasn't.
pub(crate) fn read_body(
    alloc: Global,
    held: &mut BytesMut,
    body: &mut Option<BodyIn>,
    kind: BodyKind,
    skips: &mut BodyState,
    max: u64,
) -> BodyRead
    ensures answered { result ≢ BodyRead.Memory → result ≡ spec.read_answer (spec.body_so_far body.old kind max) held.old.items }
    ensures taken { result ≢ BodyRead.Memory → spec.came_at (Present body.new kind skips.new) held.new.items
        ≡ spec.reads_body (spec.body_so_far body.old kind max) kind skips.old held.old.items }
    ensures kept { result ≡ BodyRead.Memory → spec.came_at (Present body.new kind skips.new) held.new.items
        ≡ spec.came_at (Present body.old kind skips.old) held.old.items }
{
    match body {
        Some(body) => read_on(alloc, held, body, skips),
        None => {
            let mut begun = BodyIn::new(alloc, kind, max);
            let read = read_on(alloc, held, &mut begun, skips);
            if read != BodyRead::Memory {
                *body = Some(begun);
            }
            read
        }
    }
}

/// Reads what is held of a body that is begun, and lets it go.
fn read_on(alloc: Global, held: &mut BytesMut, body: &mut BodyIn, skips: &mut BodyState) -> BodyRead
    ensures answered { result ≢ BodyRead.Memory → result ≡ spec.read_answer body.old held.old.items }
    ensures read { result ≢ BodyRead.Memory → body.new ≡ after_bytes body.old held.old.items }
    ensures taken { result ≢ BodyRead.Memory → held.new.items ≡ spec.held_after body.old held.old.items }
    ensures skipped { result ≢ BodyRead.Memory → skips.new ≡ spec.skips_after body.old skips.old held.old.items }
    ensures kept { result ≡ BodyRead.Memory → body.new ≡ body.old }
    ensures kept_bytes { result ≡ BodyRead.Memory → held.new.items ≡ held.old.items }
    ensures kept_state { result ≡ BodyRead.Memory → skips.new ≡ skips.old }
{
    let read = body.feed(held);
    if let Some(count) = taken_of(read, held.len()) {
        let (next, _) = skip(*skips, first_bytes(held, count));
        *skips = next;
        advance(alloc, held, count);
    }
    read
}

/// How many of `len` bytes are taken that a body was fed with, by its answer; None where none are.
fn taken_of(read: BodyRead, len: usize) -> Option<usize>
    ensures { result ≡ taken_of read len }
{
    match read {
        BodyRead::More => Some(len),
        BodyRead::Whole(count) => Some(count),
        BodyRead::Refused(_) | BodyRead::Memory => None,
    }
}
