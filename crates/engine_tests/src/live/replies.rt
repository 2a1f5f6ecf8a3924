//! Long replies.

use super::bench::{Bench, Client, now};
use resty_base::Id;
use resty_world::{Event, Wrote};
use std::alloc::Global;
use std::process::Abort;

/// The bytes of a long reply, and how many of them are put or read in one turn at most.
const LONG: usize = 1_048_576;

const TURNS: usize = 100_000;

/// What was put of a long reply, and whether the client takes no more for now.
#[derive(Clone, Copy)]
struct Reply {
    put: usize,
    waits: bool,
}

/// A piece of a long reply.
fn piece(rt: &impl Abort, alloc: Global) -> Vec<u8> {
    vec![in alloc; b'x'; 16_384].expect(rt, "no memory")
}

/// The first bytes of a piece, so many that the reply isn't longer than it is to be.
fn next_piece<'p>(piece: &'p [u8], reply: Reply, length: usize) -> &'p [u8] {
    let count = length.saturating_sub(reply.put).min(piece.len());
    &piece[..count]
}

/// The reply after an answer; none: the connection is broken.
fn answered(reply: Reply, answer: Wrote) -> Option<Reply> {
    match answer {
        Wrote::Took(count) => Some(Reply {
            put: reply.put.saturating_add(count),
            waits: false,
        }),
        Wrote::Later => Some(Reply {
            put: reply.put,
            waits: true,
        }),
        _ => None,
    }
}

/// Puts pieces until the reply has this length, or the client takes no more.
fn put_pieces<A: Abort>(
    rt: &A,
    bench: &mut Bench<'_, A>,
    piece: &[u8],
    from: Reply,
    length: usize,
) -> Reply {
    let mut reply = from;
    for _ in 0..TURNS {
        let next = next_piece(piece, reply, length);
        if reply.waits || next.is_empty() {
            return reply;
        }
        let answer = bench.put(1, next);
        reply = answered(reply, answer).expect(rt, "broken");
    }
    reply
}

/// Waits until the client, who has read all that was put, is ready for more.
fn ready(bench: &mut Bench<'_, impl Abort>, reply: Reply) -> Reply {
    bench.gives(Event::Ready(Id::Conn(1)));
    Reply {
        put: reply.put,
        waits: false,
    }
}

/// A long reply to a client that reads a little at a time: how many bytes were put, and how many read.
fn reply_slowly<A: Abort>(
    rt: &A,
    alloc: Global,
    bench: &mut Bench<'_, A>,
    client: &mut Client<'_, A>,
) -> (usize, usize) {
    let piece = piece(rt, alloc);
    let mut buffer = [0u8; 4_096];
    let mut reply = Reply {
        put: 0,
        waits: false,
    };
    let mut read = 0usize;
    for _ in 0..TURNS {
        if read >= LONG {
            break;
        }
        reply = put_pieces(rt, bench, piece.as_slice(), reply, LONG);
        read = read.saturating_add(client.read(&mut buffer));
        if reply.waits && read >= reply.put {
            reply = ready(bench, reply);
        }
    }
    (reply.put, read)
}

pub(super) fn read_slowly<A: Abort>(rt: &A, host: &HostRuntime, bench: &mut Bench<'_, A>) {
    let mut client = bench.arrived(1);
    let (put, read) = reply_slowly(rt, host.alloc(), bench, &mut client);
    assert!(rt; put == LONG && read == LONG);
}

pub(super) fn put_off<A: Abort>(rt: &A, host: &HostRuntime, bench: &mut Bench<'_, A>) {
    let mut client = bench.arrived(1);
    let piece = piece(rt, host.alloc());
    let start = Reply {
        put: 0,
        waits: false,
    };
    let reply = put_pieces(rt, bench, piece.as_slice(), start, usize::MAX);
    assert!(rt; reply.waits);
    client.send(b"x");
    bench.hears(1, b"x");
}

pub(super) fn unread<A: Abort>(rt: &A, host: &HostRuntime, bench: &mut Bench<'_, A>) {
    let mut client = bench.arrived(1);
    client.send(b"unread by the world");
    let answer = bench.put(1, b"hi");
    assert!(rt; answer == Wrote::Took(2));
    bench.finish(1);
    client.send(b"and more");
    let _ = bench.next_at(now(rt, host).saturating_add(50));
    client.reads_whole(2);
}
