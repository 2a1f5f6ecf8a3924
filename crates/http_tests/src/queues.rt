//! Tests of what waits to be sent: what is offered ends at multiples of 16,384 bytes (OFFERED).
use crate::rows::{Subject, hold};
use crate::texts::*;
use resty_base::Bytes;
use send_queue::SendQueue;
use std::alloc::{AllocError, Global};

/// So many bytes after others; each is the number of its place.
fn numbered(alloc: Global, before: usize, count: usize) -> Result<Bytes, AllocError> {
    let mut bytes = Vec::new(alloc);
    for index in 0..count {
        bytes.push((before.wrapping_add(index) % 251) as u8)?;
    }
    Bytes::copy_from_slice(alloc, bytes.as_slice())
}

/// Takes at most so many of the offered bytes, and returns how many.
fn take(waits: &mut SendQueue, most: usize) -> usize {
    let count = waits.queued().len().min(most);
    waits.took(count);
    count
}

/// Takes a step, and writes what it answers: `queue TEXT`, `many COUNT`, `queued`, `length` of what is offered, `take MOST`, or `gone`.
fn act(
    alloc: Global,
    all: &mut String,
    waits: &mut SendQueue,
    word: &str,
    given: &str,
) -> Result<(), AllocError> {
    match word {
        "queue" => waits.queue(&plain_bytes(alloc, given)?),
        "many" => waits.queue(&numbered(alloc, 0, given.parse().unwrap_or(0))?),
        "queued" => write_part(all, waits.queued()),
        "length" => write_number(alloc, all, waits.queued().len() as u64),
        "take" => {
            let count = take(waits, given.parse().unwrap_or(0));
            write_number(alloc, all, count as u64)
        }
        _ => {
            waits.gone();
            Ok(())
        }
    }
}

/// What steps answer on one queue, `,` after each.
pub(crate) fn answers(alloc: Global, steps: &str) -> Result<String, AllocError> {
    let mut all = String::new(alloc);
    let mut waits = SendQueue::new(alloc);
    for step in steps.split(',') {
        let (word, given) = step.split_once(' ').unwrap_or((step, ""));
        act(alloc, &mut all, &mut waits, word, given)?;
        all.push(',')?;
    }
    Ok(all)
}

/// What is offered ends at multiples.
const OFFERED: &str = "\
queued,many 16383,queue ab,length,take 1,length,take 20000,queued,gone,queued,queue c,queued => [],,,16384,1,16383,16383,[b],,[],,[],";

#[test]
fn what_is_offered_ends_at_multiples(rt: HostRuntime) {
    hold(&rt, rt.alloc(), Subject::Queue, OFFERED);
}
