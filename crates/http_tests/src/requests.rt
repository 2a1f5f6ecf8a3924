//! Tests of heads (`heads`: where they end, fields, framings, limits) and bodies (`bodies`: chunks, pieces, limits of lines) of requests.
mod bodies;
mod heads;

use crate::rows::{Subject, hold};
use crate::texts::joined;
use std::alloc::{AllocError, Global};

/// What is read of `WORD TEXT`.
pub(crate) fn read(alloc: Global, given: &str) -> Result<String, AllocError> {
    let (word, text) = given.split_once(' ').unwrap_or((given, ""));
    match word {
        "head" => heads::read(alloc, &joined(alloc, &[text])?),
        "fields-1.0" => heads::read(alloc, &joined(alloc, &[heads::B, text, "␍␊"])?),
        "fields-1.1" => heads::read(alloc, &joined(alloc, &[heads::A, text, "␍␊"])?),
        "parts" => heads::parts(alloc, &joined(alloc, &[heads::B, text, "␍␊"])?),
        "scan" => {
            let (first, second) = text.split_once('|').unwrap_or((text, ""));
            heads::scanned(alloc, &joined(alloc, &[first])?, &joined(alloc, &[second])?)
        }
        "repeated" => heads::read(alloc, &repeated(alloc, text)?),
        _ => bodies::read(alloc, word, text),
    }
}

/// The part of this number of parts with `;` between.
fn part(text: &str, index: usize) -> &str {
    text.split(';').nth(index).unwrap_or("")
}

/// The bytes of `FRONT;TEXT;COUNT;BACK`: the text stands so many times between the two others.
fn repeated(alloc: Global, parts: &str) -> Result<Vec<u8>, AllocError> {
    let count = part(parts, 2).parse().unwrap_or(0);
    let middle = part(parts, 1).repeat(alloc, count)?;
    joined(alloc, &[part(parts, 0), middle.as_str(), part(parts, 3)])
}

#[test]
fn heads_and_bodies_are_read(rt: HostRuntime) {
    hold(&rt, rt.alloc(), Subject::Request, heads::HEADS);
    hold(&rt, rt.alloc(), Subject::Request, heads::SCANS);
    hold(&rt, rt.alloc(), Subject::Request, heads::FIELDS);
    hold(&rt, rt.alloc(), Subject::Request, heads::PARTS);
    hold(&rt, rt.alloc(), Subject::Request, heads::FRAMINGS);
    hold(&rt, rt.alloc(), Subject::Request, heads::LIMITS);
    hold(&rt, rt.alloc(), Subject::Request, bodies::BODIES);
    hold(&rt, rt.alloc(), Subject::Request, bodies::PIECES);
    hold(&rt, rt.alloc(), Subject::Request, bodies::PADDED);
}
