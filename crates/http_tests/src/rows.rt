//! Rows of what is given, and what is seen of each.
use crate::{base, lines, queues, records, replies, requests, targets};
use std::alloc::{AllocError, Global};
use std::process::Abort;

/// What a row gives.
#[derive(Clone, Copy)]
pub(crate) enum Subject<'a> {
    /// A call of `http_base`, a word, with what it is given.
    Base,
    /// A call of `uri_args`.
    Target,
    /// A call of `http_reply`.
    Reply,
    /// A word, and the head or the body of a request.
    Request,
    /// Steps on the record of a request that has this head.
    Record(&'a str),
    /// Steps on a client's line.
    Line,
    /// Steps on the bytes that wait to be sent.
    Queue,
}

/// Tests each row, `GIVEN => SEEN`.
pub(crate) fn hold(rt: &impl Abort, alloc: Global, subject: Subject<'_>, rows: &str) {
    for row in rows.lines() {
        let (given, expected) = row.split_once(" => ").unwrap_or((row, ""));
        expect(rt, told(alloc, subject, given).as_str(), expected, row);
    }
}

/// What is seen of a row, or `memory`.
fn told(alloc: Global, subject: Subject<'_>, given: &str) -> String {
    match seen(alloc, subject, given) {
        Ok(seen) => seen,
        Err(_) => {
            let mut all = String::new(alloc);
            let _ = all.push_str("memory");
            all
        }
    }
}

/// What is seen of a row.
fn seen(alloc: Global, subject: Subject<'_>, given: &str) -> Result<String, AllocError> {
    match subject {
        Subject::Base => base::answer(alloc, given),
        Subject::Target => targets::answer(alloc, given),
        Subject::Reply => replies::answer(alloc, given),
        Subject::Request => requests::read(alloc, given),
        Subject::Record(head) => records::answers(alloc, head, given),
        Subject::Line => lines::answers(alloc, given),
        Subject::Queue => queues::answers(alloc, given),
    }
}

/// What is seen is what the row says.
pub(crate) fn expect(rt: &impl Abort, seen: &str, expected: &str, row: &str) {
    assert_eq!(rt; seen, expected, "{row}");
}
