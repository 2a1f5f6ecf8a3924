//! Tests of bodies; the answers were worked out from RFC 9112 by hand.
use crate::texts::joined;
use http_bodies::{BodyIn, BodyRead};
use http_in::BodyKind;
use std::alloc::{AllocError, Global};

/// The answer in words, and after it the content of a body that isn't refused.
fn in_words(alloc: Global, read: BodyRead, body: &BodyIn) -> Result<String, AllocError> {
    let content = str::from_utf8(body.bytes()).unwrap_or("?");
    match read {
        BodyRead::More => format!(in alloc; "More [{content}]"),
        BodyRead::Memory => format!(in alloc; "Memory"),
        BodyRead::Refused(code) => format!(in alloc; "{code}"),
        BodyRead::Whole(count) => format!(in alloc; "Whole {count} [{content}]"),
    }
}

/// The answer to a body in one piece.
fn whole(alloc: Global, kind: BodyKind, max: u64, bytes: &[u8]) -> Result<String, AllocError> {
    let mut body = BodyIn::new(alloc, kind, max);
    let read = body.feed(bytes);
    in_words(alloc, read, &body)
}

/// The last answer to pieces with a `+` between.
fn fed(alloc: Global, kind: BodyKind, max: u64, pieces: &str) -> Result<String, AllocError> {
    let mut body = BodyIn::new(alloc, kind, max);
    let mut last = BodyRead::More;
    for piece in pieces.split('+') {
        last = body.feed(&joined(alloc, &[piece])?);
    }
    in_words(alloc, last, &body)
}

/// The bytes of `FRONT,COUNT,BACK`: so many `x` stand between the two others.
fn padded(alloc: Global, parts: &str) -> Result<Vec<u8>, AllocError> {
    let (front, after) = parts.split_once(',').unwrap_or((parts, ""));
    let (count, back) = after.split_once(',').unwrap_or((after, ""));
    let middle = "x".repeat(alloc, count.parse().unwrap_or(0))?;
    joined(alloc, &[front, middle.as_str(), back])
}

/// The framing that a word says; a number is a length.
fn kind_of(word: &str) -> BodyKind {
    match word {
        "nothing" => BodyKind::Nothing,
        "chunked" => BodyKind::Chunked,
        length => BodyKind::Length(length.parse().unwrap_or(0)),
    }
}

/// The answer to a body: `padded` has its parts, any other its framing, its limit and its text.
pub(crate) fn read(alloc: Global, word: &str, given: &str) -> Result<String, AllocError> {
    if word == "padded" {
        return whole(alloc, BodyKind::Chunked, 5, &padded(alloc, given)?);
    }
    let (kind, after) = given.split_once(' ').unwrap_or((given, ""));
    let (max, text) = after.split_once(' ').unwrap_or((after, ""));
    let max = max.parse().unwrap_or(0);
    if word == "pieces" {
        return fed(alloc, kind_of(kind), max, text);
    }
    whole(alloc, kind_of(kind), max, &joined(alloc, &[text])?)
}

/// The framing, the limit and the text, and how much is read.
pub(super) const BODIES: &str = "\
body nothing 5 ab => Whole 0 []
body 0 0 x => Whole 0 []
body 3 3 abcd => Whole 3 [abc]
body 3 3 ab => More [ab]
body 4 3  => 413
body chunked 9 3 \t␍␊abc␍␊0␍␊␍␊ => Whole 15 [abc]
body chunked 9 3;a=\"\u{ff}\"␍␊abc␍␊000␍␊X: y␍␊␍␊z => Whole 27 [abc]
body chunked 9 3␊abc => 400
body chunked 9 3␍␊abcd => 400
body chunked 9 3␍␊abc␊ => 400
body chunked 9 g => 400
body chunked 9 ␍ => 400
body chunked 9  3 => 400
body chunked 9 3 x => 400
body chunked 9 0x => 400
body chunked 9 00000000000000003 => 400
body chunked 9 0000000000000003␍␊abc␍␊0␍␊␍␊ => Whole 28 [abc]
body chunked 9 000000000000003␍␊abc␍␊0␍␊␍␊ => Whole 27 [abc]
body chunked 9 ffffffffffffffff␍␊ => 413
body chunked 4 3␍␊abc␍␊2␍␊ => 413
body chunked 4 3␍␊abc␍␊2␍ => More [abc]
body chunked 5 3␍␊abc␍␊2␍␊de␍␊0␊ => 400
body chunked 5 0␍␊bad\0␊␊ => Whole 9 []
body chunked 5 0␍␊X␊␍␊ => Whole 7 []
body chunked 99 a␍␊0123456789␍␊A;x␍␊0123456789␍␊0␍␊␍␊ => Whole 37 [01234567890123456789]";

/// Answers stay.
pub(super) const PIECES: &str = "\
pieces 3 3 a+bcd => Whole 2 [abc]
pieces 3 3 a+bcd+e => Whole 0 [abc]
pieces chunked 9 3␍␊ab+c+␍+␊0+␍␊+␍␊x => Whole 2 [abc]
pieces chunked 5 0␍␊X␊+␍␊ => Whole 2 []
pieces chunked 9 3␊abc+0␍␊␍␊ => 400
pieces chunked 2 3␍␊+abc␍␊0␍␊␍␊ => 413
pieces 4 3 abcd+ => 413";

/// Lines have a limit.
pub(super) const PADDED: &str = "\
padded 1;,16379,␍␊ => More []
padded 1;,16380,␍␊ => More []
padded 1;,16381,␍␊ => 400
padded 1;,16382, => More []
padded 1;,16383, => 400
padded 0␍␊,16379,␍␊␍␊ => Whole 16386 []
padded 0␍␊,16380,␍␊␍␊ => Whole 16387 []
padded 0␍␊,16381,␍␊␍␊ => 400";
