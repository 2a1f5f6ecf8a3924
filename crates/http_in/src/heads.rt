//! Heads: what the bytes of a connection are read as.

ghost use Rattle.std.specs.Prelude.{◌≡◌, ◌≢◌, ◌≤◌, length, map, Some, All, IfOk, MatchOption};
ghost use Rattle.httparse.specs.Grammar.{HasNoRequest};
ghost use Rattle.httparse.specs.Spans.{IsWithin, IsHeaderWithin};
ghost use Rattle.http_in.specs.Ends.{head_end};
ghost use Rattle.http_in.specs.Lines.{full_lines};
ghost use Rattle.http_in.specs.Heads.{answer_of, ReadsTree, Reads};
ghost use Rattle.http_in.specs.Standing.{pair_at, parts_at, StandAt};

use crate::framing::{BodyKind, framing};
use crate::lines::{count_lines, has_other_version, request_line};
use crate::options::{expects, has_bad_host, keeps};
use crate::scan::HeadScan;
use http_base::Fields;
use httparse::Status;
use httparse::spans::{EMPTY_HEADER_SPAN, HeaderSpan, RequestSpans, parse_request};
use resty_base::{Bytes, Pair2};
use std::alloc::{AllocError, Global};

/// The head of a request: its parts are slices of the bytes that came.
#[derive(Debug, Drop)]
pub struct Head {
    pub method: Bytes,
    pub target: Bytes,
    /// The version's digit after the point: 0 or 1.
    pub minor: u8,
    pub headers: Fields,
    pub body: BodyKind,
    /// Whether the connection is kept after the reply.
    pub keep: bool,
    /// Whether the client waits for a 100 reply before it sends the body.
    pub expects: bool,
}

/// What bytes were read as.
#[derive(Debug, Drop)]
pub enum HeadRead {
    /// A head, and how many bytes it has.
    Whole(Head, usize),
    /// No head yet.
    More,
    /// No head, whatever follows: the status of the reply.
    Refused(u16),
    /// Out of memory.
    Memory,
}

/// The most bytes that a head may have.
const HEAD_LIMIT: usize = 16_384;

/// The most lines that it may have: its first line and 100 header lines.
const LINE_LIMIT: usize = 101;

/// Reads the head that the bytes begin with, where its end is among them.
pub fn head_of(alloc: Global, bytes: &[u8]) -> HeadRead
    ensures { result ≢ HeadRead.Memory → Reads bytes.now result }
{
    match end_of(bytes) {
        Some(end) if end <= HEAD_LIMIT => copied_head(alloc, &bytes[..end]),
        Some(_) => HeadRead::Refused(431),
        None if bytes.len() < HEAD_LIMIT => HeadRead::More,
        None => HeadRead::Refused(431),
    }
}

/// How many bytes the head has that the bytes begin with, where its end is among them.
fn end_of(bytes: &[u8]) -> Option<usize>
    ensures { result ≡ head_end bytes.now }
{
    HeadScan::new().read(bytes)
}

/// Reads a copy of a whole head.
fn copied_head(alloc: Global, head: &[u8]) -> HeadRead
    requires { head_end head.now ≡ Some (length head.now) }
    ensures { result ≢ HeadRead.Memory → Reads head.now result }
{
    match Bytes::copy_from_slice(alloc, head) {
        Ok(head) => head_in(alloc, head),
        Err(_) => HeadRead::Memory,
    }
}

/// Reads a whole head; the parts of the answer are slices of these bytes.
pub fn head_in(alloc: Global, head: Bytes) -> HeadRead
    requires { head_end head ≡ Some (length head) }
    ensures { result ≢ HeadRead.Memory → Reads head result }
{
    if head.len() > HEAD_LIMIT {
        return HeadRead::Refused(431);
    }
    let lines = count_lines(&head);
    if lines > LINE_LIMIT {
        HeadRead::Refused(431)
    } else if has_other_version(request_line(&head)) {
        HeadRead::Refused(505)
    } else {
        match head_by_grammar(alloc, &head, lines) {
            Ok(read) => read,
            Err(_) => HeadRead::Memory,
        }
    }
}

/// Reads a head of so many lines by the grammar.
fn head_by_grammar(alloc: Global, head: &Bytes, lines: usize) -> Result<HeadRead, AllocError>
    requires whole { head_end head.now ≡ Some (length head.now) }
    requires counted { lines ≡ length (full_lines head.now) }
    ensures { IfOk result (ReadsTree head.now (length head.now)) }
{
    let mut spans = vec![in alloc; EMPTY_HEADER_SPAN; lines]?;
    match parts_in(head, &mut spans) {
        Some(at) => answer(alloc, head, at, &spans[..at.headers]),
        None => Ok(HeadRead::Refused(400)),
    }
}

/// Where the parts of the head stand, None where it is none by the grammar.
fn parts_in(head: &[u8], spans: &mut [HeaderSpan]) -> Option<RequestSpans>
    requires whole { head_end head.now ≡ Some (length head.now) }
    requires room { length (full_lines head.now) ≤ length spans.old }
    ensures { MatchOption result (HasNoRequest head.now) (λ at. StandAt head.now at spans.new) }
{
    match parse_request(head, spans) {
        Ok(Status::Complete(at)) => Some(at),
        Ok(Status::Partial) => None,
        Err(_) => None,
    }
}

/// What the parts that stand there are answered with.
fn answer(
    alloc: Global,
    head: &Bytes,
    at: RequestSpans,
    spans: &[HeaderSpan],
) -> Result<HeadRead, AllocError>
    requires whole { at.len ≡ length head.now }
    requires method { IsWithin at.len at.method }
    requires target { IsWithin at.len at.path }
    requires fields { All (IsHeaderWithin at.len) spans.now }
    ensures { IfOk result (λ read. read ≡ answer_of (parts_at head.now at spans.now) at.len) }
{
    let headers = fields_at(alloc, head, spans)?;
    if has_bad_host(alloc, at.version, &headers)? {
        return Ok(HeadRead::Refused(400));
    }
    match framing(alloc, at.version, &headers)? {
        Err(code) => Ok(HeadRead::Refused(code)),
        Ok(body) => Ok(HeadRead::Whole(
            Head {
                method: head.slice(at.method.start..at.method.end)?,
                target: head.slice(at.path.start..at.path.end)?,
                minor: at.version,
                keep: keeps(alloc, at.version, &headers)?,
                expects: expects(alloc, at.version, &headers)?,
                headers,
                body,
            },
            at.len,
        )),
    }
}

/// The fields that stand at these places.
fn fields_at(alloc: Global, head: &Bytes, spans: &[HeaderSpan]) -> Result<Fields, AllocError>
    requires { All (IsHeaderWithin (length head.now)) spans.now }
    ensures { IfOk result (λ fields. fields ≡ map (pair_at head.now) spans.now) }
{
    let mut fields = Vec::with_capacity(alloc, spans.len())?;
    for span in spans {
        fields.push(Pair2 {
            name: head.slice(span.name.start..span.name.end)?,
            value: head.slice(span.value.start..span.value.end)?,
        })?;
    }
    Ok(Fields::of(fields))
}
