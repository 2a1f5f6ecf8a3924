//! The reply to a request.

ghost use Rattle.std.specs.Prelude.{◌≡◌, ◌++◌, length, nat_lt, flat_map, IfOk, OnOk};
ghost use Rattle.std.specs.List.{concat};
ghost use Rattle.http_reply.specs.Bodies as bodies;
ghost use Rattle.http_reply.specs.Chunks.{chunk};
ghost use Rattle.reply_stages.specs.Replies as spec;

use http_in::Head;
use http_reply::{
    Framing, ReplyHead, body_bytes, built_in, chunk_text, framing, head_text, reply, status_body,
};
use request_api::Req;
use resty_base::{Bytes, Ms};
use run_threads::{End, Handled};
use std::alloc::{AllocError, Global};

/// What is sent of a reply, and whether the connection closes after it.
#[derive(Debug, Drop)]
pub struct Sent {
    pub bytes: Bytes,
    pub closes: bool,
}

/// Whether the connection may stay after the reply.
fn may_keep(head: &Head) -> bool
    ensures { result ≡ spec.may_keep head.now }
{
    head.keep && !head.expects
}

/// The head of the reply: a handler's has the type and the length that it set, or this type; the server's own has this length.
fn head_of(
    alloc: Global,
    req: &Req,
    default_type: &Bytes,
    length: Option<u64>,
) -> Result<ReplyHead, AllocError>
    ensures { IfOk result (λ head. head ≡ spec.head_of req.now default_type.now length) }
{
    req.reply_head(alloc, default_type, length, may_keep(&req.head))
}

/// How the end of the body is told under such a head.
fn framing_of(req: &Req, head: &ReplyHead) -> Framing
    ensures { result ≡ spec.framing_of req.now head.now }
{
    framing(
        &req.head.method,
        req.reply.status,
        req.head.minor,
        head.length,
    )
}

/// Whether the pieces have fewer bytes than so many.
fn are_fewer(pieces: &[Bytes], count: u64) -> bool
    ensures { result ≡ nat_lt (length (concat pieces.now)) count }
{
    let mut missing = count;
    for piece in pieces {
        missing = missing.saturating_sub(piece.len() as u64);
    }
    missing > 0
}

/// Whether the pieces have fewer bytes than the head says.
fn fall_short(pieces: &[Bytes], told: Framing) -> bool
    ensures { result ≡ bodies.falls_short told (length (concat pieces.now)) }
{
    match told {
        Framing::Counted(count) => are_fewer(pieces, count),
        Framing::Bodiless | Framing::Chunked | Framing::UntilClose => false,
    }
}

/// A whole reply under this head.
fn whole_under(
    alloc: Global,
    req: &Req,
    head: &ReplyHead,
    pieces: &[Bytes],
    now: Ms,
) -> Result<Sent, AllocError>
    ensures { IfOk result (λ sent. sent ≡ spec.whole_under req.now head.now pieces.now now.0) }
{
    let told = framing_of(req, head);
    Ok(Sent {
        bytes: reply(alloc, head, told, pieces, now)?,
        closes: !head.keep || fall_short(pieces, told),
    })
}

/// A whole reply of this type, length and body.
fn whole(
    alloc: Global,
    req: &Req,
    default_type: &Bytes,
    length: Option<u64>,
    pieces: &[Bytes],
    now: Ms,
) -> Result<Sent, AllocError>
    ensures { IfOk result (λ sent. sent ≡ spec.whole req.now default_type.now length pieces.now now.0) }
{
    let head = head_of(alloc, req, default_type, length)?;
    whole_under(alloc, req, &head, pieces, now)
}

/// The reply of this status that the server makes itself.
pub fn of_status(
    alloc: Global,
    mut req: Req,
    default_type: &Bytes,
    status: u16,
    now: Ms,
) -> Result<Sent, AllocError>
    ensures { IfOk result (λ sent. sent ≡ spec.of_status req default_type.now status now.0) }
{
    req.reply.status = status;
    let body = status_body(alloc, status)?;
    let length = body.len() as u64;
    whole(alloc, &req, default_type, Some(length), &[body], now)
}

/// Puts the pieces as chunks.
fn put_chunks(alloc: Global, out: &mut Vec<u8>, pieces: &[Bytes]) -> Result<(), AllocError>
    ensures { OnOk result (out.new.items ≡ out.old.items ++ flat_map chunk pieces.now) }
{
    for piece in pieces {
        out.extend_from_slice(&chunk_text(alloc, piece)?)?;
    }
    Ok(())
}

/// Puts a body that isn't ended.
fn put_unended(
    alloc: Global,
    out: &mut Vec<u8>,
    told: Framing,
    pieces: &[Bytes],
) -> Result<(), AllocError>
    ensures { OnOk result (out.new.items ≡ out.old.items ++ spec.unended_body told pieces.now) }
{
    match told {
        Framing::Chunked => put_chunks(alloc, out, pieces),
        _ => out.extend_from_slice(&body_bytes(alloc, told, pieces)?),
    }
}

/// A reply under this head that isn't ended: the connection closes after what was sent.
fn unended_under(
    alloc: Global,
    req: &Req,
    head: &ReplyHead,
    pieces: &[Bytes],
    now: Ms,
) -> Result<Sent, AllocError>
    ensures { IfOk result (λ sent. sent ≡ spec.unended_under req.now head.now pieces.now now.0) }
{
    let mut bytes = Vec::new(alloc);
    bytes.extend_from_slice(&head_text(alloc, head, now)?)?;
    put_unended(alloc, &mut bytes, framing_of(req, head), pieces)?;
    Ok(Sent {
        bytes: Bytes::from_vec(bytes)?,
        closes: true,
    })
}

/// A reply of this type that isn't ended.
fn unended(
    alloc: Global,
    req: &Req,
    default_type: &Bytes,
    pieces: &[Bytes],
    now: Ms,
) -> Result<Sent, AllocError>
    ensures { IfOk result (λ sent. sent ≡ spec.unended req.now default_type.now pieces.now now.0) }
{
    let head = head_of(alloc, req, default_type, None)?;
    unended_under(alloc, req, &head, pieces, now)
}

/// The reply of a handler that failed: the server's own before any output, which would have sent the head; else what there was.
fn broken_off(
    alloc: Global,
    req: Req,
    default_type: &Bytes,
    pieces: &[Bytes],
    now: Ms,
) -> Result<Sent, AllocError>
    ensures { IfOk result (λ sent. sent ≡ spec.broken_off req default_type.now pieces.now now.0) }
{
    if pieces.is_empty() {
        of_status(alloc, req, default_type, 500, now)
    } else {
        unended(alloc, &req, default_type, pieces, now)
    }
}

/// The reply of a handler, by what it made and how it ended.
pub fn by_handler(
    alloc: Global,
    default_type: &Bytes,
    handled: Handled,
    now: Ms,
) -> Result<Sent, AllocError>
    ensures { IfOk result (λ sent. sent ≡ spec.by_handler default_type.now handled now.0) }
{
    let Handled { req, pieces, end } = handled;
    match end {
        End::Ended => whole(alloc, &req, default_type, None, pieces.as_slice(), now),
        End::Failed(_) | End::Spent => broken_off(alloc, req, default_type, pieces.as_slice(), now),
    }
}

/// The reply to a head that is refused.
pub fn refusal(alloc: Global, code: u16, now: Ms) -> Result<Bytes, AllocError>
    ensures { IfOk result (λ bytes. bytes ≡ spec.refusal code now.0) }
{
    let head = built_in(alloc, code);
    let body = status_body(alloc, code)?;
    let framing = Framing::Counted(body.len() as u64);
    reply(alloc, &head, framing, &[body], now)
}
