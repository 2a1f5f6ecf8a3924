//! The body of a reply, by the way in which its end is told (RFC 9112, 6).
ghost use Rattle.std.specs.Prelude.{◌≡◌, ◌++◌, IfOk, OnOk, take};
ghost use Rattle.std.specs.List.{concat};
ghost use Rattle.http_reply.specs.Bodies as bodies;
ghost use Rattle.http_reply.specs.Replies as replies;

use crate::Framing;
use crate::chunks::{last_chunk, put_chunk};
use crate::heads::{HEAD_ROOM, ReplyHead, put_head};
use resty_base::{Bytes, Ms};
use std::alloc::{AllocError, Global};

/// The framing of the reply of this status to a request of HTTP/1.`minor`, with this length where it is known.
pub fn framing(method: &[u8], status: u16, minor: u8, length: Option<u64>) -> Framing
    ensures { result ≡ bodies.framing method.now status minor length }
{
    if is_bodiless(method, status) {
        return Framing::Bodiless;
    }
    match length {
        Some(count) => Framing::Counted(count),
        None if minor == 0 => Framing::UntilClose,
        None => Framing::Chunked,
    }
}

/// Whether a reply of this status to this method has no body.
fn is_bodiless(method: &[u8], status: u16) -> bool
    ensures { result ≡ bodies.is_bodiless method.now status }
{
    method == b"HEAD".as_slice() || status == 204 || status == 304
}

/// The body that is sent of these pieces.
pub fn body_bytes(alloc: Global, framing: Framing, pieces: &[Bytes]) -> Result<Bytes, AllocError>
    ensures { IfOk result (λ body. body ≡ bodies.body_bytes framing pieces.now) }
{
    let mut body = Vec::new(alloc);
    put_body(&mut body, framing, pieces)?;
    Ok(Bytes::from_vec(body)?)
}

/// Puts the body after what `out` holds.
fn put_body(out: &mut Vec<u8>, framing: Framing, pieces: &[Bytes]) -> Result<(), AllocError>
    ensures { OnOk result (out.new.items ≡ out.old.items ++ bodies.body_bytes framing pieces.now) }
{
    match framing {
        Framing::Bodiless => Ok(()),
        Framing::Counted(count) => put_first(out, count, pieces),
        Framing::Chunked => put_chunks(out, pieces),
        Framing::UntilClose => put_all(out, pieces),
    }
}

/// Puts the first bytes of the pieces, so many as there may be.
fn put_first(out: &mut Vec<u8>, count: u64, pieces: &[Bytes]) -> Result<(), AllocError>
    ensures { OnOk result (out.new.items ≡ out.old.items ++ take count (concat pieces.now)) }
{
    let mut left = count;
    for piece in pieces {
        let kept = left.min(piece.len() as u64);
        out.extend_from_slice(&piece[..kept as usize])?;
        left -= kept;
    }
    Ok(())
}

/// Puts the pieces as chunks, and what comes after all chunks.
fn put_chunks(out: &mut Vec<u8>, pieces: &[Bytes]) -> Result<(), AllocError>
    ensures { OnOk result (out.new.items ≡ out.old.items ++ bodies.chunks pieces.now) }
{
    for piece in pieces {
        put_chunk(out, piece)?;
    }
    out.extend_from_slice(&last_chunk())
}

/// Puts the pieces one after another.
fn put_all(out: &mut Vec<u8>, pieces: &[Bytes]) -> Result<(), AllocError>
    ensures { OnOk result (out.new.items ≡ out.old.items ++ concat pieces.now) }
{
    for piece in pieces {
        out.extend_from_slice(piece)?;
    }
    Ok(())
}

/// The bytes of a whole reply with this head and framing, and a body of these pieces.
pub fn reply(
    alloc: Global,
    head: &ReplyHead,
    framing: Framing,
    pieces: &[Bytes],
    now: Ms,
) -> Result<Bytes, AllocError>
    ensures { IfOk result (λ bytes. bytes ≡ replies.reply head.now framing pieces.now now.0) }
{
    let bytes = reply_buffer(alloc, head, framing, pieces, now)?;
    Ok(Bytes::from_vec(bytes)?)
}

/// The same bytes in a buffer that isn't shared.
fn reply_buffer(
    alloc: Global,
    head: &ReplyHead,
    framing: Framing,
    pieces: &[Bytes],
    now: Ms,
) -> Result<Vec<u8>, AllocError>
    ensures { IfOk result (λ bytes. bytes.items ≡ replies.reply head.now framing pieces.now now.0) }
{
    let mut bytes = Vec::with_capacity(alloc, HEAD_ROOM)?;
    put_head(&mut bytes, head, now)?;
    put_body(&mut bytes, framing, pieces)?;
    Ok(bytes)
}
