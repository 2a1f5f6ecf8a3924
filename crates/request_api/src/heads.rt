//! The head of a reply, by what was said of it.
ghost use Rattle.std.specs.Prelude.{◌≡◌, IfOk};
ghost use Rattle.request_api.specs.Heads as heads;

use crate::Req;
use crate::lengths::length_of;
use crate::values::{last_value, unless_empty};
use http_base::{Fields, same_name};
use http_reply::{Framing, ReplyHead, framing};
use resty_base::{Bytes, Pair2};
use std::alloc::{AllocError, Global};

impl Req {
    /// The head of the reply. A handler's has no `length`: its type is the one that was set, else `default_type`, and its length the
    /// one that was set. A built-in reply's has the length of its body and is `text/plain`. `keep` tells whether the connection
    /// would stay open; it doesn't where the body ends with it, and after some built-in replies.
    pub fn reply_head(
        &self,
        alloc: Global,
        default_type: &Bytes,
        length: Option<u64>,
        keep: bool,
    ) -> Result<ReplyHead, AllocError>
        ensures { IfOk result (λ head. head ≡ heads.reply_head self.now default_type.now length keep) }
    {
        match length {
            Some(_) => {
                let plain = Some(Bytes::from_static(b"text/plain"));
                head_with(
                    self,
                    alloc,
                    plain,
                    length,
                    keep && !closes(self.reply.status),
                )
            }
            None => {
                let content_type = content_type(self, alloc, default_type)?;
                let length = set_length(self, alloc)?;
                head_with(self, alloc, content_type, length, keep)
            }
        }
    }
}

/// The head of a reply of this type and length.
fn head_with(
    req: &Req,
    alloc: Global,
    content_type: Option<Bytes>,
    length: Option<u64>,
    keep: bool,
) -> Result<ReplyHead, AllocError>
    ensures { IfOk result (λ head. head ≡ heads.head_with req.now content_type length keep) }
{
    let framing = framing(&req.head.method, req.reply.status, req.head.minor, length);
    Ok(ReplyHead {
        status: req.reply.status,
        server: server(req, alloc)?,
        content_type,
        length,
        chunked: is_chunked(framing),
        keep: keep && !ends_with_connection(framing),
        others: others(alloc, req.reply.headers.as_slice())?,
    })
}

/// Whether the body comes in chunks.
fn is_chunked(framing: Framing) -> bool
    ensures { result ≡ heads.is_chunked framing }
{
    matches!(framing, Framing::Chunked)
}

/// Whether the body ends where the connection does.
fn ends_with_connection(framing: Framing) -> bool
    ensures { result ≡ heads.ends_with_connection framing }
{
    matches!(framing, Framing::UntilClose)
}

/// The name of the server: the last that was set, else `resty`.
fn server(req: &Req, alloc: Global) -> Result<Bytes, AllocError>
    ensures { IfOk result (λ name. name ≡ heads.server req.now) }
{
    match last_value(alloc, &req.reply.headers, b"server")? {
        Some(name) => Ok(name),
        None => Ok(Bytes::from_static(b"resty")),
    }
}

/// The type of the body: the last that was set, else this one. An empty one is none.
fn content_type(req: &Req, alloc: Global, default_type: &Bytes) -> Result<Option<Bytes>, AllocError>
    ensures { IfOk result (λ found. found ≡ heads.content_type req.now default_type.now) }
{
    match last_value(alloc, &req.reply.headers, b"content-type")? {
        Some(name) => Ok(unless_empty(name)),
        None => Ok(unless_empty(default_type.clone()?)),
    }
}

/// The length of the body that was set.
fn set_length(req: &Req, alloc: Global) -> Result<Option<u64>, AllocError>
    ensures { IfOk result (λ length. length ≡ heads.set_length req.now) }
{
    match last_value(alloc, &req.reply.headers, b"content-length")? {
        Some(text) => Ok(length_of(&text)),
        None => Ok(None),
    }
}

/// Whether the connection closes after the built-in reply of this status.
fn closes(status: u16) -> bool
    ensures { result ≡ heads.closes status }
{
    matches!(status, 400 | 413 | 431 | 500 | 501 | 505)
}

/// The fields but those that have a place of their own in a head. Names and values are shared.
fn others(alloc: Global, fields: &[Pair2]) -> Result<Fields, AllocError>
    ensures { IfOk result (λ others. others ≡ heads.others fields.now) }
{
    let mut others = Vec::new(alloc);
    for field in fields {
        if !has_place(&field.name) {
            others.push(Pair2 {
                name: field.name.clone()?,
                value: field.value.clone()?,
            })?;
        }
    }
    Ok(Fields::of(others))
}

/// Whether fields of this name have a place of their own in a head.
fn has_place(name: &[u8]) -> bool
    ensures { result ≡ heads.has_place name.now }
{
    same_name(name, b"server")
        || same_name(name, b"content-type")
        || same_name(name, b"content-length")
}
