//! The head of a reply (RFC 9112, 4 and 5).
ghost use Rattle.std.specs.Prelude.{◌≡◌, ◌++◌, IfOk, OnOk};
ghost use Rattle.http_reply.specs.Heads as heads;

use crate::texts::{put_field, put_fields, put_line_end, put_number, put_number_field};
use crate::{date_text, reason};
use http_base::Fields;
use resty_base::{Bytes, Ms};
use std::alloc::{AllocError, Global};

/// How many bytes a head begins with room for.
pub(crate) const HEAD_ROOM: usize = 256;

/// What the head of a reply says, but for its date.
#[derive(Debug, Drop)]
pub struct ReplyHead {
    pub status: u16,
    pub server: Bytes,
    pub content_type: Option<Bytes>,
    /// How many bytes the body has, where that is known.
    pub length: Option<u64>,
    /// Whether the body comes in chunks.
    pub chunked: bool,
    /// Whether the connection stays open after the reply.
    pub keep: bool,
    /// The other fields in order.
    pub others: Fields,
}

/// The head as it is sent at the moment `now`.
pub fn head_text(alloc: Global, head: &ReplyHead, now: Ms) -> Result<Bytes, AllocError>
    ensures { IfOk result (λ text. text ≡ heads.head_text head.now now.0) }
{
    let mut text = Vec::with_capacity(alloc, HEAD_ROOM)?;
    put_head(&mut text, head, now)?;
    Ok(Bytes::from_vec(text)?)
}

/// Puts the head after what `out` holds.
pub(crate) fn put_head(out: &mut Vec<u8>, head: &ReplyHead, now: Ms) -> Result<(), AllocError>
    ensures { OnOk result (out.new.items ≡ out.old.items ++ heads.head_text head.now now.0) }
{
    put_status_line(out, head.status)?;
    put_field(out, b"Server", &head.server)?;
    put_field(out, b"Date", &date_text(now))?;
    put_content(out, head)?;
    put_connection(out, head.keep)?;
    put_fields(out, head.others.as_slice())?;
    put_line_end(out)
}

/// Puts the status line.
fn put_status_line(out: &mut Vec<u8>, status: u16) -> Result<(), AllocError>
    ensures { OnOk result (out.new.items ≡ out.old.items ++ heads.status_line status) }
{
    out.extend_from_slice(b"HTTP/1.1 ")?;
    put_number(out, u64::from(status))?;
    out.extend_from_slice(b" ")?;
    out.extend_from_slice(reason(status).as_bytes())?;
    out.extend_from_slice(b"\r\n")
}

/// Puts the lines that speak of the body.
fn put_content(out: &mut Vec<u8>, head: &ReplyHead) -> Result<(), AllocError>
    ensures { OnOk result (out.new.items ≡ out.old.items ++ heads.content_lines head.now) }
{
    put_type(out, &head.content_type)?;
    put_length(out, head.status, head.length)?;
    put_transfer(out, head.chunked)
}

/// Puts the type, where there is one.
fn put_type(out: &mut Vec<u8>, content_type: &Option<Bytes>) -> Result<(), AllocError>
    ensures { OnOk result (out.new.items ≡ out.old.items ++ heads.type_line content_type.now) }
{
    match content_type {
        Some(name) => put_field(out, b"Content-Type", name),
        None => Ok(()),
    }
}

/// Puts that the body comes in chunks, where it does.
fn put_transfer(out: &mut Vec<u8>, chunked: bool) -> Result<(), AllocError>
    ensures { OnOk result (out.new.items ≡ out.old.items ++ heads.transfer_line chunked) }
{
    if chunked {
        put_field(out, b"Transfer-Encoding", b"chunked")
    } else {
        Ok(())
    }
}

/// Puts the length where it is known and may be told.
fn put_length(out: &mut Vec<u8>, status: u16, length: Option<u64>) -> Result<(), AllocError>
    ensures { OnOk result (out.new.items ≡ out.old.items ++ heads.length_line status length) }
{
    match length {
        Some(count) if !has_no_length(status) => put_number_field(out, b"Content-Length", count),
        _ => Ok(()),
    }
}

/// Whether a reply of this status has no length at all.
fn has_no_length(status: u16) -> bool
    ensures { result ≡ heads.has_no_length status }
{
    status < 200 || status == 204
}

/// Puts what becomes of the connection.
fn put_connection(out: &mut Vec<u8>, keep: bool) -> Result<(), AllocError>
    ensures { OnOk result (out.new.items ≡ out.old.items ++ heads.connection_line keep) }
{
    if keep {
        put_field(out, b"Connection", b"keep-alive")
    } else {
        put_field(out, b"Connection", b"close")
    }
}
