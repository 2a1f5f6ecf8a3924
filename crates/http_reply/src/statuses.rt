//! The replies that the server makes itself.
ghost use Rattle.std.specs.Prelude.{◌≡◌, ◌++◌, IfOk, length};
ghost use Rattle.http_reply.specs.BuiltIn as spec;

use crate::{ReplyHead, reason};
use http_base::Fields;
use itoa::Buffer;
use resty_base::Bytes;
use std::alloc::{AllocError, Global};

/// The body of a built-in reply: `CODE REASON` and LF.
pub fn status_body(alloc: Global, code: u16) -> Result<Bytes, AllocError>
    ensures { IfOk result (λ body. body ≡ spec.status_body code) }
{
    let mut buffer = Buffer::new();
    let mut body = Vec::with_capacity(alloc, status_body_length(code))?;
    body.extend_from_slice(buffer.format(code).as_bytes())?;
    body.extend_from_slice(b" ")?;
    body.extend_from_slice(reason(code).as_bytes())?;
    body.extend_from_slice(b"\n")?;
    Ok(Bytes::from_vec(body)?)
}

/// How many bytes that body has.
fn status_body_length(code: u16) -> usize
    ensures { result ≡ length (spec.status_body code) }
{
    let mut buffer = Buffer::new();
    buffer.format(code).len() + 1 + reason(code).len() + 1
}

/// The head of a built-in reply, whose body is `status_body`; takes no memory.
pub fn built_in(alloc: Global, code: u16) -> ReplyHead
    ensures { result ≡ spec.built_in code }
{
    ReplyHead {
        status: code,
        server: Bytes::from_static(b"resty"),
        content_type: Some(Bytes::from_static(b"text/plain")),
        length: Some(status_body_length(code) as u64),
        chunked: false,
        keep: false,
        others: Fields::of(Vec::new(alloc)),
    }
}
