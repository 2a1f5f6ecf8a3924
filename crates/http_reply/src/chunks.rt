//! Chunks (RFC 9112, 7.1).
ghost use Rattle.std.specs.Prelude.{◌≡◌, ◌++◌, ◌<◌, false, IfOk, OnOk};
ghost use Rattle.std.specs.Fmt.{digit_glyph};
ghost use Rattle.http_reply.specs.Chunks as chunks;

use resty_base::{Bytes, bytes_after};
use std::alloc::{AllocError, Global};
use std::marker::Model;

/// How many digits the greatest size has.
const DIGITS: usize = 16;

/// The beginning of a chunk: its size in hex, and CR LF. It takes no memory.
#[derive(Debug, Drop)]
pub struct ChunkStart {
    bytes: [u8; 18],
    start: usize,
}

impl Model for ChunkStart {
    ghost use Rattle.std.specs.Prelude.{ℕ, List, drop};

    ghost Value = { List ℕ };

    ghost view = { λ line. drop line.start line.bytes };
}

impl ChunkStart {
    pub fn as_slice(&self) -> &[u8]
        ensures { result.now ≡ self.now }
    {
        bytes_after(&self.bytes, self.start)
    }
}

/// The beginning of a chunk of so many bytes; after these bytes it ends by CR LF.
pub fn chunk_start(length: usize) -> ChunkStart
    ensures { result ≡ chunks.chunk_start length }
{
    let mut bytes = *b"0000000000000000\r\n";
    let mut start = DIGITS;
    let mut rest = length;
    while start > 0 {
        start -= 1;
        bytes[start] = hex_digit(rest % 16);
        rest /= 16;
        if rest == 0 {
            break;
        }
    }
    ChunkStart { bytes, start }
}

/// The lower-case hex digit of a number.
fn hex_digit(number: usize) -> u8
    requires { number < 16 }
    ensures { result ≡ digit_glyph false number }
{
    let digit = number as u8;
    if digit < 10 {
        b'0' + digit
    } else {
        b'a' + (digit - 10)
    }
}

/// The piece as a chunk. A piece of no bytes is none: it would end the body.
pub fn chunk_text(alloc: Global, piece: &[u8]) -> Result<Bytes, AllocError>
    ensures { IfOk result (λ text. text ≡ chunks.chunk piece.now) }
{
    if piece.is_empty() {
        return Ok(Bytes::new());
    }
    let mut text = Vec::with_capacity(alloc, piece.len() + DIGITS + 4)?;
    put_chunk(&mut text, piece)?;
    Ok(Bytes::from_vec(text)?)
}

/// Puts the piece as a chunk after what `out` holds.
pub(crate) fn put_chunk(out: &mut Vec<u8>, piece: &[u8]) -> Result<(), AllocError>
    ensures { OnOk result (out.new.items ≡ out.old.items ++ chunks.chunk piece.now) }
{
    if piece.is_empty() {
        return Ok(());
    }
    out.extend_from_slice(chunk_start(piece.len()).as_slice())?;
    out.extend_from_slice(piece)?;
    out.extend_from_slice(b"\r\n")
}

/// What comes after all chunks.
pub fn last_chunk() -> [u8; 5]
    ensures { result ≡ chunks.last_chunk }
{
    *b"0\r\n\r\n"
}
