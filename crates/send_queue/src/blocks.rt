//! Blocks of bytes, which are filled by copying or cut off shared pieces.

ghost use Rattle.std.specs.Prelude.{◌≡◌, ◌+◌, ◌++◌, ◌∷◌, ◌≤◌, [], length, take, IfOk, OnOk, OnErr};
ghost use Rattle.std.specs.VecDeque.{deque_len, deque_capacity};
ghost use Rattle.send_queue.specs.Layout as spec;

use resty_base::{Bytes, first_bytes};
use std::alloc::{AllocError, AllocFailed, Global};
use std::collections::VecDeque;
use std::mem;

/// How many bytes a block has.
pub(crate) const BLOCK: usize = 16_384;

/// The bytes that come first: those of the first piece, else those of the block that is begun.
pub(crate) fn first<'a>(pieces: &'a VecDeque<Bytes>, begun: &'a Vec<u8>) -> &'a [u8]
    ensures { result.now ≡ spec.first pieces.now.items begun.now.items }
{
    match pieces.front() {
        Some(piece) => piece.as_slice(),
        None => begun.as_slice(),
    }
}

/// How many bytes the block that is begun has room for.
pub(crate) fn room(pieces: &VecDeque<Bytes>, begun: &Vec<u8>, taken: usize, phase: usize) -> usize
    requires { spec.IsLaidOut phase taken pieces.now.items begun.now.items }
    ensures { result + spec.before phase taken pieces.now.items begun.now.items ≡ 16_384 }
{
    if pieces.is_empty() {
        BLOCK - (phase + (begun.len() - taken))
    } else {
        BLOCK - begun.len()
    }
}

/// Puts the bytes at the end of a block that has room for `room` more; it takes the memory of all of them at once.
pub(crate) fn append(block: &mut Vec<u8>, bytes: &[u8], room: usize) -> Result<(), AllocError>
    ensures done { OnOk result (block.new.items ≡ block.old.items ++ bytes.now) }
    ensures kept { OnErr result (block.new.items ≡ block.old.items) }
{
    if bytes.is_empty() {
        return Ok(());
    }
    block.reserve_exact(room)?;
    block.extend_from_slice(bytes)
}

/// The block, filled with the first `room` bytes of the piece: shared with the piece where it has no others. The block is empty then.
pub(crate) fn filled(
    alloc: Global,
    block: &mut Vec<u8>,
    piece: &Bytes,
    room: usize,
) -> Result<Bytes, AllocError>
    requires { room ≤ length piece.now }
    ensures whole { IfOk result (λ whole. whole ≡ block.old.items ++ take room piece.now) }
    ensures left { OnOk result (block.new.items ≡ []) }
    ensures kept { OnErr result (block.new.items ≡ block.old.items) }
{
    if block.is_empty() {
        return piece.slice(0..room);
    }
    let count = block.len();
    append(block, first_bytes(piece, room), room)?;
    match Bytes::from_vec(mem::replace(block, Vec::new(alloc))) {
        Ok(whole) => Ok(whole),
        Err(AllocFailed { value }) => {
            *block = value;
            block.truncate(count);
            Err(AllocError)
        }
    }
}

/// Puts a piece at the end, and another after it unless it is empty.
pub(crate) fn put(pieces: &mut VecDeque<Bytes>, piece: Bytes, other: Bytes)
    requires { deque_len pieces.old + 2 ≤ deque_capacity pieces.old }
    ensures { pieces.new.items ≡ pieces.old.items ++ piece ∷ spec.unless_empty other }
{
    pieces.push_back_reserved(piece);
    if !other.is_empty() {
        pieces.push_back_reserved(other);
    }
}
