//! Parts of shared texts, which share their bytes.
ghost use Rattle.std.specs.Prelude.{◌≡◌, drop, take, IfOk};
ghost use Rattle.std.specs.Option.{is_some};
ghost use Rattle.http_base.specs.Splitting as splitting;

use http_base::split_once;
use resty_base::Bytes;
use std::alloc::AllocError;

/// The bytes before the first separator, or all of them where it isn't there, and what stands after it.
pub(crate) fn split_shared(
    text: &Bytes,
    separator: u8,
) -> Result<(Bytes, Option<Bytes>), AllocError>
    ensures before { IfOk result (λ parts. parts.0 ≡ splitting.before separator text.now) }
    ensures after { IfOk result (λ parts. parts.1 ≡ splitting.after separator text.now) }
{
    let (before, after) = split_once(text, separator);
    let length = before.len();
    let first = shared_first(text, length)?;
    match after {
        Some(_) => Ok((first, Some(shared_after(text, length + 1)?))),
        None => Ok((first, None)),
    }
}

/// The whole text.
pub(crate) fn shared(text: &Bytes) -> Result<Bytes, AllocError>
    ensures { IfOk result (λ whole. whole ≡ text.now) }
{
    text.slice(..)
}

/// The first `count` bytes, or all where there are fewer.
fn shared_first(text: &Bytes, count: usize) -> Result<Bytes, AllocError>
    ensures { IfOk result (λ first. first ≡ take count text.now) }
{
    text.slice(..count.min(text.len()))
}

/// The bytes after the first `count`, none where there are no more.
pub(crate) fn shared_after(text: &Bytes, count: usize) -> Result<Bytes, AllocError>
    ensures { IfOk result (λ rest. rest ≡ drop count text.now) }
{
    text.slice(count.min(text.len())..)
}

/// Whether the byte is in the text.
pub(crate) fn has_byte(text: &[u8], byte: u8) -> bool
    ensures { result ≡ is_some (splitting.after byte text.now) }
{
    split_once(text, byte).1.is_some()
}
