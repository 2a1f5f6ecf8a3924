//! Arguments as they are written, found by name.
ghost use Rattle.std.specs.Prelude.{◌≡◌, take, drop, IfOk};
ghost use Rattle.http_base.specs.Splitting as splitting;
ghost use Rattle.request_api.specs.Variables as spec;

use http_base::{same_name, split_once};
use resty_base::Bytes;
use std::alloc::AllocError;

/// The value of the first argument of this name that has a `=`, as it is written. It shares the arguments.
pub(crate) fn argument(args: &Bytes, name: &[u8]) -> Result<Option<Bytes>, AllocError>
    ensures { IfOk result (λ value. value ≡ spec.argument args.now name.now) }
{
    let mut rest = Some(args.clone()?);
    while let Some(text) = rest {
        let (piece, after) = split_shared(&text, b'&')?;
        let value = value_in(&piece, name)?;
        if value.is_some() {
            return Ok(value);
        }
        rest = after;
    }
    Ok(None)
}

/// The value of an argument that has this name and a `=`.
fn value_in(piece: &Bytes, name: &[u8]) -> Result<Option<Bytes>, AllocError>
    ensures { IfOk result (λ value. value ≡ spec.value_in piece.now name.now) }
{
    let (found, value) = split_shared(piece, b'=')?;
    if same_name(&found, name) {
        Ok(value)
    } else {
        Ok(None)
    }
}

/// What stands before the first separator, and after it where it is there; both share the text.
fn split_shared(text: &Bytes, separator: u8) -> Result<(Bytes, Option<Bytes>), AllocError>
    ensures before { IfOk result (λ parts. parts.0 ≡ splitting.before separator text.now) }
    ensures after { IfOk result (λ parts. parts.1 ≡ splitting.after separator text.now) }
{
    let (before, after) = split_once(text, separator);
    let length = before.len();
    let first = first_shared(text, length)?;
    match after {
        Some(_) => Ok((first, Some(rest_shared(text, length + 1)?))),
        None => Ok((first, None)),
    }
}

/// The first `count` bytes, or all where there are fewer.
fn first_shared(text: &Bytes, count: usize) -> Result<Bytes, AllocError>
    ensures { IfOk result (λ first. first ≡ take count text.now) }
{
    text.slice(..count.min(text.len()))
}

/// The bytes after the first `count`, none where there are no more.
fn rest_shared(text: &Bytes, count: usize) -> Result<Bytes, AllocError>
    ensures { IfOk result (λ rest. rest ≡ drop count text.now) }
{
    text.slice(count.min(text.len())..)
}
