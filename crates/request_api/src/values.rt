//! The values of header fields, shared.
ghost use Rattle.std.specs.Prelude.{◌≡◌, IfOk};
ghost use Rattle.http_base.specs.Lent.{texts};
ghost use Rattle.request_api.specs.Values as spec;

use http_base::Fields;
use resty_base::Bytes;
use std::alloc::{AllocError, Global};

/// The value of the first field of this name.
pub(crate) fn first_value(
    alloc: Global,
    fields: &Fields,
    name: &[u8],
) -> Result<Option<Bytes>, AllocError>
    ensures { IfOk result (λ value. value ≡ spec.first_value fields.now name.now) }
{
    let values = fields.values_of(alloc, name)?;
    first_of(&values)
}

fn first_of(values: &[&Bytes]) -> Result<Option<Bytes>, AllocError>
    ensures { IfOk result (λ first. first ≡ spec.first_of (texts values.now)) }
{
    match values {
        [] => Ok(None),
        [first, ..] => Ok(Some((*first).clone()?)),
    }
}

/// The value of the last field of this name.
pub(crate) fn last_value(
    alloc: Global,
    fields: &Fields,
    name: &[u8],
) -> Result<Option<Bytes>, AllocError>
    ensures { IfOk result (λ value. value ≡ spec.last_value fields.now name.now) }
{
    let values = fields.values_of(alloc, name)?;
    last_of(&values)
}

fn last_of(values: &[&Bytes]) -> Result<Option<Bytes>, AllocError>
    ensures { IfOk result (λ last. last ≡ spec.last_of (texts values.now)) }
{
    match values.last() {
        Some(last) => Ok(Some((*last).clone()?)),
        None => Ok(None),
    }
}

/// The texts, shared.
pub(crate) fn all_shared(alloc: Global, lent: &[&Bytes]) -> Result<Vec<Bytes>, AllocError>
    ensures { IfOk result (λ shared. shared.items ≡ texts lent.now) }
{
    let mut shared = Vec::with_capacity(alloc, lent.len())?;
    for text in lent {
        shared.push((*text).clone()?)?;
    }
    Ok(shared)
}

/// The text, or None where it is empty.
pub(crate) fn unless_empty(text: Bytes) -> Option<Bytes>
    ensures { result ≡ spec.unless_empty text }
{
    if text.is_empty() { None } else { Some(text) }
}
