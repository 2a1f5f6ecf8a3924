//! Names and values of header fields that a program gives.
ghost use Rattle.std.specs.Prelude.{◌≡◌, IfOk, map};
ghost use Rattle.std.specs.List.{list_all};
ghost use Rattle.http_header.specs.Token.{is_token_byte, is_value_byte};
ghost use Rattle.request_api.specs.Names as spec;

use http_base::split_once;
use http_header::is_token_char;
use resty_base::Bytes;
use std::alloc::{AllocError, Global};

/// The most bytes that a name may have.
const NAME_LIMIT: usize = 65_535;

/// Whether a field may have this name.
pub(crate) fn is_name(name: &[u8]) -> bool
    ensures { result ≡ spec.is_name name.now }
{
    !name.is_empty() && name.len() <= NAME_LIMIT && is_token(name)
}

/// Whether each byte may stand in a name.
fn is_token(name: &[u8]) -> bool
    ensures { result ≡ list_all is_token_byte name.now }
{
    for byte in name {
        if !is_token_char(*byte) {
            return false;
        }
    }
    true
}

/// Whether a field may have each of these values.
pub(crate) fn are_values(values: &[Bytes]) -> bool
    ensures { result ≡ list_all spec.is_value values.now }
{
    for value in values {
        if !is_value(value) {
            return false;
        }
    }
    true
}

/// Whether a field may have this value.
fn is_value(value: &[u8]) -> bool
    ensures { result ≡ spec.is_value value.now }
{
    for byte in value {
        if !is_value_byte(*byte) {
            return false;
        }
    }
    true
}

/// Whether the byte may stand in a value: a tab, or any but control bytes.
fn is_value_byte(byte: u8) -> bool
    ensures { result ≡ is_value_byte byte }
{
    byte == b'\t' || (byte >= b' ' && byte != 127)
}

/// The name with each `_` made `-`, shared where it has none.
pub(crate) fn dashed(alloc: Global, name: &Bytes) -> Result<Bytes, AllocError>
    ensures { IfOk result (λ dashed. dashed ≡ spec.dashed name.now) }
{
    let (_, after) = split_once(name, b'_');
    match after {
        None => Ok(name.clone()?),
        Some(_) => Ok(Bytes::from_vec(with_dashes(alloc, name)?)?),
    }
}

/// A copy of the name with each `_` made `-`.
fn with_dashes(alloc: Global, name: &[u8]) -> Result<Vec<u8>, AllocError>
    ensures { IfOk result (λ dashed. dashed.items ≡ spec.dashed name.now) }
{
    name.iter()
        .map(|&byte| if byte == b'_' { b'-' } else { byte })
        .collect(alloc)
}
