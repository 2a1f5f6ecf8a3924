//! Escapes of bytes as `%XX` (RFC 3986, 2.1 and 2.3).
ghost use Rattle.std.specs.Prelude.{◌≡◌, ◌++◌, IfOk, OnOk, map, string_bytes};
ghost use Rattle.percent_encoding.specs.Percent as percent;
ghost use Rattle.uri_args.specs.Escapes as spec;

use crate::shared::{has_byte, shared};
use percent_encoding::{AsciiSet, NON_ALPHANUMERIC, ascii_set, percent_decode, percent_encode};
use resty_base::Bytes;
use std::alloc::{AllocError, Global};

/// The ASCII bytes that are escaped: all but the unreserved ones.
const ESCAPED: AsciiSet = ascii_set!(
    NON_ALPHANUMERIC
        .remove(b'-')
        .remove(b'.')
        .remove(b'_')
        .remove(b'~')
);

/// The text with each byte escaped but letters, digits and `-._~`.
pub fn escape(alloc: Global, text: &[u8]) -> Result<Bytes, AllocError>
    ensures { IfOk result (λ escaped. escaped ≡ spec.escape text.now) }
{
    let mut escaped = String::new(alloc);
    append_escaped(&mut escaped, text)?;
    Bytes::from_string(escaped)
}

/// Appends the escaped text.
pub(crate) fn append_escaped(out: &mut String, text: &[u8]) -> Result<(), AllocError>
    ensures { OnOk result (string_bytes out.new ≡ string_bytes out.old ++ spec.escape text.now) }
{
    percent_encode(text, ESCAPED).append_to(out)
}

/// The text with each `+` made a space and each escape made its byte; any other `%` stays. A text without both is
/// shared.
pub fn unescape(alloc: Global, text: &Bytes) -> Result<Bytes, AllocError>
    ensures { IfOk result (λ bytes. bytes ≡ spec.unescape text.now) }
{
    let spaced = with_spaces(alloc, text)?;
    decoded(alloc, &spaced)
}

/// The text with each `+` made a space, shared where it has none.
fn with_spaces(alloc: Global, text: &Bytes) -> Result<Bytes, AllocError>
    ensures { IfOk result (λ spaced. spaced ≡ map spec.plus_to_space text.now) }
{
    if !has_byte(text, b'+') {
        return shared(text);
    }
    Ok(Bytes::from_vec(spaced(alloc, text)?)?)
}

/// A copy of the text with each `+` made a space.
fn spaced(alloc: Global, text: &[u8]) -> Result<Vec<u8>, AllocError>
    ensures { IfOk result (λ spaced. spaced.items ≡ map spec.plus_to_space text.now) }
{
    text.iter()
        .map(|&byte| if byte == b'+' { b' ' } else { byte })
        .collect(alloc)
}

/// The text with each escape made its byte, shared where it has no `%`.
pub(crate) fn decoded(alloc: Global, text: &Bytes) -> Result<Bytes, AllocError>
    ensures { IfOk result (λ bytes. bytes ≡ percent.percent_decode text.now) }
{
    if !has_byte(text, b'%') {
        return shared(text);
    }
    let mut bytes = Vec::new(alloc);
    percent_decode(text).append_to(&mut bytes)?;
    Ok(Bytes::from_vec(bytes)?)
}
