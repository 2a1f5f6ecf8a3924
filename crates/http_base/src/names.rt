//! Names, which are compared without regard to case (RFC 9110, 5.1).
ghost use Rattle.std.specs.Prelude.{◌≡◌, IfOk};
ghost use Rattle.http_base.specs.Names as names;

use resty_base::Bytes;
use std::alloc::{AllocError, Global};

/// The text with its ASCII letters in lower case.
pub fn lower(alloc: Global, text: &[u8]) -> Result<Bytes, AllocError>
    ensures { IfOk result (λ lowered. lowered ≡ names.lower text.now) }
{
    let mut lowered = Vec::from_slice(alloc, text)?;
    lowered.make_ascii_lowercase();
    Ok(Bytes::from_vec(lowered)?)
}

/// Whether the two names are the same.
pub fn same_name(name: &[u8], other: &[u8]) -> bool
    ensures { result ≡ names.same_name name.now other.now }
{
    name.eq_ignore_ascii_case(other)
}
