//! The elements of a value that is a list (RFC 9110, 5.6.1).
ghost use Rattle.std.specs.Prelude.{◌≡◌, IfOk};
ghost use Rattle.http_base.specs.Elements as spec;
ghost use Rattle.http_base.specs.Lent.{texts};

use crate::split_once;
use std::alloc::{AllocError, Global};

/// The elements of the list, empty ones too, as parts of the value.
pub fn elements<'a>(alloc: Global, value: &'a [u8]) -> Result<Vec<&'a [u8]>, AllocError>
    ensures { IfOk result (λ list. texts list.items ≡ spec.elements value.now) }
{
    let mut list = Vec::new(alloc);
    let mut rest = Some(value);
    while let Some(text) = rest {
        let (element, after) = split_once(text, b',');
        list.push(trimmed(element))?;
        rest = after;
    }
    Ok(list)
}

/// The text without the blanks at both ends.
pub fn trimmed(text: &[u8]) -> &[u8]
    ensures { result.now ≡ spec.trimmed text.now }
{
    before_blanks(after_blanks(text))
}

/// What stands after the blanks at the beginning.
fn after_blanks(text: &[u8]) -> &[u8]
    ensures { result.now ≡ spec.after_blanks text.now }
{
    let mut rest = text;
    while let [first, others @ ..] = rest {
        if !is_blank(*first) {
            return rest;
        }
        rest = others;
    }
    rest
}

/// What stands before the blanks at the end.
fn before_blanks(text: &[u8]) -> &[u8]
    ensures { result.now ≡ spec.before_blanks text.now }
{
    let mut rest = text;
    while let [others @ .., last] = rest {
        if !is_blank(*last) {
            return rest;
        }
        rest = others;
    }
    rest
}

/// Whether the byte is a space or a tab.
fn is_blank(byte: u8) -> bool
    ensures { result ≡ spec.is_blank byte }
{
    byte == b' ' || byte == b'\t'
}
