//! How the body of a request is framed (RFC 9112, sections 6.1 to 6.3).

ghost use Rattle.std.specs.Prelude.{◌≡◌, ◌++◌, IfOk, OnOk, IsTrue};
ghost use Rattle.std.specs.Str.{all_ascii_digits};
ghost use Rattle.std.specs.Str.Parse.{digits_value};
ghost use Rattle.http_base.specs.Elements.{elements};
ghost use Rattle.http_base.specs.Lent.{texts};
ghost use Rattle.http_in.specs.Framing as spec;

use http_base::{Fields, elements, same_name};
use resty_base::Bytes;
use std::alloc::{AllocError, Global};

/// How the body of a request is framed.
#[derive(Clone, Copy, Debug, PartialEq, Eq)]
pub enum BodyKind {
    /// There is none.
    Nothing,
    /// So many bytes, at most 999,999,999,999,999.
    Length(u64),
    /// Chunks, a line of size 0, and trailers.
    Chunked,
}

/// The framing of a body, or the status that refuses its head.
pub(crate) fn framing(
    alloc: Global,
    minor: u8,
    fields: &Fields,
) -> Result<Result<BodyKind, u16>, AllocError>
    ensures { IfOk result (λ found. found ≡ spec.framing minor fields.now) }
{
    let lengths = fields.values_of(alloc, b"content-length")?;
    let codings = listed(alloc, fields, b"transfer-encoding")?;
    Ok(framed(minor, &codings, &lengths))
}

/// The elements of all fields of this name.
pub(crate) fn listed<'a>(
    alloc: Global,
    fields: &'a Fields,
    name: &[u8],
) -> Result<Vec<&'a [u8]>, AllocError>
    ensures { IfOk result (λ list. texts list.items ≡ spec.listed fields.now name.now) }
{
    let mut list = Vec::new(alloc);
    for value in &fields.values_of(alloc, name)? {
        push_elements(alloc, &mut list, value)?;
    }
    Ok(list)
}

/// Puts the elements of the value at the end of the list.
fn push_elements<'a>(
    alloc: Global,
    list: &mut Vec<&'a [u8]>,
    value: &'a [u8],
) -> Result<(), AllocError>
    ensures { OnOk result (texts list.new.items ≡ texts list.old.items ++ elements value.now) }
{
    for element in &elements(alloc, value)? {
        list.push(*element)?;
    }
    Ok(())
}

fn framed(minor: u8, codings: &[&[u8]], lengths: &[&Bytes]) -> Result<BodyKind, u16>
    ensures { result ≡ spec.framed minor (texts codings.now) (texts lengths.now) }
{
    if codings.is_empty() {
        counted(lengths)
    } else if minor == 0 || !lengths.is_empty() {
        Err(400)
    } else {
        coded(codings)
    }
}

fn coded(codings: &[&[u8]]) -> Result<BodyKind, u16>
    ensures { result ≡ spec.coded (texts codings.now) }
{
    if !ends_chunked(codings) {
        Err(400)
    } else if codings.len() > 1 {
        Err(501)
    } else {
        Ok(BodyKind::Chunked)
    }
}

fn ends_chunked(codings: &[&[u8]]) -> bool
    ensures { result ≡ spec.ends_chunked (texts codings.now) }
{
    match codings.last() {
        Some(coding) => same_name(coding, b"chunked"),
        None => false,
    }
}

fn counted(lengths: &[&Bytes]) -> Result<BodyKind, u16>
    ensures { result ≡ spec.counted (texts lengths.now) }
{
    match lengths {
        [] => Ok(BodyKind::Nothing),
        [text, others @ ..] if is_length(text) && are_all(others, text) => Ok(BodyKind::Length(
            number(text),
        )),
        _ => Err(400),
    }
}

/// Whether each of the values is this text.
fn are_all(values: &[&Bytes], text: &[u8]) -> bool
    ensures { result ≡ spec.are_all (texts values.now) text.now }
{
    for value in values {
        if value.as_slice() != text {
            return false;
        }
    }
    true
}

fn is_length(text: &[u8]) -> bool
    ensures { result ≡ spec.is_length text.now }
{
    !text.is_empty() && text.len() < 16 && are_digits(text)
}

pub(crate) fn are_digits(text: &[u8]) -> bool
    ensures { result ≡ all_ascii_digits text.now }
{
    for byte in text {
        if !byte.is_ascii_digit() {
            return false;
        }
    }
    true
}

/// The number that at most 15 digits write.
fn number(digits: &[u8]) -> u64
    requires { IsTrue (spec.is_length digits.now) }
    ensures { result ≡ digits_value 10 digits.now }
{
    let mut number = 0;
    for digit in digits {
        number = number * 10 + u64::from(*digit - b'0');
    }
    number
}
