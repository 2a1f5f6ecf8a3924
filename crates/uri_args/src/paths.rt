//! Paths without escapes and dot segments (RFC 3986, 2.1 and 5.2.4).
ghost use Rattle.std.specs.Prelude.{◌≡◌, ◌++◌, [], IfOk, OnOk, None, Some, if◌then◌else◌, not, option_copied};
ghost use Rattle.std.specs.Option.{option_map};
ghost use Rattle.resty_base.specs.Ascii.{slash};
ghost use Rattle.http_base.specs.Lent.{texts};
ghost use Rattle.http_base.specs.Splitting.{later_pieces, split};
ghost use Rattle.uri_args.specs.Paths as spec;
ghost use Rattle.uri_args.specs.Plain as plain;

use crate::escapes::decoded;
use http_base::split_once;
use resty_base::Bytes;
use std::alloc::{AllocError, Global};

/// The path for which the escaped one stands, None where it is refused. One that says the same is shared.
pub fn path_of(alloc: Global, escaped: &Bytes) -> Result<Option<Bytes>, AllocError>
    ensures { IfOk result (λ path. path ≡ spec.path_of escaped.now) }
{
    if !is_well_escaped(escaped) {
        return Ok(None);
    }
    let path = decoded(alloc, escaped)?;
    resolved_path(alloc, path)
}

/// Whether each `%` has two hex digits after it.
fn is_well_escaped(text: &[u8]) -> bool
    ensures { result ≡ spec.is_well_escaped text.now }
{
    let mut rest = text;
    while let [first, others @ ..] = rest {
        if *first == b'%' && !begins_with_digits(others) {
            return false;
        }
        rest = others;
    }
    true
}

/// Whether the text begins with two hex digits.
fn begins_with_digits(text: &[u8]) -> bool
    ensures { result ≡ spec.begins_with_digits text.now }
{
    match text {
        [high, low, ..] => high.is_ascii_hexdigit() && low.is_ascii_hexdigit(),
        _ => false,
    }
}

/// The path without dot segments, None where it has a zero byte or goes above the root.
fn resolved_path(alloc: Global, path: Bytes) -> Result<Option<Bytes>, AllocError>
    ensures { IfOk result (λ resolved. resolved ≡ spec.resolved_path path) }
{
    if path.contains(&0) {
        return Ok(None);
    }
    if is_plain(&path) {
        return Ok(Some(path));
    }
    match resolved(alloc, &path)? {
        Some(kept) => Ok(Some(joined(alloc, &kept)?)),
        None => Ok(None),
    }
}

/// Whether the path begins with `/` and keeps all its segments as they are.
fn is_plain(path: &[u8]) -> bool
    ensures { result ≡ plain.is_plain path.now }
{
    match path {
        [b'/', rest @ ..] => keeps_all(rest),
        _ => false,
    }
}

/// Whether each of the segments is kept, where the last one may be empty.
fn keeps_all(path: &[u8]) -> bool
    ensures { result ≡ plain.keeps_all (split slash path.now) }
{
    let mut rest = Some(path);
    while let Some(more) = rest {
        let (segment, after) = split_once(more, b'/');
        if !is_kept(segment, after.is_none()) {
            return false;
        }
        rest = after;
    }
    true
}

/// Whether the segment is kept as it is.
fn is_kept(segment: &[u8], is_last: bool) -> bool
    ensures { result ≡ (if is_last then plain.is_kept_last segment.now else not (spec.is_passed segment.now)) }
{
    !is_passed(segment) || (is_last && segment.is_empty())
}

/// The path's segments without dot segments, None where a `..` has none before it.
fn resolved<'a>(alloc: Global, path: &'a [u8]) -> Result<Option<Vec<&'a [u8]>>, AllocError>
    ensures { IfOk result (λ kept. option_map (λ list. texts list.items) kept ≡ spec.resolved [] (spec.segments path.now)) }
{
    let mut kept = Vec::new(alloc);
    let (_, mut rest) = split_once(path, b'/');
    while let Some(more) = rest {
        let (segment, after) = split_once(more, b'/');
        if !keep(&mut kept, segment)? {
            return Ok(None);
        }
        close(&mut kept, segment, after)?;
        rest = after;
    }
    Ok(Some(kept))
}

/// Whether the segment isn't kept itself: it is empty, `.` or `..`.
fn is_passed(segment: &[u8]) -> bool
    ensures { result ≡ spec.is_passed segment.now }
{
    segment.is_empty() || segment == b".".as_slice() || segment == b"..".as_slice()
}

/// Keeps a segment, or takes out the last one where it is `..`; false where there is none.
fn keep<'a>(kept: &mut Vec<&'a [u8]>, segment: &'a [u8]) -> Result<bool, AllocError>
    ensures { IfOk result (λ stays. spec.kept_after (texts kept.old.items) segment.now ≡ (if stays then Some (texts kept.new.items) else None)) }
{
    if segment == b"..".as_slice() {
        return Ok(kept.pop().is_some());
    }
    if !is_passed(segment) {
        kept.push(segment)?;
    }
    Ok(true)
}

/// Keeps an empty segment where the last one isn't kept itself.
fn close(kept: &mut Vec<&[u8]>, segment: &[u8], after: Option<&[u8]>) -> Result<(), AllocError>
    ensures { OnOk result (texts kept.new.items
        ≡ texts kept.old.items ++ spec.ending segment.now (later_pieces slash (option_copied after.entry))) }
{
    if after.is_none() && is_passed(segment) {
        kept.push(&[])?;
    }
    Ok(())
}

/// The path with these segments.
fn joined(alloc: Global, segments: &[&[u8]]) -> Result<Bytes, AllocError>
    ensures { IfOk result (λ path. path ≡ spec.joined (texts segments.now)) }
{
    let mut path = Vec::new(alloc);
    for segment in segments {
        path.push(b'/')?;
        path.extend_from_slice(segment)?;
    }
    Ok(Bytes::from_vec(path)?)
}
