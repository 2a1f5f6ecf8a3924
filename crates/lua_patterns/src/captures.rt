//! Captures, while a match is sought and once it is found.

ghost use Rattle.std.specs.Prelude.{◌≡◌, ◌-◌, take, length, IfOk, IfErr};
ghost use Rattle.lua_patterns.specs.Captures.{first_open, last_open, closed_at, opened_again, closed_ones, referenced};

use crate::PatFault;
use std::alloc::Global;

/// What was captured: the indices of the first byte and of the byte after the last, or for `()` an index. Indices count
/// from 0.
#[derive(Clone, Copy, Debug, PartialEq, Eq)]
pub enum Cap {
    Span(usize, usize),
    Position(usize),
}

/// A capture while a match is sought: still open, with the index where it starts and that of its parenthesis in the
/// pattern, or closed.
#[derive(Clone, Copy, Debug)]
pub(crate) enum Capture {
    Open { start: usize, at: usize },
    Closed(Cap),
}

/// The number of an open capture, from 0, the index where it starts and that of its parenthesis in the pattern.
#[derive(Clone, Copy, Debug)]
pub(crate) struct OpenCapture {
    pub index: usize,
    pub start: usize,
    pub at: usize,
}

/// The index in the pattern of the first parenthesis that is still open.
pub(crate) fn first_open(captures: &[Capture]) -> Option<usize>
    ensures { result ≡ first_open captures.now }
{
    for capture in captures {
        if let Capture::Open { at, .. } = *capture {
            return Some(at);
        }
    }
    None
}

/// The last capture that is still open.
#[tactic(auto, using(crate::proofs::CaptureLemmas::none_open, crate::proofs::CaptureLemmas::last_open_more, crate::proofs::CaptureLemmas::last_open_same))]
pub(crate) fn last_open(captures: &[Capture]) -> Option<OpenCapture>
    ensures { result ≡ last_open captures.now }
{
    let mut found = None;
    for (index, capture) in captures.iter().enumerate() {
        if let Capture::Open { start, at } = *capture {
            found = Some(OpenCapture { index, start, at });
        }
    }
    found
}

/// Closes an open capture at an index.
pub(crate) fn close_at(captures: &mut Vec<Capture>, found: OpenCapture, index: usize)
    ensures { captures.new.items ≡ closed_at index found captures.old.items }
{
    if found.index < captures.len() {
        captures[found.index] = Capture::Closed(Cap::Span(found.start, index));
    }
}

/// Forgets the last capture.
pub(crate) fn forget_last(captures: &mut Vec<Capture>)
    ensures { captures.new.items ≡ take (length captures.old.items - 1) captures.old.items }
{
    captures.pop();
}

/// Opens a capture again.
pub(crate) fn open_again(captures: &mut Vec<Capture>, found: OpenCapture)
    ensures { captures.new.items ≡ opened_again found captures.old.items }
{
    if found.index < captures.len() {
        captures[found.index] = Capture::Open {
            start: found.start,
            at: found.at,
        };
    }
}

/// What was captured, by those that are closed.
pub(crate) fn closed_ones(alloc: Global, captures: &[Capture]) -> Result<Vec<Cap>, PatFault>
    ensures value { IfOk result (λ caps. caps.items ≡ closed_ones captures.now) }
    ensures memory { IfErr result (λ fault. fault ≡ PatFault.Memory) }
{
    let mut caps = Vec::new(alloc);
    for capture in captures {
        if let Capture::Closed(cap) = *capture {
            caps.push(cap)?;
        }
    }
    Ok(caps)
}

/// What the capture of a digit holds, if it is closed.
pub(crate) fn referenced(captures: &[Capture], digit: u8) -> Option<Cap>
    ensures { result ≡ referenced digit captures.now }
{
    if digit == b'0' {
        return None;
    }
    match captures.get(usize::from(digit.saturating_sub(b'1'))) {
        Some(Capture::Closed(cap)) => Some(*cap),
        _ => None,
    }
}
