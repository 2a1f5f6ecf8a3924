//! Reading a history entry by entry.
ghost use Rattle.std.specs.Prelude.{◌≡◌, MatchResult};
ghost use Rattle.schedule_text.specs.Accepted.{AcceptsHistory, IsHistoryFault, IsHistoryOf};
ghost use Rattle.schedule_text.specs.Reading.{ReadsToEnd};

use crate::SchedFault;
use crate::reading::spelled::read_entry;
use crate::reading::splits::split_at_first;
use resty_world::History;
use std::alloc::{AllocError, Global};

/// Reads a history: entries in any order, one a line.
pub fn history_of(alloc: Global, text: &[u8]) -> Result<History, SchedFault>
    ensures read { MatchResult result (λ history. IsHistoryOf text.now history.entries) (IsHistoryFault text.now) }
    ensures accepted { AcceptsHistory text.now result }
{
    let mut spelling = Vec::new(alloc);
    read_entries(alloc, &mut spelling, text)
}

/// Reads the entries one after another; `spelling` is room to work in.
fn read_entries(alloc: Global, spelling: &mut Vec<u8>, text: &[u8]) -> Result<History, SchedFault>
    ensures { MatchResult result (λ history. IsHistoryOf text.now history.entries) (IsHistoryFault text.now) }
{
    let mut history = History::new(alloc);
    let mut rest = text;
    let mut number = 1;
    while let Some((line, after)) = split_at_first(rest, b'\n') {
        if history.reserve(1).is_err() {
            return Err(SchedFault::Memory);
        }
        match read_entry(alloc, spelling, line) {
            Ok(Some(entry)) => history.push_reserved(entry),
            Ok(None) => return Err(SchedFault::BadLine(number)),
            Err(AllocError) => return Err(SchedFault::Memory),
        }
        number += 1;
        rest = after;
    }
    finish(history, number, rest)
}

/// The history that was read up to the line of this number, which may not be there.
fn finish(history: History, number: u64, rest: &[u8]) -> Result<History, SchedFault>
    ensures { ReadsToEnd rest.now number (λ read. read.entries ≡ history.entries) result }
{
    if rest.is_empty() {
        Ok(history)
    } else {
        Err(SchedFault::BadLine(number))
    }
}
