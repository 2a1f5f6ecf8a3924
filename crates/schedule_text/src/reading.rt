//! Reading a schedule line by line.
ghost use Rattle.std.specs.Prelude.{◌≡◌, ◌+◌, [], MatchResult, length};
ghost use Rattle.schedule_text.specs.Accepted.{AcceptsSchedule, IsScheduleFault, IsRead};
ghost use Rattle.schedule_text.specs.Lines as lines;
ghost use Rattle.schedule_text.specs.Reading.{ReadsToEnd};

use crate::{SchedFault, Schedule};
pub use histories::history_of;
use reader::Reader;
use resty_world::{Event, SchedLine};
use splits::split_at_first;
use std::alloc::{AllocError, Global};

mod dictionary;
mod entries;
mod histories;
mod lines;
mod names;
mod numbers;
mod quotes;
mod reader;
mod spelled;
mod splits;

/// The length of the shortest line but `stop`, with its end.
const SHORTEST_LINE: usize = 9;

/// Reads a schedule, the last line of which is `stop`.
pub fn schedule_of(alloc: Global, text: &[u8]) -> Result<Schedule, SchedFault>
    ensures read { MatchResult result (IsRead text.now) (IsScheduleFault text.now) }
    ensures accepted { AcceptsSchedule text.now result }
{
    let mut spelling = Vec::new(alloc);
    let mut reader = Reader::new(alloc);
    match read_lines(alloc, &mut reader, &mut spelling, text) {
        Ok(()) => Ok(Schedule::new(reader.into_lines())),
        Err(fault) => Err(fault),
    }
}

/// Reads the lines one after another; `spelling` is room to work in.
fn read_lines(
    alloc: Global,
    reader: &mut Reader,
    spelling: &mut Vec<u8>,
    text: &[u8],
) -> Result<(), SchedFault>
    requires { reader.old.lines.items ≡ [] }
    ensures { MatchResult result (λ done. IsRead text.now reader.new.lines.items) (IsScheduleFault text.now) }
{
    if reader.reserve(most_lines(text)).is_err() {
        return Err(SchedFault::Memory);
    }
    let mut rest = text;
    while let Some((line, after)) = split_at_first(rest, b'\n') {
        let read = match reader.read_next(alloc, spelling, line) {
            Ok(Some(read)) => read,
            Ok(None) => return Err(SchedFault::BadLine(reader.next_number())),
            Err(AllocError) => return Err(SchedFault::Memory),
        };
        let stops = is_stop(&read);
        if reader.push(read).is_err() {
            return Err(SchedFault::Memory);
        }
        if stops {
            return finish(reader, after);
        }
        rest = after;
    }
    Err(SchedFault::BadLine(reader.next_number()))
}

/// Whether the line ends the schedule.
fn is_stop(line: &SchedLine) -> bool
    ensures { result ≡ lines.is_stop line.now }
{
    matches!(line, SchedLine::Given(Event::Stop))
}

/// Whether the schedule that was read up to its `stop` is all of the text: nothing may stand after that.
fn finish(reader: &Reader, rest: &[u8]) -> Result<(), SchedFault>
    ensures { ReadsToEnd rest.now (length reader.now.lines.items + 1) (λ done. Unit {0}) result }
{
    if rest.is_empty() {
        Ok(())
    } else {
        Err(SchedFault::BadLine(reader.next_number()))
    }
}

/// At most how many lines a schedule of this text has.
fn most_lines(text: &[u8]) -> usize {
    let ends = text.iter().filter(|byte| **byte == b'\n').count();
    ends.min(text.len() / SHORTEST_LINE + 1)
}
