//! One line of a text: what was found in it is read where it is within its ranges and has that text, so that no line has a
//! second spelling.
ghost use Rattle.std.specs.Prelude.{◌≡◌, ◌↔◌, IfOk, IsTrue};
ghost use Rattle.schedule_text.specs.EntryTexts.{entry_text};
ghost use Rattle.schedule_text.specs.LineTexts.{line_text};
ghost use Rattle.schedule_text.specs.Ranges.{IsEntry, IsLine};
ghost use Rattle.schedule_text.specs.Reading.{ReadsEntry, ReadsLine};

use crate::ranges::{is_entry, is_line};
use crate::reading::entries::entry_in;
use crate::reading::lines::line_in;
use crate::text::{put_entry_body, put_line_body};
use resty_world::{Entry, SchedLine};
use std::alloc::{AllocError, Global};

/// Whether the line is within its ranges and has this text; `spelling` is room to work in.
fn line_is_spelled(
    spelling: &mut Vec<u8>,
    line: &SchedLine,
    text: &[u8],
) -> Result<bool, AllocError>
    ensures { IfOk result (λ yes. IsTrue yes ↔ (IsLine line.now × (text.now ≡ line_text line.now))) }
{
    if !is_line(line) {
        return Ok(false);
    }
    spelling.clear();
    put_line_body(spelling, line)?;
    Ok(text == spelling.as_slice())
}

/// The line of a schedule whose text this is; `spelling` is room to work in.
pub fn read_line(
    alloc: Global,
    spelling: &mut Vec<u8>,
    text: &[u8],
) -> Result<Option<SchedLine>, AllocError>
    ensures { IfOk result (ReadsLine text.now) }
{
    let line = line_in(alloc, text)?;
    let spelled = line_is_spelled(spelling, &line, text)?;
    Ok(spelled.then_some(line))
}

/// Whether the entry is within its ranges and has this text; `spelling` is room to work in.
fn entry_is_spelled(spelling: &mut Vec<u8>, entry: &Entry, text: &[u8]) -> Result<bool, AllocError>
    ensures { IfOk result (λ yes. IsTrue yes ↔ (IsEntry entry.now × (text.now ≡ entry_text entry.now))) }
{
    if !is_entry(entry) {
        return Ok(false);
    }
    spelling.clear();
    put_entry_body(spelling, entry)?;
    Ok(spelling.as_slice() == text)
}

/// The entry of a history whose text this is; `spelling` is room to work in.
pub fn read_entry(
    alloc: Global,
    spelling: &mut Vec<u8>,
    text: &[u8],
) -> Result<Option<Entry>, AllocError>
    ensures { IfOk result (ReadsEntry text.now) }
{
    let entry = entry_in(alloc, text)?;
    match entry_is_spelled(spelling, &entry, text) {
        Ok(spelled) => Ok(spelled.then_some(entry)),
        Err(AllocError) => {
            drop(entry);
            Err(AllocError)
        }
    }
}
