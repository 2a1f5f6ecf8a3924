//! The lines of a schedule.
ghost use Rattle.std.specs.Prelude.{◌≡◌, ◌++◌, OnOk};
ghost use Rattle.schedule_text.specs.LineTexts.{line_text, whole_line};

use crate::text::events::put_event;
use crate::text::words::{put, put_named, put_numbered};
use resty_world::SchedLine;
use std::alloc::AllocError;

/// Puts a line with its end.
pub fn put_line(out: &mut Vec<u8>, line: &SchedLine) -> Result<(), AllocError>
    ensures { OnOk result (out.new.items ≡ out.old.items ++ whole_line line.now) }
{
    put_line_body(out, line)?;
    put(out, b"\n")
}

/// Puts a line without its end.
pub fn put_line_body(out: &mut Vec<u8>, line: &SchedLine) -> Result<(), AllocError>
    ensures { OnOk result (out.new.items ≡ out.old.items ++ line_text line.now) }
{
    match line {
        SchedLine::Given(event) => put_event(out, event),
        SchedLine::Room(id, room) => {
            put_named(out, b"room ", id)?;
            match room {
                None => put(out, b" all"),
                Some(count) => put_numbered(out, b" ", *count),
            }
        }
        SchedLine::FailNext => put(out, b"fail next"),
        SchedLine::FailDial => put(out, b"fail dial"),
        SchedLine::FailLog => put(out, b"fail log"),
        SchedLine::FailListen => put(out, b"fail listen"),
        SchedLine::FailPut(id) => put_named(out, b"fail put ", id),
    }
}
