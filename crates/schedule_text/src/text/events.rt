//! The texts of events.
ghost use Rattle.std.specs.Prelude.{◌≡◌, ◌++◌, OnOk};
ghost use Rattle.schedule_text.specs.LineTexts.{event_text};

use crate::text::words::{put, put_named, put_named_bytes, put_numbered};
use resty_world::Event;
use std::alloc::AllocError;

/// Puts an event without the end of its line; what is no event has no text.
pub fn put_event(out: &mut Vec<u8>, event: &Event) -> Result<(), AllocError>
    ensures { OnOk result (out.new.items ≡ out.old.items ++ event_text event.now) }
{
    match event {
        Event::Arrive(number) => put_numbered(out, b"arrive c", *number),
        Event::Bytes(id, bytes) => put_named_bytes(out, b"bytes ", id, bytes),
        Event::Ended(id) => put_named(out, b"ended ", id),
        Event::Broken(id) => put_named(out, b"broken ", id),
        Event::Ready(id) => put_named(out, b"ready ", id),
        Event::Dialled(number) => put_numbered(out, b"dialled s", *number),
        Event::Refused(number) => put_numbered(out, b"refused s", *number),
        Event::Moment(now) => put_numbered(out, b"moment ", now.0),
        Event::Stop => put(out, b"stop"),
        _ => Ok(()),
    }
}
