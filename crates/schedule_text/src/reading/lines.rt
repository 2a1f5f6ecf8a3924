//! The event and the line of a schedule that a text is, if it is one.
ghost use Rattle.std.specs.Prelude.{◌≡◌, IfOk};
ghost use Rattle.schedule_text.specs.FoundLines as found;

use crate::reading::names::id_in;
use crate::reading::numbers::{number_in, numbered};
use crate::reading::quotes::unquoted;
use crate::reading::splits::{begins, first_word, is};
use resty_base::Ms;
use resty_world::{Event, SchedLine};
use std::alloc::{AllocError, Global};

/// An event but the coming of bytes, by its first word and what stands after that.
fn plain_event(word: &[u8], rest: &[u8]) -> Event
    ensures { result ≡ found.plain_event word.now rest.now }
{
    if is(word, b"arrive") {
        Event::Arrive(numbered(rest))
    } else if is(word, b"ended") {
        Event::Ended(id_in(rest))
    } else if is(word, b"broken") {
        Event::Broken(id_in(rest))
    } else if is(word, b"ready") {
        Event::Ready(id_in(rest))
    } else if is(word, b"dialled") {
        Event::Dialled(numbered(rest))
    } else if is(word, b"refused") {
        Event::Refused(numbered(rest))
    } else if is(word, b"moment") {
        Event::Moment(Ms(number_in(rest)))
    } else if is(word, b"stop") {
        Event::Stop
    } else {
        Event::Fault
    }
}

/// The event that the text is, if it is one; a fault where it begins with no word of an event.
pub fn event_in(alloc: Global, text: &[u8]) -> Result<Event, AllocError>
    ensures { IfOk result (λ event. event ≡ found.event_in text.now) }
{
    let (word, rest) = first_word(text);
    if is(word, b"bytes") {
        let (id, quoted) = first_word(rest);
        Ok(Event::Bytes(id_in(id), unquoted(alloc, quoted)?))
    } else {
        Ok(plain_event(word, rest))
    }
}

/// `all`, or for how many bytes there is room.
fn room_in(text: &[u8]) -> Option<u64>
    ensures { result ≡ found.room_in text.now }
{
    if begins(text, b'a') {
        None
    } else {
        Some(number_in(text))
    }
}

/// What is to fail.
fn fail_in(text: &[u8]) -> SchedLine
    ensures { result ≡ found.fail_in text.now }
{
    if is(text, b"next") {
        SchedLine::FailNext
    } else if is(text, b"dial") {
        SchedLine::FailDial
    } else if is(text, b"log") {
        SchedLine::FailLog
    } else if is(text, b"listen") {
        SchedLine::FailListen
    } else {
        let (_, id) = first_word(text);
        SchedLine::FailPut(id_in(id))
    }
}

/// The line that the text is, if it is one.
pub fn line_in(alloc: Global, text: &[u8]) -> Result<SchedLine, AllocError>
    ensures { IfOk result (λ line. line ≡ found.line_in text.now) }
{
    let (word, rest) = first_word(text);
    if is(word, b"room") {
        let (id, room) = first_word(rest);
        Ok(SchedLine::Room(id_in(id), room_in(room)))
    } else if is(word, b"fail") {
        Ok(fail_in(rest))
    } else {
        Ok(SchedLine::Given(event_in(alloc, text)?))
    }
}
