//! Whether what stands in a line is within its range.
ghost use Rattle.std.specs.Prelude.{◌≡◌, ◌↔◌, IsTrue};
ghost use Rattle.schedule_text.specs.Ranges.{IsEvent, IsId, IsLine, IsNumber, IsOrdinal, IsReceived, IsRoom, IsSmall, IsStrand};

use resty_base::{Id, StrandId};
use resty_world::{Event, LAST_MOMENT, SchedLine};

mod entries;

pub use entries::is_entry;

/// The greatest number of at most 18 digits.
pub const LAST_NUMBER: u64 = 999_999_999_999_999_999;

/// The most bytes that come at a time.
const MOST_BYTES: usize = 65_536;

fn is_number(number: u64) -> bool
    ensures { IsTrue result ↔ IsNumber number }
{
    number <= LAST_NUMBER
}

/// Whether it can be the number of a connection, a socket or a job.
fn is_ordinal(number: u64) -> bool
    ensures { IsTrue result ↔ IsOrdinal number }
{
    0 < number && number <= LAST_NUMBER
}

fn is_id(id: Id) -> bool
    ensures { IsTrue result ↔ IsId id }
{
    match id {
        Id::Conn(number) | Id::Sock(number) => is_ordinal(number),
    }
}

fn is_strand(strand: &StrandId) -> bool
    ensures { IsTrue result ↔ IsStrand strand.now }
{
    match strand {
        StrandId::Conn(number) | StrandId::Job(number) => is_ordinal(*number),
    }
}

fn is_received(bytes: &[u8]) -> bool
    ensures { IsTrue result ↔ IsReceived bytes.now }
{
    !bytes.is_empty() && bytes.len() <= MOST_BYTES
}

/// Whether the event is one that is given, with its numbers and bytes in their ranges.
pub fn is_event(event: &Event) -> bool
    ensures { IsTrue result ↔ IsEvent event.now }
{
    match event {
        Event::Arrive(number) | Event::Dialled(number) | Event::Refused(number) => {
            is_ordinal(*number)
        }
        Event::Bytes(id, bytes) => is_id(*id) && is_received(bytes.as_slice()),
        Event::Ended(id) | Event::Broken(id) | Event::Ready(id) => is_id(*id),
        Event::Moment(now) => now.0 <= LAST_MOMENT,
        Event::Stop => true,
        Event::Fault | Event::BadLine(_) | Event::Memory => false,
    }
}

fn is_room(room: Option<u64>) -> bool
    ensures { IsTrue result ↔ IsRoom room }
{
    match room {
        None => true,
        Some(count) => is_number(count),
    }
}

/// Whether the line has its numbers and bytes in their ranges.
pub fn is_line(line: &SchedLine) -> bool
    ensures { IsTrue result ↔ IsLine line.now }
{
    match line {
        SchedLine::Given(event) => is_event(event),
        SchedLine::Room(id, room) => is_id(*id) && is_room(*room),
        SchedLine::FailNext | SchedLine::FailDial | SchedLine::FailLog | SchedLine::FailListen =>
            true,
        SchedLine::FailPut(id) => is_id(*id),
    }
}
