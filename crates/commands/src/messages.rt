//! All that the program says: what is written of a site that is checked, and the lines on standard error, each put in pieces, so that it takes no memory.

ghost use Rattle.std.specs.Prelude.{◌≡◌, OnOk, OnErr, decimal};
ghost use Rattle.resty_base.specs.Taking.{TakesAll, TakesPart};
ghost use Rattle.commands.specs.Messages.{
  bytes_of,
  fault_line,
  line_of,
  memory_line,
  missing_line,
  site_line,
  too_long_line,
  unreadable_line,
  usage_line,
};

use crate::endings::Ending;
use itoa::Buffer;
use resty_base::{Sink, SinkFault, put_all, put_pieces};
use site_load::SiteFault;

/// What is written of a site that is checked.
pub const SITE_OK: &[u8] = b"site ok\n";

/// The line that says how the program is called.
const USAGE: &[u8] = b"resty: usage: resty MODE [options]\n";

/// The line that says that memory ran out.
const OUT_OF_MEMORY: &[u8] = b"resty: out of memory\n";

/// A line on standard error, in its pieces.
#[derive(Drop)]
pub(crate) enum Line<'a> {
    /// There is none.
    None,
    /// One that names nothing.
    Text(&'a [u8]),
    /// A name or a message, between what stands before and behind it.
    Joined(&'a [u8], &'a [u8], &'a [u8]),
    /// A file, the number of a line of it, and what is wrong there.
    At(&'a [u8], u64, &'a [u8]),
}

/// Puts the line that says how the work on a command ended whose schedule has this name.
pub fn put_line<E: Sink>(err: &mut E, schedule: &str, ending: &Ending) -> Result<(), SinkFault>
    ensures ok { OnOk result (TakesAll (line_of schedule.now ending.now) (E.account err.old) (E.account err.new)) }
    ensures err { OnErr result (TakesPart (line_of schedule.now ending.now) (E.account err.old) (E.account err.new)) }
{
    put(err, ending_line(schedule.as_bytes(), ending))
}

/// Puts a line.
fn put<'a, E: Sink>(err: &mut E, line: Line<'a>) -> Result<(), SinkFault>
    ensures ok { OnOk result (TakesAll (bytes_of line.entry) (E.account err.old) (E.account err.new)) }
    ensures err { OnErr result (TakesPart (bytes_of line.entry) (E.account err.old) (E.account err.new)) }
{
    match line {
        Line::None => Ok(()),
        Line::Text(text) => put_all(err, text),
        Line::Joined(before, name, behind) => put_pieces(err, &[before, name, behind]),
        Line::At(name, line, text) => put_fault(err, name, line, text),
    }
}

/// Puts the line that names a file, the number of a line of it, and what is wrong there.
fn put_fault<'a, E: Sink>(
    err: &mut E,
    name: &'a [u8],
    line: u64,
    text: &'a [u8],
) -> Result<(), SinkFault>
    ensures ok { OnOk result (TakesAll (fault_line name.now (decimal line) text.now) (E.account err.old) (E.account err.new)) }
    ensures err { OnErr result (TakesPart (fault_line name.now (decimal line) text.now) (E.account err.old) (E.account err.new)) }
{
    let mut buffer = Buffer::new();
    let line = buffer.format(line).as_bytes();
    put_pieces(
        err,
        &[b"resty: ", name, b": line ", line, b": ", text, b"\n"],
    )
}

/// The line that says how the work on a command ended whose schedule has this name.
fn ending_line<'a>(schedule: &'a [u8], ending: &'a Ending) -> Line<'a>
    ensures { bytes_of result ≡ line_of schedule.now ending.now }
{
    match ending {
        Ending::Done => Line::None,
        Ending::Usage => Line::Text(USAGE),
        Ending::NoSite(fault) => fault_of_site(fault),
        Ending::Missing => missing(schedule),
        Ending::TooLong => too_long(schedule),
        Ending::Unreadable => unreadable(schedule),
        Ending::BadLine(line) => Line::At(schedule, *line, b"not a schedule line"),
        Ending::NoSuchId(line) => Line::At(schedule, *line, b"no such id"),
        Ending::WorldFault => Line::Text(b"resty: world fault\n"),
        Ending::EventsSpent => Line::Text(b"resty: events spent\n"),
        Ending::NotWritten => Line::Text(b"resty: cannot write\n"),
        Ending::Memory => Line::Text(OUT_OF_MEMORY),
    }
}

/// The line that says why files hold no site.
fn fault_of_site<'a>(fault: &'a SiteFault) -> Line<'a>
    ensures { bytes_of result ≡ site_line fault.now }
{
    match fault {
        SiteFault::Missing(file) => missing(file.as_slice()),
        SiteFault::TooLong(file) => too_long(file.as_slice()),
        SiteFault::Unreadable(file) => unreadable(file.as_slice()),
        SiteFault::Refused(file, wrong) => {
            Line::At(file.as_slice(), wrong.line() as u64, wrong.text())
        }
        SiteFault::NotBuilt(file, line) => {
            Line::At(file.as_slice(), u64::from(*line), b"not built yet")
        }
        SiteFault::TooManyModules => Line::Text(b"resty: too many modules\n"),
        SiteFault::Init(message) => {
            Line::Joined(b"resty: init failed: ", message.as_slice(), b"\n")
        }
        SiteFault::Memory => Line::Text(OUT_OF_MEMORY),
    }
}

/// The line that says that there is no file of this name.
fn missing<'a>(name: &'a [u8]) -> Line<'a>
    ensures { bytes_of result ≡ missing_line name.now }
{
    Line::Joined(b"resty: no file ", name, b"\n")
}

/// The line that says that the file of this name is too long.
fn too_long<'a>(name: &'a [u8]) -> Line<'a>
    ensures { bytes_of result ≡ too_long_line name.now }
{
    Line::Joined(b"resty: ", name, b" is too long\n")
}

/// The line that says that the file of this name can't be read.
fn unreadable<'a>(name: &'a [u8]) -> Line<'a>
    ensures { bytes_of result ≡ unreadable_line name.now }
{
    Line::Joined(b"resty: cannot read ", name, b"\n")
}

/// Puts the line that says how the program is called.
pub fn put_usage<E: Sink>(err: &mut E) -> Result<(), SinkFault>
    ensures ok { OnOk result (TakesAll usage_line (E.account err.old) (E.account err.new)) }
    ensures err { OnErr result (TakesPart usage_line (E.account err.old) (E.account err.new)) }
{
    put_all(err, USAGE)
}

/// Puts the line that says that memory ran out.
pub fn put_out_of_memory<E: Sink>(err: &mut E) -> Result<(), SinkFault>
    ensures ok { OnOk result (TakesAll memory_line (E.account err.old) (E.account err.new)) }
    ensures err { OnErr result (TakesPart memory_line (E.account err.old) (E.account err.new)) }
{
    put_all(err, OUT_OF_MEMORY)
}
