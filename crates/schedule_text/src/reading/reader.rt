//! The lines of a schedule that were read, and which line may come next.
ghost use Rattle.std.specs.Prelude.{◌≡◌};
ghost use Rattle.schedule_text.specs.Lines.{arrivals_in, latest_in};
ghost use Rattle.schedule_text.specs.Reading as reading;

use crate::reading::spelled::read_line;
use resty_world::{Event, SchedLine};
use std::alloc::{AllocError, Global};

/// The lines that were read, and what the next line has to follow.
#[derive(Drop)]
pub struct Reader {
    lines: Vec<SchedLine>,
    /// How many connections arrived.
    arrived: u64,
    /// The latest moment, 0 where there was none.
    latest: u64,
    ghost arrivals: { arrived ≡ arrivals_in lines.items },
    ghost moments: { latest ≡ latest_in lines.items },
}

impl Reader {
    ghost use Rattle.std.specs.Prelude.{◌≡◌, ◌+◌, ◌++◌, ◌∷◌, ◌↔◌, [], length, IfOk, OnOk, OnErr, IsTrue};
    ghost use Rattle.schedule_text.specs.Fitting.{Fits, Follows};
    ghost use Rattle.schedule_text.specs.Reading.{IsNextOf, ReadsNext};

    /// Nothing was read yet; takes no memory.
    pub fn new(alloc: Global) -> Reader
        ensures { result.lines.items ≡ [] }
    {
        Reader {
            lines: Vec::new(alloc),
            arrived: 0,
            latest: 0,
        }
    }

    /// Makes room for so many lines.
    pub fn reserve(&mut self, count: usize) -> Result<(), AllocError>
        ensures { self.new.lines.items ≡ self.old.lines.items }
    {
        self.lines.reserve_exact(count)
    }

    /// The number of the next line.
    pub fn next_number(&self) -> u64
        ensures { result ≡ length self.now.lines.items + 1 }
    {
        self.lines.len() as u64 + 1
    }

    /// The lines that were read.
    pub fn into_lines(self) -> Vec<SchedLine>
        ensures { result.items ≡ self.lines.items }
    {
        let Reader {
            lines,
            arrived: _,
            latest: _,
        } = self;
        lines
    }

    /// The line whose text this is and that may follow those that were read; `spelling` is room to work in.
    pub fn read_next(
        &self,
        alloc: Global,
        spelling: &mut Vec<u8>,
        text: &[u8],
    ) -> Result<Option<SchedLine>, AllocError>
        ensures { IfOk result (ReadsNext self.now.lines.items text.now) }
    {
        let read = read_line(alloc, spelling, text)?;
        Ok(self.next_of(read))
    }

    /// The line, where it may follow those that were read.
    fn next_of(&self, read: Option<SchedLine>) -> Option<SchedLine>
        ensures { IsNextOf self.now.lines.items read result }
    {
        match read {
            Some(line) if self.precedes(&line) => Some(line),
            _ => None,
        }
    }

    /// Whether the line may follow those that were read.
    fn precedes(&self, line: &SchedLine) -> bool
        ensures { IsTrue result ↔ Follows self.now.lines.items line.now }
    {
        match line {
            SchedLine::Given(Event::Arrive(number)) => self.is_next(*number),
            SchedLine::Given(Event::Moment(now)) => self.latest <= now.0,
            _ => true,
        }
    }

    /// Whether this is the next connection.
    fn is_next(&self, number: u64) -> bool
        ensures { IsTrue result ↔ (number ≡ arrivals_in self.now.lines.items + 1) }
    {
        number > 0 && number - 1 == self.arrived
    }

    /// Adds a line that fits those that were read.
    pub fn push(&mut self, line: SchedLine) -> Result<(), AllocError>
        requires { Fits self.old.lines.items line }
        ensures ok { OnOk result (self.new.lines.items ≡ self.old.lines.items ++ line ∷ []) }
        ensures err { OnErr result (self.new.lines.items ≡ self.old.lines.items) }
    {
        self.lines.reserve(1)?;
        let arrived = arrived_after(&line, self.arrived);
        let latest = latest_after(&line, self.latest);
        self.lines.push_reserved(line);
        self.arrived = arrived;
        self.latest = latest;
        Ok(())
    }
}

/// How many connections arrived, after a line that follows others.
fn arrived_after(line: &SchedLine, before: u64) -> u64
    ensures { result ≡ reading.arrived_after line.now before }
{
    match line {
        SchedLine::Given(Event::Arrive(number)) => *number,
        _ => before,
    }
}

/// The latest moment, after a line that follows others.
fn latest_after(line: &SchedLine, before: u64) -> u64
    ensures { result ≡ reading.latest_after line.now before }
{
    match line {
        SchedLine::Given(Event::Moment(now)) => now.0,
        _ => before,
    }
}
