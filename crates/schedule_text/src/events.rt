//! The given events of a history as a schedule.
ghost use Rattle.std.specs.Prelude.{◌≡◌, ◌++◌, ◌∷◌, [], IfOk, OnOk};
ghost use Rattle.resty_world.specs.declared.event.Event.TheVariants.{Stop};
ghost use Rattle.schedule_text.specs.Events as events;

use crate::Schedule;
use resty_base::Ms;
use resty_world::{Entry, Event, History, SchedLine};
use std::alloc::{AllocError, Global};

/// The given events of a history as a schedule: a moment below the present one is written as the present one, and `stop` is
/// added where it isn't the last.
pub fn events_of(alloc: Global, history: &History) -> Result<Schedule, AllocError>
    ensures { IfOk result (λ schedule. schedule ≡ events.events_of history.now.entries) }
{
    let mut lines = Vec::new(alloc);
    let mut present = 0;
    let mut stopped = false;
    for entry in history.as_slice() {
        add_event(&mut lines, present, entry)?;
        present = present_after(entry, present);
        stopped = stopped_after(entry, stopped);
    }
    if !stopped {
        lines.push(SchedLine::Given(Event::Stop))?;
    }
    Ok(Schedule::new(lines))
}

/// Adds the entry's event, if it is a given one.
fn add_event(lines: &mut Vec<SchedLine>, present: u64, entry: &Entry) -> Result<(), AllocError>
    ensures { OnOk result (lines.new.items ≡ events.lines_after entry.now present lines.old.items) }
{
    match entry {
        Entry::Given(event) => Ok(lines.push(given_line(present, event)?)?),
        _ => Ok(()),
    }
}

/// The event as a line.
fn given_line(present: u64, event: &Event) -> Result<SchedLine, AllocError>
    ensures { IfOk result (λ line. line ≡ events.given_line present event.now) }
{
    Ok(SchedLine::Given(match event {
        Event::Moment(now) => Event::Moment(Ms(now.0.max(present))),
        _ => event.shared()?,
    }))
}

/// The present moment after an entry.
fn present_after(entry: &Entry, present: u64) -> u64
    ensures { result ≡ events.present_after entry.now present }
{
    match entry {
        Entry::Given(Event::Moment(now)) => present.max(now.0),
        _ => present,
    }
}

/// Whether the last given event is `stop`, after an entry.
fn stopped_after(entry: &Entry, stopped: bool) -> bool
    ensures { result ≡ events.stopped_after entry.now stopped }
{
    match entry {
        Entry::Given(Event::Stop) => true,
        Entry::Given(_) => false,
        _ => stopped,
    }
}
