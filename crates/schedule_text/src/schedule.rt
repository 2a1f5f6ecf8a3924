//! A schedule: its lines in the order of the text.
use resty_world::SchedLine;
use std::marker::Model;

/// The lines of a schedule, which contracts see as a list in the order of the text.
#[derive(Drop)]
pub struct Schedule {
    lines: Vec<SchedLine>,
}

impl Model for Schedule {
    ghost use Rattle.std.specs.Prelude.{List};
    ghost use Rattle.resty_world.specs.declared.schedule_line.SchedLine.{SchedLine};

    ghost Value = { List SchedLine };

    ghost view = { λ schedule. schedule.lines.items };
}

impl Schedule {
    ghost use Rattle.std.specs.Prelude.{◌≡◌};

    /// The schedule of these lines; takes no memory.
    pub fn new(lines: Vec<SchedLine>) -> Schedule
        ensures { result ≡ lines.items }
    {
        Schedule { lines }
    }

    /// The lines in order.
    pub fn as_slice(&self) -> &[SchedLine]
        ensures { result.now ≡ self.now }
    {
        self.lines.as_slice()
    }
}
