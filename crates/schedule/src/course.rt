//! The schedule that a world goes by.

use resty_world::SchedLine;
use schedule_text::Schedule;
use std::marker::Model;

/// The schedule that a world goes by: each line fits what stands before it, and the last is `stop`.
#[derive(Drop)]
pub struct Course {
    schedule: Schedule,
}

impl Model for Course {
    ghost use Rattle.std.specs.Prelude.{List};
    ghost use Rattle.resty_world.specs.declared.schedule_line.SchedLine.{SchedLine};
    ghost use Rattle.schedule_text.specs.Fitting.{IsSchedule};

    ghost Value = { List SchedLine };

    ghost view = { λ course. course.schedule };

    ghost invariant = { λ course. IsSchedule course.schedule };
}

impl Course {
    ghost use Rattle.std.specs.Prelude.{◌≡◌, ◌<◌, ◌^◌, length, Some, slice_get, take};
    ghost use Rattle.schedule_text.specs.Fitting.{IsSchedule, Fits};
    ghost use Rattle.schedule.specs.Steps.{begins_by_failing};

    /// The course of this schedule.
    pub fn new(schedule: Schedule) -> Course
        requires { IsSchedule schedule }
        ensures { result ≡ schedule }
    {
        Course { schedule }
    }

    /// How many lines there are.
    pub fn len(&self) -> usize
        ensures count { result ≡ length self.now }
        ensures made { IsSchedule self.now }
    {
        self.schedule.as_slice().len()
    }

    /// The line at this index, from 0.
    pub fn line(&self, index: usize) -> &SchedLine
        requires { index < length self.now }
        ensures here { slice_get self.now index ≡ Some result.now }
        ensures fits { Fits (take index self.now) result.now }
    {
        let lines = self.schedule.as_slice();
        &lines[index]
    }

    /// Whether the first line makes listening fail.
    pub fn begins_by_failing(&self) -> bool
        ensures begins { result ≡ begins_by_failing self.now }
        ensures few { length self.now < 2 ^ 64 }
    {
        let lines = self.schedule.as_slice();
        matches!(lines, [SchedLine::FailListen, ..])
    }
}
