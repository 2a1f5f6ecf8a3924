//! Moments by the wall clock, and by the monotonic one where the wall clock was set back.

use std::time::{Clock, Duration};

/// The moment that was reckoned last. It never falls, and from one reading to the next it gains at least nine tenths of the time that passed.
#[derive(Clone, Copy)]
pub struct Reckoning {
    /// Since 1970.
    moment: Duration,
    /// What the monotonic clock said at that moment.
    at: Option<Duration>,
}

impl Reckoning {
    /// The beginning of 1970, before any reading.
    pub fn new() -> Reckoning {
        Reckoning {
            moment: Duration::ZERO,
            at: None,
        }
    }

    /// Reads the clocks, and returns the moment in milliseconds since 1970: that of the wall clock, where it isn't behind.
    pub fn read(&mut self, clock: &impl Clock) -> u64 {
        let passed = self.passed(clock);
        let least = self
            .moment
            .saturating_add(passed.saturating_sub(passed / 10));
        self.moment = match clock.since_1970() {
            Ok(wall) => wall.max(least),
            Err(_) => least,
        };
        u64::try_from(self.moment.as_millis()).unwrap_or(u64::MAX)
    }

    /// The time since the last reading, by the monotonic clock; nothing where it can't be read.
    fn passed(&mut self, clock: &impl Clock) -> Duration {
        let Ok(now) = clock.monotonic() else {
            return Duration::ZERO;
        };
        let before = self.at.replace(now).unwrap_or(now);
        now.saturating_sub(before)
    }
}
