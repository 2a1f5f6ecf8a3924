//! Writing to the log, for which everybody waits.

use std::io::{ErrorKind, Write};
use std::time::{Clock, Duration};

/// For how many milliseconds it waits where the log takes nothing for now.
const PAUSE: u64 = 1;

/// Whether the log took all of the text. Where it takes nothing for now, as a full pipe that doesn't block, it is waited for.
pub fn write_whole(clock: &impl Clock, log: &mut impl Write, text: &[u8]) -> bool {
    let mut rest = text;
    for _ in 0..u64::MAX {
        if rest.is_empty() {
            return true;
        }
        match log.write(rest) {
            Ok(0) => return false,
            Ok(count) => rest = &rest[count.min(rest.len())..],
            Err(fault) if fault.kind() == ErrorKind::WouldBlock => {
                clock.sleep(Duration::from_millis(PAUSE))
            }
            Err(fault) if fault.kind() == ErrorKind::Interrupted => {}
            Err(_) => return false,
        }
    }
    false
}
