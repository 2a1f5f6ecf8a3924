//! Room in the history, and counts.

ghost use Rattle.std.specs.Prelude.{◌≡◌, ◌+◌, ◌<◌, ◌≤◌, ◌^◌, OnOk};
ghost use Rattle.resty_world.specs.Calls.{room_of, uses_aside};
ghost use Rattle.resty_base.specs.Counting.{Rose};
ghost use Rattle.schedule.specs.Counts.{counted};

use resty_world::{Entry, History};
use std::alloc::AllocError;

/// How much of the spare room an entry takes: none where it has the room of its strand.
pub fn room_taken(entry: &Entry) -> usize
    ensures { result ≡ room_of (uses_aside entry.now) }
{
    match entry {
        Entry::Turned(_) | Entry::Dropped(_) => 0,
        _ => 1,
    }
}

/// Makes room for so many entries more than those for which it is set aside, and for those ahead if it can.
pub fn make_way(
    history: &mut History,
    set_aside: usize,
    more: usize,
    ahead: usize,
) -> Result<(), AllocError>
    requires { set_aside ≤ history.old.room }
    ensures entries { history.new.entries ≡ history.old.entries }
    ensures kept { set_aside ≤ history.new.room }
    ensures ok { OnOk result (set_aside + more ≤ history.new.room) }
    ensures bound { OnOk result (set_aside + more < 2 ^ 64) }
{
    let Some(wanted) = set_aside.checked_add(more) else {
        return Err(AllocError);
    };
    if wanted <= history.room() {
        return Ok(());
    }
    match history.reserve(wanted.saturating_add(ahead)) {
        Ok(()) => Ok(()),
        Err(_) => history.reserve(wanted),
    }
}

/// The count with one more; it stands still at its last value.
pub fn one_more(count: u64) -> u64
    ensures counted { result ≡ counted (count + 1) }
    ensures rose { Rose count result }
{
    count.saturating_add(1)
}
