//! Strands that go by scripts, for what no program of Lua asks for yet: turns that are given up, sleep, and memory that is refused (RUN, SLEPT); and until when
//! the world is asked for events (TWO_SLEEP, TWO_GO).
use crate::scripted::asking::Asking;
use crate::scripted::{EVENTS, Scripted, hold};
use engine::serve;
use schedule::schedule_of;
use std::alloc::Global;
use strand_scripts::ScriptStrand;

const PROGRAMS: &str = "\
p: say a, log x, yield, say b
n: yield, log 1, yield, log 2
h: log x, yield, log y, fail, say b
a: sleep 5, log a
b: sleep 3, log b
z: sleep 0, log z
m: sleep 5, sleep 0, log m
w: sleep 5, log w, sleep 5, log v
s: say a, sleep 5, say b
f: sleep 5, fail
g: sleep 5, log g, yield, fail
r: recall, sleep 5, recall, log r";

/// A thread runs until it waits; a strand that is refused memory is dropped.
const RUN: &str = r#"arrive c1
bytes c1 "pq"
> log c1 "x"
> put c1 "ab"
> close c1
stop

arrive c1
arrive c2
bytes c2 "p"
> log c2 "x"
> put c2 "ab"
> close c2
bytes c1 "p"
> log c1 "x"
> put c1 "ab"
> close c1
stop

arrive c1
bytes c1 "n"
> log c1 "1"
> log c1 "2"
> close c1
< bytes c1 "n"
moment 5
stop

arrive c1
arrive c2
bytes c1 "h"
> log c1 "x"
> dropped c1
> close c1
bytes c2 "p"
> log c2 "x"
> put c2 "ab"
> close c2
stop"#;

/// Moments wake sleepers in the order in which they are due, and of equals the one that was armed first. A deadline comes due at a later moment alone; one that
/// is cancelled never does; a strand that is over leaves none; what sleepers write waits and breaks.
const SLEPT: &str = r#"arrive c1
arrive c2
arrive c3
bytes c3 "a"
bytes c2 "b"
bytes c1 "a"
moment 2
moment 3
> log c2 "b"
> close c2
moment 5
> log c3 "a"
> close c3
> log c1 "a"
> close c1
stop

arrive c1
arrive c2
arrive c3
bytes c2 "a"
moment 2
bytes c3 "b"
bytes c1 "b"
moment 4
moment 9
> log c2 "a"
> close c2
> log c3 "b"
> close c3
> log c1 "b"
> close c1
stop

arrive c1
arrive c2
arrive c3
bytes c3 "a"
bytes c2 "a"
bytes c1 "b"
moment 4
> log c1 "b"
> close c1
bytes c3 "x"
> log c3 "a"
> close c3
moment 4
moment 7
> log c2 "a"
> close c2
stop

arrive c1
bytes c1 "z"
arrive c2
moment 0
> log c1 "z"
> close c1
stop
> close c2

arrive c1
arrive c2
bytes c2 "z"
bytes c1 "m"
moment 5
> log c2 "z"
> close c2
arrive c3
moment 5
> log c1 "m"
> close c1
stop
> close c3

moment 7
arrive c1
bytes c1 "a"
moment 11
moment 12
> log c1 "a"
> close c1
stop

arrive c1
bytes c1 "w"
moment 3
bytes c1 "x"
> log c1 "w"
moment 5
moment 7
moment 8
> log c1 "v"
> close c1
stop

arrive c1
arrive c2
bytes c1 "w"
bytes c2 "a"
bytes c1 "x"
> log c1 "w"
moment 5
> log c2 "a"
> close c2
> log c1 "v"
> close c1
stop

arrive c1
bytes c1 "r"
moment 4
moment 5
> log c1 "r"
> close c1
stop

arrive c1
arrive c2
bytes c1 "f"
bytes c2 "a"
bytes c1 "x"
> dropped c1
> close c1
moment 5
> log c2 "a"
> close c2
stop

arrive c1
arrive c2
bytes c1 "g"
bytes c2 "a"
moment 5
> log c1 "g"
> log c2 "a"
> close c2
> dropped c1
> close c1
stop

arrive c1
arrive c2
bytes c1 "a"
bytes c2 "a"
ended c2
broken c1
> close c1
arrive c3
bytes c3 "a"
moment 5
> log c2 "a"
> close c2
> log c3 "a"
> close c3
stop

arrive c1
arrive c2
arrive c3
bytes c2 "a"
bytes c1 "b"
stop
> close c1
> close c2
> close c3

arrive c1
arrive c2
< room c1 1
bytes c1 "s"
> put c1 "a"
bytes c2 "s"
> put c2 "a"
moment 5
> later c1
> put c2 "b"
> close c2
< room c1 all
ready c1
> put c1 "b"
> close c1
stop

arrive c1
arrive c2
bytes c1 "s"
> put c1 "a"
bytes c2 "s"
> put c2 "a"
< fail put c1
moment 5
> lost c1
> close c1
> put c2 "b"
> close c2
stop

arrive c1
arrive c2
bytes c1 "a"
bytes c2 "a"
< fail log
moment 5
> log c1 failed "a"
> close c1
> log c2 "a"
> close c2
< stop"#;

#[test]
fn strands_run_and_sleep(rt: HostRuntime) {
    hold::<ScriptStrand>(&rt, rt.alloc(), PROGRAMS, RUN);
    hold::<ScriptStrand>(&rt, rt.alloc(), PROGRAMS, SLEPT);
}

/// The world after the schedule was served.
fn asked(alloc: Global, schedule: &str) -> Option<Asking> {
    let Ok(schedule) = schedule_of(alloc, schedule.as_bytes()) else {
        return None;
    };
    let site = ScriptStrand::site(alloc, PROGRAMS).ok()?;
    let mut world = Asking::new(alloc, schedule);
    let _ = serve::<ScriptStrand, Asking>(alloc, site, &mut world, EVENTS);
    Some(world)
}

/// Whether the world is asked until these moments as the schedule is served.
fn is_asked(alloc: Global, schedule: &str, moments: &str) -> bool {
    match asked(alloc, schedule) {
        Some(world) => world.asked() == moments,
        None => false,
    }
}

const TWO_SLEEP: &str = r#"arrive c1
arrive c2
bytes c1 "a"
bytes c2 "b"
moment 3
moment 5
stop
"#;

const TWO_GO: &str = r#"arrive c1
arrive c2
bytes c1 "a"
bytes c2 "b"
bytes c2 "x"
broken c1
moment 6
stop
"#;

#[test]
fn the_world_is_asked_until_the_earliest_deadline(rt: HostRuntime) {
    assert!(rt; is_asked(rt.alloc(), TWO_SLEEP, "- - - 5 3 5 - "));
    assert!(rt; is_asked(rt.alloc(), TWO_GO, "- - - 5 3 5 - - "));
}
