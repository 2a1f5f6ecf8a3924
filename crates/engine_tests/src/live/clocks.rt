//! Moments, by the clock of the system and by clocks that are set.

use super::bench::{Bench, now};
use live_world::Live;
use resty_base::Ms;
use resty_world::{Event, World};
use std::alloc::Global;
use std::cell::Cell;
use std::io;
use std::net::{Net, SocketAddr, TcpListener, TcpStream};
use std::process::Abort;
use std::time::{Clock, Duration};

/// The sockets of the system, and clocks that stand where they are set, in milliseconds.
#[derive(Drop)]
struct SetClock<'a> {
    rt: &'a HostRuntime,
    monotonic: Cell<u64>,
    wall: Cell<u64>,
}

impl Clock for SetClock<'_> {
    fn monotonic(&self) -> io::Result<Duration> {
        Ok(Duration::from_millis(self.monotonic.get()))
    }

    fn since_1970(&self) -> io::Result<Duration> {
        Ok(Duration::from_millis(self.wall.get()))
    }
}

impl Net for SetClock<'_> {
    type Stream = TcpStream;

    type Listener = TcpListener;

    fn bind(&self, addr: SocketAddr) -> io::Result<TcpListener> {
        self.rt.bind(addr)
    }

    fn connect(&self, addr: SocketAddr) -> io::Result<TcpStream> {
        self.rt.connect(addr)
    }
}

pub(super) fn past<A: Abort>(rt: &A, host: &HostRuntime, bench: &mut Bench<'_, A>) {
    let before = now(rt, host);
    assert!(rt; is_moment_from(&bench.next_at(before), before));
    assert!(rt; now(rt, host) < before.saturating_add(1_000));
}

pub(super) fn to_come<A: Abort>(rt: &A, host: &HostRuntime, bench: &mut Bench<'_, A>) {
    let until = now(rt, host).saturating_add(100);
    assert!(rt; is_moment_from(&bench.next_at(until), until));
    assert!(rt; now(rt, host) >= until);
}

/// The event is this moment or a later one.
fn is_moment_from(event: &Event, least: u64) -> bool {
    match event {
        Event::Moment(now) => now.0 >= least,
        _ => false,
    }
}

/// What the monotonic clock and the wall clock say, and the moment that comes then: by the wall clock, and from where that is set back at nine tenths
/// of the time that passes, until they meet.
const READINGS: [(u64, u64, u64); 9] = [
    (70_000, 5_000, 5_000),
    (71_000, 6_000, 6_000),
    (72_000, 1_000, 6_900),
    (73_000, 2_000, 7_800),
    (73_001, 2_001, 7_800),
    (74_000, 8_650, 8_700),
    (74_100, 8_800, 8_800),
    (75_000, 200_000_000_000_000, 99_999_999_999_999),
    (76_000, 10_000, 99_999_999_999_999),
];

#[test]
fn moments_go_on_where_the_clock_is_set(rt: HostRuntime) {
    let clock = SetClock {
        rt: &rt,
        monotonic: Cell::new(0),
        wall: Cell::new(0),
    };
    let mut live = Live::new(rt.alloc(), &clock, Vec::<u8>::new(rt.alloc()), true);
    for (monotonic, wall, moment) in READINGS {
        clock.monotonic.set(monotonic);
        clock.wall.set(wall);
        let event = live.next_event(rt.alloc(), Some(Ms(0)));
        assert!(&rt; event == Event::Moment(Ms(moment)));
    }
}
