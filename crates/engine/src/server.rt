//! Serving a world: its events, one after another, until Stop or a fault.

ghost use Rattle.std.specs.Prelude.{◌≡◌, IfSome};
ghost use Rattle.engine_base.specs.Right.{IsFresh, IsRight};
ghost use Rattle.engine.specs.Endings.{EndsBy, HasAtMost};

use crate::{Engine, Stepped};
use resty_world::{Event, World};
use std::alloc::Global;
use strand_contract::StrandContract;

/// How serving ended.
#[derive(Clone, Copy, Debug, PartialEq, Eq)]
pub enum Ended {
    /// Stop was given.
    Stopped,
    /// So many events were given, none of which was Stop.
    Spent(u64),
    /// The world failed, or a log line wasn't written.
    WorldFault,
    /// This line of the world's schedule names an id that was never there.
    BadLine(u64),
    /// Out of memory.
    Memory,
}

/// Serves at most so many events of a world at which nothing has happened.
pub fn serve<S: StrandContract, W: World>(
    alloc: Global,
    site: S::Site,
    world: &mut W,
    events: u64,
) -> Ended
    requires { IsFresh (W.book world.old) }
    ensures right { IsRight (S.meaning site).behavior (W.book world.new) }
    ensures few { IfSome (W.book world.new).history (HasAtMost events) }
    ensures ended { EndsBy events (W.book world.old) (W.book world.new) result }
    ensures port { (W.book world.new).port ≡ (W.book world.old).port }
    ensures same { W.same world.old world.new }
{
    let mut engine: Engine<S> = Engine::new(alloc);
    let mut given: u64 = 0;
    while given < events {
        match world.next_event(alloc, engine.earliest()) {
            Event::Fault => return Ended::WorldFault,
            Event::BadLine(line) => return Ended::BadLine(line),
            Event::Memory => return Ended::Memory,
            event => match engine.step(&site, event, world) {
                Stepped::LogFailed => return Ended::WorldFault,
                Stepped::Stopped => return Ended::Stopped,
                Stepped::Went => given += 1,
            },
        }
    }
    Ended::Spent(events)
}
