//! The engine: a step takes an event of the world, with all turns that follow.

use crate::events;
use engine_turns::Turns;
use resty_base::Ms;
use resty_world::{Event, World};
use std::alloc::Global;
use strand_contract::StrandContract;

/// The strands that live, the threads that are to run, the places that are to be offered, and the deadlines that are armed.
#[derive(Drop)]
pub struct Engine<S> {
    turns: Turns<S>,
}

/// What a step came to.
#[derive(Clone, Copy, Debug, PartialEq, Eq)]
pub enum Stepped {
    /// The next event may come.
    Went,
    /// The event was Stop.
    Stopped,
    /// A log line of this step wasn't written.
    LogFailed,
}

impl<S: StrandContract> Engine<S> {
    ghost use Rattle.std.specs.Prelude.{◌≡◌, option_map};
    ghost use Rattle.resty_world.specs.Book.{Book};
    ghost use Rattle.engine_tables.specs.Agenda.{first_moment};
    ghost use Rattle.engine_base.specs.Right.{IsFresh};
    ghost use Rattle.engine.specs.Stepping.{Steps, Goes};
    ghost use Rattle.engine.specs.Engine.{Rests, IsGiven};

    /// No strands, at the moment 0; takes no memory.
    pub fn new(alloc: Global) -> Engine<S>
        ensures { (site : S.Site) (book : Book) → IsFresh book → Rests (S.meaning site) result book }
    {
        Engine {
            turns: Turns::new(alloc),
        }
    }

    /// The moment of the deadline that comes first.
    pub fn earliest(&self) -> Option<Ms>
        ensures { option_map (λ at. at.0) result ≡ first_moment self.now.turns.agenda }
    {
        self.turns.agenda.earliest()
    }

    /// Takes what the world gave, with all turns that follow.
    pub fn step<W: World>(&mut self, site: &S::Site, event: Event, world: &mut W) -> Stepped
        requires { IsGiven (S.meaning site.now) self.old (W.book world.old) event }
        ensures rests { Rests (S.meaning site.now) self.new (W.book world.new) }
        ensures goes { Goes W.same W.book world.old world.new }
        ensures stepped { Steps event (W.book world.old) (W.book world.new) result }
    {
        self.turns.log_failed = false;
        let is_stop = events::take(&mut self.turns, site, event, world);
        self.turns.settle(site, world);
        if self.turns.log_failed {
            Stepped::LogFailed
        } else if is_stop {
            Stepped::Stopped
        } else {
            Stepped::Went
        }
    }
}
