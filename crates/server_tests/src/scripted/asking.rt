//! A world that keeps until when it was asked for events.
use resty_base::{Id, Ms, StrandId};
use resty_world::{Dial, Entry, Event, History, Listened, Logged, Noted, World, Wrote};
use schedule::{Replay, Schedule};
use std::alloc::{AllocError, Global};

/// A replay, and for each event the moment until which it might wait, `-` where none was given; a space after each.
#[derive(Drop)]
pub(crate) struct Asking {
    world: Replay,
    asked: String,
}

impl Asking {
    ghost use Rattle.std.specs.Prelude.{◌≡◌};
    ghost use Rattle.schedule_text.specs.Fitting.{IsSchedule};
    ghost use Rattle.schedule.specs.ReplayBook.{book_of, IsFresh};

    /// The world that goes by this schedule; it wasn't asked yet.
    pub(crate) fn new(alloc: Global, schedule: Schedule) -> Asking
        requires { IsSchedule schedule }
        ensures { IsFresh schedule (book_of result.world) }
    {
        Asking {
            world: Replay::new(alloc, schedule),
            asked: String::new(alloc),
        }
    }

    /// Until when it was asked.
    pub(crate) fn asked(&self) -> &str {
        self.asked.as_str()
    }

    /// Keeps until when an event was asked for.
    fn keep(&mut self, alloc: Global, until: Option<Ms>) -> Result<(), AllocError>
        ensures { self.new.world ≡ self.old.world }
    {
        match until {
            Some(Ms(moment)) => self
                .asked
                .push_str(format!(in alloc; "{moment} ")?.as_str()),
            None => self.asked.push_str("- "),
        }
    }
}

impl World for Asking {
    ghost use Rattle.schedule.specs.ReplayBook.{book_of, IsLater};
    ghost use Rattle.schedule.specs.ReplayLaws.{IsLater-same, IsLater-joins};

    ghost book = { λ asking. book_of asking.world };

    ghost same = { λ before now. IsLater before.world now.world };

    ghost stays = { λ a. IsLater-same a.world };

    ghost joins = { λ a b c. IsLater-joins a.world b.world c.world };

    fn listen(&mut self, alloc: Global, port: u16) -> Listened {
        self.world.listen(alloc, port)
    }

    fn next_event(&mut self, alloc: Global, until: Option<Ms>) -> Event {
        let _ = self.keep(alloc, until);
        self.world.next_event(alloc, until)
    }

    fn wants(&mut self, id: Id, wanted: bool) {
        self.world.wants(id, wanted)
    }

    fn put_bytes(&mut self, alloc: Global, id: Id, bytes: &[u8]) -> Wrote {
        self.world.put_bytes(alloc, id, bytes)
    }

    fn dial(&mut self, alloc: Global, who: StrandId, host: [u8; 4], port: u16) -> Dial {
        self.world.dial(alloc, who, host, port)
    }

    fn hang_up(&mut self, id: Id) {
        self.world.hang_up(id)
    }

    fn forget(&mut self, who: StrandId) {
        self.world.forget(who)
    }

    fn write_log(&mut self, alloc: Global, who: StrandId, line: &[u8]) -> Logged {
        self.world.write_log(alloc, who, line)
    }

    fn make_room(&mut self, alloc: Global) -> Noted {
        self.world.make_room(alloc)
    }

    fn note(&mut self, entry: Entry) -> Option<Entry> {
        self.world.note(entry)
    }

    fn history(&self) -> Option<&History> {
        Some(self.world.history())
    }
}
