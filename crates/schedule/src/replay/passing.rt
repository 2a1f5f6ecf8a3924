//! Passing lines, and giving their events.

use super::Replay;
use super::giving::given_twice;
use super::room::{make_way, one_more};
use crate::ahead::Ahead;
use crate::peer::Peer;
use resty_base::{Id, StrandId};
use resty_world::{Entry, Event, SchedLine};
use std::alloc::AllocError;

impl Replay {
    ghost use Rattle.std.specs.Prelude.{◌≡◌, ◌<◌, ◌+◌, ◌≤◌, slice_get, Some, take, false, length, OnOk};
    ghost use Rattle.resty_world.specs.declared.schedule_line.SchedLine.TheVariants.{Given, Room, FailPut};
    ghost use Rattle.resty_world.specs.Given.{Gave, named_id};
    ghost use Rattle.schedule_text.specs.Fitting.{Fits, IsSchedule};
    ghost use Rattle.schedule.specs.Ahead.{ahead_of, is_absent};
    ghost use Rattle.schedule.specs.Aside.{rooms};
    ghost use Rattle.schedule.specs.OpenIds.{hung_up};
    ghost use Rattle.schedule.specs.Steps.{is_skipped};
    ghost use Rattle.schedule.specs.ReplayBook.{book_of, IsReady, IsQuietTo, IsPast, IsLater, HasAnswered};

    /// Passes the lines up to this index, which give no event.
    pub(super) fn pass_to(&mut self, index: usize)
        requires below { self.old.passed ≤ index }
        requires quiet { IsQuietTo self.old index }
        ensures past { IsPast self.old self.new }
        ensures there { self.new.passed ≡ index }
    {
        while self.passed < index {
            self.pass_quiet();
        }
    }

    /// Passes the next line, which gives no event: a setting takes effect, another line has none.
    fn pass_quiet(&mut self)
        requires { ahead_of self.old.history.entries (slice_get self.old.course self.old.passed) ≡ Ahead.Quiet }
        ensures past { IsPast self.old self.new }
        ensures one { self.new.passed ≡ self.old.passed + 1 }
    {
        match *self.course.line(self.passed) {
            SchedLine::Room(id, room) => self.pass_room(id, room),
            SchedLine::FailPut(id) => self.pass_fail_put(id),
            SchedLine::FailDial => {
                self.dial_fails = one_more(self.dial_fails);
                self.passed += 1;
            }
            SchedLine::FailLog => {
                self.log_fails = one_more(self.log_fails);
                self.passed += 1;
            }
            SchedLine::Given(_) => self.passed += 1,
            SchedLine::FailListen => self.passed += 1,
            SchedLine::FailNext => unreachable!(),
        }
    }

    /// Passes a line that lets the id take so many bytes more.
    fn pass_room(&mut self, id: Id, room: Option<u64>)
        requires here { slice_get self.old.course self.old.passed ≡ Some (Room id room) }
        requires there { is_absent self.old.history.entries (Some id) ≡ false }
        ensures past { IsPast self.old self.new }
        ensures one { self.new.passed ≡ self.old.passed + 1 }
    {
        let Some(peer) = self.peers.get(id) else {
            unreachable!()
        };
        self.peers.set(id, Peer { room, ..peer });
        self.passed += 1;
    }

    /// Passes a line that makes a write to the id fail.
    fn pass_fail_put(&mut self, id: Id)
        requires here { slice_get self.old.course self.old.passed ≡ Some (FailPut id) }
        requires there { is_absent self.old.history.entries (Some id) ≡ false }
        ensures past { IsPast self.old self.new }
        ensures one { self.new.passed ≡ self.old.passed + 1 }
    {
        let Some(peer) = self.peers.get(id) else {
            unreachable!()
        };
        let put_fails = one_more(peer.put_fails);
        self.peers.set(id, Peer { put_fails, ..peer });
        self.passed += 1;
    }

    /// Passes a line that makes the event that is asked for a fault.
    pub(super) fn fail_next(&mut self) -> Event
        requires { ahead_of self.old.history.entries (slice_get self.old.course self.old.passed) ≡ Ahead.Fault }
        ensures gave { Gave (book_of self.old) (book_of self.new) result }
        ensures answered { HasAnswered self.old self.new }
    {
        self.faults = one_more(self.faults);
        self.passed += 1;
        Event::Fault
    }

    /// Fails where an event is asked for after the last line.
    pub(super) fn fail_at_end(&mut self) -> Event
        requires whole { IsSchedule self.old.course }
        requires end { self.old.passed ≡ length self.old.course }
        ensures gave { Gave (book_of self.old) (book_of self.new) result }
        ensures answered { HasAnswered self.old self.new }
    {
        self.faults = one_more(self.faults);
        Event::Fault
    }

    /// Gives the event of the line at this index, where the lines before it give none. Out of memory, nothing is passed.
    pub(super) fn give(&mut self, index: usize) -> Event
        requires below { self.old.passed ≤ index }
        requires quiet { IsQuietTo self.old index }
        requires due { ahead_of self.old.history.entries (slice_get self.old.course index) ≡ Ahead.Due }
        ensures gave { Gave (book_of self.old) (book_of self.new) result }
        ensures later { IsLater self.old self.new }
    {
        let Ok((given, kept)) = given_twice(self.course.line(index)) else {
            return Event::Memory;
        };
        if self.make_ready().is_err() {
            return Event::Memory;
        }
        self.pass_to(index);
        self.give_next(given, kept)
    }

    /// Makes room for any event.
    fn make_ready(&mut self) -> Result<(), AllocError>
        ensures ready { OnOk result (IsReady self.new) }
        ensures book { book_of self.new ≡ book_of self.old }
        ensures course { self.new.course ≡ self.old.course }
        ensures entries { self.new.history.entries ≡ self.old.history.entries }
        ensures later { IsLater self.old self.new }
    {
        let taken = self.set_aside();
        let ahead = self.course.len() - self.passed;
        make_way(&mut self.history, taken, 3, ahead)?;
        self.aside.reserve(self.spare + 1)?;
        self.peers.make_way()
    }

    /// Gives the event of the next line, for which there is room.
    fn give_next(&mut self, given: Event, kept: Event) -> Event
        requires ready { IsReady self.old }
        requires copy { kept ≡ given }
        requires here { slice_get self.old.course self.old.passed ≡ Some (Given given) }
        requires fits { Fits (take self.old.passed self.old.course) (Given given) }
        requires there { is_absent self.old.history.entries (named_id (Given given)) ≡ false }
        requires due { is_skipped self.old.history.entries (Given given) ≡ false }
        ensures gave { Gave (book_of self.old) (book_of self.new) result }
        ensures answered { HasAnswered self.old self.new }
    {
        match given {
            Event::Arrive(number) => self.give_arrival(number, kept),
            Event::Ended(id) => self.give_end(id, kept),
            Event::Broken(id) => self.give_break(id, kept),
            other => {
                self.history.push_reserved(Entry::Given(kept));
                self.passed += 1;
                other
            }
        }
    }

    /// Gives an arrival, for which there is room in the history.
    fn give_arrival(&mut self, number: u64, kept: Event) -> Event
        requires ready { IsReady self.old }
        requires copy { kept ≡ Event.Arrive number }
        requires here { slice_get self.old.course self.old.passed ≡ Some (Given (Event.Arrive number)) }
        requires next { number ≡ length self.old.peers.connections + 1 }
        ensures gave { Gave (book_of self.old) (book_of self.new) result }
        ensures answered { HasAnswered self.old self.new }
    {
        self.peers.add_connection();
        self.open_count += 1;
        self.aside.add(StrandId::Conn(number));
        self.history.push_reserved(Entry::Given(kept));
        self.passed += 1;
        Event::Arrive(number)
    }

    /// Gives the end of an id, for which there is room in the history.
    fn give_end(&mut self, id: Id, kept: Event) -> Event
        requires room { rooms self.old.open_count self.old.aside self.old.spare + 1 ≤ self.old.history.room }
        requires copy { kept ≡ Event.Ended id }
        requires here { slice_get self.old.course self.old.passed ≡ Some (Given (Event.Ended id)) }
        requires there { is_absent self.old.history.entries (Some id) ≡ false }
        requires due { hung_up self.old.history.entries id ≡ false }
        ensures gave { Gave (book_of self.old) (book_of self.new) result }
        ensures answered { HasAnswered self.old self.new }
    {
        let Some(peer) = self.peers.get(id) else {
            unreachable!()
        };
        let has_ended = true;
        self.peers.set(id, Peer { has_ended, ..peer });
        self.history.push_reserved(Entry::Given(kept));
        self.passed += 1;
        Event::Ended(id)
    }

    /// Gives the break of an id, for which there is room in the history.
    fn give_break(&mut self, id: Id, kept: Event) -> Event
        requires room { rooms self.old.open_count self.old.aside self.old.spare + 1 ≤ self.old.history.room }
        requires copy { kept ≡ Event.Broken id }
        requires here { slice_get self.old.course self.old.passed ≡ Some (Given (Event.Broken id)) }
        requires there { is_absent self.old.history.entries (Some id) ≡ false }
        requires due { hung_up self.old.history.entries id ≡ false }
        ensures gave { Gave (book_of self.old) (book_of self.new) result }
        ensures answered { HasAnswered self.old self.new }
    {
        let Some(peer) = self.peers.get(id) else {
            unreachable!()
        };
        let has_ended = true;
        self.peers.set(id, Peer { has_ended, ..peer });
        self.losses = one_more(self.losses);
        self.history.push_reserved(Entry::Given(kept));
        self.passed += 1;
        Event::Broken(id)
    }
}
