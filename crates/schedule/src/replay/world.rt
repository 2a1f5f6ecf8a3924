//! The replay as a world.

use super::Replay;
use super::room::{make_way, one_more, room_taken};
use crate::ahead::Ahead;
use resty_base::{Bytes, Id, Ms, StrandId};
use resty_world::{Dial, Entry, Event, History, Listened, Logged, Noted, World, Wrote};
use std::alloc::Global;

impl World for Replay {
    ghost use Rattle.schedule.specs.ReplayBook.{book_of, IsLater};
    ghost use Rattle.schedule.specs.ReplayLaws.{IsLater-same, IsLater-joins};

    ghost book = { book_of };

    ghost same = { IsLater };

    ghost stays = { IsLater-same };

    ghost joins = { IsLater-joins };

    fn listen(&mut self, _alloc: Global, port: u16) -> Listened {
        if self.listen_fails {
            self.listen_fails = false;
            self.faults = one_more(self.faults);
            return Listened::Failed;
        }
        self.port = Some(port);
        Listened::Up
    }

    fn next_event(&mut self, _alloc: Global, _until: Option<Ms>) -> Event {
        let index = self.answering();
        match self.ahead(index) {
            Ahead::Due => self.give(index),
            Ahead::Absent => {
                self.pass_to(index);
                Event::BadLine(index as u64 + 1)
            }
            Ahead::Fault => {
                self.pass_to(index);
                self.fail_next()
            }
            Ahead::Nothing => {
                self.pass_to(index);
                self.fail_at_end()
            }
            Ahead::Quiet => unreachable!(),
        }
    }

    fn wants(&mut self, _id: Id, _wanted: bool) {}

    fn put_bytes(&mut self, alloc: Global, id: Id, bytes: &[u8]) -> Wrote {
        let Some(peer) = self.peers.get(id) else {
            unreachable!()
        };
        let taken = self.set_aside();
        if make_way(&mut self.history, taken, 1, 0).is_err() || self.offered.reserve(1).is_err() {
            return Wrote::Memory;
        }
        if peer.put_fails > 0 {
            return self.lose(id, peer, bytes);
        }
        match peer.room {
            Some(0) => self.put_off(id, peer, bytes),
            _ => self.take(alloc, id, peer, bytes),
        }
    }

    fn dial(&mut self, _alloc: Global, who: StrandId, host: [u8; 4], port: u16) -> Dial {
        let Some(number) = self.peers.sockets().checked_add(1) else {
            return Dial::Memory;
        };
        let taken = self.set_aside();
        if make_way(&mut self.history, taken, 2, 0).is_err() {
            return Dial::Memory;
        }
        if self.dial_fails > 0 {
            self.dial_fails -= 1;
            self.losses = one_more(self.losses);
            self.history
                .push_reserved(Entry::Dial(who, host, port, None));
            return Dial::Failed;
        }
        if self.peers.add_socket().is_err() {
            return Dial::Memory;
        }
        self.history
            .push_reserved(Entry::Dial(who, host, port, Some(number)));
        self.open_count += 1;
        Dial::Started(number)
    }

    fn hang_up(&mut self, id: Id) {
        let Some(peer) = self.peers.get(id) else {
            unreachable!()
        };
        self.peers.set(id, peer.hung_up(id));
        self.history.push_reserved(Entry::Close(id));
        self.open_count -= 1;
    }

    fn forget(&mut self, who: StrandId) {
        self.aside.remove(who);
        if let StrandId::Conn(number) = who {
            self.peers.forget_end(Id::Conn(number));
        }
    }

    fn write_log(&mut self, alloc: Global, who: StrandId, line: &[u8]) -> Logged {
        let taken = self.set_aside();
        if make_way(&mut self.history, taken, 1, 0).is_err() {
            return Logged::Memory;
        }
        let Ok(copy) = Bytes::copy_from_slice(alloc, line) else {
            return Logged::Memory;
        };
        if self.log_fails > 0 {
            self.log_fails -= 1;
            self.faults = one_more(self.faults);
            self.history.push_reserved(Entry::Log(who, copy, false));
            return Logged::Failed;
        }
        self.history.push_reserved(Entry::Log(who, copy, true));
        Logged::Done
    }

    fn make_room(&mut self, _alloc: Global) -> Noted {
        if self.spare > 0 {
            return Noted::Done;
        }
        let taken = self.set_aside();
        if make_way(&mut self.history, taken, 2, 0).is_err() || self.aside.reserve(1).is_err() {
            return Noted::Memory;
        }
        self.spare = 1;
        Noted::Done
    }

    fn note(&mut self, entry: Entry) -> Option<Entry> {
        self.spare -= room_taken(&entry);
        self.aside.note(&entry);
        self.history.push_reserved(entry);
        None
    }

    fn history(&self) -> Option<&History> {
        Some(&self.history)
    }
}
