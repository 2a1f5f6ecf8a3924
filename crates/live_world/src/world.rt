//! The live world as a world.

use crate::live::{Live, token_of};
use crate::log::write_whole;
use crate::sockets::{Failure, Sockets};
use resty_base::{Id, Ms, StrandId};
use resty_world::{Dial, Entry, Event, History, Listened, Logged, Noted, World, Wrote};
use std::alloc::{AllocError, Global};
use std::io::Write;
use std::net::Net;
use std::time::Clock;

impl<R: Net + Clock, W: Write> World for Live<'_, R, W> {
    ghost use Rattle.live_world.specs.Accounts.{book_of};

    ghost book = { λ live. book_of live.accounts };

    ghost same = { λ _ _. Unit {0} };

    ghost stays = { λ _. tt };

    ghost joins = { λ _ _ _ _ _. tt };

    fn listen(&mut self, alloc: Global, port: u16) -> Listened {
        let listening = if self.may_listen {
            Sockets::listen(self.rt, alloc, port)
        } else {
            Err(Failure::Failed)
        };
        match listening {
            Ok(sockets) => {
                let _ = self.sockets.insert(sockets);
                self.accounts.listens(port);
                Listened::Up
            }
            Err(Failure::Failed) => {
                self.accounts.listens_in_vain();
                Listened::Failed
            }
            Err(Failure::Memory) => Listened::Memory,
        }
    }

    fn next_event(&mut self, alloc: Global, until: Option<Ms>) -> Event {
        for _ in 0..u64::MAX {
            let Some(event) = self.turn(alloc, until) else {
                continue;
            };
            if let Some(event) = self.accounts.gives(event) {
                return event;
            }
        }
        self.accounts.faults_at_end()
    }

    fn wants(&mut self, id: Id, wanted: bool) {
        if let (Some(sockets), Some(token)) = (&mut self.sockets, token_of(id)) {
            sockets.want(token, wanted);
        }
    }

    fn put_bytes(&mut self, _alloc: Global, id: Id, bytes: &[u8]) -> Wrote {
        let answer = self.write(id, bytes);
        self.accounts.wrote(answer);
        answer
    }

    fn dial(&mut self, _alloc: Global, _who: StrandId, host: [u8; 4], port: u16) -> Dial {
        match self.connect(host, port) {
            Ok(()) => self.accounts.dials(),
            Err(Failure::Failed) => {
                self.accounts.dials_in_vain();
                Dial::Failed
            }
            Err(Failure::Memory) => Dial::Memory,
        }
    }

    fn hang_up(&mut self, id: Id) {
        self.accounts.hang_up(id);
        let now = self.now();
        if let (Some(sockets), Some(token)) = (&mut self.sockets, token_of(id)) {
            sockets.close(token, now);
        }
    }

    fn forget(&mut self, who: StrandId) {
        self.accounts.forget(who);
    }

    fn write_log(&mut self, alloc: Global, _who: StrandId, line: &[u8]) -> Logged {
        let Ok(text) = line_of(alloc, line) else {
            return Logged::Memory;
        };
        if !write_whole(self.rt, &mut self.log, text.as_slice()) {
            self.accounts.logs_in_vain();
            return Logged::Failed;
        }
        Logged::Done
    }

    fn make_room(&mut self, _alloc: Global) -> Noted {
        self.accounts.make_room()
    }

    fn note(&mut self, entry: Entry) -> Option<Entry> {
        self.accounts.note(&entry);
        Some(entry)
    }

    fn history(&self) -> Option<&History> {
        None
    }
}

/// The line, with its end.
fn line_of(alloc: Global, line: &[u8]) -> Result<Vec<u8>, AllocError> {
    let mut text = line.to_vec(alloc)?;
    text.push(b'\n')?;
    Ok(text)
}
