//! Writes to a connection or a socket.

use super::Replay;
use super::room::one_more;
use crate::peer::Peer;
use resty_base::{Bytes, Id};
use resty_world::{Entry, Wrote};
use std::alloc::Global;

impl Replay {
    ghost use Rattle.std.specs.Prelude.{◌≡◌, ◌≢◌, ◌<◌, ◌+◌, ◌≤◌, Some, length, vec_len, vec_capacity};
    ghost use Rattle.resty_world.specs.Contract.{Puts};
    ghost use Rattle.schedule.specs.Aside.{rooms};
    ghost use Rattle.schedule.specs.Peers.{peer_at};
    ghost use Rattle.schedule.specs.ReplayBook.{book_of, IsLater};

    /// A write breaks, for which there is room in the history.
    pub(super) fn lose(&mut self, id: Id, peer: Peer, bytes: &[u8]) -> Wrote
        requires here { peer_at self.old.peers id ≡ Some peer }
        requires fails { 0 < peer.put_fails }
        requires room { rooms self.old.open_count self.old.aside self.old.spare + 1 ≤ self.old.history.room }
        ensures puts { Puts id bytes.now result (book_of self.old) (book_of self.new) }
        ensures later { IsLater self.old self.new }
    {
        let put_fails = peer.put_fails - 1;
        self.peers.set(id, Peer { put_fails, ..peer });
        self.losses = one_more(self.losses);
        self.history.push_reserved(Entry::Lost(id));
        Wrote::Broken
    }

    /// Puts a write off, for which there is room.
    pub(super) fn put_off(&mut self, id: Id, peer: Peer, bytes: &[u8]) -> Wrote
        requires here { peer_at self.old.peers id ≡ Some peer }
        requires works { peer.put_fails ≡ 0 }
        requires full { peer.room ≡ Some 0 }
        requires room { rooms self.old.open_count self.old.aside self.old.spare + 1 ≤ self.old.history.room }
        requires offer { vec_len self.old.offered < vec_capacity self.old.offered }
        ensures puts { Puts id bytes.now result (book_of self.old) (book_of self.new) }
        ensures later { IsLater self.old self.new }
    {
        self.offered.push_reserved(bytes.len());
        self.history.push_reserved(Entry::Later(id));
        Wrote::Later
    }

    /// Takes what there is room for, where there is some.
    pub(super) fn take(&mut self, alloc: Global, id: Id, peer: Peer, bytes: &[u8]) -> Wrote
        requires here { peer_at self.old.peers id ≡ Some peer }
        requires works { peer.put_fails ≡ 0 }
        requires free { peer.room ≢ Some 0 }
        requires piece { 0 < length bytes.now }
        requires room { rooms self.old.open_count self.old.aside self.old.spare + 1 ≤ self.old.history.room }
        requires offer { vec_len self.old.offered < vec_capacity self.old.offered }
        ensures puts { Puts id bytes.now result (book_of self.old) (book_of self.new) }
        ensures later { IsLater self.old self.new }
    {
        let count = peer.takes(bytes.len());
        let Ok(copy) = Bytes::copy_from_slice(alloc, &bytes[..count]) else {
            return Wrote::Memory;
        };
        self.peers.set(id, peer.having_taken(count));
        self.offered.push_reserved(bytes.len());
        self.history.push_reserved(Entry::Put(id, copy));
        Wrote::Took(count)
    }
}
