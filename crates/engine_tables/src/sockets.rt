//! The sockets that strands hold.

ghost use Rattle.std.specs.Prelude.{◌≡◌, [], slice_get, Option, Some, None, option_map, OnOk, OnErr};
ghost use Rattle.strand_contract.specs.declared.turns.Place.{Place};
ghost use Rattle.executions.specs.Queues.{only, without_first};
ghost use Rattle.executions.specs.Sockets.{got, without_held, holder_in};
ghost use Rattle.engine_tables.specs.Sockets.{meant, held_at};

use crate::numbered::Numbered;
use crate::places::Places;
use indexmap::IndexMap;
use resty_base::StrandId;
use std::alloc::{AllocError, Global};
use std::marker::Model;

/// A socket that a strand holds: its place by the strand's own count, its number, and how often it was taken.
#[derive(Clone, Copy, Debug, PartialEq, Eq)]
pub struct Socket {
    pub at: u32,
    pub sock: u64,
    pub uses: u32,
}

/// The sockets that strands hold, as they were got, and the strand for whose next one room is set aside. A call's time doesn't grow with
/// the sockets of other strands.
#[derive(Drop)]
pub struct Sockets {
    held: Numbered<(StrandId, Socket)>,
    places: Places,
    owners: IndexMap<u64, (StrandId, u32)>,
    room: Option<StrandId>,
}

impl Model for Sockets {
    ghost use Rattle.std.specs.Prelude.{nat_eq, IfSome};
    ghost use Rattle.indexmap.specs.IndexMap.{get, spare};
    ghost use Rattle.engine_tables.specs.Places.{places_of, room_for};
    ghost use Rattle.engine_tables.specs.Held.{HeldSockets, IsHeld, HasRoom, sockets_in};

    ghost Value = { HeldSockets };

    ghost view = { λ s. record { sockets = sockets_in s.held.entries; room = s.room } };

    ghost invariant = { λ s. IsHeld s.held.entries (places_of s.places) (get nat_eq s.owners)
        × IfSome s.room (λ who. HasRoom s.held.room (room_for s.places who) (spare s.owners)) };
}

impl Sockets {
    /// No socket; takes no memory.
    pub fn new(alloc: Global) -> Sockets
        ensures { result ≡ record { sockets = []; room = None } }
    {
        Sockets {
            held: Numbered::new(alloc),
            places: Places::new(alloc),
            owners: IndexMap::new(alloc),
            room: None,
        }
    }

    /// Sets room aside for one more socket of a strand.
    pub fn reserve(&mut self, who: StrandId) -> Result<(), AllocError>
        ensures done { OnOk result (self.new ≡ record self.old { room = Some who }) }
        ensures refused { OnErr result (self.new ≡ record self.old { room = None }) }
    {
        self.room = None;
        self.held.reserve()?;
        self.places.reserve(who)?;
        self.owners.reserve(1)?;
        self.room = Some(who);
        Ok(())
    }

    /// A strand gets a socket, that it dialled or took: at a place where it has none, and of a number that no strand holds.
    pub fn open(&mut self, who: StrandId, socket: Socket)
        requires room { self.old.room ≡ Some who }
        requires place { held_at who socket.at self.old.sockets ≡ None }
        requires number { holder_in socket.sock self.old.sockets ≡ None }
        ensures { self.new ≡ record { sockets = got who socket.at (Some socket.sock) socket.uses self.old.sockets; room = None } }
    {
        self.room = None;
        let number = self.held.push((who, socket));
        self.places.put(who, socket.at, number);
        let _was = self.owners.insert(socket.sock, (who, socket.at));
    }

    /// The socket at a strand's place.
    pub fn at(&self, who: StrandId, place: u32) -> Option<Socket>
        ensures { option_map meant result ≡ held_at who place self.now.sockets }
    {
        let number = self.places.number(who, place)?;
        let held = self.held.get(number)?;
        Some(held.1)
    }

    /// Who holds the socket of a number, and at which place.
    pub fn owner(&self, sock: u64) -> Option<(StrandId, u32)>
        ensures { result ≡ holder_in sock self.now.sockets }
    {
        let owner = self.owners.get(&sock)?;
        Some(*owner)
    }

    /// Takes the socket at a strand's place out: it is closed or kept.
    pub fn close(&mut self, who: StrandId, place: u32) -> Option<Socket>
        ensures socket { option_map meant result ≡ held_at who place self.old.sockets }
        ensures left { self.new ≡ record { sockets = without_held who (Place.Sock place) self.old.sockets; room = None } }
    {
        self.room = None;
        let number = self.places.take(who, place)?;
        let (_, socket) = self.held.take(number)?;
        let _owner = self.owners.swap_remove(&socket.sock);
        Some(socket)
    }

    /// Takes the socket out that a strand got first of those that it holds: so those of a dropped strand are closed in turn.
    pub fn close_first(&mut self, who: StrandId) -> Option<Socket>
        ensures socket { option_map meant result ≡ slice_get (only who self.old.sockets) 0 }
        ensures left { self.new ≡ record { sockets = without_first who self.old.sockets; room = None } }
    {
        self.room = None;
        let Some(place) = self.places.first(who) else {
            self.places.forget(who);
            return None;
        };
        self.close(who, place)
    }
}
