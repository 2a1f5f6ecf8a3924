//! The connections that arrived and the sockets that were dialled.

ghost use Rattle.std.specs.Prelude.{◌≡◌};
ghost use Rattle.schedule.specs.Peers.{numbered};

use crate::peer::Peer;
use resty_base::Id;
use std::alloc::{AllocError, Global};
use std::marker::Model;

/// The connections that arrived and the sockets that were dialled, each found by its number.
#[derive(Drop)]
pub struct Peers {
    connections: Vec<Peer>,
    sockets: Vec<Peer>,
}

impl Model for Peers {
    ghost use Rattle.std.specs.Prelude.{◌-◌, vec_len, vec_capacity};
    ghost use Rattle.schedule.specs.Peers.{Roll};

    ghost Value = { Roll };

    ghost view = { λ peers. record {
      connections = peers.connections.items;
      sockets = peers.sockets.items;
      free = vec_capacity peers.connections - vec_len peers.connections;
    } };
}

impl Peers {
    ghost use Rattle.std.specs.Prelude.{◌≡◌, ◌+◌, ◌<◌, length, Some, None, OnOk, OnErr, IsSome};
    ghost use Rattle.resty_base.specs.declared.names.Id.{Id};
    ghost use Rattle.resty_base.specs.declared.names.Id.TheVariants.{Conn, Sock};
    ghost use Rattle.schedule.specs.Peers.{peer_at, fresh, unended, IsChanged};

    /// Nobody; takes no memory.
    pub fn new(alloc: Global) -> Peers
        ensures nobody { (x : Id) → peer_at result x ≡ None }
        ensures connections { length result.connections ≡ 0 }
        ensures sockets { length result.sockets ≡ 0 }
    {
        Peers {
            connections: Vec::new(alloc),
            sockets: Vec::new(alloc),
        }
    }

    /// How many connections arrived.
    pub fn connections(&self) -> u64
        ensures { result ≡ length self.now.connections }
    {
        self.connections.len() as u64
    }

    /// How many sockets were dialled.
    pub fn sockets(&self) -> u64
        ensures { result ≡ length self.now.sockets }
    {
        self.sockets.len() as u64
    }

    /// What is kept of the id, none where it was never there.
    pub fn get(&self, id: Id) -> Option<Peer>
        ensures { result ≡ peer_at self.now id }
    {
        match id {
            Id::Conn(number) => numbered(self.connections.as_slice(), number),
            Id::Sock(number) => numbered(self.sockets.as_slice(), number),
        }
    }

    /// Keeps this of an id that is there.
    pub fn set(&mut self, id: Id, peer: Peer)
        requires { IsSome (peer_at self.old id) }
        ensures set { IsChanged id (Some peer) self.old self.new }
        ensures connections { length self.new.connections ≡ length self.old.connections }
        ensures sockets { length self.new.sockets ≡ length self.old.sockets }
        ensures free { self.new.free ≡ self.old.free }
    {
        match id {
            Id::Conn(number) => self.connections[number as usize - 1] = peer,
            Id::Sock(number) => self.sockets[number as usize - 1] = peer,
        }
    }

    /// Forgets that the id ended, if it is there.
    pub fn forget_end(&mut self, id: Id)
        ensures forgotten { IsChanged id (unended (peer_at self.old id)) self.old self.new }
        ensures connections { length self.new.connections ≡ length self.old.connections }
        ensures sockets { length self.new.sockets ≡ length self.old.sockets }
        ensures free { self.new.free ≡ self.old.free }
    {
        if let Some(peer) = self.get(id) {
            let has_ended = false;
            self.set(id, Peer { has_ended, ..peer });
        }
    }

    /// Makes way for the next connection.
    pub fn make_way(&mut self) -> Result<(), AllocError>
        ensures connections { self.new.connections ≡ self.old.connections }
        ensures sockets { self.new.sockets ≡ self.old.sockets }
        ensures ok { OnOk result (0 < self.new.free) }
    {
        self.connections.reserve(1)
    }

    /// Adds the next connection, for which there is room.
    pub fn add_connection(&mut self)
        requires { 0 < self.old.free }
        ensures added { IsChanged (Conn (length self.old.connections + 1)) (Some fresh) self.old self.new }
        ensures connections { length self.new.connections ≡ length self.old.connections + 1 }
        ensures sockets { length self.new.sockets ≡ length self.old.sockets }
    {
        self.connections.push_reserved(Peer::new());
    }

    /// Adds the next socket.
    pub fn add_socket(&mut self) -> Result<(), AllocError>
        ensures added { OnOk result (IsChanged (Sock (length self.old.sockets + 1)) (Some fresh) self.old self.new) }
        ensures connections { OnOk result (length self.new.connections ≡ length self.old.connections) }
        ensures sockets { OnOk result (length self.new.sockets ≡ length self.old.sockets + 1) }
        ensures err { OnErr result (self.new ≡ self.old) }
    {
        self.sockets.reserve(1)?;
        self.sockets.push_reserved(Peer::new());
        Ok(())
    }
}

/// The element of that number, from 1.
fn numbered(peers: &[Peer], number: u64) -> Option<Peer>
    ensures { result ≡ numbered peers.now number }
{
    let index = (number as usize).checked_sub(1)?;
    peers.get(index).copied()
}
