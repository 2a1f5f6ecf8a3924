//! The trait of a world: what happens, what is done, and what it adds to the history.

use crate::{Dial, Entry, Event, History, Listened, Logged, Noted, Wrote};
use resty_base::{Id, Ms, StrandId};
use std::alloc::Global;

/// The outside. It may report its history; it counts its faults and its losses.
///
/// For each open id, and for each strand that lives, the world sets room aside in its history for one later entry, so
/// that hanging up and giving up take no memory.
pub trait World {
    ghost use Rattle.std.specs.Prelude.{◌≡◌, ◌<◌, ℕ, true, false, length};
    ghost use Rattle.std.specs.Option.{option_map};
    ghost use Rattle.resty_base.specs.declared.names.Id.{Id};
    ghost use Rattle.resty_world.specs.Book.{Book};
    ghost use Rattle.resty_world.specs.Calls.{HasRoom, is_noted, uses_aside};
    ghost use Rattle.resty_world.specs.Contract.{Listens, Puts, Dials, HangsUp, Forgets, Logs, MakesRoom, Notes};
    ghost use Rattle.resty_world.specs.Given.{Gave};
    ghost use Rattle.resty_world.specs.Ids.{is_own};

    /// What contracts see of a world.
    ghost book: { Self → Book };

    /// The second is the first, some calls later.
    ghost same: { Self → Self → Type 0 };

    /// Listens on the port of the loopback address.
    fn listen(&mut self, alloc: Global, port: u16) -> Listened
        ensures listens { Listens port result (book self.old) (book self.new) }
        ensures same { same self.old self.new };

    /// The next event; the world may wait for one until the given moment.
    fn next_event(&mut self, alloc: Global, until: Option<Ms>) -> Event
        ensures gave { Gave (book self.old) (book self.new) result }
        ensures same { same self.old self.new };

    /// Says whether bytes of the id are wanted, as they are until this is called. It's a hint, which changes nothing that
    /// is reported: a live world doesn't read an id whose bytes aren't wanted.
    fn wants(&mut self, id: Id, wanted: bool)
        requires is_open { (book self.old).is_open id ≡ true }
        ensures book { book self.new ≡ book self.old }
        ensures same { same self.old self.new };

    /// Offers a piece of bytes to a connection or a socket.
    fn put_bytes(&mut self, alloc: Global, id: Id, bytes: &[u8]) -> Wrote
        requires is_open { (book self.old).is_open id ≡ true }
        requires piece { 0 < length bytes.now }
        ensures puts { Puts id bytes.now result (book self.old) (book self.new) }
        ensures same { same self.old self.new };

    /// Dials a host and a port for a strand.
    fn dial(&mut self, alloc: Global, who: StrandId, host: [u8; 4], port: u16) -> Dial
        ensures dials { Dials who host port result (book self.old) (book self.new) }
        ensures same { same self.old self.new };

    /// Closes a connection or a socket. It takes no memory, and nothing else closes an id.
    fn hang_up(&mut self, id: Id)
        requires is_open { (book self.old).is_open id ≡ true }
        requires id_aside { (book self.old).id_aside id ≡ true }
        ensures hangs_up { HangsUp id (book self.old) (book self.new) }
        ensures same { same self.old self.new };

    /// Gives up the room that is set aside for a strand that is over, and what was reported of the end of its connection,
    /// which is closed. It takes no memory, and leaves no entry.
    fn forget(&mut self, who: StrandId)
        requires { (x : Id) → is_own who x ≡ true → (book self.old).is_open x ≡ false }
        ensures forgets { Forgets who (book self.old) (book self.new) }
        ensures same { same self.old self.new };

    /// Writes a log line of a strand.
    fn write_log(&mut self, alloc: Global, who: StrandId, line: &[u8]) -> Logged
        ensures logs { Logs who line.now result (book self.old) (book self.new) }
        ensures same { same self.old self.new };

    /// Makes room for one entry that is noted, and for the room that it may set aside.
    fn make_room(&mut self, alloc: Global) -> Noted
        ensures makes_room { MakesRoom result (book self.old) (book self.new) }
        ensures same { same self.old self.new };

    /// Adds an entry to the history, on spare room or on what is set aside for it. It takes no memory, and hands the
    /// entry back where the world reports no history.
    fn note(&mut self, entry: Entry) -> Option<Entry>
        requires kind { is_noted entry ≡ true }
        requires room { HasRoom (book self.old) (uses_aside entry) }
        ensures notes { Notes entry result (book self.old) (book self.new) }
        ensures same { same self.old self.new };

    /// The history, where the world reports it.
    fn history(&self) -> Option<&History>
        ensures { option_map (λ kept. kept.now.entries) result ≡ (book self.now).history };

    /// A world is itself.
    ghost stays: { (a : Self) → same a a };

    /// A world some calls later, some calls later.
    ghost joins: { (a b c : Self) → same a b → same b c → same a c };
}
