//! Seats of strands.

use resty_base::StrandId;
use std::alloc::{AllocError, Global};
use std::collections::BTreeMap;
use std::ops::Bound;

/// A seat for each connection's strand that lives, in the order in which they began. A seat is vacant while its strand has a turn, so that
/// coming back takes no memory.
#[derive(Drop)]
pub struct Seats<X> {
    by_connection: BTreeMap<u64, Option<X>>,
}

impl<X: Drop> Seats<X> {
    ghost use Rattle.std.specs.Prelude.{◌≡◌, ◌≤◌, ◌<◌, ◌+◌, ℕ, Some, None, IfSome, OnOk, OnErr, true, false, if◌then◌else◌};
    ghost use Rattle.resty_base.specs.declared.names.StrandId.{StrandId};
    ghost use Rattle.resty_world.specs.Ids.{same_strand};
    ghost use Rattle.engine_tables.specs.Seats.{seat_at, has_seat, total, value_of, is_after};

    /// No seats; takes no memory.
    pub fn new(alloc: Global) -> Seats<X>
        ensures empty { (s : StrandId) → seat_at result s ≡ None }
        ensures total { (f : X → ℕ) → total f result ≡ 0 }
    {
        Seats {
            by_connection: BTreeMap::new(alloc),
        }
    }

    /// Gives a connection's strand a seat.
    pub fn begin(&mut self, connection: u64, x: X) -> Result<(), AllocError>
        ensures done { OnOk result ((s : StrandId)
            → seat_at self.new s ≡ (if same_strand s (StrandId.Conn connection) then Some x else seat_at self.old s)) }
        ensures seated { OnOk result (has_seat self.new connection ≡ true) }
        ensures refused { OnErr result ((s : StrandId) → seat_at self.new s ≡ seat_at self.old s) }
        ensures total { (f : X → ℕ) → total f self.new ≤ total f self.old + f x }
    {
        match self.by_connection.insert(connection, Some(x)) {
            Ok(_) => Ok(()),
            Err(_) => Err(AllocError),
        }
    }

    /// Takes what the strand's seat holds, which stays and is vacant then.
    pub fn take(&mut self, who: StrandId) -> Option<X>
        ensures value { result ≡ seat_at self.old who }
        ensures rest { (s : StrandId) → seat_at self.new s ≡ (if same_strand s who then None else seat_at self.old s) }
        ensures seats { (c : ℕ) → has_seat self.new c ≡ has_seat self.old c }
        ensures total { (f : X → ℕ) → total f self.new + value_of f result ≡ total f self.old }
    {
        let StrandId::Conn(connection) = who else {
            return None;
        };
        self.by_connection.get_mut(&connection)?.take()
    }

    /// Puts what a connection's strand has into its seat; false where it has none, and then it is dropped. It takes no memory.
    pub fn put_back(&mut self, connection: u64, x: X) -> bool
        ensures result { result ≡ has_seat self.old connection }
        ensures done { result ≡ true → (s : StrandId)
            → seat_at self.new s ≡ (if same_strand s (StrandId.Conn connection) then Some x else seat_at self.old s) }
        ensures refused { result ≡ false → (s : StrandId) → seat_at self.new s ≡ seat_at self.old s }
        ensures total { (f : X → ℕ) → total f self.new ≤ total f self.old + f x }
    {
        match self.by_connection.get_mut(&connection) {
            Some(seat) => {
                *seat = Some(x);
                true
            }
            None => false,
        }
    }

    /// Takes a strand's seat away, with what it holds.
    pub fn end(&mut self, who: StrandId)
        ensures seats { (s : StrandId) → seat_at self.new s ≡ (if same_strand s who then None else seat_at self.old s) }
        ensures total { (f : X → ℕ) → total f self.new ≤ total f self.old }
    {
        if let StrandId::Conn(connection) = who {
            let _content = self.by_connection.remove(&connection);
        }
    }

    /// The first connection after this one, or of all after none, whose strand has a seat.
    pub fn first_after(&self, last: Option<u64>) -> Option<u64>
        ensures after { IfSome result (λ c. is_after last c ≡ true) }
        ensures seated { IfSome result (λ c. has_seat self.now c ≡ true) }
        ensures first { IfSome result (λ c. (t : ℕ) → is_after last t ≡ true → t < c → has_seat self.now t ≡ false) }
        ensures none { result ≡ None → (t : ℕ) → is_after last t ≡ true → has_seat self.now t ≡ false }
    {
        let start = match last {
            None => Bound::Unbounded,
            Some(connection) => Bound::Excluded(connection),
        };
        match self.by_connection.range((start, Bound::Unbounded)).next() {
            Some((connection, _)) => Some(*connection),
            None => None,
        }
    }
}
