//! The pool of idle sockets.

ghost use Rattle.std.specs.Prelude.{◌≡◌, ℕ, List, ◌∷◌, [], nat_eq, find, is_some, Option, option_map, IfOk, OnOk, OnErr};
ghost use Rattle.shared_rules.specs.Pool.{is_idle, without_socket, without_any, given, take_answer, taken_from, crowded_out, kept_in, over_first, last_idle};
ghost use Rattle.wakes.specs.Times.{due_at};
ghost use Rattle.sock_pool.specs.Keys.{socks_of};
ghost use Rattle.sock_pool.specs.Changes.{next_number, armed_until, disarmed, socket_of, without_due, forgotten_key, forgotten_deadline};

use crate::keys::Keys;
use crate::recent::Recent;
use resty_base::{Bytes, Ms};
use shared_rules::Idle;
use std::alloc::{AllocError, Global};
use std::marker::Model;
use wakes::{Deadlines, Whose};

/// A socket of the pool, with the number of the deadline that is armed for it.
#[derive(Drop)]
pub struct Parked {
    pub idle: Idle,
    pub deadline: Option<u64>,
}

/// The pool of idle sockets, the most recent first. A call's time doesn't grow with the sockets of other keys, and with all of them it
/// grows as the deadlines' time does.
#[derive(Drop)]
pub struct Pool {
    recent: Recent<Parked>,
    keys: Keys,
    deadlines: Deadlines,
}

impl Model for Pool {
    ghost use Rattle.std.specs.Prelude.{List};
    ghost use Rattle.shared_rules.specs.declared.sockets.Idle.{Idle as IdleSocket};

    ghost Value = { List IdleSocket };

    ghost use Rattle.sock_pool.specs.Kept.{idle_of, IsPooled};

    ghost view = { λ p. idle_of p.recent };

    ghost invariant = { λ p. IsPooled p.recent p.keys p.deadlines };
}

impl Pool {
    /// The empty pool; takes no memory.
    pub fn new(alloc: Global) -> Pool
        ensures { result ≡ [] }
    {
        Pool {
            recent: Recent::new(alloc),
            keys: Keys::new(alloc),
            deadlines: Deadlines::new(alloc),
        }
    }

    /// Keeps a socket, as the most recent one, and returns the number of the one that it crowds out, which is to be closed: the least
    /// recent of its key, where `size` or more of the key were kept already; a size of 0 counts as 1. A socket that is idle already is
    /// kept anew. It is out of memory, too, once 2^64 - 1 sockets with a moment were kept.
    pub fn keep(&mut self, idle: Idle, size: u32) -> Result<Option<u64>, AllocError>
        ensures closed { IfOk result (λ n. n ≡ crowded_out idle.key size (without_socket idle.sock self.old)) }
        ensures done { OnOk result (self.new ≡ kept_in idle size self.old) }
        ensures kept { OnErr result (self.new ≡ self.old) }
    {
        let key = idle.key.clone()?;
        self.put_first(&key, idle)?;
        let crowded = self.keys.last_above(&key, size.max(1) as usize);
        self.take_out_any(crowded);
        Ok(crowded)
    }

    /// Takes the most recent socket of a key out: its number, and how often it was taken so far, this time included.
    pub fn take(&mut self, key: &Bytes) -> Option<(u64, u32)>
        ensures socket { result ≡ take_answer key.now self.old }
        ensures left { self.new ≡ taken_from key.now self.old }
    {
        let sock = self.keys.first(key)?;
        let idle = self.take_out(sock)?;
        Some(taken(&idle))
    }

    /// Takes a socket out at which something came, and returns whether it was idle.
    pub fn idle_gave(&mut self, sock: u64) -> bool
        ensures was_idle { result ≡ is_idle sock self.old }
        ensures left { self.new ≡ without_socket sock self.old }
    {
        self.take_out(sock).is_some()
    }

    /// Takes a socket out whose time is over, the one that was to end first, and returns its number; it is to be closed.
    pub fn expire(&mut self, now: Ms) -> Option<u64>
        ensures socket { result ≡ option_map (λ i. i.sock) (over_first now.0 self.old) }
        ensures left { self.new ≡ without_any (option_map (λ i. i.sock) (over_first now.0 self.old)) self.old }
    {
        let sock = due_socket(&mut self.deadlines, now)?;
        let parked = self.recent.take_out(sock)?;
        self.keys.take_out(&parked.idle.key, sock);
        Some(sock)
    }

    /// The least recent socket.
    pub fn last(&self) -> Option<u64>
        ensures { result ≡ last_idle self.now }
    {
        self.recent.last()
    }

    /// Puts a socket first, of this key.
    fn put_first(&mut self, key: &Bytes, idle: Idle) -> Result<(), AllocError>
        requires { key.now ≡ idle.key }
        ensures done { OnOk result (self.new ≡ idle ∷ without_socket idle.sock self.old) }
        ensures kept { OnErr result (self.new ≡ self.old) }
    {
        let sock = idle.sock;
        let deadline = arm(&mut self.deadlines, idle.until, sock)?;
        let Ok(()) = self.keys.put(key, sock) else {
            disarm(&mut self.deadlines, deadline);
            return Err(AllocError);
        };
        let Ok(replaced) = self.recent.put(sock, Parked { idle, deadline }) else {
            self.keys.take_out(key, sock);
            disarm(&mut self.deadlines, deadline);
            return Err(AllocError);
        };
        forget(&mut self.keys, &mut self.deadlines, replaced, key, sock);
        Ok(())
    }

    /// Takes a socket out, if one is named.
    fn take_out_any(&mut self, sock: Option<u64>)
        ensures { self.new ≡ without_any sock self.old }
    {
        if let Some(sock) = sock {
            let _idle = self.take_out(sock);
        }
    }

    /// Takes a socket out.
    fn take_out(&mut self, sock: u64) -> Option<Idle>
        ensures idle { result ≡ find (λ i. nat_eq sock i.sock) self.old }
        ensures left { self.new ≡ without_socket sock self.old }
    {
        let Parked { idle, deadline } = self.recent.take_out(sock)?;
        disarm(&mut self.deadlines, deadline);
        self.keys.take_out(&idle.key, sock);
        Some(idle)
    }
}

/// What a take gives of a socket.
fn taken(idle: &Idle) -> (u64, u32)
    ensures { result ≡ given idle.now }
{
    (idle.sock, idle.uses.saturating_add(1))
}

/// Arms the deadline of a socket that may be idle until a moment only, and returns its number.
fn arm(deadlines: &mut Deadlines, until: Option<Ms>, sock: u64) -> Result<Option<u64>, AllocError>
    ensures number { IfOk result (λ n. n ≡ next_number until deadlines.old) }
    ensures done { OnOk result (deadlines.new ≡ armed_until until sock deadlines.old) }
    ensures kept { OnErr result (deadlines.new ≡ deadlines.old) }
{
    let Some(at) = until else {
        return Ok(None);
    };
    if !deadlines.has_number() {
        return Err(AllocError);
    }
    let number = deadlines.arm(at, Whose::Idle(sock))?;
    Ok(Some(number))
}

/// Takes the deadline of a socket out, if it has one.
fn disarm(deadlines: &mut Deadlines, deadline: Option<u64>)
    ensures { deadlines.new ≡ disarmed deadline deadlines.old }
{
    if let Some(number) = deadline {
        deadlines.cancel(number);
    }
}

/// Takes the deadline out that is due first, and returns the socket that it was armed for.
fn due_socket(deadlines: &mut Deadlines, now: Ms) -> Option<u64>
    ensures socket { result ≡ socket_of (due_at now.0 deadlines.old.armed) }
    ensures left { deadlines.new ≡ without_due now.0 deadlines.old }
{
    match deadlines.due(now)? {
        Whose::Idle(sock) => Some(sock),
        _ => None,
    }
}

/// Takes out what was kept for a socket before it was kept anew, with this key.
fn forget(
    keys: &mut Keys,
    deadlines: &mut Deadlines,
    replaced: Option<Parked>,
    key: &Bytes,
    sock: u64,
)
    ensures keys { (k : List ℕ) → socks_of keys.new k ≡ forgotten_key replaced key.now sock k (socks_of keys.old k) }
    ensures deadlines { deadlines.new ≡ forgotten_deadline replaced deadlines.old }
{
    let Some(Parked { idle, deadline }) = replaced else {
        return;
    };
    disarm(deadlines, deadline);
    if idle.key != *key {
        keys.take_out(&idle.key, sock);
    }
}
