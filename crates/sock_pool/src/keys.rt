//! The idle sockets of each key.

ghost use Rattle.std.specs.Prelude.{◌≡◌, ℕ, List, [], slice_get, OnOk, OnErr};
ghost use Rattle.sock_pool.specs.Keys.{socks_of, SameSocks, first_put, left_out, last_beyond};

use crate::recent::Recent;
use indexmap::IndexMap;
use resty_base::Bytes;
use std::alloc::{AllocError, Global};

/// The numbers of the idle sockets of each key, the most recent first.
#[derive(Drop)]
pub struct Keys {
    alloc: Global,
    by_key: IndexMap<Bytes, Recent<()>>,
}

impl Keys {
    /// No socket; takes no memory.
    pub fn new(alloc: Global) -> Keys
        ensures { (k : List ℕ) → socks_of result k ≡ [] }
    {
        Keys {
            alloc,
            by_key: IndexMap::new(alloc),
        }
    }

    /// Puts a socket first among those of its key.
    pub fn put(&mut self, key: &Bytes, sock: u64) -> Result<(), AllocError>
        ensures done { OnOk result ((k : List ℕ) → socks_of self.new k ≡ first_put key.now sock k (socks_of self.old k)) }
        ensures kept { OnErr result (SameSocks self.old self.new) }
    {
        if let Some(socks) = self.by_key.get_mut(key) {
            socks.put(sock, ())?;
            return Ok(());
        }
        self.add(key, sock)
    }

    /// Puts the only socket of its key.
    fn add(&mut self, key: &Bytes, sock: u64) -> Result<(), AllocError>
        requires { socks_of self.old key.now ≡ [] }
        ensures done { OnOk result ((k : List ℕ) → socks_of self.new k ≡ first_put key.now sock k (socks_of self.old k)) }
        ensures kept { OnErr result (SameSocks self.old self.new) }
    {
        let key = key.clone()?;
        let mut socks = Recent::new(self.alloc);
        socks.put(sock, ())?;
        match self.by_key.insert(key, socks) {
            Ok(_) => Ok(()),
            Err(_) => Err(AllocError),
        }
    }

    /// Takes a socket out of those of its key.
    pub fn take_out(&mut self, key: &Bytes, sock: u64)
        ensures { (k : List ℕ) → socks_of self.new k ≡ left_out key.now sock k (socks_of self.old k) }
    {
        let Some(socks) = self.by_key.get_mut(key) else {
            return;
        };
        let _was_there = socks.take_out(sock);
        if socks.len() == 0 {
            let _empty = self.by_key.swap_remove(key);
        }
    }

    /// The first socket of a key.
    pub fn first(&self, key: &Bytes) -> Option<u64>
        ensures { result ≡ slice_get (socks_of self.now key.now) 0 }
    {
        self.by_key.get(key)?.first()
    }

    /// The last socket of a key, where it has more than this many.
    pub fn last_above(&self, key: &Bytes, most: usize) -> Option<u64>
        ensures { result ≡ last_beyond most (socks_of self.now key.now) }
    {
        let socks = self.by_key.get(key)?;
        if most < socks.len() {
            socks.last()
        } else {
            None
        }
    }
}
