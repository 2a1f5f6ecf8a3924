//! The run queue.

ghost use Rattle.std.specs.Prelude.{◌≡◌, ℕ, ◌<◌, ◌≤◌, List, [], OnOk, OnErr, IfSome, IfNone, slice_get, drop, Option, MatchOption};
ghost use Rattle.wakes.specs.Queue.{QueueView, pushed, left, without_thread, IsFirstAt, IsNowhere};

use resty_base::StrandId;
use std::alloc::{AllocError, Global};
use std::collections::VecDeque;
use std::marker::Model;

/// The threads that wait for their run, each with its strand, first in, first out. Its room is for how many more may be pushed
/// without memory.
#[derive(Drop)]
pub struct RunQueue {
    threads: VecDeque<(StrandId, u32)>,
}

impl Model for RunQueue {
    ghost use Rattle.std.specs.Prelude.{◌-◌};
    ghost use Rattle.std.specs.VecDeque.{deque_len, deque_capacity};
    ghost use Rattle.wakes.specs.Queue.{QueueView};

    ghost Value = { QueueView };

    ghost view = { λ q. record { threads = q.threads.items; room = deque_capacity q.threads - deque_len q.threads } };
}

impl RunQueue {
    /// The empty queue; takes no memory.
    pub fn new(alloc: Global) -> RunQueue
        ensures { result.threads ≡ [] }
    {
        RunQueue {
            threads: VecDeque::new(alloc),
        }
    }

    /// Makes room for `n` more.
    pub fn reserve(&mut self, n: usize) -> Result<(), AllocError>
        ensures threads { self.new.threads ≡ self.old.threads }
        ensures room { self.old.room ≤ self.new.room }
        ensures done { OnOk result (n ≤ self.new.room) }
        ensures refused { OnErr result (self.old.room < n) }
    {
        self.threads.reserve(n)
    }

    /// Puts a thread of a strand at the end.
    pub fn push(&mut self, strand: StrandId, thread: u32)
        requires { 0 < self.old.room }
        ensures { self.new ≡ pushed self.old (strand, thread) }
    {
        self.threads.push_back_reserved((strand, thread));
    }

    /// Takes the first thread out.
    pub fn pop(&mut self) -> Option<(StrandId, u32)>
        ensures first { result ≡ slice_get self.old.threads 0 }
        ensures rest { self.new ≡ left self.old (drop 1 self.old.threads) }
    {
        self.threads.pop_front()
    }

    /// Takes a thread of a strand out, where it waits; where it waits more than once, the first time.
    pub fn remove(&mut self, strand: StrandId, thread: u32)
        ensures { self.new ≡ left self.old (without_thread (strand, thread) self.old.threads) }
    {
        if let Some(index) = index_of(&self.threads, strand, thread) {
            let _removed = self.threads.remove(index);
        }
    }
}

/// Where the thread of the strand waits first.
fn index_of(threads: &VecDeque<(StrandId, u32)>, strand: StrandId, thread: u32) -> Option<usize>
    ensures { MatchOption result (IsNowhere (strand, thread) threads.now.items) (λ index. IsFirstAt (strand, thread) threads.now.items index) }
{
    for index in 0..threads.len() {
        let (other, number) = *threads.get(index)?;
        if strand == other && thread == number {
            return Some(index);
        }
    }
    None
}
