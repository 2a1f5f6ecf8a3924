//! Sinks: what takes bytes, in memory or a stream of the system.

ghost use Rattle.std.specs.Prelude.{OnOk, OnErr};
ghost use Rattle.resty_base.specs.Taking.{TakesAll, TakesPart, joined};

use std::alloc::{AllocError, Global};
use std::io::Write;
use thiserror::Error;

/// What a put answers.
#[derive(Clone, Copy)]
pub enum Put {
    /// So many of the first bytes were taken, at least one.
    Took(usize),
    Failed,
}

/// A sink failed.
#[derive(Clone, Copy, Debug, PartialEq, Eq, Error)]
#[error("cannot write")]
pub struct SinkFault;

/// What takes bytes. It may report the bytes that it took, and it counts its faults.
pub trait Sink {
    ghost use Rattle.std.specs.Prelude.{◌<◌, ℕ, List, length};
    ghost use Rattle.resty_base.specs.Accounts.{Account};
    ghost use Rattle.resty_base.specs.Taking.{Puts};

    /// The bytes that it took, where it reports them, and how many faults of writing there were.
    ghost account: { Self → Account };

    /// Takes a first part of the bytes, or fails and takes none. It takes no memory of the caller's.
    fn put(&mut self, bytes: &[u8]) -> Put
        requires { 0 < length bytes.now }
        ensures { Puts bytes.now result (account self.old) (account self.new) };
}

/// Puts all the bytes, in as many pieces as the sink takes them. Where it fails, a proper prefix was taken.
pub fn put_all<S: Sink>(sink: &mut S, bytes: &[u8]) -> Result<(), SinkFault>
    ensures ok { OnOk result (TakesAll bytes.now (S.account sink.old) (S.account sink.new)) }
    ensures err { OnErr result (TakesPart bytes.now (S.account sink.old) (S.account sink.new)) }
{
    let mut done = 0;
    while done < bytes.len() {
        match sink.put(&bytes[done..]) {
            Put::Took(count) => done += count,
            Put::Failed => return Err(SinkFault),
        }
    }
    Ok(())
}

/// Puts all the pieces in order. Where it fails, a proper prefix of what they are together was taken.
pub fn put_pieces<S: Sink>(sink: &mut S, pieces: &[&[u8]]) -> Result<(), SinkFault>
    ensures ok { OnOk result (TakesAll (joined pieces.now) (S.account sink.old) (S.account sink.new)) }
    ensures err { OnErr result (TakesPart (joined pieces.now) (S.account sink.old) (S.account sink.new)) }
{
    for piece in pieces {
        put_all(sink, piece)?;
    }
    Ok(())
}

/// A sink in memory, which reports what it took and fails at chosen calls.
#[derive(Drop)]
pub struct MemSink {
    bytes: Vec<u8>,
    calls: u64,
    failing: Vec<u64>,
    faults: u64,
}

impl MemSink {
    ghost use Rattle.std.specs.Prelude.{◌≡◌, OnOk, OnErr, ◌++◌, ◌∷◌, []};
    ghost use Rattle.resty_base.specs.MemorySink.{taken_of};

    /// An empty sink, with no call that fails; takes no memory.
    pub fn new(alloc: Global) -> MemSink
        ensures taken { taken_of result ≡ [] }
        ensures calls { result.calls ≡ 0 }
        ensures failing { result.failing.items ≡ [] }
        ensures faults { result.faults ≡ 0 }
    {
        MemSink {
            bytes: Vec::new(alloc),
            calls: 0,
            failing: Vec::new(alloc),
            faults: 0,
        }
    }

    /// Makes the put of this number fail; puts are numbered from 1.
    pub fn fail_at(&mut self, call: u64) -> Result<(), AllocError>
        ensures ok { OnOk result (self.new.failing.items ≡ self.old.failing.items ++ call ∷ []) }
        ensures err { OnErr result (self.new.failing.items ≡ self.old.failing.items) }
        ensures taken { taken_of self.new ≡ taken_of self.old }
        ensures calls { self.new.calls ≡ self.old.calls }
        ensures faults { self.new.faults ≡ self.old.faults }
    {
        self.failing.push(call)?;
        Ok(())
    }

    /// The bytes that it took, in order.
    pub fn taken(&self) -> &[u8]
        ensures { result.now ≡ taken_of self.now }
    {
        self.bytes.as_slice()
    }
}

impl Sink for MemSink {
    ghost use Rattle.std.specs.Prelude.{◌≡◌, ◌<◌, true, length};
    ghost use Rattle.resty_base.specs.MemoryFiles.{next_call, fails_at};
    ghost use Rattle.resty_base.specs.MemorySink.{account_of};
    ghost use Rattle.resty_base.specs.Taking.{Puts, is_failed};

    ghost account = { account_of };

    /// A put that isn't to fail takes all, and fails where the sink can't grow.
    fn put(&mut self, bytes: &[u8]) -> Put
        requires { 0 < length bytes.now }
        ensures puts { Puts bytes.now result (account_of self.old) (account_of self.new) }
        ensures failed { fails_at self.old.failing.items (next_call self.old.calls) ≡ true → is_failed result ≡ true }
        ensures calls { self.new.calls ≡ next_call self.old.calls }
        ensures failing { self.new.failing ≡ self.old.failing }
    {
        self.calls = self.calls.saturating_add(1);
        let call = self.calls;
        if self.failing.contains(&call) {
            self.faults = self.faults.saturating_add(1);
            return Put::Failed;
        }
        if self.bytes.extend_from_slice(bytes).is_err() {
            self.faults = self.faults.saturating_add(1);
            return Put::Failed;
        }
        Put::Took(bytes.len())
    }
}

/// A stream of the system, which reports nothing.
#[derive(Drop)]
pub struct StdSink<W> {
    stream: W,
    faults: u64,
}

impl<W: Write> StdSink<W> {
    ghost use Rattle.std.specs.Prelude.{◌≡◌};

    /// A sink over `stream`, with no fault so far.
    pub fn new(stream: W) -> StdSink<W>
        ensures { result.faults ≡ 0 }
    {
        StdSink { stream, faults: 0 }
    }
}

impl<W: Write> Sink for StdSink<W> {
    ghost use Rattle.std.specs.Prelude.{None};

    ghost account = { λ sink. record { told = None; faults = sink.faults } };

    /// One write to the stream; a write that takes nothing is a fault.
    fn put(&mut self, bytes: &[u8]) -> Put {
        match self.stream.write(bytes) {
            Ok(count) if count > 0 => Put::Took(count),
            _ => {
                self.faults = self.faults.saturating_add(1);
                Put::Failed
            }
        }
    }
}
