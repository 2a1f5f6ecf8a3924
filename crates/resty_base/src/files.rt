//! Files that are read whole, in memory or of the system.

ghost use Rattle.resty_base.specs.FileMap.{IsWithin};

use crate::Bytes;
use std::alloc::{AllocError, AllocFailed, Global};
use std::collections::BTreeMap;
use std::fs;
use std::io::{self, ErrorKind, Read};
use std::rt::Files as HostFiles;

/// What a fetch gives: the bytes, or why there are none.
#[derive(Debug, Drop)]
pub enum Fetched {
    Text(Bytes),
    Missing,
    /// The file has more bytes than were asked for.
    TooLong,
    /// The file can't be read.
    Failed,
    /// Out of memory.
    Memory,
}

/// Files that are read whole. They may report what they hold, as a map from names to bytes, and they count their faults.
pub trait Files {
    ghost use Rattle.resty_base.specs.FileMap.{FileAccount, Answers, IsWithin};

    /// What the files hold, where they report it, and the counts of faults of reading.
    ghost account: { Self → FileAccount };

    /// The bytes of the file `name`, which are at most `max`.
    fn fetch(&mut self, alloc: Global, name: &str, max: usize) -> Fetched
        ensures answers { Answers name.now max result (account self.old) (account self.new) }
        ensures within { IsWithin max result };
}

/// Files in memory, which report what they hold and fail at chosen calls.
#[derive(Drop)]
pub struct MemFiles {
    texts: BTreeMap<String, Bytes>,
    calls: u64,
    failing: Vec<u64>,
    faults: u64,
}

impl MemFiles {
    ghost use Rattle.std.specs.Prelude.{◌≡◌, ◌≢◌, ℕ, List, Some, None, OnOk, OnErr, ◌++◌, ◌∷◌, []};
    ghost use Rattle.resty_base.specs.MemoryFiles.{files_of};

    /// No files, and no call that fails; takes no memory.
    pub fn new(alloc: Global) -> MemFiles
        ensures files { (name : List ℕ) → files_of result name ≡ None }
        ensures calls { result.calls ≡ 0 }
        ensures failing { result.failing.items ≡ [] }
        ensures faults { result.faults ≡ 0 }
    {
        MemFiles {
            texts: BTreeMap::new(alloc),
            calls: 0,
            failing: Vec::new(alloc),
            faults: 0,
        }
    }

    /// Adds a file, in place of one that has its name.
    pub fn add(&mut self, alloc: Global, name: &str, bytes: &[u8]) -> Result<(), AllocError>
        ensures added { OnOk result (files_of self.new name.now ≡ Some bytes.now) }
        ensures others { OnOk result ((other : List ℕ) → other ≢ name.now → files_of self.new other ≡ files_of self.old other) }
        ensures err { OnErr result ((other : List ℕ) → files_of self.new other ≡ files_of self.old other) }
        ensures calls { self.new.calls ≡ self.old.calls }
        ensures failing { self.new.failing ≡ self.old.failing }
        ensures faults { self.new.faults ≡ self.old.faults }
    {
        let text = Bytes::copy_from_slice(alloc, bytes)?;
        let key = String::from_str(alloc, name)?;
        self.texts.insert(key, text)?;
        Ok(())
    }

    /// Makes the fetch of this number fail; fetches are numbered from 1.
    pub fn fail_at(&mut self, call: u64) -> Result<(), AllocError>
        ensures ok { OnOk result (self.new.failing.items ≡ self.old.failing.items ++ call ∷ []) }
        ensures err { OnErr result (self.new.failing.items ≡ self.old.failing.items) }
        ensures files { (name : List ℕ) → files_of self.new name ≡ files_of self.old name }
        ensures calls { self.new.calls ≡ self.old.calls }
        ensures faults { self.new.faults ≡ self.old.faults }
    {
        self.failing.push(call)?;
        Ok(())
    }
}

impl Files for MemFiles {
    ghost use Rattle.std.specs.Prelude.{◌≡◌};
    ghost use Rattle.resty_base.specs.FileMap.{Answers, IsWithin, is_failed};
    ghost use Rattle.resty_base.specs.MemoryFiles.{account_of, next_call, fails_at};

    ghost account = { account_of };

    fn fetch(&mut self, _alloc: Global, name: &str, max: usize) -> Fetched
        ensures answers { Answers name.now max result (account_of self.old) (account_of self.new) }
        ensures within { IsWithin max result }
        ensures failed { is_failed result ≡ fails_at self.old.failing.items (next_call self.old.calls) }
        ensures calls { self.new.calls ≡ next_call self.old.calls }
        ensures failing { self.new.failing ≡ self.old.failing }
    {
        self.calls = self.calls.saturating_add(1);
        let call = self.calls;
        if self.failing.contains(&call) {
            self.faults = self.faults.saturating_add(1);
            return Fetched::Failed;
        }
        match self.texts.get(name) {
            None => Fetched::Missing,
            Some(text) if text.len() > max => Fetched::TooLong,
            Some(text) => match text.clone() {
                Ok(shared) => Fetched::Text(shared),
                Err(AllocError) => Fetched::Memory,
            },
        }
    }
}

/// The files of the system, which report nothing, and have one count of faults for all names.
#[derive(Drop)]
pub struct DiskFiles<'a, R> {
    runtime: &'a R,
    faults: u64,
}

impl<'a, R: HostFiles> DiskFiles<'a, R> {
    ghost use Rattle.std.specs.Prelude.{◌≡◌};

    /// The files that `runtime` reaches, with no fault so far.
    pub fn new(runtime: &'a R) -> DiskFiles<'a, R>
        ensures { result.faults ≡ 0 }
    {
        DiskFiles { runtime, faults: 0 }
    }
}

impl<R: HostFiles> Files for DiskFiles<'_, R> {
    ghost use Rattle.std.specs.Prelude.{None};

    ghost account = { λ files. record { told = None; faults = λ _. files.faults } };

    fn fetch(&mut self, alloc: Global, name: &str, max: usize) -> Fetched {
        let answer = read_within(self.runtime, alloc, name, max);
        if let Fetched::Failed = answer {
            self.faults = self.faults.saturating_add(1);
        }
        answer
    }
}

/// Reads a file of at most `max` bytes; a longer one isn't read past its first `max` and one more.
fn read_within<R: HostFiles>(runtime: &R, alloc: Global, name: &str, max: usize) -> Fetched
    ensures { IsWithin max result }
{
    let file = match fs::open(runtime, name) {
        Ok(file) => file,
        Err(fault) if fault.kind() == ErrorKind::NotFound => return Fetched::Missing,
        Err(_) => return Fetched::Failed,
    };
    let mut bytes = Vec::new(alloc);
    if let Err(fault) = file
        .take((max as u64).saturating_add(1))
        .read_to_end(&mut bytes)
    {
        return match fault.kind() {
            ErrorKind::OutOfMemory => Fetched::Memory,
            _ => Fetched::Failed,
        };
    }
    if bytes.len() > max {
        return Fetched::TooLong;
    }
    match Bytes::from_vec(bytes) {
        Ok(text) => Fetched::Text(text),
        Err(_) => Fetched::Memory,
    }
}
