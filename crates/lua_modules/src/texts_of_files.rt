//! The text of a module's file.

ghost use Rattle.std.specs.Prelude.{◌≡◌, IfOk, IfErr, IfSome};
ghost use Rattle.resty_base.specs.FileMap.{FailsWhere, IsAnswer, is_failed};
ghost use Rattle.lua_modules.specs.TextsOfFiles.{Fares, HoldsModule, IsUnread, file_in, most_bytes};

use crate::ModuleFileFault;
use resty_base::{Bytes, Fetched, Files};
use std::alloc::Global;

/// How many bytes the file of a module may have.
const TEXT_MAX: usize = 1_048_576;

/// Reads a file whole. A name that isn't UTF-8 is that of no file.
fn fetch<F: Files>(alloc: Global, files: &mut F, file: &[u8]) -> Fetched
    ensures right { IfSome (F.account files.old).told (λ held. IsAnswer (file_in held file.now) most_bytes result) }
    ensures told { (F.account files.new).told ≡ (F.account files.old).told }
    ensures faults { FailsWhere (is_failed result) file.now (F.account files.old).faults (F.account files.new).faults }
{
    match str::from_utf8(file) {
        Ok(name) => files.fetch(alloc, name, TEXT_MAX),
        Err(_) => Fetched::Missing,
    }
}

/// The text of a file, or why there is none.
pub(crate) fn text_of<F: Files>(
    alloc: Global,
    files: &mut F,
    file: Bytes,
) -> Result<Bytes, ModuleFileFault>
    ensures text { IfOk result (λ text. IfSome (F.account files.old).told (λ held. HoldsModule held file text)) }
    ensures unread { IfErr result (λ fault. IfSome (F.account files.old).told (λ held. IsUnread held file fault)) }
    ensures fares { Fares result (F.account files.old) (F.account files.new) }
{
    match fetch(alloc, files, file.as_slice()) {
        Fetched::Text(text) => Ok(text),
        Fetched::Missing => Err(ModuleFileFault::Missing(file)),
        Fetched::TooLong => Err(ModuleFileFault::TooLong(file)),
        Fetched::Failed => Err(ModuleFileFault::Unreadable(file)),
        Fetched::Memory => Err(ModuleFileFault::Memory),
    }
}
