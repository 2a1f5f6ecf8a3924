//! The reading of the modules that the blocks of a site require.

ghost use Rattle.std.specs.Prelude.{◌≡◌, ◌<◌, ◌≤◌, ◌+◌, length, OnOk, OnErr, IfOk, IfErr, IfSome};
ghost use Rattle.lua_modules.specs.Files.{file_of};
ghost use Rattle.lua_modules.specs.Sets.{IsSound, IsUnchanged, next_function};
ghost use Rattle.lua_modules.specs.Texts.{IsTextFault};
ghost use Rattle.lua_modules.specs.TextsOfFiles.{Fares};
ghost use Rattle.lua_modules.specs.Finding.{most_modules};
ghost use Rattle.lua_modules.specs.Reading.{HasNoModule, ReadsModule, ReadsModules, ReadsNext, Stops, progress, refusal, start};
ghost use Rattle.lua_modules.specs.declared.file_faults.ModuleFileFault.TheVariants.{Memory};

use crate::finding::{find_in, names_of_blocks};
use crate::texts_of_files::text_of;
use crate::{ModuleFault, ModuleFileFault, ModuleSet, file_of};
use resty_base::{Bytes, Files};
use std::alloc::Global;

/// The number of the function that is added next.
fn next_function(set: &ModuleSet) -> Result<u32, ModuleFileFault>
    ensures number { IfOk result (λ number. number ≡ next_function set.now) }
    ensures fault { IfErr result (λ fault. fault ≡ Memory) }
{
    match u32::try_from(set.program().functions.len()) {
        Ok(number) => Ok(number),
        Err(_) => Err(ModuleFileFault::Memory),
    }
}

/// The fault of the text of this file.
fn refusal(file: Bytes, fault: ModuleFault) -> ModuleFileFault
    ensures { result ≡ refusal file fault }
{
    match fault {
        ModuleFault::Memory => ModuleFileFault::Memory,
        fault => ModuleFileFault::Refused(file, fault),
    }
}

/// Adds the module of a name by the text of its file, and gives the number of its chunk.
fn read_module<F: Files>(
    alloc: Global,
    files: &mut F,
    pattern: &Bytes,
    name: &Bytes,
    set: &mut ModuleSet,
) -> Result<u32, ModuleFileFault>
    ensures read { OnOk result (IfSome (F.account files.old).told (λ held. ReadsModule held pattern.now name.now set.old set.new)) }
    ensures none { IfErr result (λ fault. IfSome (F.account files.old).told (λ held. HasNoModule held (file_of pattern.now name.now) fault)) }
    ensures number { IfOk result (λ number. number ≡ next_function set.old) }
    ensures kept { OnErr result (IsUnchanged set.old set.new) }
    ensures fares { Fares result (F.account files.old) (F.account files.new) }
    ensures blocks { set.new.blocks.items ≡ set.old.blocks.items }
    ensures sound { IsSound set.old → IsSound set.new }
{
    let file = file_of(alloc, pattern.as_slice(), name.as_slice())?;
    let text = text_of(alloc, files, file.clone()?)?;
    let function = next_function(set)?;
    match set.add(alloc, name.clone()?, file.clone()?, text.as_slice()) {
        Ok(()) => Ok(function),
        Err(fault) => Err(refusal(file, fault)),
    }
}

/// Reads the module of this name, and finds the names that it requires.
fn read_next<F: Files>(
    alloc: Global,
    files: &mut F,
    pattern: &Bytes,
    set: &mut ModuleSet,
    names: &mut Vec<Bytes>,
    read: usize,
) -> Result<(), ModuleFileFault>
    requires few { length names.old.items ≤ most_modules }
    requires waits { read < length names.old.items }
    ensures read { OnOk result (IfSome (F.account files.old).told (λ held. ReadsNext held pattern.now (progress set.old names.old.items read)
        (progress set.new names.new.items (read + 1)))) }
    ensures few { OnOk result (length names.new.items ≤ most_modules) }
    ensures grows { OnOk result (length names.old.items ≤ length names.new.items) }
    ensures stops { IfErr result (λ fault. IfSome (F.account files.old).told (λ held. Stops held pattern.now (progress set.old names.old.items read)
        set.new fault)) }
    ensures fares { Fares result (F.account files.old) (F.account files.new) }
    ensures blocks { set.new.blocks.items ≡ set.old.blocks.items }
    ensures sound { IsSound set.old → IsSound set.new }
{
    let name = names[read].clone()?;
    let function = read_module(alloc, files, pattern, &name, set)?;
    find_in(alloc, set, function, names)
}

/// Reads the modules that the blocks of a set require, and those that these require, each once, in the order in which their names are
/// found; those of the set are built in. The file of a name is the pattern's, as `lua_package_path` gives it.
pub fn read_modules<F: Files>(
    alloc: Global,
    files: &mut F,
    pattern: &Bytes,
    set: &mut ModuleSet,
) -> Result<(), ModuleFileFault>
    ensures read { OnOk result (IfSome (F.account files.old).told (λ held. ReadsModules held pattern.now set.old set.new)) }
    ensures stops { IfErr result (λ fault. IfSome (F.account files.old).told (λ held. Stops held pattern.now (start set.old) set.new fault)) }
    ensures fares { Fares result (F.account files.old) (F.account files.new) }
    ensures blocks { set.new.blocks.items ≡ set.old.blocks.items }
    ensures sound { IsSound set.old → IsSound set.new }
{
    let mut names = names_of_blocks(alloc, set)?;
    let mut read = 0;
    while read < names.len() {
        read_next(alloc, files, pattern, set, &mut names, read)?;
        read += 1;
    }
    Ok(())
}
