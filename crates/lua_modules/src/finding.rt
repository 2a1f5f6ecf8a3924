//! The names of modules that are found, each once.

ghost use Rattle.std.specs.Prelude.{◌≡◌, ◌≤◌, ◌<◌, [], length, OnOk, IfOk, IfErr};
ghost use Rattle.lua_modules.specs.Finding as spec;
ghost use Rattle.lua_modules.specs.Finding.{IsOverLimit, most_modules};

use crate::{ModuleFileFault, ModuleSet};
use lua_linking::{names_of, names_of_each};
use resty_base::Bytes;
use std::alloc::Global;

/// How many modules a site may have that aren't built in.
const MODULES_MAX: usize = 256;

/// Whether a name is that of a module of the set, or was found before.
fn is_known(set: &ModuleSet, names: &[Bytes], name: &Bytes) -> bool
    ensures { result ≡ spec.is_known set.now names.now name.now }
{
    set.holds(name.as_slice()) || names.contains(name)
}

/// Puts a name last that isn't known.
fn find(set: &ModuleSet, names: &mut Vec<Bytes>, name: &Bytes) -> Result<(), ModuleFileFault>
    requires { length names.old.items ≤ most_modules }
    ensures found { OnOk result (names.new.items ≡ spec.with_name set.now names.old.items name.now) }
    ensures few { OnOk result (length names.new.items ≤ most_modules) }
    ensures fault { IfErr result (IsOverLimit (spec.with_name set.now names.old.items name.now)) }
{
    if is_known(set, names.as_slice(), name) {
        return Ok(());
    }
    if names.len() == MODULES_MAX {
        return Err(ModuleFileFault::TooMany);
    }
    names.push(name.clone()?)?;
    Ok(())
}

/// Puts each of these names last that isn't known.
fn find_each(
    set: &ModuleSet,
    names: &mut Vec<Bytes>,
    required: &[Bytes],
) -> Result<(), ModuleFileFault>
    requires { length names.old.items ≤ most_modules }
    ensures found { OnOk result (names.new.items ≡ spec.with_names set.now names.old.items required.now) }
    ensures few { OnOk result (length names.new.items ≤ most_modules) }
    ensures fault { IfErr result (IsOverLimit (spec.with_names set.now names.old.items required.now)) }
{
    for name in required {
        find(set, names, name)?;
    }
    Ok(())
}

/// Puts the names last that a function requires and that aren't known.
pub(crate) fn find_in(
    alloc: Global,
    set: &ModuleSet,
    function: u32,
    names: &mut Vec<Bytes>,
) -> Result<(), ModuleFileFault>
    requires { length names.old.items ≤ most_modules }
    ensures found { OnOk result (names.new.items ≡ spec.found_in set.now names.old.items function) }
    ensures few { OnOk result (length names.new.items ≤ most_modules) }
    ensures fault { IfErr result (IsOverLimit (spec.found_in set.now names.old.items function)) }
{
    let required = names_of(alloc, set.program(), function)?;
    find_each(set, names, required.as_slice())
}

/// The names that the blocks of a set require, but for those of its modules.
pub(crate) fn names_of_blocks(alloc: Global, set: &ModuleSet) -> Result<Vec<Bytes>, ModuleFileFault>
    ensures found { IfOk result (λ names. names.items ≡ spec.found_in_blocks set.now) }
    ensures few { IfOk result (λ names. length names.items ≤ most_modules) }
    ensures fault { IfErr result (IsOverLimit (spec.found_in_blocks set.now)) }
{
    let required = names_of_each(alloc, set.program(), set.blocks())?;
    let mut names = Vec::new(alloc);
    find_each(set, &mut names, required.as_slice())?;
    Ok(names)
}
