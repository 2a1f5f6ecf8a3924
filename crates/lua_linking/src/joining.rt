//! One program joined to another.

ghost use Rattle.std.specs.Prelude.{◌≡◌, ◌++◌, IfOk, OnOk, OnErr, length};
ghost use Rattle.std.specs.List.{AllZip};
ghost use Rattle.lua_linking.specs.Raising.{RaisedFunction};
ghost use Rattle.lua_linking.specs.Joining.{IsJoined, HasSameLists};

use crate::expressions::raise_number;
use crate::statements::raise_block;
use lua_ast::{Function, Program};
use resty_base::ByteLists;
use std::alloc::{AllocError, Global};
use std::mem;

/// Raises the number of a function's file, and the numbers of functions in its body.
fn raise_function(function: &mut Function, by: u32, files: u32) -> Result<(), AllocError>
    ensures { OnOk result (RaisedFunction by files function.old function.new) }
{
    raise_number(&mut function.file, files)?;
    raise_block(&mut function.body, by)
}

/// The same of each of these functions.
fn raise_functions(functions: &mut [Function], by: u32, files: u32) -> Result<(), AllocError>
    ensures { OnOk result (AllZip (RaisedFunction by files) functions.old functions.new) }
{
    for i in 0..functions.len() {
        raise_function(&mut functions[i], by, files)?;
    }
    Ok(())
}

/// The number after so many; one that doesn't fit is out of memory.
fn number_after(count: usize) -> Result<u32, AllocError>
    ensures { IfOk result (λ number. number ≡ count) }
{
    match u32::try_from(count) {
        Ok(number) => Ok(number),
        Err(_) => Err(AllocError),
    }
}

/// Appends names of files; where memory runs out the list is as before.
fn append_files(alloc: Global, files: &mut ByteLists, others: ByteLists) -> Result<(), AllocError>
    ensures ok { OnOk result (files.new ≡ files.old ++ others) }
    ensures err { OnErr result (files.new ≡ files.old) }
{
    let mut names = mem::replace(files, ByteLists::of(Vec::new(alloc))).into_vec();
    let done = names.append(&mut others.into_vec());
    *files = ByteLists::of(names);
    done
}

/// Raises the numbers in functions, which come after those of a program, and gives the number that the first of them has now.
fn raise_behind(functions: &mut [Function], program: &Program) -> Result<u32, AllocError>
    ensures first { IfOk result (λ number. number ≡ length program.now.functions.items) }
    ensures raised { OnOk result (AllZip (RaisedFunction (length program.now.functions.items) (length program.now.files)) functions.old functions.new) }
{
    let first = number_after(program.functions.len())?;
    let file = number_after(program.files.as_slice().len())?;
    raise_functions(functions, first, file)?;
    Ok(first)
}

/// Appends the files and functions of a program; where memory runs out the program before them has those that it had.
fn append_program(alloc: Global, program: &mut Program, other: Program) -> Result<(), AllocError>
    ensures files { OnOk result (program.new.files ≡ program.old.files ++ other.files) }
    ensures functions { OnOk result (program.new.functions.items ≡ program.old.functions.items ++ other.functions.items) }
    ensures kept { OnErr result (HasSameLists program.old program.new) }
{
    let Program {
        files,
        mut functions,
    } = other;
    program.functions.reserve(functions.len())?;
    append_files(alloc, &mut program.files, files)?;
    program.functions.append(&mut functions)?;
    Ok(())
}

/// Joins `other` to `program`, and gives the number that `other`'s first function has now. The trees of `other` have no other
/// owner; where one has, or a number no longer fits, that is out of memory. Where memory runs out `program` has the files and
/// functions that it had.
pub fn join(alloc: Global, program: &mut Program, mut other: Program) -> Result<u32, AllocError>
    ensures joined { OnOk result (IsJoined program.old other program.new) }
    ensures first { IfOk result (λ number. number ≡ length program.old.functions.items) }
    ensures kept { OnErr result (HasSameLists program.old program.new) }
{
    let first = raise_behind(&mut other.functions, program)?;
    append_program(alloc, program, other)?;
    Ok(first)
}
