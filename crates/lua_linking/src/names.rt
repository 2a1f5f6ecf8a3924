//! The names of modules in a function and in those within it.

ghost use Rattle.std.specs.Prelude.{◌≡◌, ◌≤◌, ◌++◌, OnOk, IfOk, drop, flat_map, length};
ghost use Rattle.lua_linking.specs.Names as spec;

use crate::mentions::Mention;
use crate::named_statements::mentions_in_block;
use lua_ast::{Function, Program};
use resty_base::{ByteLists, Bytes};
use std::alloc::{AllocError, Global};
use std::collections::VecDeque;

/// Appends names that are kept elsewhere too.
fn append_names(names: &mut Vec<Bytes>, others: &[Bytes]) -> Result<(), AllocError>
    ensures { OnOk result (names.new.items ≡ names.old.items ++ others.now) }
{
    for name in others {
        names.push(name.clone()?)?;
    }
    Ok(())
}

/// Appends the names that something mentioned stands for, where those in the functions from number `first` on are known.
fn append_named(
    names: &mut Vec<Bytes>,
    known: &VecDeque<ByteLists>,
    first: usize,
    mention: &Mention,
) -> Result<(), AllocError>
    ensures { OnOk result (names.new.items ≡ names.old.items ++ spec.named_by first known.now.items mention.now) }
{
    match mention {
        Mention::Module(name) => {
            names.push(name.clone()?)?;
            Ok(())
        }
        Mention::Inner(number) => append_names(names, names_at(known, first, *number as usize)),
    }
}

/// The names in a function, where those in the functions from number `first` on are known.
fn names_at<'a>(known: &'a VecDeque<ByteLists>, first: usize, number: usize) -> &'a [Bytes]
    ensures { result.now ≡ spec.names_at first known.now.items number }
{
    if number < first {
        return &[];
    }
    match known.get(number - first) {
        Some(names) => names.as_slice(),
        None => &[],
    }
}

/// The names that what is mentioned stands for.
fn names_by(
    alloc: Global,
    known: &VecDeque<ByteLists>,
    first: usize,
    mentions: &[Mention],
) -> Result<ByteLists, AllocError>
    ensures { IfOk result (λ names. names ≡ flat_map (spec.named_by first known.now.items) mentions.now) }
{
    let mut names = Vec::new(alloc);
    for mention in mentions {
        append_named(&mut names, known, first, mention)?;
    }
    Ok(ByteLists::of(names))
}

/// The names in a function, where those in the functions from number `first` on are known.
fn names_in_function(
    alloc: Global,
    known: &VecDeque<ByteLists>,
    first: usize,
    function: &Function,
) -> Result<ByteLists, AllocError>
    ensures { IfOk result (λ names. names ≡ spec.names_in_function first known.now.items function.now) }
{
    let mut mentions = Vec::new(alloc);
    mentions_in_block(&function.body, &mut mentions)?;
    names_by(alloc, known, first, mentions.as_slice())
}

/// The names in each function from this number on.
#[tactic(auto, using(crate::proofs::Steps::names_end))]
fn names_in_each(
    alloc: Global,
    functions: &[Function],
    number: usize,
) -> Result<VecDeque<ByteLists>, AllocError>
    requires { number ≤ length functions.now }
    ensures { IfOk result (λ known. known.items ≡ spec.names_in_each number (drop number functions.now)) }
{
    let mut known = VecDeque::new(alloc);
    for n in (number..functions.len()).rev() {
        let names = names_in_function(alloc, &known, n + 1, &functions[n])?;
        known.push_front(names)?;
    }
    Ok(known)
}

/// The names of the modules that a function requires, with those that the functions within it require, in the order of the text:
/// each text of letters, digits, `_`, `-` and `.` that is the first argument of a call of the global `require`. A name that stands
/// there twice is listed twice. It takes time for all functions from this one on.
#[tactic(auto, using(crate::proofs::Steps::names_of_first, crate::proofs::Steps::names_of_none))]
pub fn names_of(alloc: Global, program: &Program, number: u32) -> Result<ByteLists, AllocError>
    ensures { IfOk result (λ names. names ≡ spec.names_of program.now.functions.items number) }
{
    let number = number as usize;
    if program.functions.len() <= number {
        return Ok(ByteLists::of(Vec::new(alloc)));
    }
    let mut known = names_in_each(alloc, program.functions.as_slice(), number)?;
    match known.pop_front() {
        Some(names) => Ok(names),
        None => Ok(ByteLists::of(Vec::new(alloc))),
    }
}

/// The names of the modules that each of these functions requires, as `names_of` lists them, one function after the other. It takes
/// time for all functions of the program once, however many are asked for.
pub fn names_of_each(
    alloc: Global,
    program: &Program,
    numbers: &[u32],
) -> Result<ByteLists, AllocError>
    ensures { IfOk result (λ names. names ≡ flat_map (spec.names_of program.now.functions.items) numbers.now) }
{
    let known = names_in_each(alloc, program.functions.as_slice(), 0)?;
    let mut names = Vec::new(alloc);
    for number in numbers {
        append_names(&mut names, names_at(&known, 0, *number as usize))?;
    }
    Ok(ByteLists::of(names))
}

/// The names of the modules that a chunk requires, in the order of its text. The chunk is function 0, as `parse` gives it.
pub fn names_in(alloc: Global, program: &Program) -> Result<ByteLists, AllocError>
    ensures { IfOk result (λ names. names ≡ spec.names_of program.now.functions.items 0) }
{
    names_of(alloc, program, 0)
}
