//! Tests of sets of modules and blocks: lines of what is added to a set and asked of it, each with what is answered.
use crate::names::see_texts;
use crate::rows::{expect, put, put_number};
use lua_ast::{ExprKind, Function, StmtKind};
use lua_linking::names_of;
use lua_modules::{Module, ModuleFault, ModuleSet, file_of, freeze};
use lua_values::{Store, Value};
use resty_base::Bytes;
use std::alloc::{AllocError, Global};
use std::process::Abort;
use std::test::Fail;

/// Tests rows on a new set.
fn hold(rt: &impl Abort, alloc: Global, parts: &[&str]) {
    let mut set = ModuleSet::new(alloc);
    for rows in parts {
        hold_in(rt, alloc, &mut set, rows);
    }
}

/// Tests each row, `CALL => ANSWER`, on one set.
fn hold_in(rt: &impl Abort, alloc: Global, set: &mut ModuleSet, rows: &str) {
    for row in rows.lines() {
        let (call, expected) = row.split_once(" => ").unwrap_or((row, ""));
        expect(
            rt,
            told(alloc, answer(alloc, set, call)).as_str(),
            expected,
            row,
        );
    }
}

/// An answer, or `memory`.
pub(crate) fn told(alloc: Global, answer: Result<String, AllocError>) -> String {
    match answer {
        Ok(answer) => answer,
        Err(_) => {
            let mut all = String::new(alloc);
            put(&mut all, "memory");
            all
        }
    }
}

/// The answer to a call: `block LINE TEXT`, `module NAME TEXT` with the file NAME, `built-in NAME TEXT`, which has no file, or what is asked
/// of the set. In a text `\r` ends a line.
pub(crate) fn answer(alloc: Global, set: &mut ModuleSet, call: &str) -> Result<String, AllocError> {
    let mut all = String::new(alloc);
    let (kind, words) = call.split_once(' ').unwrap_or((call, ""));
    let (name, text) = words.split_once(' ').unwrap_or((words, ""));
    match kind {
        "block" => add_block(alloc, &mut all, set, name, text)?,
        "module" => add(alloc, &mut all, set, name, name, text)?,
        "built-in" => add(alloc, &mut all, set, name, "", text)?,
        _ => see(alloc, &mut all, set, kind, words)?,
    }
    Ok(all)
}

/// Adds a module.
fn add(
    alloc: Global,
    all: &mut String,
    set: &mut ModuleSet,
    name: &str,
    file: &str,
    text: &str,
) -> Result<(), AllocError> {
    let name = Bytes::copy_from_slice(alloc, name.as_bytes())?;
    let file = Bytes::copy_from_slice(alloc, file.as_bytes())?;
    match set.add(alloc, name, file, text.as_bytes()) {
        Ok(()) => put(all, "added"),
        Err(fault) => see_fault(all, &fault),
    }
    Ok(())
}

/// Adds a block of `t.conf`.
fn add_block(
    alloc: Global,
    all: &mut String,
    set: &mut ModuleSet,
    line: &str,
    text: &str,
) -> Result<(), AllocError> {
    let line = u32::from(line.parse::<u16>().unwrap_or(1));
    let file = Bytes::copy_from_slice(alloc, b"t.conf")?;
    match set.add_block(alloc, file, text.as_bytes(), line) {
        Ok(number) => put_number(all, i64::from(number)),
        Err(fault) => see_fault(all, &fault),
    }
    Ok(())
}

/// Writes a fault.
fn see_fault(all: &mut String, fault: &ModuleFault) {
    let _ = write!(all, "{fault:?}");
}

/// Writes what is asked of a set: `shape`, its `files`, `modules`, `blocks` or `preludes`, `holds NAME`, or `names` of the function with a number.
fn see(
    alloc: Global,
    all: &mut String,
    set: &ModuleSet,
    kind: &str,
    given: &str,
) -> Result<(), AllocError> {
    match kind {
        "shape" => see_shape(all, set),
        "files" => see_texts(all, &set.program().files),
        "modules" => see_modules(all, set),
        "blocks" => see_numbers(all, set.blocks()),
        "preludes" => see_numbers(all, set.preludes()),
        "holds" => put(
            all,
            if set.holds(given.as_bytes()) {
                "yes"
            } else {
                "no"
            },
        ),
        _ => see_texts(
            all,
            &names_of(alloc, set.program(), given.parse().unwrap_or(0))?,
        ),
    }
    Ok(())
}

/// Writes a blank if something stands before it.
fn put_blank(all: &mut String) {
    if !all.is_empty() {
        put(all, " ");
    }
}

/// Writes numbers with blanks between them.
fn see_numbers(all: &mut String, numbers: &[u32]) {
    for number in numbers {
        put_blank(all);
        put_number(all, i64::from(*number));
    }
}

/// Writes the modules of a set, each by its name and the number of its function, with `*` before one that is built in.
fn see_modules(all: &mut String, set: &ModuleSet) {
    for module in set.modules() {
        put_blank(all);
        see_module(all, module);
    }
}

/// Writes a module.
fn see_module(all: &mut String, module: &Module) {
    if module.built_in {
        put(all, "*");
    }
    put(all, str::from_utf8(module.name.as_slice()).unwrap_or("?"));
    put(all, "=");
    put_number(all, i64::from(module.function));
}

/// Writes of each function of a set its file's number, and the number of the function that its last statement returns: `FILE>NUMBER`.
fn see_shape(all: &mut String, set: &ModuleSet) {
    for function in &set.program().functions {
        put_blank(all);
        see_function(all, function);
    }
}

/// Writes the same of a function.
fn see_function(all: &mut String, function: &Function) {
    put_number(all, i64::from(function.file));
    if let Some(number) = returned(function) {
        put(all, ">");
        put_number(all, i64::from(number));
    }
}

/// The number of the function that the last statement of this one returns.
fn returned(function: &Function) -> Option<u32> {
    match &function.body.last()?.kind {
        StmtKind::Return(values) => match &values.first()?.kind {
            ExprKind::Function(number) => Some(*number),
            _ => None,
        },
        _ => None,
    }
}

const EACH_OTHER: &str = "\
module a local b = require 'b' return function() return function() end end => added
module b local a = require 'a' return function() end => added
block 3 return function() end => 0
block 9 return 1 => 1";

/// Two modules that require each other are one program.
const JOINED: &str = "\
shape => 0>1 0>2 0 1>4 1 2>6 2 3
files => a b t.conf t.conf
modules => a=0 b=3
blocks => 5 7
holds b => yes
holds c => no";

/// Names of a module are those of its text.
const NAMES: &str = "\
names 0 => b
names 3 => a
names 5
names 9";

const FAULTS: &str = "\
module m x = 1.5 => Lex(Fraction(1))
module m local a\rlocal b\rlocal = 1 => Parse(At(3))
module m local a\r\rreturn 'a => Lex(OpenString(3))
built-in m x = => Parse(At(1))
block 7 break => Parse(BreakOutside(7))
block 7 x = 1\rx = 1.5 => Lex(Fraction(8))
block 7 x = 1 +\r\r => Parse(At(7))
block 7 x = )\rx = 1.5 => Lex(Fraction(8))";

/// Faults have their lines and leave the set.
const NOTHING: &str = "\
shape
modules
blocks
files";

const BUILT_IN: &str = "\
built-in  x = 1 => added
built-in z y = 1 => added
module m z = 1 => added
built-in  z = 2 => added";

/// Modules without a file are built in or preludes.
const PRELUDES: &str = "\
preludes => 0 3
modules => *z=1 m=2";

/// Whether a store that is frozen refuses to write.
fn is_frozen(alloc: Global) -> bool {
    match Store::new(alloc) {
        Ok(mut store) => {
            freeze(&mut store);
            let value = Value::Truth(true);
            store.set(0, Value::Truth(true), value).is_err()
        }
        Err(_) => false,
    }
}

/// Patterns and names, with the files that they give.
const FILES: &str = "\
lua/?.lua m => lua/m.lua
x/?.lua a.b-c.d_1 => x/a/b-c/d_1.lua
? .. => //
none m => none";

/// Whether a row has the file of its pattern and name.
fn is_file(alloc: Global, row: &str) -> Result<bool, AllocError> {
    let (what, expected) = row.split_once(" => ").unwrap_or((row, ""));
    let (pattern, name) = what.split_once(' ').unwrap_or((what, ""));
    let file = file_of(alloc, pattern.as_bytes(), name.as_bytes())?;
    Ok(file.as_slice() == expected.as_bytes())
}

#[test]
fn a_store_is_frozen_and_a_modules_file_is_the_pattern_with_its_name(
    rt: HostRuntime,
) -> Result<(), Fail> {
    assert!(rt; is_frozen(rt.alloc()));
    for row in FILES.lines() {
        assert!(rt; is_file(rt.alloc(), row)?, "{row}");
    }
    Ok(())
}

#[test]
fn sets_have_their_modules(rt: HostRuntime) {
    hold(&rt, rt.alloc(), &[EACH_OTHER, JOINED]);
    hold(&rt, rt.alloc(), &[EACH_OTHER, NAMES]);
    hold(&rt, rt.alloc(), &[FAULTS, NOTHING]);
    hold(&rt, rt.alloc(), &[BUILT_IN, PRELUDES]);
}
