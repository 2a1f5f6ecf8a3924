//! Tests of the reading of modules: lines of what a site and its files have, and of what reading comes to, each with what is answered.
use crate::module_sets::{answer, told};
use crate::rows::{expect, put_number};
use lua_modules::{ModuleFileFault, ModuleSet, read_modules};
use resty_base::{Bytes, MemFiles};
use std::alloc::{AllocError, Global};
use std::process::Abort;

/// Tests each row, `CALL => ANSWER`, on a new set and new files.
fn hold(rt: &impl Abort, alloc: Global, rows: &str) {
    let mut set = ModuleSet::new(alloc);
    let mut files = MemFiles::new(alloc);
    for row in rows.lines() {
        let (call, expected) = row.split_once(" => ").unwrap_or((row, ""));
        let given = told(alloc, answer_in(alloc, &mut set, &mut files, call));
        expect(rt, given.as_str(), expected, row);
    }
}

/// The answer to a call: `file NAME TEXT`, `blanks NAME COUNT` for a file of so many blanks, `fail N` for the Nth fetch, `names COUNT` for a
/// block that requires m1, m2 and so on, `files COUNT` for their files, `read PATTERN`, `count`, or what may be asked of a set.
fn answer_in(
    alloc: Global,
    set: &mut ModuleSet,
    files: &mut MemFiles,
    call: &str,
) -> Result<String, AllocError> {
    let mut all = String::new(alloc);
    let (kind, words) = call.split_once(' ').unwrap_or((call, ""));
    let (name, text) = words.split_once(' ').unwrap_or((words, ""));
    match kind {
        "file" => files.add(alloc, name, text.as_bytes())?,
        "blanks" => add_blanks(alloc, files, name, number(text))?,
        "fail" => files.fail_at(u64::from(number(name)))?,
        "names" => add_names(alloc, set, number(name))?,
        "files" => add_files(alloc, files, number(name))?,
        "read" => see_reading(alloc, &mut all, set, files, name.as_bytes())?,
        "count" => put_number(&mut all, set.modules().len() as i64),
        _ => return answer(alloc, set, call),
    }
    Ok(all)
}

/// The number that a word writes.
fn number(word: &str) -> u32 {
    word.parse().unwrap_or(0)
}

/// Adds a file of so many blanks.
fn add_blanks(
    alloc: Global,
    files: &mut MemFiles,
    name: &str,
    count: u32,
) -> Result<(), AllocError> {
    let text = vec![in alloc; b' '; count as usize]?;
    files.add(alloc, name, text.as_slice())
}

/// Adds a block that requires so many modules.
fn add_names(alloc: Global, set: &mut ModuleSet, count: u32) -> Result<(), AllocError> {
    let mut text = String::new(alloc);
    for n in 1..=count {
        let _ = write!(text, "require \"m{n}\" ");
    }
    let file = Bytes::copy_from_slice(alloc, b"t.conf")?;
    let _ = set.add_block(alloc, file, text.as_bytes(), 1);
    Ok(())
}

/// Adds the files of so many modules.
fn add_files(alloc: Global, files: &mut MemFiles, count: u32) -> Result<(), AllocError> {
    for n in 1..=count {
        let mut name = String::new(alloc);
        let _ = write!(name, "m{n}.lua");
        files.add(alloc, name.as_str(), b"return 1")?;
    }
    Ok(())
}

/// Reads the modules of a set, and writes `read` or the fault.
fn see_reading(
    alloc: Global,
    all: &mut String,
    set: &mut ModuleSet,
    files: &mut MemFiles,
    pattern: &[u8],
) -> Result<(), AllocError> {
    let pattern = Bytes::copy_from_slice(alloc, pattern)?;
    match read_modules(alloc, files, &pattern, set) {
        Ok(()) => all.push_str("read"),
        Err(fault) => {
            see_fault(all, &fault);
            Ok(())
        }
    }
}

/// Writes a fault.
fn see_fault(all: &mut String, fault: &ModuleFileFault) {
    let _ = write!(all, "{fault:?}");
}

/// Names stand in functions within and not behind locals.
const WITHIN: &str = "\
file a.lua return function() return function() require 'b' end end
file b.lua local r = require r 'c'
block 1 function f() require 'a' end => 0
read ?.lua => read
modules => a=2 b=5";

/// Two modules that require each other are read once.
const EACH_OTHER: &str = "\
file a.lua return require 'b'
file b.lua return require 'a'
block 1 require 'a' => 0
read ?.lua => read
modules => a=1 b=2";

/// A name that came before or is built in is not read.
const TWICE: &str = "\
built-in z return 1 => added
file a.lua require 'a' require 'z'
block 1 require 'z' require 'a' require 'a' => 0
block 2 return require 'a' => 1
read ?.lua => read
modules => *z=0 a=3";

/// The blocks' names come first, then those of each module as it is read.
const ORDER: &str = "\
file a.lua require 'c' require 'd'
file b.lua require 'e'
file c.lua require 'f'
file d.lua
file e.lua
file f.lua
block 1 require 'b' => 0
block 2 require 'a' => 1
read ?.lua => read
modules => b=2 a=3 e=4 c=5 d=6 f=7";

const FOURTH: &str = "\
file a.lua require 'c' require 'd'
file b.lua require 'e'
file c.lua
file e.lua
block 1 require 'b' => 0
block 2 require 'a' => 1
fail 4
read ?.lua => Unreadable(b\"c.lua\")
modules => b=2 a=3 e=4";

/// A fault names its file.
const REFUSED: &str = "\
file a.lua return 1
file m.lua local a\rlocal b\rlocal = 1
block 7 require 'a' require 'm' require 'gone' => 0
read ?.lua => Refused(b\"m.lua\", Parse(At(3)))
modules => a=1";

const BAD_TOKEN: &str = "\
file m.lua x = 1\rx = 1.5
block 7 require 'm' => 0
read ?.lua => Refused(b\"m.lua\", Lex(Fraction(2)))";

const MISSING: &str = "\
file m.lua return require 'gone'
block 7 require 'm' => 0
read ?.lua => Missing(b\"gone.lua\")
modules => m=1";

const TOO_LONG: &str = "\
blanks short.lua 1048576
blanks long.lua 1048577
block 7 require 'short' require 'long' => 0
read ?.lua => TooLong(b\"long.lua\")
modules => short=1";

/// The 257th name is refused before a further file is read.
const MOST: &str = "\
built-in z return 1 => added
file m1.lua return 1
block 1 require 'z' => 0
names 256
files 256
read ?.lua => read
count => 257";

/// No file is there, so that a fetch of one would be seen.
const ONE_MORE: &str = "\
names 257
read ?.lua => TooMany
count => 0";

const ONE_MORE_IN_A_MODULE: &str = "\
file m1.lua return require 'n'
names 256
read ?.lua => TooMany
count => 1";

/// The pattern says which file a module has.
const DOTS: &str = "\
file lua/a/b-c.lua return require 'd'
file lua/d.lua return 1
block 1 require 'a.b-c' => 0
read lua/?.lua => read
modules => a.b-c=1 d=2";

const TWO_MARKS: &str = "\
file x/a/a.lua return 1
block 1 require 'a' => 0
read x/?/?.lua => read";

const NO_MARK: &str = "\
file all.lua return 1
block 1 require 'a' require 'b' => 0
read all.lua => read
modules => a=1 b=2";

/// What reading `m` comes to with a pattern that isn't UTF-8.
fn answer_by_bytes(alloc: Global) -> Result<String, AllocError> {
    let mut set = ModuleSet::new(alloc);
    let mut files = MemFiles::new(alloc);
    let mut all = answer(alloc, &mut set, "block 1 require 'm'")?;
    see_reading(alloc, &mut all, &mut set, &mut files, b"\xff?")?;
    Ok(all)
}

#[test]
fn a_name_that_is_no_text_is_that_of_no_file(rt: HostRuntime) {
    let given = told(rt.alloc(), answer_by_bytes(rt.alloc()));
    assert_eq!(rt; given.as_str(), "0Missing(b\"\\xffm\")");
}

#[test]
fn modules_are_read(rt: HostRuntime) {
    hold(&rt, rt.alloc(), WITHIN);
    hold(&rt, rt.alloc(), EACH_OTHER);
    hold(&rt, rt.alloc(), TWICE);
    hold(&rt, rt.alloc(), ORDER);
    hold(&rt, rt.alloc(), FOURTH);
    hold(&rt, rt.alloc(), REFUSED);
    hold(&rt, rt.alloc(), BAD_TOKEN);
    hold(&rt, rt.alloc(), MISSING);
    hold(&rt, rt.alloc(), TOO_LONG);
    hold(&rt, rt.alloc(), MOST);
    hold(&rt, rt.alloc(), ONE_MORE);
    hold(&rt, rt.alloc(), ONE_MORE_IN_A_MODULE);
    hold(&rt, rt.alloc(), DOTS);
    hold(&rt, rt.alloc(), TWO_MARKS);
    hold(&rt, rt.alloc(), NO_MARK);
}
