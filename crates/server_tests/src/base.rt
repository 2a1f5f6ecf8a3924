//! Tests of `resty_base`: NUMBERS whole numbers, IN_MEMORY and OF_THE_SYSTEM files, PUTS sinks; and byte strings in lists, and a stream.
use crate::rows::{expect, put};
use resty_base::*;
use std::alloc::{AllocError, Global};
use std::process::Abort;
use std::test::Fail;

/// Numbers, and what they are as whole numbers of Lua.
const NUMBERS: &str = "\
0 => 0
99999999999999 => 99999999999999
100000000000000 => none
-99999999999999 => -99999999999999
-100000000000000 => none";

/// Whether a row has the whole number of its number.
fn is_whole(row: &str) -> bool {
    let (number, expected) = row.split_once(" => ").unwrap_or((row, ""));
    match whole(number.parse().unwrap_or(1)) {
        Some(number) => expected.parse().ok() == Some(number.get()),
        None => expected == "none",
    }
}

#[test]
fn whole_numbers_end_at_the_limit(rt: HostRuntime) {
    for row in NUMBERS.lines() {
        assert!(rt; is_whole(row), "{row}");
    }
}

/// Tests each row: a name, how long its file may be, and what is fetched.
fn hold<F: Files>(rt: &impl Abort, alloc: Global, files: &mut F, rows: &str) {
    for row in rows.lines() {
        let (given, expected) = row.split_once(" => ").unwrap_or((row, ""));
        expect(rt, seen(alloc, files, given).as_str(), expected, row);
    }
}

/// What is fetched for a row.
fn seen<F: Files>(alloc: Global, files: &mut F, given: &str) -> String {
    let (name, max) = given.split_once(' ').unwrap_or((given, ""));
    let fetched = files.fetch(alloc, name, max.parse().unwrap_or(0));
    let mut all = String::new(alloc);
    let _ = write!(all, "{fetched:?}");
    all
}

/// The file `a` holds `three`, and the fifth fetch fails.
const IN_MEMORY: &str = r#"a 5 => Text(b"three")
a 4 => TooLong
b 5 => Missing
A 5 => Missing
a 5 => Failed
a 6 => Text(b"three")"#;

/// These files.
fn in_memory(alloc: Global) -> Result<MemFiles, AllocError> {
    let mut files = MemFiles::new(alloc);
    files.add(alloc, "a", b"one")?;
    files.add(alloc, "a", b"three")?;
    files.fail_at(5)?;
    Ok(files)
}

const OF_THE_SYSTEM: &str = r#"/proc/sys/kernel/ostype 6 => Text(b"Linux\n")
/proc/sys/kernel/ostype 5 => TooLong
/proc/sys/kernel/none 6 => Missing
/proc 6 => Failed"#;

#[test]
fn files_answer_by_name_and_length(rt: HostRuntime) -> Result<(), Fail> {
    hold(&rt, rt.alloc(), &mut in_memory(rt.alloc())?, IN_MEMORY);
    hold(&rt, rt.alloc(), &mut DiskFiles::new(&rt), OF_THE_SYSTEM);
    Ok(())
}

/// What puts of these texts answer, and the bytes that are taken.
const PUTS: [&str; 5] = ["one", "", "two", "three", "four"];

/// What a sink that fails at its third put answers to each, and what it took.
fn answers(alloc: Global) -> String {
    let mut all = String::new(alloc);
    let mut sink = MemSink::new(alloc);
    if sink.fail_at(3).is_ok() {
        for text in PUTS {
            let is_put = put_all(&mut sink, text.as_bytes()).is_ok();
            put(&mut all, if is_put { "done " } else { "fault " });
        }
    }
    put(&mut all, str::from_utf8(sink.taken()).unwrap_or("?"));
    all
}

/// What a stream took, and whether each put was done.
fn streamed(alloc: Global) -> String {
    let mut stream = Vec::new(alloc);
    let mut sink = StdSink::new(&mut stream);
    let are_put = put_all(&mut sink, b"one").is_ok() && put_all(&mut sink, b"two").is_ok();
    let mut all = String::new(alloc);
    put(&mut all, if are_put { "done " } else { "fault " });
    put(&mut all, str::from_utf8(stream.as_slice()).unwrap_or("?"));
    all
}

#[test]
fn sinks_and_streams_take_all_bytes_in_order(rt: HostRuntime) {
    let expected = "done done done fault done onetwofour";
    assert_eq!(rt; answers(rt.alloc()).as_str(), expected);
    assert_eq!(rt; streamed(rt.alloc()).as_str(), "done onetwo");
}

/// Whether two byte strings are listed in order.
fn are_listed(alloc: Global) -> Result<bool, AllocError> {
    let mut items = Vec::new(alloc);
    items.push(Bytes::copy_from_slice(alloc, b"b")?)?;
    items.push(Bytes::copy_from_slice(alloc, b"a")?)?;
    let lists = ByteLists::of(items);
    let count = lists.as_slice().len();
    Ok(match lists.into_vec().first() {
        Some(first) => count == 2 && first.as_slice() == b"b".as_slice(),
        None => false,
    })
}

#[test]
fn byte_strings_are_listed_in_order(rt: HostRuntime) {
    assert!(rt; are_listed(rt.alloc()).unwrap_or(false));
}
