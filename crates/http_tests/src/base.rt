//! Tests of header fields (FIELDS), names (NAMES), lists in values (LISTS), hosts (HOSTS) and splits (SPLITS); from RFC 9110 by hand.
use crate::rows::{Subject, hold};
use crate::texts::*;
use http_base::*;
use resty_base::Pair2;
use std::alloc::{AllocError, Global};

/// Names have no case.
const NAMES: &str = "\
lower  => []
same   => same
lower Host => [host]
same Host host => same
lower AZaz@[`{ => [azaz@[`{]
same AZaz@[`{ azaz@[`{ => same
lower \u{c3}\u{89}X => [\u{c3}\u{89}x]
same \u{c3}\u{89}X \u{c3}\u{89}x => same
same host hos => another
same  x => another
same a-b a_b => another
same \u{c3}\u{89} \u{c3}\u{a9} => another
same @ ` => another";

/// Fields, steps on them, and the fields at the end.
const FIELDS: &str =
    "fields A=1 B=2 a=3 A-B=4 a=; values a, values c, remove a, count, remove c => [1;3;;][][2]B=2;A-B=4;";

/// Values are lists of elements.
const LISTS: &str = "\
elements  => []
elements chunked => [chunked]
elements x, chunked => [x][chunked]
elements chunked, => [chunked][]
elements , chunked => [][chunked]
elements  \ta b\t ,\t => [a b][]
elements a\x0b,\x0cb => [a\x0b][\x0cb]
elements ,, => [][][]
elements chunked;a=1 => [chunked;a=1]
trimmed  \t  => []";

/// Hosts are plain.
const HOSTS: &str = "\
host  => []
host H => [h]
host H:80 => [h]
host :80 => []
host a:b:c => [a]
host [::1]:80 => [[::1]]
host [::A] => [[::a]]
host [::1 => [[::1]
host u@H => [u@h]
host a[:] => [a[]";

const SPLITS: &str = "\
split a=b=c => [a][b=c]
split a => [a]";

/// What a call of `http_base` gives.
pub(crate) fn answer(alloc: Global, call: &str) -> Result<String, AllocError> {
    let mut all = String::new(alloc);
    let (word, given) = call.split_once(' ').unwrap_or((call, ""));
    write_call(alloc, &mut all, word, given)?;
    Ok(all)
}

/// Writes what a call gives.
fn write_call(alloc: Global, all: &mut String, word: &str, given: &str) -> Result<(), AllocError> {
    let bytes = bytes_of(alloc, given)?;
    match word {
        "lower" => write_part(all, &lower(alloc, &bytes)?),
        "same" => all.push_str(compared(&bytes)),
        "fields" => write_steps(alloc, all, given),
        "elements" => write_elements(alloc, all, &bytes),
        "trimmed" => write_part(all, trimmed(&bytes)),
        "host" => write_part(all, &plain_host(alloc, &bytes)?),
        _ => write_split(all, &bytes),
    }
}

/// Compares two names with a space between.
fn compared(names: &[u8]) -> &'static str {
    let (name, other) = split_once(names, b' ');
    if same_name(name, other.unwrap_or(b"")) {
        "same"
    } else {
        "another"
    }
}

/// Takes the steps of `FIELDS; STEPS`, and writes what each answers, and the fields at the end.
fn write_steps(alloc: Global, all: &mut String, given: &str) -> Result<(), AllocError> {
    let (fields, steps) = given.split_once("; ").unwrap_or((given, ""));
    let mut fields = fields_of(alloc, fields)?;
    take_all(alloc, all, &mut fields, steps)?;
    write_fields(all, fields.into_vec().as_slice())
}

/// Writes fields, `;` after each.
fn write_fields(all: &mut String, fields: &[Pair2]) -> Result<(), AllocError> {
    for field in fields {
        write(all, &field.name)?;
        all.push('=')?;
        write(all, &field.value)?;
        all.push(';')?;
    }
    Ok(())
}

/// Takes steps with `, ` between them.
fn take_all(
    alloc: Global,
    all: &mut String,
    fields: &mut Fields,
    steps: &str,
) -> Result<(), AllocError> {
    for step in steps.split(", ") {
        take(alloc, all, fields, step)?;
    }
    Ok(())
}

/// Takes a step: `values NAME`, `remove NAME` or `count`.
fn take(
    alloc: Global,
    all: &mut String,
    fields: &mut Fields,
    step: &str,
) -> Result<(), AllocError> {
    let (word, name) = step.split_once(' ').unwrap_or((step, ""));
    match word {
        "values" => write_values(alloc, all, fields, name.as_bytes()),
        "remove" => {
            fields.remove(name.as_bytes());
            Ok(())
        }
        _ => {
            let count = fields.as_slice().len();
            all.push_str(format!(in alloc; "[{count}]")?.as_str())
        }
    }
}

/// Writes the values of the fields of a name.
fn write_values(
    alloc: Global,
    all: &mut String,
    fields: &Fields,
    name: &[u8],
) -> Result<(), AllocError> {
    all.push('[')?;
    for value in fields.values_of(alloc, name)?.as_slice() {
        write(all, value)?;
        all.push(';')?;
    }
    all.push(']')
}

/// Writes the elements of a value.
fn write_elements(alloc: Global, all: &mut String, value: &[u8]) -> Result<(), AllocError> {
    for element in elements(alloc, value)?.as_slice() {
        write_part(all, element)?;
    }
    Ok(())
}

/// Writes what stands before and after the first `=`.
fn write_split(all: &mut String, text: &[u8]) -> Result<(), AllocError> {
    let (before, after) = split_once(text, b'=');
    write_part(all, before)?;
    match after {
        Some(after) => write_part(all, after),
        None => Ok(()),
    }
}

#[test]
fn fields_names_lists_and_hosts(rt: HostRuntime) {
    hold(&rt, rt.alloc(), Subject::Base, NAMES);
    hold(&rt, rt.alloc(), Subject::Base, FIELDS);
    hold(&rt, rt.alloc(), Subject::Base, LISTS);
    hold(&rt, rt.alloc(), Subject::Base, HOSTS);
    hold(&rt, rt.alloc(), Subject::Base, SPLITS);
}
