//! Calls of a store as lines, each with its answer after ` = `.

use super::words::*;
use crate::values::expect;
use lua_values::{Shift, Store, StoreFault, Value};
use std::alloc::{AllocError, Global};
use std::process::Abort;

/// A store and its copies, and which of them the calls are of.
#[derive(Drop)]
struct Stores {
    all: Vec<Store>,
    current: usize,
}

/// A new store alone.
fn one(alloc: Global) -> Result<Stores, AllocError> {
    let first = Store::new(alloc)?;
    Ok(Stores {
        all: vec![in alloc; first]?,
        current: 0,
    })
}

/// Tests each line of a script, whose calls are of a new store; `copy` makes a copy beside it, `replace` puts one instead of
/// it, and `store N` goes over to the N-th, from 0.
pub(super) fn hold(rt: &impl Abort, alloc: Global, script: &str) {
    match one(alloc) {
        Ok(mut stores) => hold_on(rt, alloc, &mut stores, script),
        Err(fault) => assert!(rt; false, "{fault}"),
    }
}

/// Tests each line, whose calls are of these stores.
fn hold_on(rt: &impl Abort, alloc: Global, stores: &mut Stores, script: &str) {
    for line in script.lines() {
        let (call, expected) = line.split_once(" = ").unwrap_or((line, ""));
        expect(rt, answer(alloc, stores, call).as_str(), expected, line);
    }
}

/// What a call answers.
fn answer(alloc: Global, stores: &mut Stores, call: &str) -> String {
    let mut all = String::new(alloc);
    let (name, given) = call.split_once(' ').unwrap_or((call, ""));
    match name {
        "store" => stores.current = id(given) as usize,
        "copy" => put(&mut all, copied(stores)),
        _ => see_of(alloc, &mut all, stores, name, given),
    }
    all
}

/// Puts a copy of the current store after the others.
fn copy(stores: &mut Stores) -> Result<(), AllocError> {
    if let Some(store) = stores.all.get(stores.current) {
        let copy = store.copy_store()?;
        stores.all.push(copy)?;
    }
    Ok(())
}

/// Puts a copy of the current store after the others, and says where there is no memory.
fn copied(stores: &mut Stores) -> &'static str {
    match copy(stores) {
        Ok(()) => "",
        Err(_) => "memory",
    }
}

/// Writes what a call of the current store answers.
fn see_of(alloc: Global, all: &mut String, stores: &mut Stores, name: &str, given: &str) {
    match stores.all.get_mut(stores.current) {
        Some(store) => see(alloc, all, store, name, given),
        None => put(all, "no store"),
    }
}

/// Writes what a call answers.
fn see(alloc: Global, all: &mut String, store: &mut Store, name: &str, given: &str) {
    match name {
        "get" | "next" | "walk" | "border" | "metatable" | "link" => {
            see_table(alloc, all, store, name, given);
        }
        "set" | "set_metatable" | "set_cell" | "shift" | "add_units" => {
            put(all, said(change(alloc, store, name, given)));
        }
        "make_table" | "make_cell" | "make_closure" => {
            see_made(all, make(alloc, store, name, given));
        }
        "cell" | "closure" | "type_metatable" | "units" | "steps" | "globals" => {
            see_part(all, store, name, given);
        }
        _ => put(all, tell(store, name, given)),
    }
}

/// Writes what is read of a table.
fn see_table(alloc: Global, all: &mut String, store: &Store, name: &str, given: &str) {
    let (table, key) = given.split_once(' ').unwrap_or((given, ""));
    let t = id(table);
    match name {
        "walk" => see_pairs(all, store, t),
        "border" => put_number(all, "", store.border(t)),
        "metatable" => see_optional(all, store.metatable(t)),
        "link" => see_value(all, store.get_link(t)),
        _ => see_at(all, store, t, &value(alloc, key), name == "next"),
    }
}

/// Writes the value at a key, or the pair after it.
fn see_at(all: &mut String, store: &Store, t: u32, key: &Value, is_after: bool) {
    if is_after {
        see_next(all, store.next(t, key));
    } else {
        see_value(all, store.get(t, key));
    }
}

/// Writes a pair, or `none`.
fn see_next(all: &mut String, next: Result<Option<(Value, Value)>, AllocError>) {
    match next {
        Ok(None) => put(all, "none"),
        Ok(Some((key, found))) => {
            see_value(all, &key);
            put(all, " ");
            see_value(all, &found);
        }
        Err(_) => put(all, "out of memory"),
    }
}

/// Writes the values of a table of at most 100 pairs in the order of `next`.
fn see_pairs(all: &mut String, store: &Store, t: u32) {
    let mut key = Value::Nil;
    for _ in 0..100 {
        let Ok(Some((next, found))) = store.next(t, &key) else {
            return;
        };
        if !all.is_empty() {
            put(all, " ");
        }
        see_value(all, &found);
        key = next;
    }
}

/// Changes a table or a cell, or adds units.
fn change(alloc: Global, store: &mut Store, name: &str, given: &str) -> Result<(), StoreFault> {
    let (first, after) = given.split_once(' ').unwrap_or((given, ""));
    match name {
        "add_units" => store.add_units(count(first)),
        "set_metatable" => store.set_metatable(id(first), optional(after)),
        "set_cell" => store.set_cell(id(first), value(alloc, after)),
        "shift" => shift(store, id(first), shift_of(after)),
        _ => {
            let (key, new) = after.split_once(' ').unwrap_or((after, ""));
            store.set(id(first), value(alloc, key), value(alloc, new))
        }
    }
}

/// Which values move: the first number and the last, and `up` or `down`.
fn shift_of(given: &str) -> Shift {
    let (from, after) = given.split_once(' ').unwrap_or((given, ""));
    let (to, direction) = after.split_once(' ').unwrap_or((after, ""));
    Shift {
        from: count(from),
        to: count(to),
        up: direction == "up",
    }
}

/// Moves values.
fn shift(store: &mut Store, t: u32, by: Shift) -> Result<(), StoreFault> {
    if by.from == 0 || by.to >= 99_999_999_999_999 {
        return Err(StoreFault::BadKey);
    }
    store.shift(t, by.from, by.to, by.up)
}

/// What a call that gives nothing returns, in a word.
fn said(outcome: Result<(), StoreFault>) -> &'static str {
    match outcome {
        Ok(()) => "ok",
        Err(StoreFault::BadKey) => "bad key",
        Err(StoreFault::Frozen) => "frozen",
        Err(StoreFault::Full) => "full",
        Err(StoreFault::Memory) => "memory",
    }
}

/// Makes something, and gives its number.
fn make(alloc: Global, store: &mut Store, name: &str, given: &str) -> Result<u32, StoreFault> {
    match name {
        "make_table" => store.make_table(),
        "make_cell" => store.make_cell(value(alloc, given)),
        _ => {
            let (function, cells) = given.split_once(' ').unwrap_or((given, ""));
            store.make_closure(id(function), &ids(alloc, cells)?)
        }
    }
}

/// Writes the number of what was made, or why it wasn't.
fn see_made(all: &mut String, made: Result<u32, StoreFault>) {
    match made {
        Ok(number) => put_number(all, "", u64::from(number)),
        Err(fault) => put(all, said(Err(fault))),
    }
}

/// The numbers between blanks.
fn ids(alloc: Global, words: &str) -> Result<Vec<u32>, AllocError> {
    let mut all = Vec::new(alloc);
    for word in words.split_whitespace() {
        all.push(id(word))?;
    }
    Ok(all)
}

/// Writes a cell, a closure, the metatable of a type, or a count.
fn see_part(all: &mut String, store: &Store, name: &str, given: &str) {
    match name {
        "cell" => see_value(all, store.cell(id(given))),
        "closure" => see_closure(all, store.closure(id(given))),
        "type_metatable" => see_optional(all, store.type_metatable(type_kind(given))),
        "units" => put_number(all, "", store.units()),
        "steps" => put_number(all, "", store.steps()),
        _ => put_number(all, "", u64::from(store.globals())),
    }
}

/// Writes the function and the cells of a closure, or `none`.
fn see_closure(all: &mut String, closure: Option<(u32, &[u32])>) {
    match closure {
        None => put(all, "none"),
        Some((function, cells)) => {
            put_number(all, "", u64::from(function));
            for cell in cells {
                put_number(all, " ", u64::from(*cell));
            }
        }
    }
}

/// Makes a call that answers nothing, or whether steps are left.
fn tell(store: &mut Store, name: &str, given: &str) -> &'static str {
    match name {
        "count" => return if store.count(count(given)) {
            "true"
        } else {
            "false"
        },
        "add_steps" => store.add_steps(count(given)),
        "clear_steps" => store.clear_steps(),
        "set_globals" => store.set_globals(id(given)),
        "set_type_metatable" => {
            let (kind, table) = given.split_once(' ').unwrap_or((given, ""));
            store.set_type_metatable(type_kind(kind), optional(table));
        }
        "freeze" => store.freeze(),
        "replace" => return replace(store),
        _ => return "no such call",
    }
    ""
}

/// Puts a copy of a store in its place.
fn replace(store: &mut Store) -> &'static str {
    match store.copy_store() {
        Ok(copy) => {
            *store = copy;
            ""
        }
        Err(_) => "memory",
    }
}
