//! `t[k]` and `t[k] = x` (Lua 5.1 Reference Manual, 2.3 and 2.8).

ghost use Rattle.std.specs.Prelude.{◌≡◌};
ghost use Rattle.lua_meaning.specs.Setting.{Setting};
ghost use Rattle.lua_meaning.specs.Positions.{callers_at};
ghost use Rattle.lua_meaning.specs.Calls.{call_for_one};
ghost use Rattle.lua_meaning.specs.Indexing.{index_work, set_raw, store_work};
ghost use Rattle.lua_frames.specs.Frames.{here, slots_of};
ghost use Rattle.lua_frames.specs.Follows.{Works, Takes};
ghost use Rattle.lua_vm_tables.specs.Chains.{dropping};

use crate::chains::{Read, find_value};
use crate::destinations::{Destination, find_destination};
use crate::setting::set_pair;
use lua_ast::Program;
use lua_frames::{
    Flow, Frames, Host, Item, give_nothing, give_one, raise_fault, raise_operand, take_first, wait,
};
use lua_operators::{OperandFault, type_of};
use lua_values::{Store, Value};
use lua_vm_calls::{call_for_one, enter_call, three, two};
use std::alloc::AllocError;

/// Calls a handler whose values are dropped.
fn call_for_none<H: Host>(
    frames: &mut Frames,
    host: &H,
    store: &mut Store,
    line: u32,
    by: Value,
    args: Vec<Value>,
) -> Result<Flow, AllocError>
    ensures { Works (H.setting host.now) (call_for_one (callers_at (here frames.old) line) by args.items (slots_of frames.old) dropping)
        frames.old store.old frames.new store.new result }
{
    wait(frames, Item::Discard)?;
    enter_call(frames, host, store, line, by, args)
}

/// `value[key]` at a line.
pub fn index<H: Host>(
    frames: &mut Frames,
    host: &H,
    store: &mut Store,
    line: u32,
    value: Value,
    key: Value,
) -> Result<Flow, AllocError>
    ensures { Works (H.setting host.now) (index_work (H.setting host.now) line value key (here frames.old) (slots_of frames.old))
        frames.old store.old frames.new store.new result }
{
    match find_value(store, value, &key)? {
        Read::Gives(found) => give_one(frames, found),
        Read::Calls(by, object) => {
            let args = two(&mut frames.lists, object, key)?;
            call_for_one(frames, host, store, line, by, args)
        }
        Read::Unindexable(found) => {
            raise_operand(frames, host.program(), line, OperandFault::Index(found))
        }
        Read::Spent => Ok(Flow::Spent),
    }
}

/// `owner[key] = value` at a line, whatever the metatable.
fn set_raw(
    frames: &mut Frames,
    program: &Program,
    store: &mut Store,
    line: u32,
    owner: Value,
    key: Value,
    value: Value,
) -> Result<Flow, AllocError>
    ensures { (S : Setting) → S.program ≡ program.now
        → Works S (set_raw S line owner key value (here frames.old) (slots_of frames.old)) frames.old store.old frames.new store.new result }
{
    match owner {
        Value::Table(t) => match set_pair(store, t, key, value)? {
            None => give_nothing(frames),
            Some(fault) => raise_fault(frames, program, line, fault),
        },
        other => raise_operand(frames, program, line, OperandFault::Index(type_of(&other))),
    }
}

/// `object[key] = value` at a line.
pub fn store_at<H: Host>(
    frames: &mut Frames,
    host: &H,
    store: &mut Store,
    line: u32,
    object: Value,
    key: Value,
    value: Value,
) -> Result<Flow, AllocError>
    ensures { Works (H.setting host.now) (store_work (H.setting host.now) line object key value (here frames.old) (slots_of frames.old))
        frames.old store.old frames.new store.new result }
{
    match find_destination(store, object, &key)? {
        Destination::Itself(owner) => {
            set_raw(frames, host.program(), store, line, owner, key, value)
        }
        Destination::Calls(by, object) => {
            let args = three(&mut frames.lists, object, key, value)?;
            call_for_none(frames, host, store, line, by, args)
        }
        Destination::Spent => Ok(Flow::Spent),
    }
}

/// The key of an index is there.
pub fn at<H: Host>(
    frames: &mut Frames,
    host: &H,
    store: &mut Store,
    line: u32,
    value: Value,
) -> Result<Flow, AllocError>
    ensures { Takes (H.setting host.now) (Item.At line value) frames.old store.old frames.new store.new result }
{
    match take_first(frames) {
        None => Ok(Flow::Went),
        Some(key) => index(frames, host, store, line, value, key),
    }
}
