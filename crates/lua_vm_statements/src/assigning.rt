//! Values that are assigned to targets, and those of new local variables (Lua 5.1 Reference Manual, 2.4.3 and 2.4.7).

ghost use Rattle.std.specs.Prelude.{◌≡◌, ℕ, [], map, slice_get, Some};
ghost use Rattle.lua_values.specs.declared.values.Value.{Value as LuaValue};
ghost use Rattle.lua_values.specs.Heap.{StoreView};
ghost use Rattle.lua_meaning.specs.Setting.{Setting};
ghost use Rattle.lua_meaning.specs.Positions.{callers_at};
ghost use Rattle.lua_meaning.specs.Signs.{give};
ghost use Rattle.lua_meaning.specs.Variables.{write_cell, write_slot};
ghost use Rattle.lua_meaning.specs.Assignments.{assign_to};
ghost use Rattle.lua_frames.specs.Items.{target_of, assign_values};
ghost use Rattle.lua_frames.specs.Frames.{here, slots_of};
ghost use Rattle.lua_frames.specs.Follows.{Takes, Works};
ghost use Rattle.lua_frames.specs.Signals.{sign_of};
ghost use Rattle.lua_vm_statements.specs.Assignments.{Does, has_failed};

use crate::faults::fail;
use lua_ast::Program;
use lua_frames::{
    Flow, Frames, Host, Item, Signal, Target, give_nothing, put_plain, set_locals, take_first,
    take_value, take_values, wait,
};
use lua_meaning::Slot;
use lua_operators::Fault;
use lua_values::{Store, StoreFault, Value};
use lua_vm_tables::store_at;
use std::alloc::AllocError;
use std::rc::Rc;

/// A value is assigned to a slot.
pub(crate) fn assign_slot(
    frames: &mut Frames,
    program: &Program,
    store: &mut Store,
    line: u32,
    i: u8,
    value: Value,
) -> Result<Flow, AllocError>
    ensures { (S : Setting) → S.program ≡ program.now
        → Does S (write_slot S (callers_at (here frames.old) line) (slice_get (slots_of frames.old) i) i value (slots_of frames.old) (give []))
        frames.old store.old frames.new store.new result }
{
    match frames.top.slots.get(i as usize) {
        None => give_nothing(frames),
        Some(Slot::Shared(c)) => {
            let c = *c;
            write_cell(frames, program, store, line, c, value)
        }
        Some(Slot::Plain(_)) => {
            put_plain(frames, i, value);
            give_nothing(frames)
        }
    }
}

/// A value is written to a cell.
fn write_cell(
    frames: &mut Frames,
    program: &Program,
    store: &mut Store,
    line: u32,
    c: u32,
    value: Value,
) -> Result<Flow, AllocError>
    ensures { (S : Setting) → S.program ≡ program.now
        → Does S (write_cell S (callers_at (here frames.old) line) (Some c) value (slots_of frames.old) (give [] (slots_of frames.old)))
        frames.old store.old frames.new store.new result }
{
    match store.set_cell(c, value) {
        Ok(()) => give_nothing(frames),
        Err(StoreFault::Frozen) => fail(frames, program, line, Fault::FrozenVariable),
        Err(StoreFault::Full) => fail(frames, program, line, Fault::StorageLimit),
        Err(StoreFault::BadKey) => fail(frames, program, line, Fault::NilKey),
        Err(StoreFault::Memory) => Err(AllocError),
    }
}

/// A value is assigned to a target that is no value at a key.
fn assign_variable(
    frames: &mut Frames,
    program: &Program,
    store: &mut Store,
    target: Target,
    value: Value,
) -> Result<Flow, AllocError>
    requires { (line : ℕ) → (object key : LuaValue) → target ≡ Target.AtKey line object key → ⊥ }
    ensures { (S : Setting) → S.program ≡ program.now
        → Does S (assign_to S (target_of target) value (here frames.old) (slots_of frames.old)) frames.old store.old frames.new store.new result }
{
    match target {
        Target::Slot(line, i) => assign_slot(frames, program, store, line, i, value),
        Target::Captured(line, i) => assign_captured(frames, program, store, line, i, value),
        Target::AtKey(_, _, _) => unreachable!(),
        Target::Nowhere => give_nothing(frames),
    }
}

/// A value is assigned to a captured variable.
fn assign_captured(
    frames: &mut Frames,
    program: &Program,
    store: &mut Store,
    line: u32,
    i: u8,
    value: Value,
) -> Result<Flow, AllocError>
    ensures { (S : Setting) → S.program ≡ program.now
        → Does S (write_cell S (callers_at (here frames.old) line) (slice_get (here frames.old).cells i) value (slots_of frames.old)
        (give [] (slots_of frames.old)))
        frames.old store.old frames.new store.new result }
{
    match frames.top.cells.get(i as usize) {
        None => give_nothing(frames),
        Some(c) => {
            let c = *c;
            write_cell(frames, program, store, line, c, value)
        }
    }
}

/// Values are assigned to targets, from the last to the first. An assignment at a key may call a handler, so those that are left then
/// wait.
fn assign_values<H: Host>(
    frames: &mut Frames,
    host: &H,
    store: &mut Store,
    targets: Vec<Target>,
    values: Vec<Value>,
) -> Result<Flow, AllocError>
    ensures { Works (H.setting host.now) (assign_values (H.setting host.now) (map target_of targets.items) values.items (here frames.old) (slots_of frames.old))
        frames.old store.old frames.new store.new result }
{
    let mut targets = targets;
    let mut values = values;
    while let Some(target) = targets.pop() {
        let value = take_value(&mut values, targets.len());
        match target {
            Target::AtKey(line, object, key) => {
                wait(frames, Item::Stores(targets, values))?;
                return store_at(frames, host, store, line, object, key, value);
            }
            other => match assign_variable(frames, host.program(), store, other, value)? {
                Flow::Went => {
                    if has_failed(&frames.given) {
                        return Ok(Flow::Went);
                    }
                }
                flow => return Ok(flow),
            },
        }
    }
    give_nothing(frames)
}

/// Whether what is given is a fault.
fn has_failed(given: &Signal) -> bool
    ensures { result ≡ has_failed (sign_of given.now) }
{
    match given {
        Signal::Raised(_) => true,
        _ => false,
    }
}

/// The values of an assignment are there.
pub fn assign<H: Host>(
    frames: &mut Frames,
    host: &H,
    store: &mut Store,
    targets: Vec<Target>,
) -> Result<Flow, AllocError>
    ensures { Takes (H.setting host.now) (Item.Assign targets) frames.old store.old frames.new store.new result }
{
    match take_values(frames)? {
        None => Ok(Flow::Went),
        Some(values) => assign_values(frames, host, store, targets, values),
    }
}

/// The value of an assignment to a slot is there.
pub fn assign_to_slot<H: Host>(
    frames: &mut Frames,
    host: &H,
    store: &mut Store,
    line: u32,
    i: u8,
) -> Result<Flow, AllocError>
    ensures { Takes (H.setting host.now) (Item.AssignSlot line i) frames.old store.old frames.new store.new result }
{
    match take_first(frames) {
        None => Ok(Flow::Went),
        Some(value) => assign_slot(frames, host.program(), store, line, i, value),
    }
}

/// An assignment at a key has ended, and those that are left follow.
pub fn stores<H: Host>(
    frames: &mut Frames,
    host: &H,
    store: &mut Store,
    targets: Vec<Target>,
    values: Vec<Value>,
) -> Result<Flow, AllocError>
    ensures { Takes (H.setting host.now) (Item.Stores targets values) frames.old store.old frames.new store.new result }
{
    match take_first(frames) {
        None => Ok(Flow::Went),
        Some(_) => assign_values(frames, host, store, targets, values),
    }
}

/// New local variables get their values.
pub fn locals(frames: &mut Frames, slots: Rc<Vec<u8>>) -> Result<Flow, AllocError>
    ensures { (S : Setting) → (store : StoreView) → Takes S (Item.Locals slots) frames.old store frames.new store result }
{
    match take_values(frames)? {
        None => Ok(Flow::Went),
        Some(values) => {
            let mut values = values;
            set_locals(&mut frames.top.slots, &slots, &mut values);
            frames.lists.values.spare(values);
            give_nothing(frames)
        }
    }
}
