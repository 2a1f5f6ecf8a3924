//! The items of table constructors (Lua 5.1 Reference Manual, 2.5.7).

ghost use Rattle.std.specs.Prelude.{◌≡◌, ◌+◌, ◌<◌, ◌^◌, IfOk, OnOk, drop};
ghost use Rattle.lua_values.specs.declared.values.Value.TheVariants.{Table};
ghost use Rattle.lua_values.specs.Values.{number};
ghost use Rattle.lua_meaning.specs.Setting.{Setting};
ghost use Rattle.lua_meaning.specs.Positions.{callers_at};
ghost use Rattle.lua_meaning.specs.Signs.{give_one};
ghost use Rattle.lua_meaning.specs.Tables.{fill};
ghost use Rattle.lua_frames.specs.Items.{items_left, value_at_key};
ghost use Rattle.lua_frames.specs.Frames.{here, slots_of};
ghost use Rattle.lua_frames.specs.Follows.{Works, Takes};
ghost use Rattle.lua_vm_tables.specs.Sets.{Fills};

use crate::setting::set_pair;
use lua_ast::{Program, TableItem};
use lua_frames::{
    Constructor, Flow, Frames, Host, Item, element, give_one, raise_fault, share, take_first,
    take_values,
};
use lua_operators::Fault;
use lua_values::{Store, Value};
use lua_vm_expressions::{expr_under, value_under};
use resty_base::{Boxed, Whole};
use std::alloc::AllocError;

/// A number as a key. No memory holds more items than a number tells.
fn key_of(n: u64) -> Result<Value, AllocError>
    ensures key { IfOk result (λ key. key ≡ number n) }
    ensures few { OnOk result (n < 2 ^ 63) }
{
    match i64::try_from(n) {
        Ok(n) => match Whole::new(n) {
            Some(n) => Ok(Value::Number(n)),
            None => Err(AllocError),
        },
        Err(_) => Err(AllocError),
    }
}

/// A constructor goes on with its next item.
pub fn next_items<H: Host>(
    frames: &mut Frames,
    host: &H,
    store: &mut Store,
    c: Constructor,
) -> Result<Flow, AllocError>
    ensures { Takes (H.setting host.now) (Item.Items c) frames.old store.old frames.new store.new result }
{
    match take_first(frames) {
        None => Ok(Flow::Went),
        Some(_) => next_item(frames, host, store, c),
    }
}

/// Evaluates the next item of a constructor, or gives its table.
pub fn next_item<H: Host>(
    frames: &mut Frames,
    host: &H,
    store: &mut Store,
    c: Constructor,
) -> Result<Flow, AllocError>
    ensures { Works (H.setting host.now) (items_left (H.setting host.now) c.number c (here frames.old) (slots_of frames.old))
        frames.old store.old frames.new store.new result }
{
    let items = share(&c.items)?;
    let next = c.next;
    match element(&items, next) {
        None => give_one(frames, Value::Table(c.table)),
        Some(TableItem::Pair(key, _)) => value_under(frames, host, store, Item::ItemKey(c), key),
        Some(TableItem::Item(value)) => {
            let Constructor {
                line,
                table,
                number,
                items: shared,
                ..
            } = c;
            let left = Constructor {
                line,
                table,
                number,
                items: shared,
                next: next + 1,
            };
            if next + 1 < items.len() {
                value_under(frames, host, store, Item::ItemAtNumber(left), value)
            } else {
                expr_under(frames, host, store, Item::ItemsAtNumbers(left), value)
            }
        }
    }
}

/// The key of an item is there, and its value is evaluated.
pub fn item_key<H: Host>(
    frames: &mut Frames,
    host: &H,
    store: &mut Store,
    c: Constructor,
) -> Result<Flow, AllocError>
    ensures { Takes (H.setting host.now) (Item.ItemKey c) frames.old store.old frames.new store.new result }
{
    match take_first(frames) {
        None => Ok(Flow::Went),
        Some(key) => begin_value(frames, host, store, c, key),
    }
}

/// Evaluates the value of an item whose key is there.
fn begin_value<H: Host>(
    frames: &mut Frames,
    host: &H,
    store: &mut Store,
    c: Constructor,
    key: Value,
) -> Result<Flow, AllocError>
    ensures { Works (H.setting host.now) (value_at_key (H.setting host.now) c (drop c.next c.items.value.items) key (here frames.old) (slots_of frames.old))
        frames.old store.old frames.new store.new result }
{
    let items = share(&c.items)?;
    let next = c.next;
    match element(&items, next) {
        Some(TableItem::Pair(_, value)) => {
            let Constructor {
                line,
                table,
                number,
                items: shared,
                ..
            } = c;
            let left = Constructor {
                line,
                table,
                number,
                items: shared,
                next: next + 1,
            };
            let key = Boxed::new(frames.alloc, key)?;
            value_under(frames, host, store, Item::ItemAtKey(left, key), value)
        }
        Some(TableItem::Item(_)) => give_one(frames, Value::Table(c.table)),
        None => give_one(frames, Value::Table(c.table)),
    }
}

/// The value of an item with a key is there.
pub fn item_at_key<H: Host>(
    frames: &mut Frames,
    host: &H,
    store: &mut Store,
    c: Constructor,
    key: Value,
) -> Result<Flow, AllocError>
    ensures { Takes (H.setting host.now) (Item.ItemAtKey c key) frames.old store.old frames.new store.new result }
{
    match take_first(frames) {
        None => Ok(Flow::Went),
        Some(value) => match set_pair(store, c.table, key, value)? {
            None => next_item(frames, host, store, c),
            Some(fault) => raise_fault(frames, host.program(), c.line, fault),
        },
    }
}

/// The value of an item without a key is there.
pub fn item_at_number<H: Host>(
    frames: &mut Frames,
    host: &H,
    store: &mut Store,
    c: Constructor,
) -> Result<Flow, AllocError>
    ensures { Takes (H.setting host.now) (Item.ItemAtNumber c) frames.old store.old frames.new store.new result }
{
    match take_first(frames) {
        None => Ok(Flow::Went),
        Some(value) => {
            let key = key_of(c.number)?;
            match set_pair(store, c.table, key, value)? {
                None => {
                    let Constructor {
                        line,
                        table,
                        number,
                        items,
                        next,
                    } = c;
                    let left = Constructor {
                        line,
                        table,
                        number: number + 1,
                        items,
                        next,
                    };
                    next_item(frames, host, store, left)
                }
                Some(fault) => raise_fault(frames, host.program(), c.line, fault),
            }
        }
    }
}

/// The values of the last item are there.
pub fn items_at_numbers<H: Host>(
    frames: &mut Frames,
    host: &H,
    store: &mut Store,
    c: Constructor,
) -> Result<Flow, AllocError>
    ensures { Takes (H.setting host.now) (Item.ItemsAtNumbers c) frames.old store.old frames.new store.new result }
{
    match take_values(frames)? {
        None => Ok(Flow::Went),
        Some(values) => fill(
            frames,
            host.program(),
            store,
            c.line,
            c.table,
            c.number,
            values,
        ),
    }
}

/// Sets values at the numbers from one on, and gives the table.
fn fill(
    frames: &mut Frames,
    program: &Program,
    store: &mut Store,
    line: u32,
    table: u32,
    number: u64,
    values: Vec<Value>,
) -> Result<Flow, AllocError>
    ensures { (S : Setting) → S.program ≡ program.now
        → Works S (fill S (callers_at (here frames.old) line) table number values.items (slots_of frames.old) (give_one (Table table) (slots_of frames.old)))
        frames.old store.old frames.new store.new result }
{
    match fill_numbers(store, table, number, values.as_slice())? {
        None => {
            frames.lists.values.spare(values);
            give_one(frames, Value::Table(table))
        }
        Some(fault) => raise_fault(frames, program, line, fault),
    }
}

/// Sets values at the numbers of a table from one on, and gives the fault where the store refuses one.
fn fill_numbers(
    store: &mut Store,
    t: u32,
    number: u64,
    values: &[Value],
) -> Result<Option<Fault>, AllocError>
    ensures { IfOk result (λ fault. Fills t number values.now store.old fault store.new) }
{
    let mut number = number;
    for value in values {
        let key = key_of(number)?;
        match set_pair(store, t, key, value.clone()?)? {
            None => {}
            Some(fault) => return Ok(Some(fault)),
        }
        number += 1;
    }
    Ok(None)
}
