//! Expressions whose values stand somewhere: local and global variables, and entries of tables.

ghost use Rattle.std.specs.Prelude.{◌≡◌, ◌<◌, ◌*◌, false, slice_get, IfSome};
ghost use Rattle.lua_values.specs.declared.values.Value.TheVariants.{Table, Text};
ghost use Rattle.lua_values.specs.Heap.{step_limit};
ghost use Rattle.lua_values.specs.Values.{is_nil};
ghost use Rattle.lua_operators.specs.declared.events.Event.TheVariants.{Index};
ghost use Rattle.lua_meaning.specs.Metatables.{handler};
ghost use Rattle.lua_meaning.specs.Variables.{in_slot};
ghost use Rattle.lua_vm_fast.specs.Gives.{Gives, GivesGlobal, GivesIndex, HasAfter, HasIn};

use crate::numbers::{LEVELS, number_of};
use lua_ast::{Expr, ExprKind};
use lua_meaning::Slot;
use lua_values::{STEP_LIMIT, Store, Value};
use resty_base::Bytes;

/// A value where it stands, and how many steps its expression counts.
#[derive(Clone, Copy)]
pub(crate) struct Seen<'a> {
    pub value: &'a Value,
    pub steps: u64,
}

/// A value of its own, and how many steps its expression counts.
#[derive(Drop)]
pub(crate) struct Valued {
    pub value: Value,
    pub steps: u64,
}

/// Where the value of a variable or of an entry of a table stands. `None` of any other expression, where nothing is found, and where more is asked of a
/// metatable than another table.
#[cycle(numbers)]
pub(crate) fn seen_of<'a>(
    slots: &'a [Slot],
    store: &'a Store,
    x: &Expr,
    levels: u8,
) -> Option<Seen<'a>>
    ensures gives { IfSome result (λ seen. Gives x.now slots.now store.now.heap seen.value.now seen.steps) }
    ensures few { IfSome result (λ seen. seen.steps < step_limit) }
{
    match &x.kind {
        ExprKind::Slot(i) => seen_in_slot(slots, store, *i),
        ExprKind::Global(name) => seen_global(store, name),
        ExprKind::Index(a, b) => seen_at(slots, store, a, b, levels),
        _ => None,
    }
}

/// The same, of a variable without the way through an expression.
#[inline(always)]
pub(crate) fn found_of<'a>(slots: &'a [Slot], store: &'a Store, x: &Expr) -> Option<Seen<'a>>
    ensures gives { IfSome result (λ seen. Gives x.now slots.now store.now.heap seen.value.now seen.steps) }
    ensures few { IfSome result (λ seen. seen.steps < step_limit) }
{
    match &x.kind {
        ExprKind::Slot(i) => seen_in_slot(slots, store, *i),
        ExprKind::Global(name) => seen_global(store, name),
        _ => seen_of(slots, store, x, LEVELS),
    }
}

/// What stands in a slot, or in the cell that it shares.
#[inline(always)]
fn seen_in_slot<'a>(slots: &'a [Slot], store: &'a Store, i: u8) -> Option<Seen<'a>>
    ensures value { IfSome result (λ seen. seen.value.now ≡ in_slot (slice_get slots.now i) store.now.heap) }
    ensures steps { IfSome result (λ seen. seen.steps ≡ 1) }
{
    match slots.get(i as usize) {
        Some(Slot::Plain(value)) => Some(Seen { value, steps: 1 }),
        Some(Slot::Shared(c)) => Some(Seen {
            value: store.cell(*c),
            steps: 1,
        }),
        None => None,
    }
}

/// What the global table has at a name.
fn seen_global<'a>(store: &'a Store, name: &Bytes) -> Option<Seen<'a>>
    ensures gives { IfSome result (λ seen. GivesGlobal name.now store.now.heap seen.value.now seen.steps) }
    ensures few { IfSome result (λ seen. seen.steps < step_limit) }
{
    named(store, store.globals(), name, 1)
}

/// What a table has at the value of an expression.
#[cycle(numbers)]
fn seen_at<'a>(
    slots: &'a [Slot],
    store: &'a Store,
    a: &Expr,
    b: &Expr,
    levels: u8,
) -> Option<Seen<'a>>
    ensures gives { IfSome result (λ seen. GivesIndex a.now b.now slots.now store.now.heap seen.value.now seen.steps) }
    ensures few { IfSome result (λ seen. seen.steps < step_limit) }
{
    if levels == 0 {
        return None;
    }
    let object = seen_of(slots, store, a, levels - 1)?;
    match object.value {
        Value::Table(t) => seen_in(slots, store, *t, b, object.steps, levels - 1),
        _ => None,
    }
}

/// What a table has at the value of an expression, with so many steps before it.
#[cycle(numbers)]
#[inline(always)]
fn seen_in<'a>(
    slots: &'a [Slot],
    store: &'a Store,
    t: u32,
    b: &Expr,
    steps: u64,
    levels: u8,
) -> Option<Seen<'a>>
    requires { steps < step_limit }
    ensures has { IfSome result (λ seen. HasIn store.now.heap t b.now slots.now seen.value.now steps seen.steps) }
    ensures few { IfSome result (λ seen. seen.steps < step_limit) }
{
    match &b.kind {
        ExprKind::Slot(i) => {
            let key = seen_in_slot(slots, store, *i)?;
            found(store, t, key.value, steps + key.steps + 1)
        }
        ExprKind::Text(name) => named(store, t, name, steps + 2),
        _ => {
            let key = value_of(slots, store, b, levels)?;
            found(store, t, &key.value, steps + key.steps + 1)
        }
    }
}

/// What a table has at a key, or else the table that its `__index` is, which counts one more step than so many.
#[inline(always)]
fn found<'a>(store: &'a Store, t: u32, key: &Value, steps: u64) -> Option<Seen<'a>>
    requires { steps < 3 * step_limit }
    ensures has { IfSome result (λ seen. HasAfter store.now.heap t key.now seen.value.now steps seen.steps) }
    ensures few { IfSome result (λ seen. seen.steps < step_limit) }
{
    let own = store.get(t, key);
    if own.is_nil() {
        let other = linked(store, t)?;
        there(store.get(other, key), steps + 1)
    } else {
        there(own, steps)
    }
}

/// The same at a text.
#[inline(always)]
fn named<'a>(store: &'a Store, t: u32, name: &Bytes, steps: u64) -> Option<Seen<'a>>
    requires { steps < 3 * step_limit }
    ensures has { IfSome result (λ seen. HasAfter store.now.heap t (Text name.now) seen.value.now steps seen.steps) }
    ensures few { IfSome result (λ seen. seen.steps < step_limit) }
{
    let text = name.as_slice();
    let own = store.get_text(t, text);
    if own.is_nil() {
        let other = linked(store, t)?;
        there(store.get_text(other, text), steps + 1)
    } else {
        there(own, steps)
    }
}

/// The table that the `__index` of a table is (Lua 5.1 Reference Manual, 2.8).
fn linked(store: &Store, t: u32) -> Option<u32>
    ensures { IfSome result (λ other. handler store.now.heap (Table t) Index ≡ Table other) }
{
    let meta = store.metatable(t)?;
    match store.get_link(meta) {
        Value::Table(other) => Some(*other),
        _ => None,
    }
}

/// A value that isn't nil, if its steps are few enough for a run.
#[inline(always)]
fn there(value: &Value, steps: u64) -> Option<Seen<'_>>
    ensures value { IfSome result (λ seen. seen.value.now ≡ value.now) }
    ensures there { IfSome result (λ seen. is_nil seen.value.now ≡ false) }
    ensures steps { IfSome result (λ seen. seen.steps ≡ steps) }
    ensures few { IfSome result (λ seen. seen.steps < step_limit) }
{
    if value.is_nil() || steps >= STEP_LIMIT {
        None
    } else {
        Some(Seen { value, steps })
    }
}

/// The value of a constant, of a variable, of an entry of a table, or of an expression of numbers. `None` of any other expression.
#[cycle(numbers)]
pub(crate) fn value_of(slots: &[Slot], store: &Store, x: &Expr, levels: u8) -> Option<Valued>
    ensures gives { IfSome result (λ v. Gives x.now slots.now store.now.heap v.value v.steps) }
    ensures few { IfSome result (λ v. v.steps < step_limit) }
{
    match &x.kind {
        ExprKind::Nil => Some(Valued {
            value: Value::Nil,
            steps: 1,
        }),
        ExprKind::True => Some(Valued {
            value: Value::Truth(true),
            steps: 1,
        }),
        ExprKind::False => Some(Valued {
            value: Value::Truth(false),
            steps: 1,
        }),
        ExprKind::Text(text) => text_value(text),
        ExprKind::Number(_) | ExprKind::Binary(_, _, _) => {
            let n = number_of(slots, store, x, levels)?;
            Some(Valued {
                value: Value::Number(n.number),
                steps: n.steps,
            })
        }
        _ => {
            let seen = seen_of(slots, store, x, levels)?;
            copied(seen.value, seen.steps)
        }
    }
}

/// A text.
fn text_value(text: &Bytes) -> Option<Valued>
    ensures value { IfSome result (λ v. v.value ≡ Text text.now) }
    ensures steps { IfSome result (λ v. v.steps ≡ 1) }
{
    match text.clone() {
        Ok(text) => Some(Valued {
            value: Value::Text(text),
            steps: 1,
        }),
        Err(_) => None,
    }
}

/// A value of its own, of one that stands somewhere.
fn copied(value: &Value, steps: u64) -> Option<Valued>
    ensures value { IfSome result (λ v. v.value ≡ value.now) }
    ensures steps { IfSome result (λ v. v.steps ≡ steps) }
{
    match value.clone() {
        Ok(value) => Some(Valued { value, steps }),
        Err(_) => None,
    }
}
