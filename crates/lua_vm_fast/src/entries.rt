//! Assignments to entries of tables and to global variables, that are done at once (Lua 5.1 Reference Manual, 2.4.3).

ghost use Rattle.std.specs.Prelude.{◌≡◌, ◌+◌, ◌*◌, ◌<◌, true, IfSome};
ghost use Rattle.lua_ast.specs.declared.statements.Stmt.{Stmt as LuaStmt};
ghost use Rattle.lua_vm_fast.specs.Runs.{RunsIf};
ghost use Rattle.lua_values.specs.declared.values.Value.TheVariants.{Number, Table, Text};
ghost use Rattle.lua_values.specs.Heap.{step_limit};
ghost use Rattle.lua_vm_fast.specs.Gives.{Gives};
ghost use Rattle.lua_vm_fast.specs.Entries.{IsStore, IsGlobal, IsOwn, PutsIf, StoresAt, StoresIn};

use crate::numbers::{Counted, LEVELS, number_of};
use crate::places::{Valued, seen_of, value_of};
use crate::steps::affords;
use lua_ast::{Expr, ExprKind};
use lua_meaning::Slot;
use lua_values::{Store, Value};
use resty_base::{Bytes, Whole};

/// A value for a key of a table, and how many steps their expressions count.
#[derive(Drop)]
struct Entry {
    table: u32,
    key: Value,
    value: Value,
    steps: u64,
}

/// A key of a table, and how many steps their expressions count.
#[derive(Drop)]
struct Spot {
    table: u32,
    key: Value,
    steps: u64,
}

/// A table, and how many steps its expression counts.
#[derive(Clone, Copy)]
struct Object {
    table: u32,
    steps: u64,
}

/// `a[b] = x`, which counts a step, and one for its target.
pub(crate) fn run_store(
    slots: &mut Vec<Slot>,
    store: &mut Store,
    a: &Expr,
    b: &Expr,
    x: &Expr,
) -> bool
    ensures { (stmt : LuaStmt) → IsStore a.now b.now x.now stmt → RunsIf result stmt slots.old.items store.old slots.new.items store.new }
{
    match object_of(slots, store, a) {
        None => false,
        Some(object) => store_in(slots, store, object, b, x),
    }
}

/// The table that an expression gives.
#[inline(always)]
fn object_of(slots: &[Slot], store: &Store, a: &Expr) -> Option<Object>
    ensures gives { IfSome result (λ object. Gives a.now slots.now store.now.heap (Table object.table) object.steps) }
    ensures few { IfSome result (λ object. object.steps < step_limit) }
{
    let object = seen_of(slots, store, a, LEVELS)?;
    match object.value {
        Value::Table(table) => Some(Object {
            table: *table,
            steps: object.steps,
        }),
        _ => None,
    }
}

/// Sets an entry of a table, at the value of b to that of x.
#[inline(always)]
fn store_in(slots: &[Slot], store: &mut Store, object: Object, b: &Expr, x: &Expr) -> bool
    requires { object.steps < step_limit }
    ensures { StoresIn result object b.now x.now slots.now store.old store.new }
{
    match number_of(slots, store, b, LEVELS) {
        Some(n) => store_at_number(slots, store, object, n, x),
        None => match &b.kind {
            ExprKind::Text(name) => {
                store_named(slots, store, object.table, name, object.steps + 1, x)
            }
            _ => store_at_other(slots, store, object, b, x),
        },
    }
}

/// The same of a number as the key.
#[inline(always)]
fn store_at_number(slots: &[Slot], store: &mut Store, object: Object, n: Counted, x: &Expr) -> bool
    requires object { object.steps < step_limit }
    requires key { n.steps < step_limit }
    ensures { StoresAt result (record { table = object.table; key = Number n.number; steps = object.steps + n.steps }) x.now slots.now store.old store.new }
{
    match number_of(slots, store, x, LEVELS) {
        Some(m) => put_number(
            store,
            object.table,
            n.number,
            m.number,
            object.steps + n.steps + m.steps,
        ),
        None => {
            let spot = Spot {
                table: object.table,
                key: Value::Number(n.number),
                steps: object.steps + n.steps,
            };
            store_other(slots, store, spot, x)
        }
    }
}

/// Sets an entry at a number to a number, where no metatable is asked and the store doesn't refuse it.
#[inline(always)]
fn put_number(store: &mut Store, table: u32, n: Whole, number: Whole, steps: u64) -> bool
    requires { steps < 3 * step_limit }
    ensures { PutsIf result (record { table = table; key = Number n; value = Number number; steps = steps }) store.old store.new }
{
    if !affords(store, steps + 2) {
        return false;
    }
    if store.renew_whole(table, n, number) {
        let _ = store.count(steps + 2);
        return true;
    }
    let entry = Entry {
        table,
        key: Value::Number(n),
        value: Value::Number(number),
        steps,
    };
    put_next(store, entry)
}

/// The same of a key that is no number and no text that stands there.
fn store_at_other(slots: &[Slot], store: &mut Store, object: Object, b: &Expr, x: &Expr) -> bool
    requires { object.steps < step_limit }
    ensures { StoresIn result object b.now x.now slots.now store.old store.new }
{
    match value_of(slots, store, b, LEVELS) {
        None => false,
        Some(v) => {
            let Valued { value, steps } = v;
            let spot = Spot {
                table: object.table,
                key: value,
                steps: object.steps + steps,
            };
            store_at(slots, store, spot, x)
        }
    }
}

/// Sets an entry to the value of x.
#[inline(always)]
fn store_at(slots: &[Slot], store: &mut Store, spot: Spot, x: &Expr) -> bool
    requires { spot.steps < 2 * step_limit }
    ensures { StoresAt result spot x.now slots.now store.old store.new }
{
    match number_of(slots, store, x, LEVELS) {
        Some(n) => {
            let Spot { table, key, steps } = spot;
            let entry = Entry {
                table,
                key,
                value: Value::Number(n.number),
                steps: steps + n.steps,
            };
            put_entry(store, entry)
        }
        None => store_other(slots, store, spot, x),
    }
}

/// The same of a value that is no number.
fn store_other(slots: &[Slot], store: &mut Store, spot: Spot, x: &Expr) -> bool
    requires { spot.steps < 2 * step_limit }
    ensures { StoresAt result spot x.now slots.now store.old store.new }
{
    match value_of(slots, store, x, LEVELS) {
        None => false,
        Some(v) => {
            let Spot { table, key, steps } = spot;
            let entry = Entry {
                table,
                key,
                value: v.value,
                steps: steps + v.steps,
            };
            put_entry(store, entry)
        }
    }
}

/// `NAME = x` of a global variable, which counts a step, and one for its target.
pub(crate) fn run_global(slots: &mut Vec<Slot>, store: &mut Store, name: &Bytes, x: &Expr) -> bool
    ensures { (stmt : LuaStmt) → IsGlobal name.now x.now stmt → RunsIf result stmt slots.old.items store.old slots.new.items store.new }
{
    let table = store.globals();
    store_named(slots, store, table, name, 0, x)
}

/// Sets an entry at a text, whose expressions count so many steps, to the value of x.
#[inline(always)]
fn store_named(
    slots: &[Slot],
    store: &mut Store,
    table: u32,
    name: &Bytes,
    steps: u64,
    x: &Expr,
) -> bool
    requires { steps < 2 * step_limit }
    ensures { StoresAt result (record { table = table; key = Text name.now; steps = steps }) x.now slots.now store.old store.new }
{
    match value_of(slots, store, x, LEVELS) {
        None => false,
        Some(v) => {
            let Valued { value, steps: more } = v;
            put_named(store, table, name, value, steps + more)
        }
    }
}

/// Sets an entry at a text to a value, where no metatable is asked and the store doesn't refuse it.
#[inline(always)]
fn put_named(store: &mut Store, table: u32, name: &Bytes, value: Value, steps: u64) -> bool
    requires { steps < 3 * step_limit }
    ensures { PutsIf result (record { table = table; key = Text name.now; value = value; steps = steps }) store.old store.new }
{
    if !affords(store, steps + 2) {
        return false;
    }
    match store.renew_text(table, name, value) {
        Ok(()) => {
            let _ = store.count(steps + 2);
            true
        }
        Err(value) => put_named_anew(store, table, name, value, steps),
    }
}

/// The same where nothing is at the text, or the value is nil.
fn put_named_anew(store: &mut Store, table: u32, name: &Bytes, value: Value, steps: u64) -> bool
    requires { store.old.steps + (steps + 2) < step_limit }
    ensures { PutsIf result (record { table = table; key = Text name.now; value = value; steps = steps }) store.old store.new }
{
    match name.clone() {
        Err(_) => false,
        Ok(name) => {
            let entry = Entry {
                table,
                key: Value::Text(name),
                value,
                steps,
            };
            put_anew(store, entry)
        }
    }
}

/// Sets an entry, where no metatable is asked and the store doesn't refuse it.
#[inline(always)]
fn put_entry(store: &mut Store, entry: Entry) -> bool
    requires { entry.steps < 3 * step_limit }
    ensures { PutsIf result entry store.old store.new }
{
    let Entry {
        table,
        key,
        value,
        steps,
    } = entry;
    if !affords(store, steps + 2) {
        return false;
    }
    match store.renew(table, &key, value) {
        Ok(()) => {
            let _ = store.count(steps + 2);
            true
        }
        Err(value) => {
            let entry = Entry {
                table,
                key,
                value,
                steps,
            };
            put_next(store, entry)
        }
    }
}

/// The same where nothing is at the key, or the value is nil.
#[inline(always)]
fn put_next(store: &mut Store, entry: Entry) -> bool
    requires { store.old.steps + (entry.steps + 2) < step_limit }
    ensures { PutsIf result entry store.old store.new }
{
    let Entry {
        table,
        key,
        value,
        steps,
    } = entry;
    match store.extend(table, &key, value) {
        Ok(()) => {
            let _ = store.count(steps + 2);
            true
        }
        Err(value) => {
            let entry = Entry {
                table,
                key,
                value,
                steps,
            };
            put_anew(store, entry)
        }
    }
}

/// The same where the key isn't the number after those of the table.
fn put_anew(store: &mut Store, entry: Entry) -> bool
    requires { store.old.steps + (entry.steps + 2) < step_limit }
    ensures { PutsIf result entry store.old store.new }
{
    let Entry {
        table,
        key,
        value,
        steps,
    } = entry;
    if !is_own(store, table, &key) {
        return false;
    }
    match store.set(table, key, value) {
        Ok(()) => {
            let _ = store.count(steps + 2);
            true
        }
        Err(_) => false,
    }
}

/// Whether an assignment at a key of a table asks no metatable: it has none, or something is at the key.
fn is_own(store: &Store, table: u32, key: &Value) -> bool
    ensures { result ≡ true → IsOwn store.now.heap table key.now }
{
    match store.metatable(table) {
        None => true,
        Some(_) => !store.get(table, key).is_nil(),
    }
}
