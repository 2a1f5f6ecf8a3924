//! `..` of texts and numbers that are there, whose text a local variable gets at once (Lua 5.1 Reference Manual, 2.5.4).

ghost use Rattle.std.specs.Prelude.{◌≡◌, ◌<◌, ◌≤◌, ◌∷◌, ◌++◌, [], true, slice_get, IfSome};
ghost use Rattle.lua_ast.specs.declared.statements.Stmt.{Stmt as LuaStmt};
ghost use Rattle.lua_values.specs.Heap.{step_limit};
ghost use Rattle.lua_operators.specs.Concatenation.{concatenated};
ghost use Rattle.lua_operators.specs.declared.outcome.Outcome.TheVariants.{Gives};
ghost use Rattle.lua_meaning.specs.Concatenation.{text_length};
ghost use Rattle.lua_vm_fast.specs.Runs.{RunsIf, IsLocals, IsAssignment, is_plain};
ghost use Rattle.lua_vm_fast.specs.Joining.{Makes, MakesBinary, Joins, TakesIf};

use crate::numbers::LEVELS;
use crate::places::{Valued, value_of};
use crate::statements::put_value;
use crate::steps::affords;
use lua_ast::{BinOp, Expr, ExprKind};
use lua_meaning::Slot;
use lua_operators::{Outcome, concatenated};
use lua_values::{BYTES_OF_A_STEP, STEP_LIMIT, Store, TEXT_UNITS, Value};
use resty_base::Bytes;
use std::alloc::Global;

/// More bytes or units than a store has room for.
const TOO_MANY: u64 = 2_000_000;

/// A value, how many steps its expression counts, and the units of all texts that it makes.
#[derive(Drop)]
pub(crate) struct Made {
    pub value: Value,
    pub steps: u64,
    pub units: u64,
}

/// `local NAME = a .. b`, which counts a step besides those of its value.
pub(crate) fn run_joined_local(slots: &mut Vec<Slot>, store: &mut Store, i: u8, x: &Expr) -> bool
    ensures { (stmt : LuaStmt) → IsLocals (i ∷ []) (x.now ∷ []) stmt → RunsIf result stmt slots.old.items store.old slots.new.items store.new }
{
    let alloc = *slots.allocator();
    match made_of(alloc, slots, store, x) {
        None => false,
        Some(made) => take_made(slots, store, i, made, 1),
    }
}

/// `NAME = a .. b` of a local variable that no closure shares, which counts a step, and one for its target.
pub(crate) fn run_joined_assignment(
    slots: &mut Vec<Slot>,
    store: &mut Store,
    i: u8,
    x: &Expr,
) -> bool
    requires { is_plain (slice_get slots.old.items i) ≡ true }
    ensures { (stmt : LuaStmt) → IsAssignment i x.now stmt → RunsIf result stmt slots.old.items store.old slots.new.items store.new }
{
    let alloc = *slots.allocator();
    match made_of(alloc, slots, store, x) {
        None => false,
        Some(made) => take_made(slots, store, i, made, 2),
    }
}

/// A slot gets a value that was made, whose units and steps are counted, with so many steps more. Nothing is changed where these don't suffice.
#[inline(always)]
fn take_made(slots: &mut Vec<Slot>, store: &mut Store, i: u8, made: Made, more: u64) -> bool
    requires few { made.steps < step_limit }
    requires more { more ≤ 2 }
    ensures { TakesIf result i made more slots.old.items store.old slots.new.items store.new }
{
    let Made {
        value,
        steps,
        units,
    } = made;
    if !affords(store, steps + more) {
        return false;
    }
    match store.add_units(units) {
        Err(_) => false,
        Ok(()) => {
            let _ = store.count(steps + more);
            put_value(slots, i, value);
            true
        }
    }
}

/// The text that `a .. b` makes; `None` of any other expression.
#[inline(always)]
fn made_of(alloc: Global, slots: &[Slot], store: &Store, x: &Expr) -> Option<Made>
    ensures makes { IfSome result (λ made. Makes x.now slots.now store.now.heap made) }
    ensures few { IfSome result (λ made. made.steps < step_limit) }
{
    match &x.kind {
        ExprKind::Binary(BinOp::Concat, a, b) => joined_of(alloc, slots, store, a, b, LEVELS),
        _ => None,
    }
}

/// The text that `a .. b` makes, where each operand is a text or a number that is there, or b is such an expression again.
#[cycle(joining)]
fn joined_of(
    alloc: Global,
    slots: &[Slot],
    store: &Store,
    a: &Expr,
    b: &Expr,
    levels: u8,
) -> Option<Made>
    ensures makes { IfSome result (λ made. MakesBinary a.now b.now slots.now store.now.heap made) }
    ensures few { IfSome result (λ made. made.steps < step_limit) }
{
    if levels == 0 {
        return None;
    }
    let left = value_of(slots, store, a, LEVELS)?;
    let right = right_of(alloc, slots, store, b, levels - 1)?;
    joined(alloc, &left, &right)
}

/// The right operand of `..`.
#[cycle(joining)]
fn right_of(alloc: Global, slots: &[Slot], store: &Store, x: &Expr, levels: u8) -> Option<Made>
    ensures makes { IfSome result (λ made. Makes x.now slots.now store.now.heap made) }
    ensures few { IfSome result (λ made. made.steps < step_limit) }
{
    match &x.kind {
        ExprKind::Binary(BinOp::Concat, a, b) => joined_of(alloc, slots, store, a, b, levels),
        _ => {
            let Valued { value, steps } = value_of(slots, store, x, LEVELS)?;
            Some(Made {
                value,
                steps,
                units: 0,
            })
        }
    }
}

/// Two values are joined: a step for each 64 bytes that are taken or made, and the units of the text that is made.
fn joined(alloc: Global, left: &Valued, right: &Made) -> Option<Made>
    requires left { left.now.steps < step_limit }
    requires right { right.now.steps < step_limit }
    ensures joins { IfSome result (Joins left.now right.now) }
    ensures few { IfSome result (λ made. made.steps < step_limit) }
{
    let value = text_of_both(alloc, &left.value, &right.value)?;
    let taken = text_length(&left.value) + text_length(&right.value);
    let length = text_length(&value);
    if taken >= TOO_MANY || length >= TOO_MANY || right.units >= TOO_MANY {
        return None;
    }
    let steps = left.steps + right.steps + 1 + (taken + length) / BYTES_OF_A_STEP;
    if steps >= STEP_LIMIT {
        return None;
    }
    Some(Made {
        value,
        steps,
        units: right.units + (length + TEXT_UNITS),
    })
}

/// The text of two values, of which each is a text or a number.
fn text_of_both(alloc: Global, a: &Value, b: &Value) -> Option<Value>
    ensures { IfSome result (λ value. concatenated a.now b.now ≡ Gives value) }
{
    match (a, b) {
        (Value::Text(a), Value::Text(b)) => text_of_texts(alloc, a.as_slice(), b.as_slice()),
        _ => match concatenated(alloc, a, b) {
            Ok(Outcome::Gives(value)) => Some(value),
            _ => None,
        },
    }
}

/// One text after the other.
fn text_of_texts(alloc: Global, a: &[u8], b: &[u8]) -> Option<Value>
    ensures { IfSome result (λ value. value ≡ Value.Text (a.now ++ b.now)) }
{
    let mut bytes = Vec::with_capacity(alloc, a.len().saturating_add(b.len())).ok()?;
    bytes.extend_from_slice(a).ok()?;
    bytes.extend_from_slice(b).ok()?;
    match Bytes::from_vec(bytes) {
        Ok(text) => Some(Value::Text(text)),
        Err(_) => None,
    }
}

/// The bytes of a value that is a text.
fn text_length(value: &Value) -> u64
    ensures { result ≡ text_length value.now }
{
    match value {
        Value::Text(text) => text.as_slice().len() as u64,
        _ => 0,
    }
}
