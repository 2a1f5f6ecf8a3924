//! Statements that are run at once: a variable or an entry of a table gets a value.

ghost use Rattle.std.specs.Prelude.{◌≡◌, ◌<◌, ◌∷◌, ◌+◌, [], true, false, drop, slice_get, slice_set, IfSome, MatchOption};
ghost use Rattle.lua_ast.specs.declared.statements.Stmt.{Stmt as LuaStmt};
ghost use Rattle.lua_values.specs.declared.values.Value.TheVariants.{Number};
ghost use Rattle.lua_meaning.specs.declared.slots.Slot.TheVariants.{Plain};
ghost use Rattle.lua_meaning.specs.Works.{Places};
ghost use Rattle.lua_meaning.specs.Setting.{Setting};
ghost use Rattle.lua_meaning.specs.Blocks.{block};
ghost use Rattle.lua_values.specs.Heap.{step_limit};
ghost use Rattle.lua_vm_fast.specs.Gives.{Gives};
ghost use Rattle.lua_vm_fast.specs.Calls.{Allows, RunsAt};
ghost use Rattle.lua_vm_fast.specs.Runs.{Becomes, RunsIf, IsLocals, IsAssignments, IsAssignment, SetsIf, is_plain};

use crate::calls::{Site, run_with_calls};
use crate::concatenation::{run_joined_assignment, run_joined_local};
use crate::entries::{run_global, run_store};
use crate::numbers::{LEVELS, number_of};
use crate::places::{Valued, found_of, value_of};
use crate::steps::affords;
use lua_ast::{Expr, ExprKind, Stmt, StmtKind};
use lua_meaning::Slot;
use lua_values::{Store, Value};
use resty_base::Whole;
use std::rc::Rc;

/// A slot has a number of its own from now on, if it is there.
#[inline(always)]
pub(crate) fn put(slots: &mut Vec<Slot>, i: u8, number: Whole)
    ensures { slots.new.items ≡ slice_set slots.old.items i (Plain (Number number)) }
{
    if let Some(slot) = slots.get_mut(i as usize) {
        set_number(slot, number);
    }
}

/// A slot has a number of its own from now on; one that has a number keeps its form.
#[inline(always)]
fn set_number(slot: &mut Slot, number: Whole)
    ensures { slot.new ≡ Plain (Number number) }
{
    match slot {
        Slot::Plain(Value::Number(old)) => *old = number,
        other => *other = Slot::Plain(Value::Number(number)),
    }
}

/// A slot has a value of its own from now on, if it is there.
#[inline(always)]
pub(crate) fn put_value(slots: &mut Vec<Slot>, i: u8, value: Value)
    ensures { slots.new.items ≡ slice_set slots.old.items i (Plain value) }
{
    if let Some(slot) = slots.get_mut(i as usize) {
        *slot = Slot::Plain(value);
    }
}

/// Whether a slot has a value of its own.
#[inline(always)]
pub(crate) fn is_plain(slots: &[Slot], i: u8) -> bool
    ensures { result ≡ is_plain (slice_get slots.now i) }
{
    match slots.get(i as usize) {
        Some(Slot::Plain(_)) => true,
        _ => false,
    }
}

/// A slot gets a number, and steps are counted, if so many are left; if not, nothing is changed.
#[inline(always)]
pub(crate) fn take_number(
    slots: &mut Vec<Slot>,
    store: &mut Store,
    i: u8,
    number: Whole,
    steps: u64,
) -> bool
    ensures { SetsIf result i (Number number) steps slots.old.items store.old slots.new.items store.new }
{
    if !affords(store, steps) {
        return false;
    }
    put(slots, i, number);
    let _ = store.count(steps);
    true
}

/// A slot gets a value, and its steps are counted, with so many more, if these are left; if not, nothing is changed.
#[inline(always)]
pub(crate) fn take_value(
    slots: &mut Vec<Slot>,
    store: &mut Store,
    i: u8,
    valued: Valued,
    more: u64,
) -> bool
    requires steps { valued.steps < step_limit }
    requires more { more < step_limit + 3 }
    ensures { SetsIf result i valued.value (valued.steps + more) slots.old.items store.old slots.new.items store.new }
{
    let Valued { value, steps } = valued;
    if !affords(store, steps + more) {
        return false;
    }
    put_value(slots, i, value);
    let _ = store.count(steps + more);
    true
}

/// The value of an expression that is no expression of numbers, as `value_of` has it.
fn other_value_of(slots: &[Slot], store: &Store, x: &Expr) -> Option<Valued>
    ensures gives { IfSome result (λ v. Gives x.now slots.now store.now.heap v.value v.steps) }
    ensures few { IfSome result (λ v. v.steps < step_limit) }
{
    match &x.kind {
        ExprKind::Number(_) | ExprKind::Binary(_, _, _) => None,
        _ => value_of(slots, store, x, LEVELS),
    }
}

/// Whether the value of an expression is looked up in a table, which is done once, be it a number or not, and copied into its slot at once.
#[inline(always)]
fn is_looked_up(x: &Expr) -> bool {
    match &x.kind {
        ExprKind::Global(_) | ExprKind::Index(_, _) => true,
        _ => false,
    }
}

/// `local NAME = x`, which counts a step besides those of x.
fn run_local(slots: &mut Vec<Slot>, store: &mut Store, i: u8, x: &Expr) -> bool
    ensures { (stmt : LuaStmt) → IsLocals (i ∷ []) (x.now ∷ []) stmt → RunsIf result stmt slots.old.items store.old slots.new.items store.new }
{
    if is_looked_up(x) {
        return run_found_local(slots, store, i, x);
    }
    match number_of(slots, store, x, LEVELS) {
        None => run_other_local(slots, store, i, x),
        Some(n) => take_number(slots, store, i, n.number, n.steps + 1),
    }
}

/// The same of what is looked up in a table, which is copied into the slot.
fn run_found_local(slots: &mut Vec<Slot>, store: &mut Store, i: u8, x: &Expr) -> bool
    ensures { (stmt : LuaStmt) → IsLocals (i ∷ []) (x.now ∷ []) stmt → RunsIf result stmt slots.old.items store.old slots.new.items store.new }
{
    match found_of(slots, store, x) {
        None => false,
        Some(seen) => {
            let steps = seen.steps;
            if !affords(store, steps + 1) {
                return false;
            }
            match seen.value.clone() {
                Err(_) => false,
                Ok(value) => {
                    put_value(slots, i, value);
                    let _ = store.count(steps + 1);
                    true
                }
            }
        }
    }
}

/// The same of an expression that is no expression of numbers.
fn run_other_local(slots: &mut Vec<Slot>, store: &mut Store, i: u8, x: &Expr) -> bool
    ensures { (stmt : LuaStmt) → IsLocals (i ∷ []) (x.now ∷ []) stmt → RunsIf result stmt slots.old.items store.old slots.new.items store.new }
{
    match other_value_of(slots, store, x) {
        None => run_joined_local(slots, store, i, x),
        Some(v) => take_value(slots, store, i, v, 1),
    }
}

/// `NAME = x` of a local variable that no closure shares, which counts a step, and one for its target.
#[inline(always)]
fn run_assignment(slots: &mut Vec<Slot>, store: &mut Store, i: u8, x: &Expr) -> bool
    ensures { (stmt : LuaStmt) → IsAssignment i x.now stmt → RunsIf result stmt slots.old.items store.old slots.new.items store.new }
{
    if !is_plain(slots, i) {
        return false;
    }
    if is_looked_up(x) {
        return run_found_assignment(slots, store, i, x);
    }
    match number_of(slots, store, x, LEVELS) {
        None => run_other_assignment(slots, store, i, x),
        Some(n) => take_number(slots, store, i, n.number, n.steps + 2),
    }
}

/// The same of what is looked up in a table, which is copied into the slot.
fn run_found_assignment(slots: &mut Vec<Slot>, store: &mut Store, i: u8, x: &Expr) -> bool
    requires { is_plain (slice_get slots.old.items i) ≡ true }
    ensures { (stmt : LuaStmt) → IsAssignment i x.now stmt → RunsIf result stmt slots.old.items store.old slots.new.items store.new }
{
    match found_of(slots, store, x) {
        None => false,
        Some(seen) => {
            let steps = seen.steps;
            if !affords(store, steps + 2) {
                return false;
            }
            match seen.value.clone() {
                Err(_) => false,
                Ok(value) => {
                    put_value(slots, i, value);
                    let _ = store.count(steps + 2);
                    true
                }
            }
        }
    }
}

/// The same of an expression that is no expression of numbers.
fn run_other_assignment(slots: &mut Vec<Slot>, store: &mut Store, i: u8, x: &Expr) -> bool
    requires { is_plain (slice_get slots.old.items i) ≡ true }
    ensures { (stmt : LuaStmt) → IsAssignment i x.now stmt → RunsIf result stmt slots.old.items store.old slots.new.items store.new }
{
    match other_value_of(slots, store, x) {
        None => run_joined_assignment(slots, store, i, x),
        Some(v) => take_value(slots, store, i, v, 2),
    }
}

/// `local NAME = VALUES`, of one value.
#[inline(always)]
fn run_listed(slots: &mut Vec<Slot>, store: &mut Store, i: &u8, xs: &Rc<Vec<Expr>>) -> bool
    ensures { (stmt : LuaStmt) → IsLocals (i.now ∷ []) xs.now.value.items stmt
        → RunsIf result stmt slots.old.items store.old slots.new.items store.new }
{
    match xs.as_slice() {
        [x] => run_local(slots, store, *i, x),
        _ => false,
    }
}

/// The slot at an index, if it is there.
#[inline(always)]
fn place_at(places: &[u8], i: usize) -> Option<&u8>
    ensures { MatchOption result (drop i places.now ≡ []) (λ place. drop i places.now ≡ place.now ∷ drop (i + 1) places.now) }
{
    places.get(i)
}

/// The one slot of a list that has no other.
#[inline(always)]
pub(crate) fn only(places: &[u8]) -> Option<&u8>
    ensures { IfSome result (λ place. places.now ≡ place.now ∷ []) }
{
    match place_at(places, 0) {
        None => None,
        Some(place) => match place_at(places, 1) {
            None => Some(place),
            Some(_) => None,
        },
    }
}

/// `local NAMES = VALUES`, of one name and one value.
#[inline(always)]
fn run_locals(
    slots: &mut Vec<Slot>,
    store: &mut Store,
    places: &Rc<Vec<u8>>,
    xs: &Rc<Vec<Expr>>,
) -> bool
    ensures { (stmt : LuaStmt) → IsLocals places.now.value.items xs.now.value.items stmt
        → RunsIf result stmt slots.old.items store.old slots.new.items store.new }
{
    match only(places.as_slice()) {
        Some(i) => run_listed(slots, store, i, xs),
        None => false,
    }
}

/// `TARGET = x`.
#[inline(always)]
fn run_target(slots: &mut Vec<Slot>, store: &mut Store, target: &Expr, x: &Expr) -> bool
    ensures { (stmt : LuaStmt) → IsAssignments (target.now ∷ []) (x.now ∷ []) stmt → RunsIf result stmt slots.old.items store.old slots.new.items store.new }
{
    match &target.kind {
        ExprKind::Slot(i) => run_assignment(slots, store, *i, x),
        ExprKind::Index(a, b) => run_store(slots, store, a, b, x),
        ExprKind::Global(name) => run_global(slots, store, name, x),
        _ => false,
    }
}

/// `TARGET = VALUES`, of one value.
#[inline(always)]
fn run_aimed(slots: &mut Vec<Slot>, store: &mut Store, target: &Expr, xs: &Rc<Vec<Expr>>) -> bool
    ensures { (stmt : LuaStmt) → IsAssignments (target.now ∷ []) xs.now.value.items stmt
        → RunsIf result stmt slots.old.items store.old slots.new.items store.new }
{
    match xs.as_slice() {
        [x] => run_target(slots, store, target, x),
        _ => false,
    }
}

/// `TARGETS = VALUES`, of one target and one value.
#[inline(always)]
fn run_assignments(
    slots: &mut Vec<Slot>,
    store: &mut Store,
    targets: &Rc<Vec<Expr>>,
    xs: &Rc<Vec<Expr>>,
) -> bool
    ensures { (stmt : LuaStmt) → IsAssignments targets.now.value.items xs.now.value.items stmt
        → RunsIf result stmt slots.old.items store.old slots.new.items store.new }
{
    match targets.as_slice() {
        [target] => run_aimed(slots, store, target, xs),
        _ => false,
    }
}

/// Runs a statement if it can be run at once; if not, nothing is changed.
#[inline(always)]
fn run_one(slots: &mut Vec<Slot>, store: &mut Store, stmt: &Stmt) -> bool
    ensures { RunsIf result stmt.now slots.old.items store.old slots.new.items store.new }
{
    match &stmt.kind {
        StmtKind::Local(places, xs) => run_locals(slots, store, places, xs),
        StmtKind::Assign(targets, xs) => run_assignments(slots, store, targets, xs),
        _ => false,
    }
}

/// Runs a statement at a site if it can be run at once; if not, nothing is changed.
#[inline(always)]
fn run_stmt(site: &Site, slots: &mut Vec<Slot>, store: &mut Store, stmt: &Stmt) -> bool
    ensures { RunsAt site.now site.now.levels result stmt.now slots.old.items store.old slots.new.items store.new }
{
    if run_one(slots, store, stmt) {
        return true;
    }
    run_with_calls(site, slots, store, stmt)
}

/// The statement at an index, if it is there.
#[inline(always)]
pub(crate) fn stmt_at(stmts: &[Stmt], i: usize) -> Option<&Stmt>
    ensures { MatchOption result (drop i stmts.now ≡ []) (λ st. drop i stmts.now ≡ st.now ∷ drop (i + 1) stmts.now) }
{
    stmts.get(i)
}

/// Runs the statements of a block from an index on, as long as they can be run at once. Returns the index of the first that can't.
pub(crate) fn run_simple(
    site: &Site,
    slots: &mut Vec<Slot>,
    store: &mut Store,
    stmts: &[Stmt],
    from: usize,
) -> usize
    ensures { (S : Setting) → (p : Places) → Allows site.now site.now.levels S p → Becomes S (block (drop from stmts.now) p slots.old.items) store.old
        (block (drop result stmts.now) p slots.new.items) store.new }
{
    let mut next = from;
    while next < stmts.len() {
        match stmt_at(stmts, next) {
            None => return next,
            Some(stmt) => {
                if !run_stmt(site, slots, store, stmt) {
                    return next;
                }
            }
        }
        next += 1;
    }
    next
}

/// Runs the statements of a block that a pointer shares, from an index on, as long as they can be run at once. Returns the index of the first
/// that can't.
pub fn run_block(
    site: &Site,
    slots: &mut Vec<Slot>,
    store: &mut Store,
    stmts: &Rc<Vec<Stmt>>,
    from: usize,
) -> usize
    ensures { (S : Setting) → (p : Places) → Allows site.now site.now.levels S p
        → Becomes S (block (drop from stmts.now.value.items) p slots.old.items) store.old
        (block (drop result stmts.now.value.items) p slots.new.items) store.new }
{
    run_simple(site, slots, store, stmts.as_slice(), from)
}
