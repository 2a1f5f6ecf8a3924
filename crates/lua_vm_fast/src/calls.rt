//! Calls of functions that only give values, which are done at once (Lua 5.1 Reference Manual, 2.5.8).

ghost use Rattle.std.specs.Prelude.{◌≡◌, ◌<◌, ◌+◌, ◌*◌, ◌++◌, ◌-◌, ◌∷◌, [], ℕ, true, List, length, map, replicate, slice_get, IfSome, MatchOption, drop};
ghost use Rattle.lua_ast.specs.declared.statements.Stmt.{Stmt as LuaStmt};
ghost use Rattle.lua_values.specs.declared.values.Value.{Value as LuaValue};
ghost use Rattle.lua_values.specs.declared.values.Value.TheVariants.{Closure, Nil, Number};
ghost use Rattle.lua_ast.specs.declared.statements.StmtKind.TheVariants.{Call};
ghost use Rattle.lua_values.specs.Heap.{step_limit};
ghost use Rattle.lua_meaning.specs.declared.slots.Slot.TheVariants.{Plain};
ghost use Rattle.lua_meaning.specs.Variables.{in_cell};
ghost use Rattle.lua_meaning.specs.Works.{Values};
ghost use Rattle.lua_meaning.specs.Calls.{function_end, slots_from};
ghost use Rattle.lua_vm_fast.specs.Bodies.{Follows, more_of, sign_of};
ghost use Rattle.lua_vm_fast.specs.Calls.{GivesAt, CallGives, GivesCall, GivesList, BinaryGives, CallReturns, RunsAt, IsBody, IsCall, all_of};

use crate::bodies::{End, Plan, block_end, plan_of};
use crate::numbers::{Counted, LEVELS, number_of};
use crate::operators::computed;
use crate::places::{Seen, Valued, seen_of, value_of};
use crate::statements::{take_number, take_value};
use crate::steps::affords;
use lua_ast::{BinOp, Expr, ExprKind, Function, Program, Stmt, StmtKind};
use lua_meaning::Slot;
use lua_values::{STEP_LIMIT, Store, Value};
use std::alloc::Global;
use std::rc::Rc;

/// Where statements are run: in a function of a program, with the cells that it captured, and with room for so many calls within one another.
#[derive(Clone, Copy)]
pub struct Site<'a> {
    pub alloc: Global,
    pub program: &'a Program,
    pub cells: &'a [u32],
    pub levels: u8,
}

/// A closure that is called, and how many steps its expression counts.
#[derive(Clone, Copy)]
struct Callee {
    closure: u32,
    steps: u64,
}

/// The function of a closure, and the cells that it captured.
#[derive(Clone, Copy)]
struct Body<'a> {
    function: &'a Function,
    cells: &'a [u32],
}

/// What a call gives, no value or one, and how many steps it counts.
#[derive(Drop)]
struct Called {
    value: Option<Value>,
    steps: u64,
}

/// What stands in a cell that the running function captured.
fn seen_captured<'a>(site: &Site, store: &'a Store, i: u8) -> Option<Seen<'a>>
    ensures value { IfSome result (λ seen. seen.value.now ≡ in_cell (slice_get site.now.cells.now i) store.now.heap) }
    ensures steps { IfSome result (λ seen. seen.steps ≡ 1) }
{
    match site.cells.get(i as usize) {
        Some(c) => Some(Seen {
            value: store.cell(*c),
            steps: 1,
        }),
        None => None,
    }
}

/// Where the value of a variable, a captured one too, or of an entry of a table stands.
fn callee_of<'a>(site: &Site, slots: &'a [Slot], store: &'a Store, x: &Expr) -> Option<Seen<'a>>
    ensures gives { IfSome result (λ seen. (levels : ℕ) → GivesAt site.now levels x.now slots.now store.now.heap seen.value.now seen.steps) }
    ensures few { IfSome result (λ seen. seen.steps < step_limit) }
{
    match &x.kind {
        ExprKind::Captured(i) => seen_captured(site, store, *i),
        _ => seen_of(slots, store, x, LEVELS),
    }
}

/// The closure that an expression gives.
#[inline(always)]
fn closure_of(site: &Site, slots: &[Slot], store: &Store, x: &Expr) -> Option<Callee>
    ensures gives { IfSome result (λ callee. (levels : ℕ) → GivesAt site.now levels x.now slots.now store.now.heap (Closure callee.closure) callee.steps) }
    ensures few { IfSome result (λ callee. callee.steps < step_limit) }
{
    let callee = callee_of(site, slots, store, x)?;
    match callee.value {
        Value::Closure(closure) => Some(Callee {
            closure: *closure,
            steps: callee.steps,
        }),
        _ => None,
    }
}

/// The function of a closure, and the cells that it captured.
#[inline(always)]
fn body_of<'a>(program: &'a Program, store: &'a Store, c: u32) -> Option<Body<'a>>
    ensures { IfSome result (λ body. IsBody program.now store.now.heap c body.function.now body.cells.now) }
{
    let (number, cells) = store.closure(c)?;
    let function = program.functions.get(number as usize)?;
    Some(Body { function, cells })
}

/// The value of an expression at a site.
#[cycle(calls)]
pub(crate) fn value_at(
    site: &Site,
    slots: &[Slot],
    store: &Store,
    x: &Expr,
    levels: u8,
) -> Option<Valued>
    ensures gives { IfSome result (λ v. GivesAt site.now levels x.now slots.now store.now.heap v.value v.steps) }
    ensures few { IfSome result (λ v. v.steps < step_limit) }
{
    match &x.kind {
        ExprKind::Call(f, xs) => one_called(site, slots, store, f, xs, levels),
        ExprKind::Binary(operator, a, b) => match value_of(slots, store, x, LEVELS) {
            Some(v) => Some(v),
            None => operated_at(site, slots, store, *operator, a, b, levels),
        },
        _ => value_of(slots, store, x, LEVELS),
    }
}

/// The number that an operator gives on two expressions at a site.
#[cycle(calls)]
fn operated_at(
    site: &Site,
    slots: &[Slot],
    store: &Store,
    operator: BinOp,
    a: &Expr,
    b: &Expr,
    levels: u8,
) -> Option<Valued>
    ensures gives { IfSome result (λ v. BinaryGives site.now levels operator a.now b.now slots.now store.now.heap v.value v.steps) }
    ensures few { IfSome result (λ v. v.steps < step_limit) }
{
    if levels == 0 {
        return None;
    }
    let a = number_at(site, slots, store, a, levels - 1)?;
    let b = number_at(site, slots, store, b, levels - 1)?;
    let number = computed(operator, a.number, b.number)?;
    let steps = a.steps + b.steps + 1;
    if steps >= STEP_LIMIT {
        return None;
    }
    Some(Valued {
        value: Value::Number(number),
        steps,
    })
}

/// The number that an expression gives at a site, if it gives one.
#[cycle(calls)]
fn number_at(site: &Site, slots: &[Slot], store: &Store, x: &Expr, levels: u8) -> Option<Counted>
    ensures gives { IfSome result (λ c. GivesAt site.now levels x.now slots.now store.now.heap (Number c.number) c.steps) }
    ensures few { IfSome result (λ c. c.steps < step_limit) }
{
    let Valued { value, steps } = value_at(site, slots, store, x, levels)?;
    match &value {
        Value::Number(number) => Some(Counted {
            number: *number,
            steps,
        }),
        _ => None,
    }
}

/// The one value that a call gives.
#[cycle(calls)]
fn one_called(
    site: &Site,
    slots: &[Slot],
    store: &Store,
    f: &Expr,
    xs: &Rc<Vec<Expr>>,
    levels: u8,
) -> Option<Valued>
    ensures gives { IfSome result (λ v. CallGives site.now levels f.now xs.now.value.items slots.now store.now.heap v.value v.steps) }
    ensures few { IfSome result (λ v. v.steps < step_limit) }
{
    let Called { value, steps } = called_of(site, slots, store, f, xs, levels)?;
    let steps = steps + 1;
    if steps >= STEP_LIMIT {
        return None;
    }
    match value {
        Some(value) => Some(Valued { value, steps }),
        None => None,
    }
}

/// What a call gives.
#[cycle(calls)]
fn called_of(
    site: &Site,
    slots: &[Slot],
    store: &Store,
    f: &Expr,
    xs: &Rc<Vec<Expr>>,
    levels: u8,
) -> Option<Called>
    ensures gives { IfSome result (λ c. GivesCall site.now levels f.now xs.now.value.items slots.now store.now.heap (all_of c.value) c.steps) }
    ensures few { IfSome result (λ c. c.steps < 3 * step_limit) }
{
    if levels == 0 {
        return None;
    }
    let callee = closure_of(site, slots, store, f)?;
    let mut given = Vec::new(site.alloc);
    let steps = give(site, slots, store, xs.as_slice(), levels - 1, &mut given)?;
    let end = closure_end(site, store, callee.closure, &mut given, levels - 1)?;
    Some(Called {
        value: end.value,
        steps: callee.steps + steps + end.steps,
    })
}

/// The expression at an index, if it is there.
#[inline(always)]
fn expr_at(xs: &[Expr], i: usize) -> Option<&Expr>
    ensures { MatchOption result (drop i xs.now ≡ []) (λ x. drop i xs.now ≡ x.now ∷ drop (i + 1) xs.now) }
{
    xs.get(i)
}

/// One more local variable.
#[inline(always)]
fn push(slots: &mut Vec<Slot>, value: Value) -> bool
    ensures { result ≡ true → slots.new.items ≡ slots.old.items ++ Plain value ∷ [] }
{
    slots.push(Slot::Plain(value)).is_ok()
}

/// The arguments of a call become local variables, of which there were none. Returns how many steps their expressions count.
#[cycle(calls)]
fn give(
    site: &Site,
    slots: &[Slot],
    store: &Store,
    xs: &[Expr],
    levels: u8,
    given: &mut Vec<Slot>,
) -> Option<u64>
    requires { given.old.items ≡ [] }
    ensures gives { IfSome result (λ n. GivesList site.now levels xs.now slots.now store.now.heap given.new.items n) }
    ensures few { IfSome result (λ n. n < step_limit) }
{
    let mut steps = 0u64;
    let mut i = 0usize;
    while i < xs.len() {
        let x = expr_at(xs, i)?;
        let Valued { value, steps: more } = value_at(site, slots, store, x, levels)?;
        if !push(given, value) {
            return None;
        }
        steps += more;
        if steps >= STEP_LIMIT {
            return None;
        }
        i += 1;
    }
    Some(steps)
}

/// Nil for each variable that is missing in so many.
fn pad(slots: &mut Vec<Slot>, count: usize) -> bool
    ensures { result ≡ true → slots.new.items ≡ slots.old.items ++ replicate (count - length slots.old.items) (Plain Nil) }
{
    while slots.len() < count {
        if !push(slots, Value::Nil) {
            return false;
        }
    }
    true
}

/// The local variables of a function, of which the first have its arguments; none where these are more than its parameters.
fn fill(f: &Function, slots: &mut Vec<Slot>) -> bool
    ensures { (vs : List LuaValue) → result ≡ true → slots.old.items ≡ map Plain vs → slots.new.items ≡ slots_from f.now.slots 0 f.now.params vs }
{
    if slots.len() > f.params as usize || f.params > f.slots {
        return false;
    }
    pad(slots, f.slots as usize)
}

/// What a function gives whose body ended so.
fn given_by(end: End) -> Option<Value>
    ensures { function_end (sign_of end) ≡ Values (all_of result) }
{
    match end {
        End::Went => None,
        End::Returned(value) => value,
    }
}

/// How a call of a closure ends, with its arguments as the first of its local variables.
#[cycle(calls)]
fn closure_end(
    site: &Site,
    store: &Store,
    c: u32,
    slots: &mut Vec<Slot>,
    levels: u8,
) -> Option<Called>
    ensures gives { IfSome result (λ r. (vs : List LuaValue) → slots.old.items ≡ map Plain vs
        → CallReturns site.now.program.now levels c vs store.now.heap (all_of r.value) r.steps) }
    ensures few { IfSome result (λ r. r.steps < step_limit + 2) }
{
    let body = body_of(site.program, store, c)?;
    if !fill(body.function, slots) {
        return None;
    }
    let inner = Site {
        cells: body.cells,
        ..*site
    };
    let ended = block_end(&inner, slots, store, body.function.body.as_slice(), levels)?;
    Some(Called {
        value: given_by(ended.end),
        steps: ended.steps + 1,
    })
}

/// `f(args)`, which counts a step besides those of its expression.
fn run_called(site: &Site, slots: &[Slot], store: &mut Store, f: &Expr, xs: &Rc<Vec<Expr>>) -> bool
    ensures { (stmt : LuaStmt) → IsCall f.now xs.now.value.items stmt → RunsAt site.now site.now.levels result stmt slots.now store.old slots.now store.new }
{
    match called_of(site, slots, store, f, xs, site.levels) {
        None => false,
        Some(called) => {
            let steps = called.steps;
            if !affords(store, steps + 2) {
                return false;
            }
            let _ = store.count(steps + 2);
            true
        }
    }
}

/// A call whose values are dropped.
fn run_call(site: &Site, slots: &[Slot], store: &mut Store, stmt: &Stmt, x: &Expr) -> bool
    requires { stmt.now.kind ≡ Call x.now }
    ensures { RunsAt site.now site.now.levels result stmt.now slots.now store.old slots.now store.new }
{
    match &x.kind {
        ExprKind::Call(f, xs) => run_called(site, slots, store, f, xs),
        _ => false,
    }
}

/// Does what the plan of a statement says, if that changes no more than one local variable.
fn run_plan(
    site: &Site,
    slots: &mut Vec<Slot>,
    store: &mut Store,
    stmt: &Stmt,
    plan: Plan<'_>,
) -> bool
    requires follows { Follows plan stmt.now slots.old.items store.old.heap }
    requires few { more_of plan < step_limit + 3 }
    ensures { RunsAt site.now site.now.levels result stmt.now slots.old.items store.old slots.new.items store.new }
{
    match plan {
        Plan::Sets(slot, x, more) => match number_of(slots, store, x, LEVELS) {
            Some(n) => take_number(slots, store, slot, n.number, n.steps + more),
            None => match value_at(site, slots, store, x, site.levels) {
                None => false,
                Some(v) => take_value(slots, store, slot, v, more),
            },
        },
        Plan::Counts(steps) => {
            if !affords(store, steps) {
                return false;
            }
            let _ = store.count(steps);
            true
        }
        _ => false,
    }
}

/// A statement that changes no more than one local variable.
fn run_change(site: &Site, slots: &mut Vec<Slot>, store: &mut Store, stmt: &Stmt) -> bool
    ensures { RunsAt site.now site.now.levels result stmt.now slots.old.items store.old slots.new.items store.new }
{
    match plan_of(slots, store, stmt) {
        Some(plan) => run_plan(site, slots, store, stmt, plan),
        None => false,
    }
}

/// Runs a statement with tests or calls of functions, if that goes at once; if not, nothing is changed.
pub(crate) fn run_with_calls(
    site: &Site,
    slots: &mut Vec<Slot>,
    store: &mut Store,
    stmt: &Stmt,
) -> bool
    ensures { RunsAt site.now site.now.levels result stmt.now slots.old.items store.old slots.new.items store.new }
{
    match &stmt.kind {
        StmtKind::Call(x) => run_call(site, slots, store, stmt, x),
        _ => run_change(site, slots, store, stmt),
    }
}
