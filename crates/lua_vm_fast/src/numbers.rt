//! Expressions of numbers: literals, variables and entries of tables that hold numbers, and arithmetic on these.

ghost use Rattle.std.specs.Prelude.{◌≡◌, ◌<◌, IfSome};
ghost use Rattle.std.specs.Prelude.{slice_get, Some};
ghost use Rattle.lua_values.specs.declared.values.Value.TheVariants.{Number};
ghost use Rattle.lua_values.specs.Heap.{step_limit};
ghost use Rattle.lua_meaning.specs.declared.slots.Slot.TheVariants.{Plain};
ghost use Rattle.lua_vm_fast.specs.Gives.{Gives, GivesBinary};

use crate::operators::computed;
use crate::places::seen_of;
use lua_ast::{BinOp, Expr, ExprKind};
use lua_meaning::Slot;
use lua_values::{STEP_LIMIT, Store, Value};
use resty_base::Whole;

/// How many operators may be within one another.
pub(crate) const LEVELS: u8 = 8;

/// A number, and how many steps its expression counts.
#[derive(Clone, Copy)]
pub(crate) struct Counted {
    pub number: Whole,
    pub steps: u64,
}

/// The number of an expression of numbers, with at most so many operators within one another. `None` of any other one, and where an operator
/// faults.
#[cycle(numbers)]
#[inline(always)]
pub(crate) fn number_of(slots: &[Slot], store: &Store, x: &Expr, levels: u8) -> Option<Counted>
    ensures gives { IfSome result (λ c. Gives x.now slots.now store.now.heap (Number c.number) c.steps) }
    ensures few { IfSome result (λ c. c.steps < step_limit) }
{
    match &x.kind {
        ExprKind::Number(n) => Some(Counted {
            number: *n,
            steps: 1,
        }),
        ExprKind::Slot(i) => in_slot(slots, *i),
        ExprKind::Binary(operator, a, b) => operated(slots, store, *operator, a, b, levels),
        ExprKind::Index(_, _) | ExprKind::Global(_) => number_seen(slots, store, x, levels),
        _ => None,
    }
}

/// The number that an operator gives on two such expressions.
#[cycle(numbers)]
fn operated(
    slots: &[Slot],
    store: &Store,
    operator: BinOp,
    a: &Expr,
    b: &Expr,
    levels: u8,
) -> Option<Counted>
    ensures gives { IfSome result (λ c. GivesBinary operator a.now b.now slots.now store.now.heap (Number c.number) c.steps) }
    ensures few { IfSome result (λ c. c.steps < step_limit) }
{
    if levels == 0 {
        return None;
    }
    let a = number_of(slots, store, a, levels - 1)?;
    let b = number_of(slots, store, b, levels - 1)?;
    let number = computed(operator, a.number, b.number)?;
    with_steps(number, a.steps + b.steps + 1)
}

/// The number that a global variable or an entry of a table holds.
#[cycle(numbers)]
fn number_seen(slots: &[Slot], store: &Store, x: &Expr, levels: u8) -> Option<Counted>
    ensures gives { IfSome result (λ c. Gives x.now slots.now store.now.heap (Number c.number) c.steps) }
    ensures few { IfSome result (λ c. c.steps < step_limit) }
{
    let seen = seen_of(slots, store, x, levels)?;
    match seen.value {
        Value::Number(n) => Some(Counted {
            number: *n,
            steps: seen.steps,
        }),
        _ => None,
    }
}

/// The number in a slot, if it has one of its own.
#[inline(always)]
fn in_slot(slots: &[Slot], i: u8) -> Option<Counted>
    ensures number { IfSome result (λ c. slice_get slots.now i ≡ Some (Plain (Number c.number))) }
    ensures steps { IfSome result (λ c. c.steps ≡ 1) }
{
    match slots.get(i as usize) {
        Some(Slot::Plain(Value::Number(n))) => Some(Counted {
            number: *n,
            steps: 1,
        }),
        _ => None,
    }
}

/// A number with its steps, if these are few enough for a run.
#[inline(always)]
fn with_steps(number: Whole, steps: u64) -> Option<Counted>
    ensures number { IfSome result (λ c. c.number ≡ number) }
    ensures steps { IfSome result (λ c. c.steps ≡ steps) }
    ensures few { IfSome result (λ c. c.steps < step_limit) }
{
    if steps < STEP_LIMIT {
        Some(Counted { number, steps })
    } else {
        None
    }
}
