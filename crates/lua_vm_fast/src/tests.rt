//! Tests: comparisons of numbers, equality, constants, and what stands in variables and tables.

ghost use Rattle.std.specs.Prelude.{◌≡◌, ◌<◌, ◌+◌, ◌*◌, not, IfSome, MatchOption, if◌then◌else◌};
ghost use Rattle.lua_values.specs.declared.values.Value.TheVariants.{Truth};
ghost use Rattle.lua_values.specs.Heap.{step_limit};
ghost use Rattle.lua_operators.specs.declared.outcome.Outcome.TheVariants.{Gives};
ghost use Rattle.lua_vm_fast.specs.Gives.{Compares, Equates, GivesBinary, Tells, TellsJoined, text_steps};
ghost use Rattle.lua_vm_fast.specs.Runs.{Tests};

use crate::numbers::{LEVELS, number_of};
use crate::operators::compared;
use crate::places::{Valued, found_of, value_of};
use crate::steps::affords;
use lua_ast::{BinOp, Expr, ExprKind, UnOp};
use lua_meaning::Slot;
use lua_operators::{Outcome, equality, is_truthy};
use lua_values::{BYTES_OF_A_STEP, STEP_LIMIT, Store, Value};

/// Whether a test holds, and how many steps it counts.
#[derive(Clone, Copy)]
pub(crate) struct Tested {
    pub holds: bool,
    pub steps: u64,
}

/// Whether a comparison of two expressions of numbers holds; `None` of any other operator.
#[inline(always)]
fn compared_of(slots: &[Slot], store: &Store, operator: BinOp, a: &Expr, b: &Expr) -> Option<Tested>
    ensures gives { IfSome result (λ t. GivesBinary operator a.now b.now slots.now store.now.heap (Truth t.holds) t.steps) }
    ensures few { IfSome result (λ t. t.steps < 2 * step_limit) }
{
    let a = number_of(slots, store, a, LEVELS)?;
    let b = number_of(slots, store, b, LEVELS)?;
    let holds = compared(operator, a.number, b.number)?;
    Some(Tested {
        holds,
        steps: a.steps + b.steps + 1,
    })
}

/// Whether an operator is `==`, or `~=`; `None` of any other one.
#[inline(always)]
fn wanted_of(operator: BinOp) -> Option<bool>
    ensures { IfSome result (λ wanted. Equates operator wanted) }
{
    match operator {
        BinOp::Eq => Some(true),
        BinOp::Ne => Some(false),
        _ => None,
    }
}

/// Whether something holds, or whether it doesn't where false is wanted.
#[inline(always)]
fn as_wanted(wanted: bool, holds: bool) -> bool
    ensures { result ≡ (if wanted then holds else not holds) }
{
    if wanted { holds } else { !holds }
}

/// The truth that an operator gives, if it gives one.
#[inline(always)]
fn truth_of(outcome: Outcome) -> Option<bool>
    ensures { IfSome result (λ truth. outcome ≡ Gives (Truth truth)) }
{
    match outcome {
        Outcome::Gives(Value::Truth(truth)) => Some(truth),
        _ => None,
    }
}

/// How many steps are counted for the bytes of two values that are compared.
fn text_steps(a: &Value, b: &Value) -> u64
    ensures { result ≡ text_steps a.now b.now }
{
    match (a, b) {
        (Value::Text(s), Value::Text(t)) => {
            (s.as_slice().len() as u64 + t.as_slice().len() as u64) / BYTES_OF_A_STEP
        }
        _ => 0,
    }
}

/// Whether two values are the same, or whether they aren't where false is wanted; `None` where a metatable is asked.
#[inline(always)]
fn equated(wanted: bool, a: &Valued, b: &Valued) -> Option<Tested>
    requires a { a.now.steps < step_limit }
    requires b { b.now.steps < step_limit }
    ensures compares { IfSome result (Compares wanted a.now b.now) }
    ensures few { IfSome result (λ t. t.steps < 4 * step_limit) }
{
    let texts = text_steps(&a.value, &b.value);
    if texts >= STEP_LIMIT {
        return None;
    }
    let same = truth_of(equality(&a.value, &b.value))?;
    Some(Tested {
        holds: as_wanted(wanted, same),
        steps: a.steps + b.steps + 1 + texts,
    })
}

/// Whether `==` or `~=` holds of the values of two expressions, if no metatable is asked; `None` of any other operator.
fn equal_of(slots: &[Slot], store: &Store, operator: BinOp, a: &Expr, b: &Expr) -> Option<Tested>
    ensures gives { IfSome result (λ t. GivesBinary operator a.now b.now slots.now store.now.heap (Truth t.holds) t.steps) }
    ensures few { IfSome result (λ t. t.steps < 4 * step_limit) }
{
    let wanted = wanted_of(operator)?;
    let a = value_of(slots, store, a, LEVELS)?;
    let b = value_of(slots, store, b, LEVELS)?;
    equated(wanted, &a, &b)
}

/// Whether an operator gives true on two expressions.
#[inline(always)]
fn operated_test(
    slots: &[Slot],
    store: &Store,
    operator: BinOp,
    a: &Expr,
    b: &Expr,
) -> Option<Tested>
    ensures gives { IfSome result (λ t. GivesBinary operator a.now b.now slots.now store.now.heap (Truth t.holds) t.steps) }
    ensures few { IfSome result (λ t. t.steps < 4 * step_limit) }
{
    match compared_of(slots, store, operator, a, b) {
        Some(test) => Some(test),
        None => equal_of(slots, store, operator, a, b),
    }
}

/// Whether what stands in a variable or in a table is neither false nor nil.
#[inline(always)]
fn seen_test(slots: &[Slot], store: &Store, x: &Expr) -> Option<Tested>
    ensures tells { IfSome result (λ t. Tells x.now slots.now store.now.heap t.holds t.steps) }
    ensures few { IfSome result (λ t. t.steps < 4 * step_limit) }
{
    let seen = found_of(slots, store, x)?;
    Some(Tested {
        holds: is_truthy(seen.value),
        steps: seen.steps,
    })
}

/// Whether a constant, a comparison, or what stands in a variable or in a table holds; `None` of any other test.
#[inline(always)]
fn plain_test_of(slots: &[Slot], store: &Store, x: &Expr) -> Option<Tested>
    ensures tells { IfSome result (λ t. Tells x.now slots.now store.now.heap t.holds t.steps) }
    ensures few { IfSome result (λ t. t.steps < 4 * step_limit) }
{
    match &x.kind {
        ExprKind::True => Some(Tested {
            holds: true,
            steps: 1,
        }),
        ExprKind::False => Some(Tested {
            holds: false,
            steps: 1,
        }),
        ExprKind::Binary(operator, a, b) => operated_test(slots, store, *operator, a, b),
        _ => seen_test(slots, store, x),
    }
}

/// A test with its steps, if these are few enough for a run.
#[inline(always)]
fn counted_test(holds: bool, steps: u64) -> Option<Tested>
    ensures holds { IfSome result (λ t. t.holds ≡ holds) }
    ensures steps { IfSome result (λ t. t.steps ≡ steps) }
    ensures few { IfSome result (λ t. t.steps < step_limit) }
{
    if steps < STEP_LIMIT {
        Some(Tested { holds, steps })
    } else {
        None
    }
}

/// Whether a test holds that is made of others by `not`, `and` and `or`, with at most so many within one another.
#[cycle(made)]
fn made_test_of(slots: &[Slot], store: &Store, x: &Expr, levels: u8) -> Option<Tested>
    ensures tells { IfSome result (λ t. Tells x.now slots.now store.now.heap t.holds t.steps) }
    ensures few { IfSome result (λ t. t.steps < 4 * step_limit) }
{
    if levels == 0 {
        return None;
    }
    match &x.kind {
        ExprKind::Unary(operator, a) => match operator {
            UnOp::Not => {
                let test = made_test_of(slots, store, a, levels - 1)?;
                counted_test(!test.holds, test.steps + 1)
            }
            _ => None,
        },
        ExprKind::Paren(a) => {
            let test = made_test_of(slots, store, a, levels - 1)?;
            counted_test(test.holds, test.steps + 1)
        }
        ExprKind::And(a, b) => joined_test_of(slots, store, true, a, b, levels - 1),
        ExprKind::Or(a, b) => joined_test_of(slots, store, false, a, b, levels - 1),
        _ => plain_test_of(slots, store, x),
    }
}

/// Whether `a and b` holds, or `a or b` where false is given: b is asked where a holds, or where it doesn't.
#[cycle(made)]
#[inline(always)]
fn joined_test_of(
    slots: &[Slot],
    store: &Store,
    goes_on: bool,
    a: &Expr,
    b: &Expr,
    levels: u8,
) -> Option<Tested>
    ensures tells { IfSome result (λ t. TellsJoined goes_on a.now b.now slots.now store.now.heap t.holds t.steps) }
    ensures few { IfSome result (λ t. t.steps < 4 * step_limit) }
{
    let first = made_test_of(slots, store, a, levels)?;
    if !as_wanted(goes_on, first.holds) {
        return counted_test(first.holds, first.steps + 1);
    }
    let second = made_test_of(slots, store, b, levels)?;
    counted_test(second.holds, first.steps + second.steps + 1)
}

/// Whether a test holds, if that is there at once.
#[inline(always)]
pub(crate) fn test_of(slots: &[Slot], store: &Store, x: &Expr) -> Option<Tested>
    ensures tells { IfSome result (λ t. Tells x.now slots.now store.now.heap t.holds t.steps) }
    ensures few { IfSome result (λ t. t.steps < 4 * step_limit) }
{
    match &x.kind {
        ExprKind::Unary(_, _) | ExprKind::Paren(_) | ExprKind::And(_, _) | ExprKind::Or(_, _) =>
            made_test_of(slots, store, x, LEVELS),
        _ => plain_test_of(slots, store, x),
    }
}

/// The steps of a test, and where it holds the one of the turn that begins.
#[inline(always)]
fn steps_of(test: Tested) -> u64
    requires { test.steps < 4 * step_limit }
    ensures { result ≡ (if test.holds then test.steps + 1 else test.steps) }
{
    if test.holds {
        test.steps + 1
    } else {
        test.steps
    }
}

/// Whether the test of a loop holds, if that is there at once. Its steps are counted, and where it holds the one of the turn that begins.
/// `None` where nothing is counted.
#[inline(always)]
pub(crate) fn take_test(slots: &[Slot], store: &mut Store, x: &Expr) -> Option<bool>
    ensures { MatchOption result (store.new ≡ store.old) (λ holds. Tests x.now slots.now holds store.old store.new) }
{
    let test = test_of(slots, store, x)?;
    let steps = steps_of(test);
    if !affords(store, steps) {
        return None;
    }
    let _ = store.count(steps);
    Some(test.holds)
}
