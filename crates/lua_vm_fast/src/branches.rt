//! `if` statements whose tests are evaluated at once.

ghost use Rattle.std.specs.Prelude.{◌≡◌, ◌<◌, ◌+◌, ◌∷◌, [], drop, IfSome, MatchOption};
ghost use Rattle.lua_values.specs.Heap.{step_limit};
ghost use Rattle.lua_vm_fast.specs.Branches.{Chooses};

use crate::tests::test_of;
use lua_ast::{Arm, Stmt};
use lua_meaning::Slot;
use lua_values::{STEP_LIMIT, Store};
use std::rc::Rc;

/// The block to which an `if` comes, and how many steps its tests count.
#[derive(Clone, Copy)]
pub(crate) struct Chosen<'a> {
    pub body: &'a [Stmt],
    pub steps: u64,
}

/// The arm at an index, if it is there.
#[inline(always)]
fn arm_at(arms: &[Arm], i: usize) -> Option<&Arm>
    ensures { MatchOption result (drop i arms.now ≡ []) (λ arm. drop i arms.now ≡ arm.now ∷ drop (i + 1) arms.now) }
{
    arms.get(i)
}

/// The block of the first arm whose test holds, or else the last one.
fn chosen_among<'a>(
    slots: &[Slot],
    store: &Store,
    arms: &'a [Arm],
    last: &'a [Stmt],
) -> Option<Chosen<'a>>
    ensures chooses { IfSome result (λ c. Chooses arms.now last.now slots.now store.now.heap c.body.now c.steps) }
    ensures few { IfSome result (λ c. c.steps < step_limit) }
{
    let mut steps = 0u64;
    let mut i = 0usize;
    while i < arms.len() {
        let arm = arm_at(arms, i)?;
        let test = test_of(slots, store, &arm.test)?;
        steps += test.steps;
        if steps >= STEP_LIMIT {
            return None;
        }
        if test.holds {
            return Some(Chosen {
                body: arm.body.as_slice(),
                steps,
            });
        }
        i += 1;
    }
    Some(Chosen { body: last, steps })
}

/// The block to which an `if` comes.
#[inline(always)]
pub(crate) fn chosen_of<'a>(
    slots: &[Slot],
    store: &Store,
    arms: &'a Rc<Vec<Arm>>,
    last: &'a Rc<Vec<Stmt>>,
) -> Option<Chosen<'a>>
    ensures chooses { IfSome result (λ c. Chooses arms.now.value.items last.now.value.items slots.now store.now.heap c.body.now c.steps) }
    ensures few { IfSome result (λ c. c.steps < step_limit) }
{
    chosen_among(slots, store, arms.as_slice(), last.as_slice())
}
