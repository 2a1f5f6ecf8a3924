//! Loops whose turns are run at once.

ghost use Rattle.lua_meaning.specs.Works.{Places};
ghost use Rattle.lua_meaning.specs.Setting.{Setting};
ghost use Rattle.lua_meaning.specs.Loops.{while_work};
ghost use Rattle.lua_vm_fast.specs.Calls.{Allows};
ghost use Rattle.lua_vm_fast.specs.Runs.{Becomes, left_of};

use crate::calls::Site;
use crate::statements::run_simple;
use crate::tests::take_test;
use lua_ast::{Expr, Stmt};
use lua_meaning::Slot;
use lua_values::{STEP_LIMIT, Store};
use std::rc::Rc;

/// As many turns as a run has steps.
pub(crate) const MOST_TURNS: u64 = STEP_LIMIT;

/// Where a loop stands.
pub enum LoopEnd {
    /// It has ended.
    Over,
    /// Its test comes next.
    Test,
    /// A turn has begun, whose statements were run up to this index.
    Body(usize),
}

/// Runs the turns of `while test do body end`, which begins with its test, as far as they can be run at once.
fn run_turns(
    site: &Site,
    slots: &mut Vec<Slot>,
    store: &mut Store,
    test: &Rc<Expr>,
    body: &[Stmt],
) -> LoopEnd
    ensures { (S : Setting) → (p : Places) → Allows site.now site.now.levels S p → Becomes S (while_work test.now.value body.now p slots.old.items) store.old
        (left_of result test.now.value body.now p slots.new.items) store.new }
{
    for _ in 0..MOST_TURNS {
        match take_test(slots, store, test) {
            None => return LoopEnd::Test,
            Some(holds) => {
                if !holds {
                    return LoopEnd::Over;
                }
                let next = run_simple(site, slots, store, body, 0);
                if next < body.len() {
                    return LoopEnd::Body(next);
                }
            }
        }
    }
    LoopEnd::Test
}

/// Runs `while test do body end`, which begins with its test, as far as it can be run at once.
pub fn run_loop(
    site: &Site,
    slots: &mut Vec<Slot>,
    store: &mut Store,
    test: &Rc<Expr>,
    body: &Rc<Vec<Stmt>>,
) -> LoopEnd
    ensures { (S : Setting) → (p : Places) → Allows site.now site.now.levels S p
        → Becomes S (while_work test.now.value body.now.value.items p slots.old.items) store.old
        (left_of result test.now.value body.now.value.items p slots.new.items) store.new }
{
    run_turns(site, slots, store, test, body.as_slice())
}
