//! `for` loops that count, whose runs are done at once (Lua 5.1 Reference Manual, 2.4.5).

ghost use Rattle.std.specs.Prelude.{◌≡◌, ℕ};
ghost use Rattle.lua_meaning.specs.Works.{Places};
ghost use Rattle.lua_meaning.specs.Setting.{Setting};
ghost use Rattle.lua_meaning.specs.Loops.{for_from, is_within};
ghost use Rattle.lua_vm_fast.specs.Calls.{Allows};
ghost use Rattle.lua_vm_fast.specs.Runs.{Becomes};
ghost use Rattle.lua_vm_fast.specs.Counts.{BeginsRun, left_of_count};

use crate::calls::Site;
use crate::loops::MOST_TURNS;
use crate::statements::{put, run_simple};
use crate::steps::affords;
use lua_ast::Stmt;
use lua_meaning::Slot;
use lua_numbers::add;
use lua_values::Store;
use resty_base::Whole;
use std::rc::Rc;

/// The variable of a `for` that counts, how far it goes, and what is added after each run.
#[derive(Clone, Copy)]
pub struct Counting {
    pub slot: u8,
    pub limit: Whole,
    pub step: Whole,
}

/// Where a `for` that counts stands.
pub enum CountEnd {
    /// It has ended.
    Over,
    /// A run for this number comes next.
    Next(Whole),
    /// A run for this number has begun, whose statements were run up to this index.
    Body(Whole, usize),
}

/// Whether a loop runs for a number: up to its limit, or down to it by a negative step.
#[inline(always)]
fn is_within(at: Whole, limit: Whole, step: Whole) -> bool
    ensures { result ≡ is_within at limit step }
{
    if 0i64.cmp(&step.get()).is_lt() {
        at.get().cmp(&limit.get()).is_le()
    } else {
        limit.get().cmp(&at.get()).is_le()
    }
}

/// Begins a run for a number, if a step is left for it: that is counted, and the number stands in the loop's variable.
#[inline(always)]
fn take_run(slots: &mut Vec<Slot>, store: &mut Store, count: &Counting, at: Whole) -> bool
    ensures { BeginsRun result count.now at slots.old.items store.old slots.new.items store.new }
{
    if !affords(store, 1) {
        return false;
    }
    put(slots, count.slot, at);
    let _ = store.count(1);
    true
}

/// Does the runs of a loop from a number on, as far as they can be done at once.
fn run_counts(
    site: &Site,
    slots: &mut Vec<Slot>,
    store: &mut Store,
    count: &Counting,
    from: Whole,
    body: &[Stmt],
) -> CountEnd
    ensures { (S : Setting) → (line : ℕ) → (p : Places) → Allows site.now site.now.levels S p
        → Becomes S (for_from line count.now.slot from count.now.limit count.now.step body.now p slots.old.items) store.old
        (left_of_count S line count.now result body.now p slots.new.items) store.new }
{
    if !is_within(from, count.limit, count.step) {
        return CountEnd::Over;
    }
    let mut at = from;
    for _ in 0..MOST_TURNS {
        if !take_run(slots, store, count, at) {
            return CountEnd::Next(at);
        }
        let next = run_simple(site, slots, store, body, 0);
        if next < body.len() {
            return CountEnd::Body(at, next);
        }
        match add(at, count.step) {
            Err(_) => return CountEnd::Body(at, next),
            Ok(number) => {
                if !is_within(number, count.limit, count.step) {
                    return CountEnd::Over;
                }
                at = number;
            }
        }
    }
    CountEnd::Next(at)
}

/// Does the runs of a loop from a number on, whose body a pointer shares, as far as they can be done at once.
pub fn run_for(
    site: &Site,
    slots: &mut Vec<Slot>,
    store: &mut Store,
    count: &Counting,
    from: Whole,
    body: &Rc<Vec<Stmt>>,
) -> CountEnd
    ensures { (S : Setting) → (line : ℕ) → (p : Places) → Allows site.now site.now.levels S p
        → Becomes S (for_from line count.now.slot from count.now.limit count.now.step body.now.value.items p slots.old.items) store.old
        (left_of_count S line count.now result body.now.value.items p slots.new.items) store.new }
{
    run_counts(site, slots, store, count, from, body.as_slice())
}
