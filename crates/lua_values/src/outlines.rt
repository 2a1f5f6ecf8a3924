//! How what comes next in a table and its border are found.

ghost use Rattle.std.specs.Prelude.{◌≡◌, ℕ, ◌+◌, ◌<◌, ◌≤◌, [], false, length, drop, IfOk, OnOk, OnErr};
ghost use Rattle.lua_values.specs.Border.{border_of};
ghost use Rattle.lua_values.specs.Pairs.{value_at, has_entry, with_value, first_live};
ghost use Rattle.lua_values.specs.Flags.{flag_at};
ghost use Rattle.lua_values.specs.TableFlags.{IsFlaggedTo, IsIndexed, IsOutline};
ghost use Rattle.lua_values.specs.Values.{is_nil, number};

use crate::Value;
use crate::flags::Flags;
use crate::pairs::{Pairs, hole_of, numbered};
use std::alloc::AllocError;

/// How what comes next in a table and its border are found.
#[derive(Clone, Copy)]
pub enum Outline {
    /// At once, since the keys are 1, 2, .. in this order and no value is nil.
    Full,
    /// By flags of the pairs whose value isn't nil, and of the numbers, up to that of pairs, at which nothing is.
    Flagged,
    /// By a walk, since memory for the flags was refused.
    Walked,
}

/// Gives pairs their flags, one after the other.
pub(crate) fn flagged(live: &mut Flags, holes: &mut Flags, pairs: &Pairs) -> Outline
    requires live { live.old ≡ [] }
    requires holes { holes.old ≡ [] }
    ensures { IsOutline result pairs.now live.new holes.new }
{
    for index in 0..pairs.len() {
        match flag_pair(live, holes, pairs, index) {
            Ok(()) => {}
            Err(_) => return Outline::Walked,
        }
    }
    Outline::Flagged
}

/// Gives one more pair its flags.
fn flag_pair(
    live: &mut Flags,
    holes: &mut Flags,
    pairs: &Pairs,
    index: usize,
) -> Result<(), AllocError>
    requires within { index < length pairs.now }
    requires flagged { IsFlaggedTo pairs.now live.old holes.old index }
    ensures { OnOk result (IsFlaggedTo pairs.now live.new holes.new (index + 1)) }
{
    reach(live, holes, index)?;
    live.set(index, !pairs.value(index).is_nil());
    holes.set(index, is_hole(pairs, index as u32 + 1));
    Ok(())
}

/// Has both flags at an index that may be the next.
fn reach(live: &mut Flags, holes: &mut Flags, index: usize) -> Result<(), AllocError>
    ensures live { (k : ℕ) → flag_at live.new k ≡ flag_at live.old k }
    ensures holes { (k : ℕ) → flag_at holes.new k ≡ flag_at holes.old k }
    ensures longer_live { length live.old ≤ length live.new }
    ensures longer_holes { length holes.old ≤ length holes.new }
    ensures few { OnOk result (length live.new ≤ 32_768) }
    ensures reached_live { OnOk result (index ≤ length live.old → index < length live.new) }
    ensures reached_holes { OnOk result (index ≤ length holes.old → index < length holes.new) }
{
    live.reach(index)?;
    holes.reach(index)
}

/// Puts a new key last, with a value that isn't nil, among pairs that have their flags.
pub(crate) fn append_flagged(
    pairs: &mut Pairs,
    live: &mut Flags,
    holes: &mut Flags,
    key: Value,
    value: Value,
) -> Result<(), AllocError>
    requires flagged { IsIndexed pairs.old live.old holes.old }
    requires absent { has_entry pairs.old key ≡ false }
    requires live { is_nil value ≡ false }
    ensures flagged { IsIndexed pairs.new live.new holes.new }
    ensures done { OnOk result (pairs.new ≡ with_value pairs.old key value) }
    ensures kept { OnErr result (pairs.new ≡ pairs.old) }
{
    let index = pairs.len();
    reach(live, holes, index)?;
    let hole = hole_of(&key, index);
    pairs.push(key, value)?;
    live.set(index, true);
    holes.set_at(hole, false);
    holes.set(index, is_hole(pairs, index as u32 + 1));
    Ok(())
}

/// Copies of the first key from an index on whose value isn't nil, and of this value, by a walk.
pub(crate) fn walk_from(pairs: &Pairs, from: usize) -> Result<Option<(Value, Value)>, AllocError>
    ensures { IfOk result (λ next. next ≡ first_live (drop from pairs.now)) }
{
    for index in from..pairs.len() {
        if !pairs.value(index).is_nil() {
            return pairs.pair(index);
        }
    }
    Ok(None)
}

/// The least n with nothing at n + 1, by a walk.
pub(crate) fn walk_border(pairs: &Pairs) -> usize
    ensures { result ≡ border_of pairs.now }
{
    for n in 0..pairs.len() {
        if is_hole(pairs, n as u32 + 1) {
            return n;
        }
    }
    pairs.len()
}

/// Whether nothing is at the number n.
fn is_hole(pairs: &Pairs, n: u32) -> bool
    requires { n ≤ 1_000_000_000 }
    ensures { result ≡ is_nil (value_at pairs.now (number n)) }
{
    match pairs.index_of(&numbered(n)) {
        None => true,
        Some(index) => pairs.value(index).is_nil(),
    }
}
