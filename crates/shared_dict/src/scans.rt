//! Scans of entries.

ghost use Rattle.std.specs.Prelude.{◌≡◌, ℕ, ◌+◌, ◌<◌, ◌^◌, nat_lt, not, ◌&&◌, length, take, IfOk};
ghost use Rattle.std.specs.List.{IsDistinct};
ghost use Rattle.std.specs.Map.{keys_of};
ghost use Rattle.shared_rules.specs.Keys.{same_key};
ghost use Rattle.shared_rules.specs.Items.{used, without, is_before};
ghost use Rattle.shared_rules.specs.Dictionary.{keys_there};
ghost use Rattle.shared_dict.specs.declared.kept.Flush.{Flush};
ghost use Rattle.shared_dict.specs.Zones.{fits_after, doomed};
ghost use Rattle.shared_dict.specs.Kept.{items_of, expiry_of};

use crate::kept::{Flush, Kept};
use crate::sizes::size_of;
use lru::Iter;
use resty_base::{Bytes, Ms};
use std::alloc::{AllocError, Global};

/// Whether so many bytes more fit after at most 30 of the last items are evicted, where that of the key was taken out and the
/// others count `rest` bytes.
pub(crate) fn fits(
    mut entries: Iter<'_, Bytes, Kept>,
    key: &Bytes,
    size: u64,
    mut rest: u128,
    more: u128,
) -> bool
    requires distinct { IsDistinct same_key (keys_of entries) }
    requires rest { (f : Flush) → rest ≡ used (without key.now (items_of f entries)) }
    requires small { rest + more < 2 ^ 128 }
    ensures { (f : Flush) → result ≡ fits_after 30 size more (without key.now (items_of f entries.entry)) }
{
    let mut most = 30_u32;
    while let Some((other, kept)) = entries.next_back() {
        if rest + more <= u128::from(size) {
            return true;
        }
        if most == 0 {
            return false;
        }
        if is_other(key, other) {
            rest -= size_of(other, &kept.value);
            most -= 1;
        }
    }
    rest + more <= u128::from(size)
}

fn is_other(key: &Bytes, other: &Bytes) -> bool
    ensures { result ≡ not (same_key key.now other.now) }
{
    key != other
}

/// The keys of the items that aren't there, the last first, at most so many.
pub(crate) fn doomed(
    alloc: Global,
    mut entries: Iter<'_, Bytes, Kept>,
    flush: Flush,
    now: Ms,
    most: u32,
) -> Result<Vec<Bytes>, AllocError>
    ensures { IfOk result (λ keys. keys.items ≡ doomed now.0 most (items_of flush entries.entry)) }
{
    let mut keys = Vec::new(alloc);
    while let Some((key, kept)) = entries.next_back() {
        if is_doomed(flush, now, kept, keys.len() as u64, most) {
            keys.push(key.clone()?)?;
        }
    }
    Ok(keys)
}

/// How many items aren't there, at most so many.
pub(crate) fn count_doomed(
    mut entries: Iter<'_, Bytes, Kept>,
    flush: Flush,
    now: Ms,
    most: u32,
) -> u32
    ensures { result ≡ length (doomed now.0 most (items_of flush entries.entry)) }
{
    let mut count = 0;
    while let Some((_, kept)) = entries.next_back() {
        if is_doomed(flush, now, kept, u64::from(count), most) {
            count += 1;
        }
    }
    count
}

/// Whether one more is taken out that isn't there.
fn is_doomed(flush: Flush, now: Ms, kept: &Kept, count: u64, most: u32) -> bool
    ensures { result ≡ (not (is_before now.0 (expiry_of flush kept.now)) && nat_lt count most) }
{
    !is_before(now, expiry_of(flush, kept)) && count < u64::from(most)
}

/// The keys of the items that are there, at most so many.
pub(crate) fn keys(
    alloc: Global,
    mut entries: Iter<'_, Bytes, Kept>,
    flush: Flush,
    now: Ms,
    most: u32,
) -> Result<Vec<Bytes>, AllocError>
    ensures { IfOk result (λ keys. keys.items ≡ take most (keys_there now.0 (items_of flush entries.entry))) }
{
    let mut keys = Vec::new(alloc);
    while let Some((key, kept)) = entries.next() {
        if keys.len() >= most as usize {
            return Ok(keys);
        }
        if is_before(now, expiry_of(flush, kept)) {
            keys.push(key.clone()?)?;
        }
    }
    Ok(keys)
}

/// When an item expires that may have been flushed.
pub(crate) fn expiry_of(flush: Flush, kept: &Kept) -> Option<Ms>
    ensures { result ≡ expiry_of flush kept.now }
{
    if kept.number <= flush.last {
        Some(flush.at)
    } else {
        kept.expiry
    }
}

/// Whether the moment comes before the expiry, if there is one.
pub(crate) fn is_before(now: Ms, expiry: Option<Ms>) -> bool
    ensures { result ≡ is_before now.0 expiry }
{
    match expiry {
        Some(at) => now.0 < at.0,
        None => true,
    }
}
