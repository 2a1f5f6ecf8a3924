//! The steps of a run.

ghost use Rattle.std.specs.Prelude.{◌≡◌, ◌+◌, nat_lt};
ghost use Rattle.lua_values.specs.Heap.{step_limit};

use lua_values::{STEP_LIMIT, Store};

/// Whether so many steps more stay below the limit.
#[inline(always)]
pub(crate) fn affords(store: &Store, n: u64) -> bool
    ensures { result ≡ nat_lt (store.now.steps + n) step_limit }
{
    n < STEP_LIMIT - store.steps()
}
