//! What init made, frozen.

ghost use Rattle.std.specs.Prelude.{◌≡◌};
ghost use Rattle.lua_values.specs.StoreCalls as calls;

use lua_values::Store;

/// Freezes all that a store has: what a site's start made, before its runs. Takes no memory.
pub fn freeze(store: &mut Store)
    ensures { store.new ≡ record { heap = calls.frozen store.old.heap; steps = store.old.steps } }
{
    store.freeze();
}
