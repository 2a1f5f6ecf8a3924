//! What a start makes in a store, which is refused with the text of its cause.

ghost use Rattle.std.specs.Prelude.{◌≡◌, ◌+◌, length, IfOk};
ghost use Rattle.lua_site.specs.Making.{Makes, table_made, closure_made, entry_set, metatable_set};

use crate::LuaSiteFault;
use lua_values::{Store, Value};

/// Makes a table, and gives its number.
pub(crate) fn make_table(store: &mut Store) -> Result<u32, LuaSiteFault>
    ensures made { Makes (table_made store.old.heap) result store.new }
    ensures number { IfOk result (λ t. t ≡ length store.old.heap.tables) }
{
    Ok(store.make_table()?)
}

/// Makes a closure of a chunk's function, and gives its number.
pub(crate) fn make_closure(store: &mut Store, function: u32) -> Result<u32, LuaSiteFault>
    ensures made { Makes (closure_made store.old.heap function) result store.new }
    ensures number { IfOk result (λ c. c ≡ length store.old.heap.closures) }
    ensures more { IfOk result (λ _. length store.new.heap.closures ≡ length store.old.heap.closures + 1) }
{
    Ok(store.make_closure(function, &[])?)
}

/// Sets a value at a key of a table.
pub(crate) fn set_entry(
    store: &mut Store,
    t: u32,
    key: Value,
    value: Value,
) -> Result<(), LuaSiteFault>
    ensures { Makes (entry_set store.old.heap t key value) result store.new }
{
    Ok(store.set(t, key, value)?)
}

/// Gives a table a metatable.
pub(crate) fn set_metatable(store: &mut Store, t: u32, meta: u32) -> Result<(), LuaSiteFault>
    ensures { Makes (metatable_set store.old.heap t meta) result store.new }
{
    Ok(store.set_metatable(t, Some(meta))?)
}
