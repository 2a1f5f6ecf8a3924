//! The tables that each run of a site has for itself.

ghost use Rattle.std.specs.Prelude.{◌≡◌, ◌+◌, ◌<◌, length, IfOk};
ghost use Rattle.lua_site.specs.Making.{Makes};
ghost use Rattle.lua_site.specs.RunTables.{three_made, names_set, globals_set, run_tables_made};

use crate::LuaSiteFault;
use crate::making::{make_table, set_entry, set_metatable};
use lua_operators::Event;
use lua_values::{Store, Value};
use resty_base::Bytes;

/// Makes a run's own tables, one after the other: that of the modules that it requires, its global table, which holds itself as
/// `_G`, and the metatable of that, by which a run finds what the present global table holds.
pub(crate) fn make_run_tables(store: &mut Store) -> Result<(), LuaSiteFault>
    ensures { Makes (run_tables_made store.old.heap) result store.new }
{
    let outer = store.globals();
    let (globals, meta) = make_three(store)?;
    set_names(store, globals, meta, outer)?;
    make_global(store, globals, meta)
}

/// Makes three tables, and gives the numbers of the second and the third.
fn make_three(store: &mut Store) -> Result<(u32, u32), LuaSiteFault>
    ensures made { Makes (three_made store.old.heap) result store.new }
    ensures second { IfOk result (λ tables. tables.0 ≡ length store.old.heap.tables + 1) }
    ensures third { IfOk result (λ tables. tables.1 ≡ length store.old.heap.tables + 2) }
{
    make_table(store)?;
    let globals = make_table(store)?;
    let meta = make_table(store)?;
    Ok((globals, meta))
}

/// Sets the entries of the global table and of its metatable.
fn set_names(store: &mut Store, globals: u32, meta: u32, outer: u32) -> Result<(), LuaSiteFault>
    ensures { Makes (names_set store.old.heap globals meta outer) result store.new }
{
    let own_name = Value::Text(Bytes::from_static(b"_G"));
    set_entry(store, globals, own_name, Value::Table(globals))?;
    let index = Value::Text(Bytes::from_static(Event::Index.key()));
    set_entry(store, meta, index, Value::Table(outer))
}

/// Gives the global table its metatable, and makes it the store's.
fn make_global(store: &mut Store, globals: u32, meta: u32) -> Result<(), LuaSiteFault>
    ensures { Makes (globals_set store.old.heap globals meta) result store.new }
{
    set_metatable(store, globals, meta)?;
    store.set_globals(globals);
    Ok(())
}
