//! The table by which preludes and built-in modules find the functions of the host.

ghost use Rattle.std.specs.Prelude.{◌≡◌, ◌+◌, pos};
ghost use Rattle.lua_site.specs.Making.{Makes};
ghost use Rattle.lua_site.specs.Loading.{native_set, natives_set, natives_made};

use crate::LuaSiteFault;
use crate::making::{make_table, set_entry};
use lua_values::{Store, Value};
use resty_base::Whole;

/// The number of this table, which is the second of a store.
pub(crate) const NATIVES_TABLE: u32 = 1;

/// Makes the table, with so many functions of the host.
pub(crate) fn make_natives(store: &mut Store, natives: u32) -> Result<(), LuaSiteFault>
    ensures { Makes (natives_made store.old.heap natives) result store.new }
{
    make_table(store)?;
    set_natives(store, natives)
}

/// Sets each function of the host at the number after its own.
fn set_natives(store: &mut Store, natives: u32) -> Result<(), LuaSiteFault>
    ensures { Makes (natives_set store.old.heap natives) result store.new }
{
    for native in 0..natives {
        set_native(store, native)?;
    }
    Ok(())
}

/// Sets a function of the host.
fn set_native(store: &mut Store, native: u32) -> Result<(), LuaSiteFault>
    ensures { Makes (native_set store.old.heap native) result store.new }
{
    let key = Value::Number(number_after(native));
    set_entry(store, NATIVES_TABLE, key, Value::Native(native))
}

/// The number after this one.
fn number_after(n: u32) -> Whole
    ensures { result ≡ pos (n + 1) }
{
    match Whole::new(i64::from(n) + 1) {
        Some(number) => number,
        None => unreachable!(),
    }
}
