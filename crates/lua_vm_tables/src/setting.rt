//! Values that are set at keys of tables.

ghost use Rattle.std.specs.Prelude.{IfOk};
ghost use Rattle.lua_vm_tables.specs.Sets.{Sets};

use lua_operators::Fault;
use lua_values::{Store, StoreFault, Value};
use std::alloc::AllocError;

/// Sets a value at a key of a table, whatever its metatable, and gives the fault where the store refuses that.
pub(crate) fn set_pair(
    store: &mut Store,
    t: u32,
    key: Value,
    value: Value,
) -> Result<Option<Fault>, AllocError>
    ensures { IfOk result (λ fault. Sets t key value store.old fault store.new) }
{
    match store.set(t, key, value) {
        Ok(()) => Ok(None),
        Err(StoreFault::Frozen) => Ok(Some(Fault::FrozenTable)),
        Err(StoreFault::Full) => Ok(Some(Fault::StorageLimit)),
        Err(StoreFault::BadKey) => Ok(Some(Fault::NilKey)),
        Err(StoreFault::Memory) => Err(AllocError),
    }
}
