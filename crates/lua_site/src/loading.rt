//! The chunks of a site as closures.

ghost use Rattle.std.specs.Prelude.{◌≡◌, ◌<◌, length, IfOk, IfSome};
ghost use Rattle.std.specs.List.{range_with_len};
ghost use Rattle.lua_modules.specs.Sets.{chunks_of};
ghost use Rattle.lua_site.specs.Making.{Gives, Makes, for_each, closure_made};
ghost use Rattle.lua_site.specs.Loading.{prelude_run, module_made, modules_ready, loaded, loaded_in, init_run};

use crate::LuaSiteFault;
use crate::calls::call;
use crate::making::{make_closure, set_entry};
use crate::natives_table::{NATIVES_TABLE, make_natives};
use lua_machine::Machine;
use lua_modules::{Chunks, Module};
use lua_values::{Store, Value};
use std::alloc::Global;

/// Makes the natives' table, runs the preludes, and makes closures of the modules' and the blocks' chunks. It gives those of the
/// blocks.
pub(crate) fn load<M: Machine>(
    alloc: Global,
    machine: &M,
    store: &mut Store,
    natives: u32,
    chunks: &Chunks,
) -> Result<Vec<u32>, LuaSiteFault>
    ensures loaded { Gives (loaded (M.life machine.now) natives (chunks_of chunks.now) store.old.heap) (λ blocks. loaded_in store.new blocks.items) result }
    ensures count { IfOk result (λ blocks. length blocks.items ≡ length chunks.now.blocks.items) }
{
    ready_modules(alloc, machine, store, natives, chunks)?;
    make_blocks(alloc, store, chunks.blocks.as_slice())
}

/// The same without the blocks.
fn ready_modules<M: Machine>(
    alloc: Global,
    machine: &M,
    store: &mut Store,
    natives: u32,
    chunks: &Chunks,
) -> Result<(), LuaSiteFault>
    ensures { Makes (modules_ready (M.life machine.now) natives (chunks_of chunks.now) store.old.heap) result store.new }
{
    make_natives(store, natives)?;
    run_preludes(alloc, machine, store, chunks.preludes.as_slice())?;
    make_modules(store, chunks.modules.as_slice())
}

/// Runs the preludes, one after the other.
fn run_preludes<M: Machine>(
    alloc: Global,
    machine: &M,
    store: &mut Store,
    functions: &[u32],
) -> Result<(), LuaSiteFault>
    ensures { Makes (for_each (prelude_run (M.life machine.now)) store.old.heap functions.now) result store.new }
{
    for function in functions {
        run_prelude(alloc, machine, store, *function)?;
    }
    Ok(())
}

/// Runs a prelude: its chunk is called with the natives' table.
fn run_prelude<M: Machine>(
    alloc: Global,
    machine: &M,
    store: &mut Store,
    function: u32,
) -> Result<(), LuaSiteFault>
    ensures { Makes (prelude_run (M.life machine.now) store.old.heap function) result store.new }
{
    let closure = make_closure(store, function)?;
    let args = vec![in alloc; Value::Table(NATIVES_TABLE)]?;
    call(alloc, machine, store, Value::Closure(closure), args)
}

/// Makes the closures of modules.
fn make_modules(store: &mut Store, modules: &[Module]) -> Result<(), LuaSiteFault>
    ensures { Makes (for_each module_made store.old.heap modules.now) result store.new }
{
    for module in modules {
        make_module(store, module)?;
    }
    Ok(())
}

/// Makes the closure of a module's chunk, which stands at its name in the natives' table. Of a built-in one this table stands at the
/// closure in turn, since it is called with that.
fn make_module(store: &mut Store, module: &Module) -> Result<(), LuaSiteFault>
    ensures { Makes (module_made store.old.heap «module».now) result store.new }
{
    let closure = make_closure(store, module.function)?;
    let name = Value::Text(module.name.clone()?);
    set_entry(store, NATIVES_TABLE, name, Value::Closure(closure))?;
    if module.built_in {
        let natives = Value::Table(NATIVES_TABLE);
        set_entry(store, NATIVES_TABLE, Value::Closure(closure), natives)
    } else {
        Ok(())
    }
}

/// Makes the closures of blocks, and gives their numbers.
fn make_blocks(
    alloc: Global,
    store: &mut Store,
    functions: &[u32],
) -> Result<Vec<u32>, LuaSiteFault>
    ensures made { Makes (for_each closure_made store.old.heap functions.now) result store.new }
    ensures closures { IfOk result (λ blocks. blocks.items ≡ range_with_len (length store.old.heap.closures) (length functions.now)) }
{
    let mut blocks = Vec::new(alloc);
    for function in functions {
        let closure = make_closure(store, *function)?;
        blocks.push(closure)?;
    }
    Ok(blocks)
}

/// Runs the init block, if there is one.
pub(crate) fn run_init<M: Machine>(
    alloc: Global,
    machine: &M,
    store: &mut Store,
    blocks: &[u32],
    init: Option<u32>,
) -> Result<(), LuaSiteFault>
    requires { IfSome init (λ block. block < length blocks.now) }
    ensures { Makes (init_run (M.life machine.now) blocks.now init store.old.heap) result store.new }
{
    match init {
        None => Ok(()),
        Some(block) => {
            let closure = Value::Closure(blocks[block as usize]);
            call(alloc, machine, store, closure, Vec::new(alloc))
        }
    }
}
