//! How a site of Lua starts.

ghost use Rattle.std.specs.Prelude.{◌<◌, length, IfSome};
ghost use Rattle.lua_modules.specs.Sets.{chunks_of};
ghost use Rattle.lua_site.specs.Making.{Gives};
ghost use Rattle.lua_site.specs.Starting.{begun, started, started_in};
ghost use Rattle.lua_site.specs.Started.{IsStart, start_with};

use crate::LuaSiteFault;
use crate::loading::{load, run_init};
use crate::run_tables::make_run_tables;
use lua_machine::Machine;
use lua_modules::{Chunks, freeze};
use lua_values::Store;
use std::alloc::Global;

/// A site of Lua that has started: the store that each of its runs begins with a copy of, and the closures of its blocks.
#[derive(Drop)]
pub struct LuaSite {
    pub store: Store,
    pub blocks: Vec<u32>,
}

/// Starts a site on the machine of its program: it makes the table of so many functions of the host, runs the preludes, makes closures of
/// the modules' and the blocks' chunks, runs the block that is init, freezes what is there, and makes a run's own tables.
pub fn start_lua<M: Machine>(
    alloc: Global,
    machine: &M,
    natives: u32,
    chunks: &Chunks,
    init: Option<u32>,
) -> Result<LuaSite, LuaSiteFault>
    requires { IfSome init (λ block. block < length chunks.now.blocks.items) }
    ensures { IsStart (started (M.life machine.now) natives (chunks_of chunks.now) init) result }
{
    let mut store = Store::new(alloc)?;
    let blocks = start_in(alloc, machine, &mut store, natives, chunks, init)?;
    Ok(LuaSite { store, blocks })
}

/// The same in a store. It gives the closures of the blocks.
fn start_in<M: Machine>(
    alloc: Global,
    machine: &M,
    store: &mut Store,
    natives: u32,
    chunks: &Chunks,
    init: Option<u32>,
) -> Result<Vec<u32>, LuaSiteFault>
    requires { IfSome init (λ block. block < length chunks.now.blocks.items) }
    ensures { Gives (started_in store.old.heap (M.life machine.now) natives (chunks_of chunks.now) init) (λ blocks. start_with store.new blocks.items) result }
{
    let blocks = load(alloc, machine, store, natives, chunks)?;
    run_init(alloc, machine, store, blocks.as_slice(), init)?;
    begin_runs(store)?;
    Ok(blocks)
}

/// Freezes what is there, and makes a run's own tables.
fn begin_runs(store: &mut Store) -> Result<(), LuaSiteFault>
    ensures { Gives (begun store.old.heap) (λ _. store.new) result }
{
    freeze(store);
    make_run_tables(store)?;
    store.clear_steps();
    Ok(())
}
