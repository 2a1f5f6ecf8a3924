//! The start of a site.

ghost use Rattle.std.specs.Prelude.{◌≡◌, ◌++◌, Err, IfOk, IfErr};
ghost use Rattle.conf.specs.Reading.{IsWhole};
ghost use Rattle.conf.specs.declared.sites.Conf.{Conf};
ghost use Rattle.lua_modules.specs.Sets.{lists_of};
ghost use Rattle.lua_modules.specs.declared.sets.ModuleSet.{ModuleSet};
ghost use Rattle.lua_run.specs.Views.{site_seen};
ghost use Rattle.lua_site.specs.Started.{IsStart};
ghost use Rattle.site_load.specs.Starts as spec;
ghost use Rattle.site_load.specs.Starts.{StartsAs, IsStartFault, start_of};
ghost use Rattle.site_load.specs.declared.faults.SiteFault.TheVariants.{Memory};
ghost use Rattle.site_load.specs.Programs.{life_of};

use crate::SiteFault;
use crate::machine::{NATIVES, SiteMachine, machine_of};
use conf::{Conf, Listing};
use lua_modules::ModuleSet;
use lua_run::Site;
use lua_site::{LuaSite, LuaSiteFault, start_lua};
use std::alloc::Global;

/// The init block, if it is one of so many.
fn init_among(count: usize, init: Option<u32>) -> Option<u32>
    ensures { result ≡ spec.init_among count init }
{
    match init {
        Some(block) if (block as usize) < count => Some(block),
        _ => None,
    }
}

/// What the fault of a start is as one of a site.
fn of_start(fault: LuaSiteFault) -> SiteFault
    ensures { (conf : Conf) (set : ModuleSet) → IsStart (start_of conf set.program (lists_of set)) (Err fault) → IsStartFault conf set result }
{
    match fault {
        LuaSiteFault::Init(message) => SiteFault::Init(message),
        LuaSiteFault::Memory => SiteFault::Memory,
    }
}

/// A site that begins with the closures of its blocks.
fn with_blocks(
    mut site: Site<SiteMachine>,
    blocks: Vec<u32>,
) -> Result<Site<SiteMachine>, SiteFault>
    ensures kept { IfOk result (λ begun. (begun.conf ≡ site.conf) × (begun.machine ≡ site.machine) × (begun.store ≡ site.store)) }
    ensures blocks { IfOk result (λ begun. begun.blocks ≡ site.blocks ++ blocks.items) }
    ensures err { IfErr result (λ fault. fault ≡ Memory) }
{
    match site.blocks.append(blocks) {
        Ok(()) => Ok(site),
        Err(_) => {
            drop(site);
            Err(SiteFault::Memory)
        }
    }
}

/// Starts the site of a configuration that has these chunks.
pub(crate) fn start_site(
    alloc: Global,
    conf: Conf,
    set: ModuleSet,
) -> Result<Site<SiteMachine>, SiteFault>
    requires { IsWhole conf }
    ensures ok { IfOk result (λ site. StartsAs conf set (site_seen (λ machine. life_of machine.program) site)) }
    ensures err { IfErr result (IsStartFault conf set) }
{
    let (program, chunks) = set.into_parts();
    let machine = machine_of(program);
    let init = init_among(chunks.blocks.as_slice().len(), conf.init);
    let started = start_lua(alloc, &machine, NATIVES, &chunks, init);
    drop(chunks);
    match started {
        Ok(LuaSite { store, blocks }) => {
            let site = Site {
                conf,
                machine,
                store,
                blocks: Listing::new(alloc),
            };
            with_blocks(site, blocks)
        }
        Err(fault) => {
            drop(conf);
            drop(machine);
            Err(of_start(fault))
        }
    }
}
