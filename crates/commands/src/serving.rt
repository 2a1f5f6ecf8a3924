//! Serving the live world.

ghost use Rattle.engine_base.specs.Right.{IsFresh};
ghost use Rattle.commands.specs.Live.{ServesTo};
ghost use Rattle.site_load.specs.Views.{site_of};

use crate::endings::Ending;
use connection_strand::Connection;
use engine::serve;
use lua_run::{LuaRun, Site};
use resty_world::{Listened, World};
use site_load::SiteMachine;
use std::alloc::Global;

/// Listens on the site's port, and serves at most so many events of the world.
pub fn serve_live<W: World>(
    alloc: Global,
    site: Site<SiteMachine>,
    live: &mut W,
    events: u64,
) -> Ending
    requires { IsFresh (W.book live.old) }
    ensures serves { ServesTo (site_of site) events result (W.book live.old) (W.book live.new) }
    ensures same { W.same live.old live.new }
{
    match live.listen(alloc, site.conf.port) {
        Listened::Up => {}
        Listened::Failed => {
            drop(site);
            return Ending::WorldFault;
        }
        Listened::Memory => {
            drop(site);
            return Ending::Memory;
        }
    }
    Ending::by(serve::<Connection<LuaRun<SiteMachine>>, W>(alloc, site, live, events))
}
