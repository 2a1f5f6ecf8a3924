//! The run of a schedule: a replay of it that is served.

ghost use Rattle.std.specs.Prelude.{IfOk};
ghost use Rattle.schedule_text.specs.Fitting.{IsSchedule};
ghost use Rattle.commands.specs.Run.{RunsTo};
ghost use Rattle.commands.specs.Sites.{site_behavior};
ghost use Rattle.site_load.specs.Views.{site_of};

use connection_strand::Connection;
use engine::{Ended, serve};
use lua_run::{LuaRun, Site};
use schedule::{Replay, Schedule, stop_ends_the_schedule};
use site_load::SiteMachine;
use std::alloc::{AllocError, Global};

/// A replay that was served.
#[derive(Drop)]
pub struct ServedReplay {
    pub world: Replay,
    pub ended: Ended,
}

/// The world of this schedule, once the strands of the site have served at most so many events of it.
pub fn replayed(
    alloc: Global,
    site: Site<SiteMachine>,
    schedule: Schedule,
    events: u64,
) -> Result<ServedReplay, AllocError>
    requires { IsSchedule schedule }
    ensures { IfOk result (λ run. RunsTo (site_behavior (site_of site)) events schedule run.ended run.world.history.entries) }
{
    let mut world = Replay::new(alloc, schedule);
    let ended = serve::<Connection<LuaRun<SiteMachine>>, Replay>(alloc, site, &mut world, events);
    stop_ends_the_schedule();
    match ended {
        Ended::Memory => {
            drop(world);
            Err(AllocError)
        }
        ended => Ok(ServedReplay { world, ended }),
    }
}
