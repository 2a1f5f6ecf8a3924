//! The work on a command: its files are read, and then it does what its mode says.

ghost use Rattle.std.specs.Prelude.{◌≡◌, IfSome};
ghost use Rattle.engine_base.specs.Right.{IsFresh};
ghost use Rattle.resty_world.specs.Book.{Book};
ghost use Rattle.schedule_text.specs.Fitting.{IsSchedule};
ghost use Rattle.site_load.specs.Loading.{HasSite};
ghost use Rattle.site_load.specs.Views.{site_of};
ghost use Rattle.commands.specs.Ending.{status_of};
ghost use Rattle.commands.specs.Live.{Leaves};
ghost use Rattle.commands.specs.Outside.{outside};
ghost use Rattle.commands.specs.Saying.{said};
ghost use Rattle.commands.specs.Works.{Works};
ghost use Rattle.commands.specs.Writing.{WritesHistoryOf};

use crate::checking::write_ok;
use crate::command_line::{Command, Mode};
use crate::endings::Ending;
use crate::reading::read_schedule;
use crate::replaying::replayed;
use crate::serving::serve_live;
use crate::writing::write_history;
use lua_run::Site;
use resty_base::{Files, Sink};
use resty_world::World;
use schedule::Schedule;
use site_load::{SiteMachine, load_site};
use std::alloc::Global;
use std::mem::forget;

/// Loads the site, and does what the mode says.
pub fn work<F: Files, W: World, O: Sink>(
    alloc: Global,
    command: &Command<'_>,
    files: &mut F,
    live: &mut W,
    out: &mut O,
) -> Ending
    requires { command.now.mode ≡ Mode.Serve → IsFresh (W.book live.old) }
    ensures works { Works (said command.now) (outside (F.account files.old) (W.book live.old) (O.account out.old))
        (outside (F.account files.new) (W.book live.new) (O.account out.new)) result }
    ensures live { Leaves W.same W.book (said command.now) (F.account files.old).told (status_of result) live.old live.new }
{
    match load_site(alloc, files, command.conf) {
        Ok(site) => match command.mode {
            Mode::Check => {
                // the process ends next, and gives all of its memory back at once
                forget(site);
                write_ok(out)
            }
            Mode::Replay => replay(alloc, command, site, files, out),
            Mode::Serve => serve_live(alloc, site, live, command.events),
        },
        Err(fault) => Ending::NoSite(fault),
    }
}

/// Reads the schedule, serves it and writes the history.
fn replay<F: Files, O: Sink>(
    alloc: Global,
    command: &Command<'_>,
    site: Site<SiteMachine>,
    files: &mut F,
    out: &mut O,
) -> Ending
    requires mode { command.now.mode ≡ Mode.Replay }
    requires site { IfSome (F.account files.old).told (λ held. HasSite held command.now.conf.now (site_of site)) }
    ensures { (live : Book) → Works (said command.now) (outside (F.account files.old) live (O.account out.old))
        (outside (F.account files.new) live (O.account out.new)) result }
{
    match read_schedule(alloc, files, command.schedule) {
        Ok(schedule) => serve_and_write(alloc, site, schedule, command.events, out),
        Err(ending) => {
            drop(site);
            ending
        }
    }
}

/// Serves the schedule and writes the history.
fn serve_and_write<O: Sink>(
    alloc: Global,
    site: Site<SiteMachine>,
    schedule: Schedule,
    events: u64,
    out: &mut O,
) -> Ending
    requires { IsSchedule schedule }
    ensures { WritesHistoryOf (site_of site) events schedule result (O.account out.old) (O.account out.new) }
{
    match replayed(alloc, site, schedule, events) {
        Ok(run) => {
            let ending = write_history(alloc, run.ended, run.world.history(), out);
            drop(run);
            ending
        }
        Err(_) => Ending::Memory,
    }
}
