//! The program as a function of its words, files, world and sinks.

ghost use Rattle.std.specs.Prelude.{◌≡◌, ◌↔◌};
ghost use Rattle.engine_base.specs.Right.{IsFresh};
ghost use Rattle.resty_base.specs.Taking.{Takes, TakesNothing};
ghost use Rattle.commands.specs.Ending.{status_of};
ghost use Rattle.commands.specs.Ends.{Ends, IsJudged, IsComplete};
ghost use Rattle.commands.specs.Live.{Leaves};
ghost use Rattle.commands.specs.Messages.{line_of};
ghost use Rattle.commands.specs.Outside.{outside};
ghost use Rattle.commands.specs.Words.{texts, AsksToServe, Command, Says, IsForm};
ghost use Rattle.commands.specs.Writing.{Writes};

use crate::command_line::command_of;
use crate::endings::{Ending, Status};
use crate::laws::one_status;
use crate::messages::put_line;
use crate::work::work;
use resty_base::{Files, Sink};
use resty_world::World;
use std::alloc::Global;

/// Does what the words say: it reads files, writes its results on `out`, and on `err` one line that says why it failed.
///
/// `check --conf CONF` says whether a configuration is that of a site that starts. `replay --conf CONF --schedule SCHEDULE` serves the
/// events of a schedule by the site of a configuration, and writes the history. `serve --conf CONF` listens on the site's port, serves the
/// live world, and writes nothing. With `--events N` these two give at most so many events.
pub fn resty<F: Files, W: World, O: Sink, E: Sink>(
    alloc: Global,
    words: &[String],
    files: &mut F,
    live: &mut W,
    out: &mut O,
    err: &mut E,
) -> Status
    requires { AsksToServe (texts words.now) → IsFresh (W.book live.old) }
    ensures usage { (result ≡ Status.Usage) ↔ ¬ (IsForm (texts words.now)) }
    ensures ending { Ends (texts words.now) (outside (F.account files.old) (W.book live.old) (O.account out.old))
        (outside (F.account files.new) (W.book live.new) (O.account out.new)) (E.account err.old) (E.account err.new) result }
    ensures judged { IsJudged (texts words.now) (outside (F.account files.old) (W.book live.old) (O.account out.old))
        (outside (F.account files.new) (W.book live.new) (O.account out.new)) result }
    ensures complete { IsComplete (texts words.now) (outside (F.account files.old) (W.book live.old) (O.account out.old))
        (outside (F.account files.new) (W.book live.new) (O.account out.new)) result }
    ensures writes { (c : Command) → Says (texts words.now) c → Writes c (F.account files.old).told result (O.account out.old) (O.account out.new) }
    ensures live { (c : Command) → Says (texts words.now) c → Leaves W.same W.book c (F.account files.old).told result live.old live.new }
    ensures idle { ¬ (IsForm (texts words.now)) → (live.new ≡ live.old) × TakesNothing (O.account out.old) (O.account out.new) }
{
    one_status();
    match command_of(words) {
        Some(command) => {
            let ending = work(alloc, &command, files, live, out);
            told(err, command.schedule, ending)
        }
        None => told(err, "", Ending::Usage),
    }
}

/// Says on `err` how the work ended on a command whose schedule has this name, and gives the status.
fn told<E: Sink>(err: &mut E, schedule: &str, ending: Ending) -> Status
    ensures line { Takes (line_of schedule.now ending) (E.account err.old) (E.account err.new) }
    ensures status { result ≡ status_of ending }
{
    let _ = put_line(err, schedule, &ending);
    ending.status()
}
