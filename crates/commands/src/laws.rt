//! Laws of the definitions, each the contract of a function that does nothing; one that stands on others calls them.

ghost use Rattle.std.specs.Prelude.{List};
ghost use Rattle.resty_world.specs.declared.entry.Entry.{Entry};
ghost use Rattle.resty_world.specs.declared.schedule_line.SchedLine.{SchedLine};
ghost use Rattle.strand_contract.specs.Behaviors.{Behavior};
ghost use Rattle.commands.specs.Ends.{AreOfOneStatus};
ghost use Rattle.commands.specs.Run.{IsRun, IsKnownByItsText};
ghost use Rattle.commands.specs.Taken.{TakesAllBytes, TookAll};

use execution_laws::strands::what_was_taken;
use schedule::{
    a_history_is_known_by_its_text, a_schedule_is_known_by_its_text, no_schedule_is_refused,
};
use site_load::sites_are_known;
use strand_contract::StrandContract;

/// All verdicts of the same words and files are of one status; and where something is checked, run or served there is only one.
pub fn one_status()
    ensures { AreOfOneStatus }
{
    sites_are_known();
    no_schedule_is_refused();
    a_schedule_is_known_by_its_text();
}

/// The history of a run is the only one with its text.
pub fn a_run_is_known_by_its_text<J>()
    ensures { (b : Behavior J) (lines : List SchedLine) (h : List Entry) → IsRun b lines h → IsKnownByItsText h }
{
    a_history_is_known_by_its_text();
}

/// In the run of a schedule that bounds nothing, each connection took every byte that was sent to it, wherever it is open and at rest.
pub fn each_reply_is_taken<S: StrandContract>()
    ensures { (site : S.Site) (lines : List SchedLine) (h : List Entry) (run : IsRun (S.meaning site).behavior lines h) → TakesAllBytes lines
        → TookAll (S.meaning site).behavior run.execution }
{
    what_was_taken::<S::Job>();
}
