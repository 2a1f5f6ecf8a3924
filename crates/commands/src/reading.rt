//! The reading of the schedule.

ghost use Rattle.std.specs.Prelude.{IfSome, IfOk, IfErr, OnOk};
ghost use Rattle.schedule_text.specs.Fitting.{IsSchedule};
ghost use Rattle.lua_modules.specs.TextsOfFiles.{Holds, ReadsWell};
ghost use Rattle.commands.specs.Reading.{EndsAtSchedule};
ghost use Rattle.commands.specs.Verdict.{HasSchedule, most_bytes};

use crate::endings::Ending;
use resty_base::{Bytes, Fetched, Files};
use schedule::{SchedFault, Schedule, schedule_of};
use std::alloc::Global;

/// How many bytes a schedule may have.
const MOST_BYTES: usize = 67_108_864;

/// Reads the schedule of this name, or says how the work ends for it.
#[tactic(auto, using(crate::proofs::Schedules::has_schedule, crate::proofs::Schedules::has_bad_line))]
pub fn read_schedule<F: Files>(alloc: Global, files: &mut F, name: &str) -> Result<Schedule, Ending>
    ensures schedule { IfOk result (λ lines. IfSome (F.account files.old).told (λ held. HasSchedule held name.now lines)) }
    ensures made { IfOk result IsSchedule }
    ensures ends { IfErr result (EndsAtSchedule name.now (F.account files.old) (F.account files.new)) }
    ensures well { OnOk result (ReadsWell (F.account files.old) (F.account files.new)) }
{
    let text = read_text(alloc, files, name)?;
    let read = schedule_of(alloc, text.as_slice());
    drop(text);
    match read {
        Ok(schedule) => Ok(schedule),
        Err(SchedFault::BadLine(line)) => Err(Ending::BadLine(line)),
        Err(SchedFault::Memory) => Err(Ending::Memory),
    }
}

/// Reads the file of this name whole, or says how the work ends where it should be a schedule.
fn read_text<F: Files>(alloc: Global, files: &mut F, name: &str) -> Result<Bytes, Ending>
    ensures ok { IfOk result (λ text. IfSome (F.account files.old).told (λ held. Holds held name.now most_bytes text)) }
    ensures ends { IfErr result (EndsAtSchedule name.now (F.account files.old) (F.account files.new)) }
    ensures well { OnOk result (ReadsWell (F.account files.old) (F.account files.new)) }
{
    match files.fetch(alloc, name, MOST_BYTES) {
        Fetched::Text(text) => Ok(text),
        Fetched::Missing => Err(Ending::Missing),
        Fetched::TooLong => Err(Ending::TooLong),
        Fetched::Failed => Err(Ending::Unreadable),
        Fetched::Memory => Err(Ending::Memory),
    }
}
