//! The texts of schedules and of histories.
ghost use Rattle.std.specs.Prelude.{◌≡◌, ◌++◌, IfOk, OnOk};
ghost use Rattle.schedule_text.specs.EntryTexts.{history_text};
ghost use Rattle.schedule_text.specs.LineTexts.{schedule_text};

use crate::Schedule;
pub use entries::put_entry_body;
pub use lines::put_line_body;
use resty_base::Bytes;
use resty_world::History;
use std::alloc::{AllocError, Global};

mod dictionary;
mod entries;
mod events;
mod lines;
mod words;

/// The schedule as lines.
pub fn schedule_text(alloc: Global, schedule: &Schedule) -> Result<Bytes, AllocError>
    ensures { IfOk result (λ text. text ≡ schedule_text schedule.now) }
{
    let mut out = Vec::new(alloc);
    for line in schedule.as_slice() {
        lines::put_line(&mut out, line)?;
    }
    Ok(Bytes::from_vec(out)?)
}

/// The history as lines, the oldest first.
#[tactic(auto, using(crate::proofs::HistoryLines::history_lines))]
pub fn history_text(alloc: Global, history: &History) -> Result<Bytes, AllocError>
    ensures { IfOk result (λ text. text ≡ history_text history.now.entries) }
{
    let mut out = Vec::new(alloc);
    let entries = history.as_slice();
    for entry in entries {
        entries::put_entry(&mut out, entry)?;
    }
    Ok(Bytes::from_vec(out)?)
}
