//! The writing of a history.

ghost use Rattle.std.specs.Prelude.{◌≡◌};
ghost use Rattle.std.specs.List.{list_any};
ghost use Rattle.commands.specs.Run.{has_dropped, is_dropped};
ghost use Rattle.commands.specs.Writing.{WritesHistory, ending_with};

use crate::endings::Ending;
use engine::Ended;
use resty_base::{Sink, put_all};
use resty_world::{Entry, History};
use schedule::history_text;
use std::alloc::Global;

/// Writes the text of the history of a run that ended so.
pub fn write_history<O: Sink>(alloc: Global, ended: Ended, history: &History, out: &mut O) -> Ending
    ensures { WritesHistory ended history.now.entries result (O.account out.old) (O.account out.new) }
{
    let text = match history_text(alloc, history) {
        Ok(text) => text,
        Err(_) => return Ending::Memory,
    };
    let put = put_all(out, text.as_slice());
    drop(text);
    if put.is_err() {
        return Ending::NotWritten;
    }
    ending_with(ended, drops_strand(history))
}

/// How the work ends where a run ended so and its history is written.
fn ending_with(ended: Ended, drops: bool) -> Ending
    ensures { result ≡ ending_with ended drops }
{
    match ended {
        Ended::Stopped if drops => Ending::Memory,
        other => Ending::by(other),
    }
}

/// Whether a strand was given up.
fn drops_strand(history: &History) -> bool
    ensures { result ≡ has_dropped history.now.entries }
{
    any_dropped(history.as_slice())
}

/// Whether one of the entries gives a strand up.
fn any_dropped(entries: &[Entry]) -> bool
    ensures { result ≡ list_any is_dropped entries.now }
{
    entries.iter().any(is_drop)
}

/// Whether the entry gives a strand up.
fn is_drop(entry: &Entry) -> bool
    ensures { result ≡ is_dropped entry.now }
{
    matches!(entry, Entry::Dropped(_))
}
