//! Tests of `schedule_text`, in rows `WORD TEXT => SEEN`: texts that are read and printed again (AGAIN, `values`, `texts`), refused at their line (SCHEDULES,
//! HISTORIES, `texts`), and the schedules of histories (EVENTS).
use crate::rows::{Subject, hold, put, replaced};
use resty_base::Bytes;
use resty_world::{Entry, History};
use schedule_text::*;
use std::alloc::{AllocError, Global};
use std::process::Abort;

mod texts;
mod values;

use texts::{HISTORY, OTHER_ENTRIES, OTHER_LINES, SCHEDULE, WHOLE_HISTORY, WHOLE_SCHEDULE};

/// What is seen of a text, in which `;` is the end of a line: its entries or its lines where it comes back, the line at which it is refused, or the schedule
/// of its events.
pub(crate) fn seen(alloc: Global, given: &str) -> String {
    let (word, text) = given.split_once(' ').unwrap_or((given, ""));
    let mut all = String::new(alloc);
    put(&mut all, text);
    let text = replaced(alloc, all, ";", "\n");
    let mut all = String::new(alloc);
    see(alloc, &mut all, word, text.as_bytes());
    replaced(alloc, all, "\n", ";")
}

/// Writes what is seen of a text.
fn see(alloc: Global, all: &mut String, word: &str, text: &[u8]) {
    match word {
        "entries" => see_entries(alloc, all, text),
        "lines" => see_lines(alloc, all, text),
        "events" => see_events(alloc, all, text),
        "history" => see_history_fault(alloc, all, text),
        _ => see_schedule_fault(alloc, all, text),
    }
}

/// Whether bytes that were made are this text.
fn are(made: Result<Bytes, AllocError>, text: &[u8]) -> bool {
    match made {
        Ok(bytes) => bytes.as_slice() == text,
        Err(_) => false,
    }
}

/// Writes the entries of a text in words, where it is printed as it was.
fn see_entries(alloc: Global, all: &mut String, text: &[u8]) {
    match history_of(alloc, text) {
        Ok(history) if are(history_text(alloc, &history), text) => see_words(all, &history),
        Ok(_) => put(all, "another text"),
        Err(_) => put(all, "refused"),
    }
}

/// Writes the entries of a history in words; a single call of a dictionary without what holds it.
fn see_words(all: &mut String, history: &History) {
    let _ = match history.as_slice() {
        [Entry::Dict(who, name, call, answer)] => {
            let (call, answer) = (call.get(), answer.get());
            write!(all, "{who:?} {name:?} {call:?} {answer:?}")
        }
        entries => write!(all, "{entries:?}"),
    };
}

/// Writes the lines of a text in words, where it is printed as it was.
fn see_lines(alloc: Global, all: &mut String, text: &[u8]) {
    match schedule_of(alloc, text) {
        Ok(schedule) if are(schedule_text(alloc, &schedule), text) => {
            let lines = schedule.as_slice();
            let _ = write!(all, "{lines:?}");
        }
        Ok(_) => put(all, "another text"),
        Err(_) => put(all, "refused"),
    }
}

/// Writes the schedule of the events that a history gives.
fn see_events(alloc: Global, all: &mut String, text: &[u8]) {
    match events(alloc, text) {
        Some(text) => put(all, str::from_utf8(&text).unwrap_or("?")),
        None => put(all, "refused"),
    }
}

/// The schedule of the events that a history gives; None where it is refused.
fn events(alloc: Global, text: &[u8]) -> Option<Bytes> {
    let history = history_of(alloc, text).ok()?;
    let events = events_of(alloc, &history).ok()?;
    schedule_text(alloc, &events).ok()
}

/// Writes the line at which a text is no history, or `read`.
fn see_history_fault(alloc: Global, all: &mut String, text: &[u8]) {
    match history_of(alloc, text) {
        Ok(_) => put(all, "read"),
        Err(fault) => {
            let _ = write!(all, "{fault:?}");
        }
    }
}

/// Writes the line at which a text is no schedule, or `read`.
fn see_schedule_fault(alloc: Global, all: &mut String, text: &[u8]) {
    match schedule_of(alloc, text) {
        Ok(_) => put(all, "read"),
        Err(fault) => {
            let _ = write!(all, "{fault:?}");
        }
    }
}

const AGAIN: &str = "\
entries  => []
lines stop; => [Given(Stop)]";

/// Whether a text comes back as entries or as lines.
fn comes_back(alloc: Global, word: &str, text: &[u8]) -> bool {
    let mut all = String::new(alloc);
    see(alloc, &mut all, word, text);
    all.as_str().starts_with('[')
}

/// Whether so many bytes may come at a time.
fn may_come(alloc: Global, count: usize) -> bool {
    let mut line = String::new(alloc);
    put(&mut line, "bytes c1 \"");
    for _ in 0..count {
        put(&mut line, "a");
    }
    put(&mut line, "\"\n");
    history_of(alloc, line.as_bytes()).is_ok()
}

/// Whether a text is refused at its first line.
fn is_refused(alloc: Global, word: &str, line: &str, after: &str) -> bool {
    let mut all = String::new(alloc);
    put(&mut all, line);
    put(&mut all, "\n");
    put(&mut all, after);
    let mut seen = String::new(alloc);
    see(alloc, &mut seen, word, all.as_bytes());
    seen.as_str() == "BadLine(1)"
}

/// Tests that each line of a text is refused.
fn are_refused(rt: &impl Abort, alloc: Global, word: &str, lines: &str, after: &str) {
    for line in lines.split('\n') {
        assert!(rt; is_refused(alloc, word, line, after), "{line}");
    }
}

const SCHEDULES: &str = "\
schedule arrive c1;bytes c1 \"G\";bytes c1 \"ET \";stop; => read
schedule moment 2;moment 1;stop; => BadLine(2)
schedule  => BadLine(1)
schedule stop => BadLine(1)
schedule ;stop; => BadLine(1)
schedule stop;stop; => BadLine(2)
schedule stop;; => BadLine(2)
schedule stop;x => BadLine(2)
schedule moment 1; => BadLine(2)
schedule moment 1;stop => BadLine(2)
schedule moment 5;moment 4;stop; => BadLine(2)
schedule arrive c1; => BadLine(2)
schedule arrive c1;arrive c1;stop; => BadLine(2)
schedule arrive c1;arrive c3;stop; => BadLine(2)
schedule arrive c2;stop; => BadLine(1)
schedule arrive c1;arrive c2;put c1 \"a\";stop; => BadLine(3)
schedule stop;ready c1; => BadLine(2)
schedule stop\r; => BadLine(1)";

const HISTORIES: &str = "\
history put c1 \"\r\"; => BadLine(1)
history stop;moment 2;moment 1;arrive c7; => read
history ; => BadLine(1)
history stop\r; => BadLine(1)
history put c1 \"\t\"; => BadLine(1)
history stop => BadLine(1)
history stop;stop => BadLine(2)
history stop;;stop; => BadLine(2)
history stop;stop;room c1 all; => BadLine(3)";

const EVENTS: &str = "\
events  => stop;
events stop;close c1; => stop;
events moment 2;moment 1;arrive c1;later c1;ready c1; => moment 2;moment 2;arrive c1;ready c1;stop;";

#[test]
fn texts_are_read_and_printed_or_refused_at_their_line(rt: HostRuntime) {
    hold(&rt, rt.alloc(), Subject::Text, AGAIN);
    hold(&rt, rt.alloc(), Subject::Text, values::ENTRIES);
    hold(&rt, rt.alloc(), Subject::Text, values::DICTIONARY);
    hold(&rt, rt.alloc(), Subject::Text, values::LINES);
    hold(&rt, rt.alloc(), Subject::Text, SCHEDULES);
    hold(&rt, rt.alloc(), Subject::Text, HISTORIES);
    hold(&rt, rt.alloc(), Subject::Text, EVENTS);
    are_refused(&rt, rt.alloc(), "history", OTHER_ENTRIES, "");
    are_refused(&rt, rt.alloc(), "schedule", OTHER_LINES, "stop\n");
}

/// Whether the long texts come back.
fn long_texts_come_back(alloc: Global) -> bool {
    comes_back(alloc, "entries", HISTORY)
        && comes_back(alloc, "entries", WHOLE_HISTORY)
        && comes_back(alloc, "lines", SCHEDULE)
        && comes_back(alloc, "lines", WHOLE_SCHEDULE)
}

/// Whether the events of the exchange are its schedule.
fn events_are_the_schedule(alloc: Global) -> bool {
    match events(alloc, WHOLE_HISTORY) {
        Some(text) => text.as_slice() == WHOLE_SCHEDULE,
        None => false,
    }
}

#[test]
fn long_texts_and_bytes_are_read_and_refused(rt: HostRuntime) {
    assert!(rt; long_texts_come_back(rt.alloc()));
    assert!(rt; events_are_the_schedule(rt.alloc()));
    assert!(rt; may_come(rt.alloc(), 65_536) && !may_come(rt.alloc(), 65_537));
    assert!(rt; is_bad_byte_refused(rt.alloc()));
}

/// Whether a byte that is no text is refused.
fn is_bad_byte_refused(alloc: Global) -> bool {
    matches!(
        history_of(alloc, b"put c1 \"\xff\"\n"),
        Err(SchedFault::BadLine(1))
    )
}
