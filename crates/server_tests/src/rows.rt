//! Rows of what is given, and what is seen of each; and texts that rows are made of.
use crate::{program, replays, schedule_texts};
use std::alloc::Global;
use std::process::Abort;

/// What a row gives.
#[derive(Clone, Copy)]
pub(crate) enum Subject {
    /// Words, files and a live world of the program.
    Program,
    /// A schedule, and calls of its world.
    World,
    /// A word, and the text of a history or of a schedule.
    Text,
}

/// Tests each row, `GIVEN => SEEN`.
pub(crate) fn hold(rt: &impl Abort, alloc: Global, subject: Subject, rows: &str) {
    for row in rows.lines() {
        let (given, expected) = row.split_once(" => ").unwrap_or((row, ""));
        expect(rt, seen(alloc, subject, given).as_str(), expected, row);
    }
}

/// What is seen of a row.
fn seen(alloc: Global, subject: Subject, given: &str) -> String {
    match subject {
        Subject::Program => program::seen_in_a_line(alloc, given),
        Subject::World => replays::seen(alloc, given),
        Subject::Text => schedule_texts::seen(alloc, given),
    }
}

/// Writes a text, or leaves it out where there is no memory for it, so that the row fails.
pub(crate) fn put(all: &mut String, text: &str) {
    let _ = all.push_str(text);
}

/// Writes the lines of a case that begin with a mark, and those without one, but not those that begin with the other mark.
pub(crate) fn put_lines(all: &mut String, case: &str, mark: &str, other: &str) {
    for line in case.lines() {
        if !line.starts_with(other) {
            put(all, line.strip_prefix(mark).unwrap_or(line));
            put(all, "\n");
        }
    }
}

/// A text with another in the place of a part, or as it was where there is no memory for it, so that the row fails.
pub(crate) fn replaced(alloc: Global, text: String, part: &str, other: &str) -> String {
    match text.replace(alloc, part, other) {
        Ok(next) => next,
        Err(_) => text,
    }
}

/// What is seen is what the row says.
pub(crate) fn expect(rt: &impl Abort, seen: &str, expected: &str, row: &str) {
    assert_eq!(rt; seen, expected, "{row}");
}
