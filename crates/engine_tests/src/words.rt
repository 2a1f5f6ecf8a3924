//! The words of rows, and texts.
use resty_base::StrandId;
use std::alloc::Global;
use std::process::Abort;

/// The word of this number.
pub(crate) fn word(text: &str, index: usize) -> &str {
    text.split(' ').nth(index).unwrap_or("")
}

/// The number that a word writes, 0 where it writes none.
pub(crate) fn number(word: &str) -> u64 {
    word.parse().unwrap_or(0)
}

/// The number of a thread or of a place that a word writes, 0 where it writes none.
pub(crate) fn small_number(word: &str) -> u32 {
    word.parse().unwrap_or(0)
}

/// The strand of a connection, as `c1`, or of a job, as `j1`.
pub(crate) fn strand(word: &str) -> StrandId {
    match word.strip_prefix('j') {
        Some(job) => StrandId::Job(number(job)),
        None => StrandId::Conn(number(word.strip_prefix('c').unwrap_or(word))),
    }
}

/// Writes a text, or leaves it out where there is no memory for it, so that the row fails.
pub(crate) fn put(all: &mut String, text: &str) {
    let _ = all.push_str(text);
}

/// Writes a number.
pub(crate) fn put_number(all: &mut String, n: u64) {
    let _ = write!(all, "{n}");
}

/// Writes a strand and a number, `-` for none.
pub(crate) fn put_thread(all: &mut String, thread: Option<(StrandId, u32)>) {
    let _ = match thread {
        Some((StrandId::Conn(who), number)) => write!(all, "c{who} {number}"),
        Some((StrandId::Job(who), number)) => write!(all, "j{who} {number}"),
        None => all.push_str("-"),
    };
}

/// A text with another in the place of a part, or as it was where there is no memory for it, so that the row fails.
pub(crate) fn replaced(alloc: Global, text: String, part: &str, other: &str) -> String {
    match text.replace(alloc, part, other) {
        Ok(next) => next,
        Err(_) => text,
    }
}

/// What is seen is what the row says.
pub(crate) fn expect(rt: &impl Abort, seen: &str, expected: &str, row: &str) {
    assert_eq!(rt; seen, expected, "{row}");
}
