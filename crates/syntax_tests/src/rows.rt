//! Rows of texts, and what is seen of each.
use crate::names::see_names;
use crate::numbers::{see_digits, see_numeral, see_result};
use crate::parsing::see_program;
use crate::tokens::{see_block_end, see_level, see_places, see_tokens};
use crate::trees::see_whole;
use std::alloc::Global;
use std::process::Abort;

/// What is seen of a text.
#[derive(Clone, Copy)]
pub(crate) enum Subject {
    /// What `A SIGN B` gives.
    Arithmetic,
    /// The number that a text writes.
    Numeral,
    /// How a number and its negation are written.
    Digits,
    /// The levels of an operator to its left, of itself and to its right.
    Level,
    /// The kinds of the tokens.
    Tokens,
    /// The lines and positions of the tokens of `LINE TEXT`.
    Places,
    /// Where the block ends in `FROM TEXT` whose inside begins at this index.
    BlockEnd,
    /// Whether each number in a program names something that is there.
    Whole,
    /// The program.
    Program,
    /// The program with the lines of its statements and expressions.
    Lines,
    /// The heads of the program's functions.
    Heads,
    /// How high the first value is that the program returns.
    Height,
    /// The names that the program requires.
    Names,
    /// Whether parts, with `|` between them, are read. A part stands once, or as often as the number before its `*` says; in
    /// it each `@` is the number of the turn, from 0.
    Limit,
}

/// Tests each row, `TEXT => WHAT IS SEEN`, where each `¶` of the text is a line end.
pub(crate) fn hold(rt: &impl Abort, alloc: Global, subject: Subject, rows: &str) {
    for row in rows.lines() {
        let (given, expected) = row.split_once(" =>").unwrap_or((row, ""));
        let expected = expected.strip_prefix(' ').unwrap_or(expected);
        expect(rt, seen(alloc, subject, given).as_str(), expected, row);
    }
}

/// What is seen of a row's text.
fn seen(alloc: Global, subject: Subject, given: &str) -> String {
    let mut text = String::new(alloc);
    spell(&mut text, subject, given);
    let mut all = String::new(alloc);
    see(alloc, &mut all, subject, &text);
    all
}

/// Writes a text, or leaves it out where there is no memory for it, so that the row fails.
pub(crate) fn put(all: &mut String, text: &str) {
    let _ = all.push_str(text);
}

/// Writes a number.
pub(crate) fn put_number(all: &mut String, n: i64) {
    let _ = write!(all, "{n}");
}

/// Writes the text that a row gives.
fn spell(text: &mut String, subject: Subject, given: &str) {
    if !matches!(subject, Subject::Limit) {
        return spell_part(text, 1, given);
    }
    for part in given.split('|') {
        let (many, part) = part.split_once('*').unwrap_or(("1", part));
        spell_part(text, many.parse().unwrap_or(0), part);
    }
}

/// Writes a part so many times.
fn spell_part(text: &mut String, many: u32, part: &str) {
    for turn in 0..many {
        for sign in part.chars() {
            spell_sign(text, turn, sign);
        }
    }
}

/// Writes what a character of a part stands for.
fn spell_sign(text: &mut String, turn: u32, sign: char) {
    match sign {
        '¶' => put(
            text,
            "
",
        ),
        '@' => put_number(text, i64::from(turn)),
        sign => {
            let _ = text.push(sign);
        }
    }
}

/// Writes what is seen of a text.
fn see(alloc: Global, all: &mut String, subject: Subject, text: &str) {
    match subject {
        Subject::Arithmetic => see_result(all, text),
        Subject::Numeral => see_numeral(all, text),
        Subject::Digits => see_digits(alloc, all, text),
        Subject::Level => see_level(alloc, all, text),
        Subject::Tokens => see_tokens(alloc, all, text),
        Subject::Places => see_places(alloc, all, text),
        Subject::BlockEnd => see_block_end(all, text),
        Subject::Whole => see_whole(alloc, all, text),
        Subject::Names => see_names(alloc, all, text),
        _ => see_program(alloc, all, text, subject),
    }
}

/// What is seen is what the row says.
pub(crate) fn expect(rt: &impl Abort, seen: &str, expected: &str, row: &str) {
    assert_eq!(rt; seen, expected, "{row}");
}
