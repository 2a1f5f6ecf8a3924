//! How operators group, for every pair of them, and their lines.
use crate::rows::{Subject, hold, put};
use std::alloc::Global;
use std::process::Abort;

/// A row for each binary operator: its sign, its name in the tree, and a letter for each operator of these rows in their order
/// as the second one, as in `1 + 2 * 3`: `l` where the first one's operands go together, `r` where the second one's do
/// (Lua 5.1 Reference Manual, 2.5.6).
const BINARY: &str = "\
or Or lrrrrrrrrrrrrrr
and And llrrrrrrrrrrrrr
< Lt llllllllrrrrrrr
> Gt llllllllrrrrrrr
<= Le llllllllrrrrrrr
>= Ge llllllllrrrrrrr
~= Ne llllllllrrrrrrr
== Eq llllllllrrrrrrr
.. Concat llllllllrrrrrrr
+ Add lllllllllllrrrr
- Sub lllllllllllrrrr
* Mul llllllllllllllr
/ Div llllllllllllllr
% Mod llllllllllllllr
^ Pow llllllllllllllr";

/// The same for each unary operator before a binary one, as in `-1 * 2`.
const UNARY: &str = "\
not Not llllllllllllllr
# Length llllllllllllllr
- Minus llllllllllllllr";

/// An operator of a table: its sign, its name, and the letters.
#[derive(Clone, Copy)]
struct Operator<'a> {
    sign: &'a str,
    name: &'a str,
    letters: &'a str,
}

/// The operator of a line.
fn operator_of(line: &str) -> Operator<'_> {
    let (sign, rest) = line.split_once(' ').unwrap_or((line, ""));
    let (name, letters) = rest.split_once(' ').unwrap_or((rest, ""));
    Operator {
        sign,
        name,
        letters,
    }
}

/// Writes texts one after the other.
fn put_all(all: &mut String, texts: &[&str]) {
    for text in texts {
        put(all, text);
    }
}

/// Writes the row of two binary operators that group as the letter says.
fn binary_row(row: &mut String, first: Operator<'_>, second: Operator<'_>, letter: char) {
    let (above, below) = (first.name, second.name);
    put_all(
        row,
        &["return 1 ", first.sign, " 2 ", second.sign, " 3 => return "],
    );
    if letter == 'l' {
        put_all(row, &["((1 ", above, " 2) ", below, " 3);"]);
    } else {
        put_all(row, &["(1 ", above, " (2 ", below, " 3));"]);
    }
}

/// Writes the row of a unary operator before a binary one, which groups as the letter says.
fn unary_row(row: &mut String, first: Operator<'_>, second: Operator<'_>, letter: char) {
    let (unary, binary) = (first.name, second.name);
    put_all(
        row,
        &["return ", first.sign, " 1 ", second.sign, " 2 => return "],
    );
    if letter == 'l' {
        put_all(row, &["((", unary, " 1) ", binary, " 2);"]);
    } else {
        put_all(row, &["(", unary, " (1 ", binary, " 2));"]);
    }
}

/// Writes the row of a unary operator after a binary one, which takes the operand alone.
fn operand_row(row: &mut String, first: Operator<'_>, second: Operator<'_>) {
    put_all(
        row,
        &["\nreturn 1 ", second.sign, " ", first.sign, " 2 => "],
    );
    put_all(row, &["return (1 ", second.name, " (", first.name, " 2));"]);
}

/// The rows of an operator before a binary one, and of a unary one after it too.
fn rows_of(
    alloc: Global,
    first: Operator<'_>,
    second: Operator<'_>,
    letter: char,
    is_unary: bool,
) -> String {
    let mut rows = String::new(alloc);
    if is_unary {
        unary_row(&mut rows, first, second, letter);
        operand_row(&mut rows, first, second);
    } else {
        binary_row(&mut rows, first, second, letter);
    }
    rows
}

/// Tests an operator of one of the tables with each binary one after it.
fn hold_pairs(rt: &impl Abort, alloc: Global, line: &str, is_unary: bool) {
    let first = operator_of(line);
    assert!(rt; first.letters.len() == 15, "{line}");
    for (letter, line) in first.letters.chars().zip(BINARY.lines()) {
        let rows = rows_of(alloc, first, operator_of(line), letter, is_unary);
        hold(rt, alloc, Subject::Program, &rows);
    }
}

/// The row of a binary operator on a line of its own.
fn line_row(alloc: Global, operator: Operator<'_>) -> String {
    let mut row = String::new(alloc);
    put_all(&mut row, &["return¶1¶", operator.sign, "¶2 => "]);
    put_all(&mut row, &["1: return (1@2 ", operator.name, " 2@4)@3;"]);
    row
}

/// Tests an operator that stands on a line of its own.
fn hold_line(rt: &impl Abort, alloc: Global, line: &str) {
    let row = line_row(alloc, operator_of(line));
    hold(rt, alloc, Subject::Lines, &row);
}

/// Each pair of operators groups by precedence, and a binary one has the line of its sign; no operator is left out.
pub(super) fn hold_all_pairs(rt: &impl Abort, alloc: Global) {
    for line in BINARY.lines() {
        hold_pairs(rt, alloc, line, false);
        hold_line(rt, alloc, line);
    }
    for line in UNARY.lines() {
        hold_pairs(rt, alloc, line, true);
    }
    assert!(rt; BINARY.lines().count() == 15 && UNARY.lines().count() == 3);
}
