//! Tests of arithmetic, comparison, concatenation and negation: each over each pair of types (TABLES), values that are equal to themselves alone (EACH), and
//! lines of single ones (ARITHMETIC to NEGATION).

use crate::values::{Wrong, value};
use lua_numbers::NumFault;
use lua_operators::*;
use lua_values::Value;
use resty_base::Bytes;
use std::alloc::Global;
use std::process::Abort;

/// A value of each type, of functions and userdata each kind; of texts one that writes a number and one that doesn't.
const EACH: &str =
    "nil true 5 '6 'x table:1 closure:1 native:1 thread:1 null socket:1 reader:1 semaphore:1 zone:1";

/// An operator, and what it gives for each value of `EACH` on its left, with each of `EACH` on its right in order. Where
/// a value isn't listed, a metatable is asked for all on its right.
const TABLES: &str = "\
+ 5: event event 10 11 event event event event event event event event event event
+ '6: event event 11 12 event event event event event event event event event event
- 5: event event 0 -1 event event event event event event event event event event
- '6: event event 1 0 event event event event event event event event event event
* 5: event event 25 30 event event event event event event event event event event
* '6: event event 30 36 event event event event event event event event event event
/ 5: event event 1 inexact event event event event event event event event event event
/ '6: event event inexact 1 event event event event event event event event event event
% 5: event event 0 5 event event event event event event event event event event
% '6: event event 1 0 event event event event event event event event event event
^ 5: event event 3125 15625 event event event event event event event event event event
^ '6: event event 7776 46656 event event event event event event event event event event
.. 5: event event '55 '56 '5x event event event event event event event event event
.. '6: event event '65 '66 '6x event event event event event event event event event
.. 'x: event event 'x5 'x6 'xx event event event event event event event event event
< 5: event event false event event event event event event event event event event event
< '6: event event event false true event event event event event event event event event
< 'x: event event event false false event event event event event event event event event
<= 5: event event true event event event event event event event event event event event
<= '6: event event event true true event event event event event event event event event
<= 'x: event event event false true event event event event event event event event event";

/// The operators of the tables.
const OPERATORS: &str = "+ - * / % ^ .. < <=";

/// Arithmetic at the ends of the range, signs of remainders, powers, and texts that write numbers or don't.
const ARITHMETIC: &str = "\
99999999999999 | + | 0 | 99999999999999
99999999999999 | + | 1 | range
-99999999999999 | + | -1 | range
-99999999999999 | - | -1 | -99999999999998
-99999999999999 | - | 1 | range
0 | - | '99999999999999 | -99999999999999
'99999999999999 | + | '-99999999999999 | 0
'100000000000000 | + | 0 | event
'-100000000000000 | + | 0 | event
9999999 | * | 10000000 | 99999990000000
10000000 | * | 10000000 | range
99999999999999 | * | -1 | -99999999999999
99999999999999 | * | 99999999999999 | range
99999999999999 | / | -1 | -99999999999999
99999999999999 | / | 99999999999998 | inexact
7 | / | 2 | inexact
-6 | / | 3 | -2
1 | / | 0 | by-zero
0 | / | 0 | by-zero
7 | % | 3 | 1
-7 | % | 3 | 2
7 | % | -3 | -2
-7 | % | -3 | -1
1 | % | 0 | by-zero
2 | ^ | 46 | 70368744177664
2 | ^ | 47 | range
0 | ^ | 0 | 1
0 | ^ | -1 | by-zero
1 | ^ | -5 | 1
-1 | ^ | -5 | -1
-1 | ^ | -4 | 1
2 | ^ | -1 | inexact
-2 | ^ | 3 | -8
'10 | + | 5 | 15
'0x10 | * | '2 | 32
'0xfF | + | 0 | 255
'-0x10 | + | 0 | -16
' 10\t | + | 1 | 11
'\u{b}\u{c}\r7 | + | 1 | 8
'007 | + | 1 | 8
' | + | 1 | event
'  | + | 1 | event
'- | + | 1 | event
'- 5 | + | 1 | event
'+5 | + | 1 | event
'--5 | + | 1 | event
'0x | + | 1 | event
'1e2 | + | 1 | event
'1.0 | + | 1 | event
'1 2 | + | 1 | event
'1\0 | + | 1 | event
'\0 | + | 1 | event
'\u{b2} | + | 1 | event
1 | + | 'x | event";

/// Numbers by their size, texts by their bytes.
const COMPARISON: &str = "\
-99999999999999 | < | 99999999999999 | true
99999999999999 | < | -99999999999999 | false
99999999999999 | <= | 99999999999999 | true
-1 | < | 0 | true
10 | < | 9 | false
'10 | < | '9 | true
'' | <= | '' | true
' | <= | ' | true
' | < | ' | false
' | < | 'a | true
'a | < | ' | false
'a | < | 'b | true
'a | < | 'ab | true
'ab | < | 'a | false
'ab | < | 'b | true
'Z | < | 'a | true
'a | < | 'a\0 | true
'a\0 | < | 'a\0\0 | true
'a\0b | < | 'a\0c | true
'\0 | < | '\u{1} | true
'\u{7f} | < | '\u{80} | true
'\u{e9} | < | 'z | false
'z | <= | '\u{e9} | true
'\u{e9} | <= | '\u{e9} | true
1 | < | '2 | event
'1 | <= | 2 | event
true | < | false | event
table:1 | <= | table:1 | event";

/// Primitive equality; only two tables that aren't one ask a metatable.
const EQUALITY: &str = "\
nil | == | false | false
false | == | false | true
true | == | false | false
1 | == | '1 | false
'0x1 | == | '1 | false
'1 | == | '1 | true
-99999999999999 | == | -99999999999999 | true
-1 | == | 1 | false
'a\0b | == | 'a\0b | true
'a\0b | == | 'a\0c | false
'\u{e9} | == | '\u{e8} | false
table:1 | == | table:1 | true
table:1 | == | table:2 | event
table:1 | == | closure:1 | false
closure:1 | == | closure:2 | false
native:1 | == | closure:1 | false
thread:1 | == | thread:2 | false
null | == | null | true
null | == | nil | false
socket:1 | == | socket:2 | false
socket:1 | == | zone:1 | false";

/// Texts and numbers in a row.
const CONCATENATION: &str = "\
10 | .. | 20 | '1020
-1 | .. | ' | '-1
' | .. | ' | '
'a | .. | 'b | 'ab
'a\0 | .. | '\0b | 'a\0\0b
'\u{e9} | .. | '\u{ff} | '\u{e9}\u{ff}
-99999999999999 | .. | 99999999999999 | '-9999999999999999999999999999
'a | .. | nil | event
true | .. | 'a | event";

/// The outcome that a word writes: `event`, a fault of numbers, or a value.
fn wanted(alloc: Global, word: &str) -> Result<Outcome, Wrong> {
    Ok(match word {
        "event" => Outcome::NeedsEvent,
        "range" => Outcome::Faults(NumFault::Range),
        "inexact" => Outcome::Faults(NumFault::Inexact),
        "by-zero" => Outcome::Faults(NumFault::ByZero),
        _ => Outcome::Gives(value(alloc, word)?),
    })
}

/// What an operator gives on two values.
fn given(alloc: Global, operator: &str, a: &Value, b: &Value) -> Result<Outcome, Wrong> {
    Ok(match operator {
        "+" => computed(ArithmeticOperator::Add, a, b),
        "-" => computed(ArithmeticOperator::Sub, a, b),
        "*" => computed(ArithmeticOperator::Mul, a, b),
        "/" => computed(ArithmeticOperator::Div, a, b),
        "%" => computed(ArithmeticOperator::Mod, a, b),
        "^" => computed(ArithmeticOperator::Pow, a, b),
        ".." => concatenated(alloc, a, b)?,
        "<" => compared(ComparisonOperator::Less, a, b),
        "<=" => compared(ComparisonOperator::LessOrEqual, a, b),
        "==" => equality(a, b),
        "neg" => negated(b),
        _ => return Err(Wrong::Line),
    })
}

/// Whether an operator gives this on two values, each as its word.
fn gives(alloc: Global, operator: &str, a: &str, b: &str, want: &str) -> Result<bool, Wrong> {
    let outcome = given(alloc, operator, &value(alloc, a)?, &value(alloc, b)?)?;
    Ok(outcome == wanted(alloc, want)?)
}

/// Whether a line holds: a value, an operator, a value, what it gives.
fn holds(alloc: Global, line: &str) -> Result<bool, Wrong> {
    let (a, after) = line.split_once(" | ").unwrap_or((line, ""));
    let (operator, after) = after.split_once(" | ").unwrap_or((after, ""));
    let (b, want) = after.split_once(" | ").unwrap_or((after, ""));
    gives(alloc, operator, a, b, want)
}

/// The first line that doesn't hold.
fn first_wrong<'a>(alloc: Global, lines: &'a str) -> Result<Option<&'a str>, Wrong> {
    for line in lines.lines() {
        if !holds(alloc, line)? {
            return Ok(Some(line));
        }
    }
    Ok(None)
}

/// The results in a row of the tables, where it is the one of this operator and the value on its left.
fn results_of<'a>(row: &'a str, operator: &str, a: &str) -> Option<&'a str> {
    let after = row.strip_prefix(operator)?;
    after.strip_prefix(' ')?.strip_prefix(a)?.strip_prefix(": ")
}

/// The results that the tables list for an operator and the value on its left, or nothing.
fn listed(operator: &str, a: &str) -> &'static str {
    for row in TABLES.lines() {
        if let Some(results) = results_of(row, operator, a) {
            return results;
        }
    }
    ""
}

/// The first value on the right for which a row of the tables doesn't hold.
fn first_wrong_in_row(
    alloc: Global,
    operator: &str,
    a: &str,
) -> Result<Option<&'static str>, Wrong> {
    let mut results = listed(operator, a).split(' ');
    for b in EACH.split(' ') {
        let want = match results.next() {
            None | Some("") => "event",
            Some(want) => want,
        };
        if !gives(alloc, operator, a, b, want)? {
            return Ok(Some(b));
        }
    }
    Ok(None)
}

/// The first operator and value on the left for which a row of the tables doesn't hold.
fn first_wrong_table(alloc: Global) -> Result<Option<&'static str>, Wrong> {
    for operator in OPERATORS.split(' ') {
        for a in EACH.split(' ') {
            if first_wrong_in_row(alloc, operator, a)?.is_some() {
                return Ok(Some(a));
            }
        }
    }
    Ok(None)
}

/// The first value that isn't equal to itself alone.
fn first_unequal(alloc: Global) -> Result<Option<&'static str>, Wrong> {
    for a in EACH.split(' ') {
        for b in EACH.split(' ') {
            let want = if a == b { "true" } else { "false" };
            if !gives(alloc, "==", a, b, want)? {
                return Ok(Some(b));
            }
        }
    }
    Ok(None)
}

/// What is wrong, or nothing; a line that can't be read is wrong.
fn told(wrong: Result<Option<&str>, Wrong>) -> &str {
    match wrong {
        Ok(Some(line)) => line,
        Ok(None) => "",
        Err(_) => "no outcome",
    }
}

/// Nothing is wrong.
fn expect(rt: &impl Abort, wrong: Result<Option<&str>, Wrong>) {
    assert_eq!(rt; told(wrong), "");
}

#[test]
fn operators_give_what_lua_gives(rt: HostRuntime) {
    expect(&rt, first_wrong_table(rt.alloc()));
    expect(&rt, first_unequal(rt.alloc()));
    expect(&rt, first_wrong(rt.alloc(), ARITHMETIC));
    expect(&rt, first_wrong(rt.alloc(), COMPARISON));
    expect(&rt, first_wrong(rt.alloc(), EQUALITY));
    expect(&rt, first_wrong(rt.alloc(), CONCATENATION));
    expect(&rt, first_wrong(rt.alloc(), NEGATION));
    assert!(rt; are_bytes_unsigned());
}

/// Whether a text of these bytes is less than another, and not the other way round.
fn is_less(low: &'static [u8], high: &'static [u8]) -> bool {
    let low = Value::Text(Bytes::from_static(low));
    let high = Value::Text(Bytes::from_static(high));
    compared(ComparisonOperator::Less, &low, &high) == Outcome::Gives(Value::Truth(true))
        && compared(ComparisonOperator::Less, &high, &low) == Outcome::Gives(Value::Truth(false))
}

/// Whether bytes that are no text are compared without a sign.
fn are_bytes_unsigned() -> bool {
    is_less(b"\x7f", b"\x80") && is_less(b"\x80", b"\xff") && is_less(b"a\x00", b"a\xff")
}

/// Values, and what their negation gives.
const NEGATION: &str = "\
nil | neg | 0 | 0
nil | neg | 5 | -5
nil | neg | -99999999999999 | 99999999999999
nil | neg | ' -0x10  | 16
nil | neg | 'x | event
nil | neg | nil | event
nil | neg | true | event
nil | neg | table:1 | event";
