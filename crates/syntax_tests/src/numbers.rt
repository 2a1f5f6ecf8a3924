//! Arithmetic of whole numbers (ARITHMETIC, POWERS), and numbers as texts (NUMERALS, DIGITS).
use crate::rows::{Subject, hold, put, put_number};
use lua_numbers::*;
use resty_base::{Bytes, Whole, whole};
use std::alloc::{AllocError, Global};

/// At the ends of the range, and with each sign.
const ARITHMETIC: &str = "\
99999999999999 + 1 => Range: number out of range
99999999999998 + 1 => 99999999999999
-99999999999999 - 1 => Range: number out of range
-99999999999999 - -1 => -99999999999998
10000000 * 10000000 => Range: number out of range
9999999 * -9999999 => -99999980000001
99999999999999 * 99999999999999 => Range: number out of range
7 / 2 => Inexact: number has no whole result
-8 / 2 => -4
-8 / -2 => 4
0 / -3 => 0
1 / 0 => ByZero: attempt to divide by zero
0 / 0 => ByZero: attempt to divide by zero
-7 % 3 => 2
7 % -3 => -2
-7 % -3 => -1
7 % 3 => 1
-6 % 3 => 0
1 % 0 => ByZero: attempt to divide by zero";

/// Powers, which are answered at once however great they are.
const POWERS: &str = "\
0 ^ -1 => ByZero: attempt to divide by zero
-1 ^ -3 => -1
2 ^ -1 => Inexact: number has no whole result
0 ^ 0 => 1
0 ^ 99999999999999 => 0
1 ^ 99999999999999 => 1
1 ^ -99999999999999 => 1
-1 ^ 99999999999999 => -1
-1 ^ 99999999999998 => 1
2 ^ 46 => 70368744177664
2 ^ 47 => Range: number out of range
2 ^ 90000000000000 => Range: number out of range
-3 ^ 3 => -27
2 ^ -90000000000000 => Inexact: number has no whole result
10 ^ 14 => Range: number out of range
-10 ^ 13 => -10000000000000";

/// The number of these digits.
fn number(digits: &str) -> Option<Whole> {
    whole(digits.parse().ok()?)
}

/// The number that an operator gives, or its fault.
fn calculated(a: Whole, sign: &str, b: Whole) -> Result<Whole, NumFault> {
    match sign {
        "+" => add(a, b),
        "-" => sub(a, b),
        "*" => mul(a, b),
        "/" => div(a, b),
        "%" => modulo(a, b),
        _ => pow(a, b),
    }
}

/// Writes what an operator gives.
pub(crate) fn see_result(all: &mut String, text: &str) {
    let (a, after) = text.split_once(' ').unwrap_or((text, ""));
    let (sign, b) = after.split_once(' ').unwrap_or((after, ""));
    match (number(a), number(b)) {
        (Some(a), Some(b)) => see_outcome(all, calculated(a, sign, b)),
        _ => put(all, "no numbers"),
    }
}

/// Writes a number, or a fault's name and its text.
fn see_outcome(all: &mut String, outcome: Result<Whole, NumFault>) {
    match outcome {
        Ok(number) => put_number(all, number.get()),
        Err(fault) => {
            let _ = write!(all, "{fault:?}: {fault}");
        }
    }
}

/// Texts that write numbers, and texts that don't.
const NUMERALS: &str = "\
1e2 => none
 0x1F  => 31
0xfF => 255
0X10 => none
0x => none
 => none
  => none
- => none
- 5 => none
+5 => none
--5 => none
-0x10 => -16
0x-10 => none
007 => 7
-0 => 0
1.0 => none
1 2 => none
0xg => none
a => none
\t¶\x0b\x0c\r 12\t¶\x0b\x0c\r  => 12
12\0 => none
\u{85}12 => none
99999999999999 => 99999999999999
-99999999999999 => -99999999999999
100000000000000 => none
-100000000000000 => none
0x5af3107a3fff => 99999999999999
0x5AF3107A4000 => none
0000000000000000000000000000000000000000001 => 1
99999999999999999999999999999999999999999999999 => none";

/// Writes the number that a text writes, or `none`.
pub(crate) fn see_numeral(all: &mut String, text: &str) {
    match number_of(text.as_bytes()) {
        Some(number) => put_number(all, number.get()),
        None => put(all, "none"),
    }
}

/// Numbers, and how they and their negations are written.
const DIGITS: &str = "\
-7 => -7 7
0 => 0 0
99999999999999 => 99999999999999 -99999999999999
-99999999999999 => -99999999999999 99999999999999
1000 => 1000 -1000";

/// Writes a number and its negation.
pub(crate) fn see_digits(alloc: Global, all: &mut String, text: &str) {
    if let Some(number) = number(text) {
        see_text(all, &text_of(alloc, number));
        put(all, " ");
        see_text(all, &text_of(alloc, neg(number)));
    }
}

/// Writes a text, `?` where it is none.
fn see_text(all: &mut String, text: &Result<Bytes, AllocError>) {
    match text {
        Ok(bytes) => put(all, str::from_utf8(bytes).unwrap_or("?")),
        Err(_) => put(all, "?"),
    }
}

#[test]
fn numbers_are_whole_read_and_written(rt: HostRuntime) {
    hold(&rt, rt.alloc(), Subject::Arithmetic, ARITHMETIC);
    hold(&rt, rt.alloc(), Subject::Arithmetic, POWERS);
    hold(&rt, rt.alloc(), Subject::Numeral, NUMERALS);
    hold(&rt, rt.alloc(), Subject::Digits, DIGITS);
}
