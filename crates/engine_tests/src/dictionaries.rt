//! Tests of shared dictionaries, in rows as lines of a history: a moment, or a call with its answer, which is foreseen, too. The answers were worked out by
//! hand. PAIRS show a zone in which two items fit, WIDE times to live, numbers, zero bytes and flushes, CROWDS that at most 30 items leave.

ghost use Rattle.std.specs.Prelude.{◌≡◌, true, false};
ghost use Rattle.resty_base.specs.WholeNumber.{IsWhole};
ghost use Rattle.shared_rules.specs.Ranges.{IsInRange, IsNumbered};

use crate::words::{put, replaced};
use resty_base::{DictAnswer, DictCall, DictValue, Ms, Whole};
use resty_world::{Entry, Event};
use schedule::history_of;
use shared_dict::Zone;
use std::alloc::Global;
use std::process::Abort;

/// The greatest moment, and the greatest time to live.
const LAST: u64 = 99_999_999_999_999;

fn is_whole(n: i64) -> bool
    ensures { result ≡ true → IsWhole n }
{
    Whole::new(n).is_some()
}

fn is_numbered(value: &DictValue) -> bool
    ensures { result ≡ true → IsNumbered value.now }
{
    match value {
        DictValue::Number(n) => is_whole(*n),
        _ => true,
    }
}

/// Whether the numbers of a call are in their ranges, as a zone wants them.
fn is_in_range(call: &DictCall) -> bool
    ensures { result ≡ true → IsInRange call.now }
{
    match call {
        DictCall::Store { value, ttl, .. } => is_numbered(value) && *ttl <= LAST,
        DictCall::Incr { by, init, ttl, .. } => {
            is_whole(*by) && is_whole(init.unwrap_or(0)) && *ttl <= LAST
        }
        _ => true,
    }
}

/// Tests tables of lines, with an empty line between two; each is of a new zone of this size. In a line `<60>` and `<600>` are so many `x`.
fn hold(rt: &impl Abort, alloc: Global, size: u64, tables: &str) {
    for rows in tables.split("\n\n") {
        assert_eq!(rt; first_wrong(alloc, size, rows).as_str(), "");
    }
}

/// The first entry that a zone answers otherwise, or nothing.
fn first_wrong(alloc: Global, size: u64, rows: &str) -> String {
    let mut all = String::new(alloc);
    let text = spelled(alloc, rows);
    match history_of(alloc, text.as_bytes()) {
        Ok(history) => {
            let mut zone = Zone::new(size);
            let mut now = 0;
            for entry in history.as_slice() {
                if !holds(alloc, &mut zone, &mut now, entry) && all.is_empty() {
                    let _ = write!(all, "{now}: {entry:?}");
                }
            }
        }
        Err(fault) => {
            let _ = write!(all, "{fault:?}");
        }
    }
    all
}

/// The lines, each with its end, and with what stands in them for many `x`.
fn spelled(alloc: Global, rows: &str) -> String {
    let mut all = String::new(alloc);
    put(&mut all, rows);
    put(&mut all, "\n");
    all = replaced(
        alloc,
        all,
        "<600>",
        "<60><60><60><60><60><60><60><60><60><60>",
    );
    let sixty = "xxxxxxxxxxxxxxxxxxxxxxxxxxxxxxxxxxxxxxxxxxxxxxxxxxxxxxxxxxxx";
    replaced(alloc, all, "<60>", sixty)
}

/// Whether an entry is a moment, which is the present one from now on, or a call that a zone answers so.
fn holds(alloc: Global, zone: &mut Zone, now: &mut u64, entry: &Entry) -> bool {
    match entry {
        Entry::Given(Event::Moment(moment)) => {
            *now = moment.0;
            true
        }
        Entry::Dict(_, _, call, answer) => answers(alloc, zone, *now, call.get(), answer.get()),
        _ => false,
    }
}

/// Whether a zone foresees this answer and gives it. Where memory is refused it stays as it was, and is asked once more.
fn answers(alloc: Global, zone: &mut Zone, now: u64, call: &DictCall, want: &DictAnswer) -> bool {
    if now > LAST || !is_in_range(call) {
        return false;
    }
    let foreseen = zone.foresee(alloc, Ms(now), call);
    let given = match zone.ask(alloc, Ms(now), call) {
        Ok(answer) => Ok(answer),
        Err(_) => zone.ask(alloc, Ms(now), call),
    };
    match (foreseen, given) {
        (Ok(foreseen), Ok(given)) => is_answer(alloc, &foreseen, want)
            && is_answer(alloc, &given, want),
        _ => false,
    }
}

/// Whether two answers are the same in words.
fn is_answer(alloc: Global, given: &DictAnswer, want: &DictAnswer) -> bool {
    let mut words = String::new(alloc);
    let _ = write!(words, "{given:?}");
    let mut wanted = String::new(alloc);
    let _ = write!(wanted, "{want:?}");
    words.as_str() == wanted.as_str()
}

/// 132 bytes hold two items of one byte each in key and value. The last item goes though another one has expired; the other is taken out later. A `get` brings
/// its item first, also before one that is evicted for a third. An item that never fits has others evicted, and takes the old one of its key with it.
const PAIRS: &str = r#"dict c1 d set "a" "1" 0 0 = done
dict c1 d add "a" "2" 0 0 = exists
dict c1 d replace "b" "2" 0 0 = missing
dict c1 d incr "a" 1 none = not a number
dict c1 d incr "n" 2 none = missing
dict c1 d incr "n" 2 5 0 = number 7 forcible
dict c1 d get_keys 0 = keys "n"
dict c1 d flush_all = done
dict c1 d get "n" = none
dict c1 d flush_expired 0 = count 1
dict c1 d flush_expired 0 = count 0

dict c1 d set "a" "1" 0 0 = done
dict c1 d set "b" "2" 1000 0 = done
moment 1000
dict c1 d set "c" "3" 0 0 = done forcible
dict c1 d get "a" = none
dict c1 d get "b" = none
dict c1 d flush_expired 0 = count 1
dict c1 d get_keys 0 = keys "c"

dict c1 d set "a" "1" 0 0 = done
dict c1 d set "b" "2" 0 0 = done
dict c1 d get "a" = found "1" 0
dict c1 d get_keys 0 = keys "a" "b"
dict c1 d set "c" "3" 0 0 = done forcible
dict c1 d get "b" = none
dict c1 d get "a" = found "1" 0
dict c1 d get_keys 1 = keys "a"
dict c1 d set "c" "4" 0 0 = done
dict c1 d get_keys 0 = keys "c" "a"
dict c1 d set "d" "xxx" 0 0 = done forcible
dict c1 d get_keys 0 = keys "d"

dict c1 d set "a" "1" 0 0 = done
dict c1 d set "b" "<60>xxxxxxxx" 0 0 = no memory forcible
dict c1 d get "a" = none
dict c1 d set "b" "2" 0 0 = done
dict c1 d set "b" "<60>xxxxxxxx" 0 0 = no memory
dict c1 d get "b" = none
dict c1 d set "b" "<60>xxxxxxx" 0 0 = done
dict c1 d get_keys 0 = keys "b""#;

/// Times to live and flags; numbers and their range; keys and values of no bytes, and of bytes that are zero; and flushes: what was stored after one of all
/// stays, and so does what is stored again.
const WIDE: &str = r#"dict c1 d set "k" "v" 1000 7 = done
moment 999
dict c1 d get "k" = found "v" 7
moment 1000
dict c1 d get "k" = none
dict c1 d add "k" "w" 0 0 = done
dict c1 d replace "k" 5 0 3 = done
dict c1 d get "k" = found 5 3
dict c1 d set "t" true 5 0 = done
moment 1004
dict c1 d get "t" = found true 0
moment 1005
dict c1 d get "t" = none
dict c1 d delete "k" = done
dict c1 d get "k" = none
dict c1 d get_keys 0 = keys
dict c1 d flush_expired 0 = count 1
dict c1 d set "u" false 0 4294967295 = done
moment 1120
dict c1 d flush_all = done
dict c1 d get "u" = none
moment 1119
dict c1 d get "u" = found false 4294967295
moment 1120
dict c1 d flush_expired 1 = count 1
moment 99999999999999
dict c1 d set "z" false 99999999999999 0 = done
dict c1 d get "z" = found false 0

dict c1 d set "k" 5 0 3 = done
dict c1 d incr "k" 10 none = number 15
dict c1 d get "k" = found 15 3
dict c1 d incr "k" 99999999999985 none = range
dict c1 d incr "k" 99999999999984 none = number 99999999999999
dict c1 d incr "k" -1 none = number 99999999999998
dict c1 d incr "n" -5 -99999999999994 0 = number -99999999999999
dict c1 d incr "n" -1 none = range
dict c1 d get "n" = found -99999999999999 0
dict c1 d incr "m" 1 99999999999999 0 = range
dict c1 d get "m" = none
dict c1 d set "c" 1 10 2 = done
moment 5
dict c1 d incr "c" 1 5 100 = number 2
moment 9
dict c1 d get "c" = found 2 2
moment 10
dict c1 d get "c" = none
dict c1 d incr "c" 1 5 100 = number 6
moment 109
dict c1 d get "c" = found 6 0
moment 110
dict c1 d get "c" = none
dict c1 d get_keys 0 = keys "n" "k"

dict c1 d set "" "" 0 0 = done
dict c1 d get "" = found "" 0
dict c1 d set "\x00" "\x00\x00" 0 0 = done
dict c1 d get "\x00" = found "\x00\x00" 0
dict c1 d get "\x00\x00" = none
dict c1 d get_keys 0 = keys "\x00" ""
dict c1 d delete "" = done
dict c1 d get "" = none

dict c1 d set "a" "1" 0 0 = done
dict c1 d set "b" "2" 50 0 = done
moment 10
dict c1 d flush_all = done
dict c1 d set "c" "3" 0 0 = done
dict c1 d set "a" "4" 0 0 = done
dict c1 d get_keys 0 = keys "a" "c"
moment 20
dict c1 d flush_all = done
dict c1 d get_keys 0 = keys
moment 19
dict c1 d get_keys 0 = keys "a" "c" "b"
moment 20
dict c1 d flush_expired 2 = count 2
moment 19
dict c1 d get_keys 0 = keys "a""#;

/// In a full zone of 31 items of 66 bytes each a text comes: 28, 29, 30 items are evicted for it, and no 31.
const CROWDS: &str = r#"dict c1 d set "0" true 0 0 = done
dict c1 d set "1" true 0 0 = done
dict c1 d set "2" true 0 0 = done
dict c1 d set "3" true 0 0 = done
dict c1 d set "4" true 0 0 = done
dict c1 d set "5" true 0 0 = done
dict c1 d set "6" true 0 0 = done
dict c1 d set "7" true 0 0 = done
dict c1 d set "8" true 0 0 = done
dict c1 d set "9" true 0 0 = done
dict c1 d set "A" true 0 0 = done
dict c1 d set "B" true 0 0 = done
dict c1 d set "C" true 0 0 = done
dict c1 d set "D" true 0 0 = done
dict c1 d set "E" true 0 0 = done
dict c1 d set "F" true 0 0 = done
dict c1 d set "G" true 0 0 = done
dict c1 d set "H" true 0 0 = done
dict c1 d set "I" true 0 0 = done
dict c1 d set "J" true 0 0 = done
dict c1 d set "K" true 0 0 = done
dict c1 d set "L" true 0 0 = done
dict c1 d set "M" true 0 0 = done
dict c1 d set "N" true 0 0 = done
dict c1 d set "O" true 0 0 = done
dict c1 d set "P" true 0 0 = done
dict c1 d set "Q" true 0 0 = done
dict c1 d set "R" true 0 0 = done
dict c1 d set "S" true 0 0 = done
dict c1 d set "T" true 0 0 = done
dict c1 d set "U" true 0 0 = done
dict c1 d set "x" "<600><600><60><60><60><60><60><60><60><60><60>xxxxxxxxxxxxxxxxxxxxxxxxxxxxxxxxxxxxxxxxxxx" 0 0 = done forcible
dict c1 d get_keys 0 = keys "x" "U" "T" "S"

dict c1 d set "0" true 0 0 = done
dict c1 d set "1" true 0 0 = done
dict c1 d set "2" true 0 0 = done
dict c1 d set "3" true 0 0 = done
dict c1 d set "4" true 0 0 = done
dict c1 d set "5" true 0 0 = done
dict c1 d set "6" true 0 0 = done
dict c1 d set "7" true 0 0 = done
dict c1 d set "8" true 0 0 = done
dict c1 d set "9" true 0 0 = done
dict c1 d set "A" true 0 0 = done
dict c1 d set "B" true 0 0 = done
dict c1 d set "C" true 0 0 = done
dict c1 d set "D" true 0 0 = done
dict c1 d set "E" true 0 0 = done
dict c1 d set "F" true 0 0 = done
dict c1 d set "G" true 0 0 = done
dict c1 d set "H" true 0 0 = done
dict c1 d set "I" true 0 0 = done
dict c1 d set "J" true 0 0 = done
dict c1 d set "K" true 0 0 = done
dict c1 d set "L" true 0 0 = done
dict c1 d set "M" true 0 0 = done
dict c1 d set "N" true 0 0 = done
dict c1 d set "O" true 0 0 = done
dict c1 d set "P" true 0 0 = done
dict c1 d set "Q" true 0 0 = done
dict c1 d set "R" true 0 0 = done
dict c1 d set "S" true 0 0 = done
dict c1 d set "T" true 0 0 = done
dict c1 d set "U" true 0 0 = done
dict c1 d set "x" "<600><600><600>xxxxxxxxxxxxxxxxxxxxxxxxxxxxxxxxxxxxxxxxxxxxxxxxx" 0 0 = done forcible
dict c1 d get_keys 0 = keys "x" "U" "T"

dict c1 d set "0" true 0 0 = done
dict c1 d set "1" true 0 0 = done
dict c1 d set "2" true 0 0 = done
dict c1 d set "3" true 0 0 = done
dict c1 d set "4" true 0 0 = done
dict c1 d set "5" true 0 0 = done
dict c1 d set "6" true 0 0 = done
dict c1 d set "7" true 0 0 = done
dict c1 d set "8" true 0 0 = done
dict c1 d set "9" true 0 0 = done
dict c1 d set "A" true 0 0 = done
dict c1 d set "B" true 0 0 = done
dict c1 d set "C" true 0 0 = done
dict c1 d set "D" true 0 0 = done
dict c1 d set "E" true 0 0 = done
dict c1 d set "F" true 0 0 = done
dict c1 d set "G" true 0 0 = done
dict c1 d set "H" true 0 0 = done
dict c1 d set "I" true 0 0 = done
dict c1 d set "J" true 0 0 = done
dict c1 d set "K" true 0 0 = done
dict c1 d set "L" true 0 0 = done
dict c1 d set "M" true 0 0 = done
dict c1 d set "N" true 0 0 = done
dict c1 d set "O" true 0 0 = done
dict c1 d set "P" true 0 0 = done
dict c1 d set "Q" true 0 0 = done
dict c1 d set "R" true 0 0 = done
dict c1 d set "S" true 0 0 = done
dict c1 d set "T" true 0 0 = done
dict c1 d set "U" true 0 0 = done
dict c1 d set "x" "<600><600><600><60>xxxxxxxxxxxxxxxxxxxxxxxxxxxxxxxxxxxxxxxxxxxxxxxxxxxxxxx" 0 0 = done forcible
dict c1 d get_keys 0 = keys "x" "U"

dict c1 d set "0" true 0 0 = done
dict c1 d set "1" true 0 0 = done
dict c1 d set "2" true 0 0 = done
dict c1 d set "3" true 0 0 = done
dict c1 d set "4" true 0 0 = done
dict c1 d set "5" true 0 0 = done
dict c1 d set "6" true 0 0 = done
dict c1 d set "7" true 0 0 = done
dict c1 d set "8" true 0 0 = done
dict c1 d set "9" true 0 0 = done
dict c1 d set "A" true 0 0 = done
dict c1 d set "B" true 0 0 = done
dict c1 d set "C" true 0 0 = done
dict c1 d set "D" true 0 0 = done
dict c1 d set "E" true 0 0 = done
dict c1 d set "F" true 0 0 = done
dict c1 d set "G" true 0 0 = done
dict c1 d set "H" true 0 0 = done
dict c1 d set "I" true 0 0 = done
dict c1 d set "J" true 0 0 = done
dict c1 d set "K" true 0 0 = done
dict c1 d set "L" true 0 0 = done
dict c1 d set "M" true 0 0 = done
dict c1 d set "N" true 0 0 = done
dict c1 d set "O" true 0 0 = done
dict c1 d set "P" true 0 0 = done
dict c1 d set "Q" true 0 0 = done
dict c1 d set "R" true 0 0 = done
dict c1 d set "S" true 0 0 = done
dict c1 d set "T" true 0 0 = done
dict c1 d set "U" true 0 0 = done
dict c1 d set "x" "<600><600><600><60><60><60>x" 0 0 = no memory forcible
dict c1 d get_keys 0 = keys "U""#;

#[test]
fn zones_answer_as_the_tables_say(rt: HostRuntime) {
    hold(&rt, rt.alloc(), 132, PAIRS);
    hold(&rt, rt.alloc(), 1_000, WIDE);
    hold(&rt, rt.alloc(), 2_046, CROWDS);
}
