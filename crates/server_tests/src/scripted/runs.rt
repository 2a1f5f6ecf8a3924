//! Runs that go by scripts, for what no program of Lua asks for yet: two threads of a run, of which one asks its connection something; and a count in a
//! dictionary.
use crate::scripted::{Scripted, hold};
use connection_strand::Connection;
use resty_base::{Bytes, Ms};
use run_contract::{Asking, LocationTimes};
use run_scripts::{Script, ScriptedRun, Step};
use std::alloc::{AllocError, Global};

/// The first thread reads the body and the second says something. While the body isn't there the second sleeps as long as the connection waits for it.
const READS: &str = "\
asks: body 5
answered: say child_parent_
not_yet: say parent_
sleeps: 60000
later: say child_
woken: log x
client_ends: log ended";

/// With the body there both go on in one turn; else the second goes on alone, and the first once it is there. The timer of the body was armed before the
/// second slept: at that moment it comes due first.
const READ: &str = r#"arrive c1
bytes c1 "POST / HTTP/1.0\r\nContent-Length: 3\r\n\r\nhi!"
> put c1 "child_parent_"
> close c1
stop

arrive c1
bytes c1 "POST / HTTP/1.0\r\nContent-Length: 3\r\n\r\n"
> put c1 "parent_"
bytes c1 "h"
bytes c1 "i!"
> put c1 "child_"
> close c1
stop

arrive c1
bytes c1 "POST / HTTP/1.0\r\nContent-Length: 3\r\n\r\n"
> put c1 "parent_"
moment 59999
moment 60000
> close c1
stop

arrive c1
bytes c1 "POST / HTTP/1.0\r\nContent-Length: 3\r\n\r\n"
> put c1 "parent_"
moment 1
bytes c1 "h"
moment 60000
> log c1 "x"
> close c1
stop

arrive c1
bytes c1 "POST / HTTP/1.0\r\nContent-Length: 3\r\n\r\n"
> put c1 "parent_"
ended c1
> log c1 "ended"
> put c1 "child_"
> close c1
stop"#;

/// The same, and the second sleeps a millisecond less.
const SLEEPS: &str = "\
asks: body 5
not_yet: say parent_
sleeps: 59999
later: say child_
woken: log x";

/// Of two deadlines that are due at a moment the earlier comes first: the second thread goes on, and then the client is hung up.
const SLEPT: &str = r#"arrive c1
bytes c1 "POST / HTTP/1.0\r\nContent-Length: 3\r\n\r\n"
> put c1 "parent_"
moment 59999
> log c1 "x"
> close c1
stop

arrive c1
bytes c1 "POST / HTTP/1.0\r\nContent-Length: 3\r\n\r\n"
> put c1 "parent_"
moment 60000
> close c1
> log c1 "x"
stop"#;

/// The first thread waits until all is taken, where nothing was said before.
const FLUSHES: &str = "\
asks: taken
answered: say child_parent_
not_yet: say parent_
sleeps: 60000
later: say child_
woken: log x
client_ends: log ended";

const FLUSHED: &str = r#"arrive c1
bytes c1 "GET / HTTP/1.0\r\n\r\n"
> put c1 "child_parent_"
> close c1
stop"#;

/// The same, where something was.
const FILLS: &str = "\
first: say first_
asks: taken
answered: say child_parent_
not_yet: say parent_
sleeps: 60000
later: say child_
woken: log x
client_ends: log ended, say bye_";

/// What was said waits for its client: the second thread goes on alone, and the first once the last byte is taken. A client that sends no more is told of, and
/// still takes bytes.
const FILLED: &str = r#"arrive c1
bytes c1 "GET / HTTP/1.0\r\n\r\n"
> put c1 "first_parent_"
> put c1 "child_"
> close c1
stop

arrive c1
< room c1 6
bytes c1 "GET / HTTP/1.0\r\n\r\n"
> put c1 "first_"
> later c1
< room c1 all
ready c1
> put c1 "parent_"
> put c1 "child_"
> close c1
stop

arrive c1
< room c1 6
bytes c1 "GET / HTTP/1.0\r\n\r\n"
> put c1 "first_"
> later c1
ended c1
> log c1 "ended"
< room c1 all
ready c1
> put c1 "parent_bye_"
> put c1 "child_"
> close c1
stop

arrive c1
< room c1 6
bytes c1 "GET / HTTP/1.0\r\n\r\n"
> put c1 "first_"
> later c1
broken c1
> close c1
stop"#;

/// Before the body is asked for, the times of another location hold: those of the next request, of the body, and of bytes that the client takes.
const MOVES: &str = "\
first: times 2 3 4
asks: body 5
answered: say whole_
not_yet: say parent_
sleeps: 60000
later: say child_
woken: log x
keeps: 1";

const MOVED: &str = r#"arrive c1
bytes c1 "POST / HTTP/1.0\r\nContent-Length: 3\r\n\r\n"
> put c1 "parent_"
moment 2
moment 3
> close c1
stop

arrive c1
bytes c1 "POST / HTTP/1.0\r\nContent-Length: 3\r\n\r\nhi!"
> put c1 "whole_"
moment 1
moment 2
> close c1
stop

arrive c1
< room c1 1
bytes c1 "POST / HTTP/1.0\r\nContent-Length: 3\r\n\r\nhi!"
> put c1 "w"
> later c1
moment 3
moment 4
> close c1
stop"#;

/// They hold after the wait for the body began.
const STAYS: &str = "\
asks: body 5
not_yet: times 2 3 4
sleeps: 70000
woken: log x";

/// A timer that runs goes on, and begins anew by the new times.
const STAYED: &str = r#"arrive c1
bytes c1 "POST / HTTP/1.0\r\nContent-Length: 3\r\n\r\n"
moment 59999
moment 60000
> close c1
stop

arrive c1
bytes c1 "POST / HTTP/1.0\r\nContent-Length: 3\r\n\r\n"
moment 10
bytes c1 "h"
moment 12
moment 13
> close c1
stop"#;

/// A run asks for its count before it says anything.
const COUNTS: &str = "\
counts: runs
first: say first_
asks: taken
answered: say whole_";

/// There are no dictionaries yet: such a run is given up, and its connection is closed.
const COUNTED: &str = r#"arrive c1
arrive c2
bytes c1 "GET / HTTP/1.0\r\n\r\n"
> dropped c1
> close c1
bytes c2 "GET / HTTP/1.0\r\n\r\n"
> dropped c2
> close c2
stop"#;

impl Scripted for Connection<ScriptedRun> {
    /// A script, a line for each part of it: its name, `: `, and what it is; of a step, operations with `, ` between.
    fn site(alloc: Global, text: &str) -> Result<Script, AllocError> {
        let mut script = Script {
            dictionary: Bytes::from_static(b"d"),
            counts: None,
            first: nothing(),
            asks: Asking::AllTaken,
            answered: nothing(),
            not_yet: nothing(),
            sleeps: Ms(0),
            later: nothing(),
            woken: nothing(),
            client_ends: nothing(),
            closes: true,
        };
        for line in text.lines() {
            let (name, given) = line.split_once(": ").unwrap_or((line, ""));
            match name {
                "counts" => script.counts = Some(Bytes::copy_from_slice(alloc, given.as_bytes())?),
                "first" => script.first = step(alloc, given)?,
                "asks" => script.asks = asking(given),
                "answered" => script.answered = step(alloc, given)?,
                "not_yet" => script.not_yet = step(alloc, given)?,
                "sleeps" => script.sleeps = Ms(number(given)),
                "later" => script.later = step(alloc, given)?,
                "woken" => script.woken = step(alloc, given)?,
                "client_ends" => script.client_ends = step(alloc, given)?,
                _ => script.closes = false,
            }
        }
        Ok(script)
    }
}

fn nothing() -> Step {
    Step {
        moves_on: None,
        logs: None,
        says: None,
    }
}

/// A body of at most so many bytes, or that all is taken.
fn asking(text: &str) -> Asking {
    match text.strip_prefix("body ") {
        Some(max) => Asking::Body(number(max)),
        None => Asking::AllTaken,
    }
}

/// An operation is a word, and after a space what it takes.
fn step(alloc: Global, texts: &str) -> Result<Step, AllocError> {
    let mut step = nothing();
    for text in texts.split(", ") {
        let (word, given) = text.split_once(' ').unwrap_or((text, ""));
        match word {
            "times" => step.moves_on = Some(times(given)),
            "log" => step.logs = Some(Bytes::copy_from_slice(alloc, given.as_bytes())?),
            _ => step.says = Some(Bytes::copy_from_slice(alloc, given.as_bytes())?),
        }
    }
    Ok(step)
}

/// Those for the next request, for the body, and for what the client takes.
fn times(text: &str) -> LocationTimes {
    let mut times = text.split(' ').map(|word| Ms(number(word)));
    LocationTimes {
        keepalive: times.next().unwrap_or(Ms(0)),
        body: times.next().unwrap_or(Ms(0)),
        send: times.next().unwrap_or(Ms(0)),
    }
}

/// The number that a word writes, 0 where it writes none.
fn number(word: &str) -> u64 {
    word.parse().unwrap_or(0)
}

#[test]
fn runs_ask_their_connection(rt: HostRuntime) {
    hold::<Connection<ScriptedRun>>(&rt, rt.alloc(), READS, READ);
    hold::<Connection<ScriptedRun>>(&rt, rt.alloc(), SLEEPS, SLEPT);
    hold::<Connection<ScriptedRun>>(&rt, rt.alloc(), FLUSHES, FLUSHED);
    hold::<Connection<ScriptedRun>>(&rt, rt.alloc(), FILLS, FILLED);
    hold::<Connection<ScriptedRun>>(&rt, rt.alloc(), MOVES, MOVED);
    hold::<Connection<ScriptedRun>>(&rt, rt.alloc(), STAYS, STAYED);
    hold::<Connection<ScriptedRun>>(&rt, rt.alloc(), COUNTS, COUNTED);
}
