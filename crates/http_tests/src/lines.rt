//! Tests of a client's line: requests in turn (REQUESTS_IN_TURN, STREAMS, PIECES), their bodies (BODIES, FAULTS), and what is offered (OFFERED); the answers
//! were worked out from RFC 9112 by hand.
use crate::rows::{Subject, hold};
use crate::texts::*;
use client_line::{Held, Line, LineOut};
use http_bodies::BodyRead;
use http_in::Head;
use std::alloc::{AllocError, Global};
use uri_args::Target;

const A: &str = "GET /a HTTP/1.0\r\n";

const E: &str = "\r\n";

const C: &str = "POST /c HTTP/1.1\r\nHost: X:1\r\nTransfer-Encoding: chunked\r\n\r\n";

const L: &str = "POST /l HTTP/1.1\r\nHost: x\r\nContent-Length: 5\r\n\r\n";

/// Writes a request by its method, path and host.
fn write_request(all: &mut String, head: &Head, target: &Target) -> Result<(), AllocError> {
    write_plain(all, &head.method)?;
    all.push(' ')?;
    write_plain(all, &target.path)?;
    if let Some(host) = &target.host {
        all.push(' ')?;
        write_plain(all, host)?;
    }
    Ok(())
}

/// Writes the answer to a piece.
fn write_answer(alloc: Global, all: &mut String, out: &LineOut) -> Result<(), AllocError> {
    match out {
        LineOut::Waiting => all.push_str("W"),
        LineOut::Memory => all.push_str("Memory"),
        LineOut::Refused(code) => write_number(alloc, all, u64::from(*code)),
        LineOut::Request(head, target) => write_request(all, head, target),
    }
}

fn held_in_words(held: Held) -> &'static str {
    match held {
        Held::Request => "Request",
        Held::Body => "Body",
        Held::Nothing => "Nothing",
        Held::Begun => "Begun",
    }
}

/// Asks for the body under this limit, and writes the answer and the content so far.
fn write_body(
    alloc: Global,
    all: &mut String,
    line: &mut Line,
    max: u64,
) -> Result<(), AllocError> {
    match line.body(max) {
        BodyRead::More => all.push_str("More")?,
        BodyRead::Whole(count) => {
            all.push_str("Whole ")?;
            write_number(alloc, all, count as u64)?;
        }
        BodyRead::Refused(code) => write_number(alloc, all, u64::from(code))?,
        BodyRead::Memory => all.push_str("Memory")?,
    }
    all.push(' ')?;
    write_plain(all, line.body_bytes())
}

/// The bytes of parts with `+` between them, each a name of one above or bytes as they are.
fn stream_of(alloc: Global, parts: &str) -> Result<String, AllocError> {
    let mut bytes = String::new(alloc);
    for part in parts.split('+') {
        bytes.push_str(match part {
            "A" => A,
            "C" => C,
            "L" => L,
            "E" => E,
            other => other,
        })?;
    }
    Ok(bytes)
}

/// Takes a step, and writes what it answers: `done`, `held`, `body N`, one on what waits to be sent, or parts that are fed.
fn take(alloc: Global, all: &mut String, line: &mut Line, step: &str) -> Result<(), AllocError> {
    let (word, given) = step.split_once(' ').unwrap_or((step, ""));
    match word {
        "done" => {
            line.done();
            Ok(())
        }
        "held" => all.push_str(held_in_words(line.held())),
        "body" => write_body(alloc, all, line, given.parse().unwrap_or(0)),
        "queue" | "queued" | "took" | "gone" => send(alloc, all, line, word, given),
        _ => feed(alloc, all, line, stream_of(alloc, step)?.as_bytes()),
    }
}

/// Takes a step on what waits to be sent: `queue TEXT`, `queued`, `took N` or `gone`.
fn send(
    alloc: Global,
    all: &mut String,
    line: &mut Line,
    word: &str,
    given: &str,
) -> Result<(), AllocError> {
    match word {
        "queue" => line.queue(&plain_bytes(alloc, given)?),
        "queued" => write_plain(all, line.queued()),
        "took" => {
            let count = line.queued().len().min(given.parse().unwrap_or(0));
            line.took(count);
            Ok(())
        }
        _ => {
            line.gone();
            Ok(())
        }
    }
}

/// Feeds a piece, and writes the answer.
fn feed(alloc: Global, all: &mut String, line: &mut Line, piece: &[u8]) -> Result<(), AllocError> {
    write_answer(alloc, all, &line.fed(piece))
}

/// What the steps answer on one line, `,` after each.
pub(crate) fn answers(alloc: Global, steps: &str) -> Result<String, AllocError> {
    let mut all = String::new(alloc);
    let mut line = Line::new(alloc);
    for step in steps.split(',') {
        take(alloc, &mut all, &mut line, step)?;
        all.push(',')?;
    }
    Ok(all)
}

/// Lines are cut into requests.
const REQUESTS_IN_TURN: &str = "\
A,held,E,held,x,done,,held => W,Begun,GET /a,Request,W,,W,Begun,
A+E+A+E,done,,done,,held => GET /a,,GET /a,,W,Nothing,
A+E+G E T+E+E,done,,held,A+E => GET /a,,400,Begun,400,
L+hello+A+E+GET /a HTTP/2.0+E+E,done,,done,,held,A+E => POST /l x,,GET /a,,505,Begun,505,
GET /.. HTTP/1.0+E+E,,held => 400,400,Begun,
GET http://H:2/a HTTP/1.1+E+Host: b+E+E,body 5 => GET /a h,Whole 0 ,
body 3,held,GET /a HTTP/2.0+E+E,A+E => Whole 0 ,Nothing,505,505,";

/// Bodies are read or dropped.
const BODIES: &str = "\
A+E,body 0,done,held => GET /a,Whole 0 ,,Nothing,
A+E+A+E,done,,body 0 => GET /a,,GET /a,Whole 0 ,
L+hello,body 5,body 5,done,held => POST /l x,Whole 5 hello,Whole 0 hello,,Nothing,
L+he,body 9,done,held,ll,o+A+E => POST /l x,More he,,Body,W,GET /a,
L+hello+A+E,done, => POST /l x,,GET /a,
L,done,hel,held,lo+A+E => POST /l x,,W,Body,GET /a,
L+hello,body 4,body 9,done,,held => POST /l x,413 ,413 ,,W,Nothing,
C+3+E+abc,body 9,E+0+E+E+A+E,body 9,done, => POST /c x,More abc,W,Whole 7 abc,,GET /a,
C+3+E+ab,body 9,done,held,c+E+0+E+E+A+E => POST /c x,More ab,,Body,GET /a,
C,done,held,3+E+a,held,bc+E+0+E+E+G,held => POST /c x,,Body,W,Body,W,Begun,
C+3+E+abc+E+0+E+E+A+E,done, => POST /c x,,GET /a,
C+3+E+abc+E,body 2,done,0+E+E+A+E => POST /c x,413 ,,GET /a,
C+3+E+abc+E+2,body 3,E,body 9,body 9,de+E+0+E+E+A+E,done, => POST /c x,More abc,W,413 abc,413 abc,W,,GET /a,";

/// Nothing is read after a fault in a body.
const FAULTS: &str = "\
C,done,g,held,A+E,held => POST /c x,,400,Body,400,Body,
C+3+E+abcd,body 9,done,,held,A+E => POST /c x,400 abc,,400,Body,400,
C+3+E+abc+E+0+E+E+C+g,done,,body 9,done,A+E => POST /c x,,POST /c x,400 ,,400,";

/// Three requests: with a body in chunks, one of a length, and none; and what follows these three.
const STREAMS: &str = "\
C+3;x=1+E+abc+E+10+E+0123456789abcdef+E+0+E+T: 1+E+E+A+Content-Length: 5+E+E+hello+A+E+GE,done,,done,,done, => POST /c x,,GET /a,,GET /a,,W,
C+3;x=1+E+abc+E+10+E+0123456789abcdef+E+0+E+T: 1+E+E+A+Content-Length: 5+E+E+hello+A+E+G E T+E+E,done,,done,,done, => POST /c x,,GET /a,,GET /a,,400,
C+3;x=1+E+abc+E+0+E+T: 1+E+E+A+Content-Length: 5+E+E+hello+A+E+C,done,,done,,done,,done, => POST /c x,,GET /a,,GET /a,,POST /c x,,W,
C+3;x=1+E+abc+E+0+E+T: 1+E+E+A+Content-Length: 5+E+E+hello+A+E+C+g,done,,done,,done,,done, => POST /c x,,GET /a,,GET /a,,POST /c x,,400,";

/// The same in pieces that end anywhere.
const PIECES: &str = "\
PO,ST /c HTTP/1.1+E+Host: X:1+E,Transfer-Encoding: chunked+E,E+3;x=,done,1+E+ab,c+E+10,E+0123456789,abcdef+E+0+E+T:, 1+E+E+A+Con,held,\
tent-Length: 5+E+E+hel,done,lo+A,E => W,W,W,POST /c x,,W,W,W,W,W,Begun,GET /a,,W,GET /a,";

/// A line offers what was queued.
const OFFERED: &str = "\
queue abc,took 1,queued,A,gone,queue d,queued => ,,bc,W,,,,";

#[test]
fn lines_are_cut_into_requests(rt: HostRuntime) {
    hold(&rt, rt.alloc(), Subject::Line, REQUESTS_IN_TURN);
    hold(&rt, rt.alloc(), Subject::Line, BODIES);
    hold(&rt, rt.alloc(), Subject::Line, FAULTS);
    hold(&rt, rt.alloc(), Subject::Line, STREAMS);
    hold(&rt, rt.alloc(), Subject::Line, PIECES);
    hold(&rt, rt.alloc(), Subject::Line, OFFERED);
}
