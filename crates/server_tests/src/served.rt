//! Connections over a site, as cases: what comes, and what is done then, by `replay`. Expected replies are those of RFC 9112 and of the formats of the manual.
//!
//! Which file shows what: `requests` requests in turn, kept and closed; `bodies` bodies that are dropped; `replies` the server's own and long ones; `routes`
//! servers and locations; `ends` clients that end, break and are too many; `timers` each timeout; `cuttings` bytes cut anywhere; `handlers` Lua.
use crate::program;
use crate::rows::{expect, put, put_lines, replaced};
use std::alloc::Global;
use std::process::Abort;

mod bodies;
mod cuttings;
mod ends;
mod handlers;
mod replies;
mod requests;
mod routes;
mod timers;

/// The site that says `hi`.
const HI: &str = r#"http { server { location / { content_by_lua_block { ngx.say("hi") } } } }"#;

/// Names in cases, one that is made of others before these: replies at the moment 0, which are kept, are the last, or close; those of some statuses;
/// the chunks of `hi`; beginnings of requests; and so many letters `a`.
const NAMES: &str = r#"<keep> => <chunked>Connection: keep-alive\r\n\r\n
<last> => <chunked>Connection: close\r\n\r\n
<chunked> => HTTP/1.1 200 OK\r\nServer: resty\r\nDate: Thu, 01 Jan 1970 00:00:00 GMT\r\nContent-Type: text/plain\r\nTransfer-Encoding: chunked\r\n
<400> => HTTP/1.1 400 Bad Request<built-in>16\r\nConnection: close\r\n\r\n400 Bad Request\n
<404> => HTTP/1.1 404 Not Found<built-in>14\r\nConnection: keep-alive\r\n\r\n404 Not Found\n
<413> => HTTP/1.1 413 Content Too Large<built-in>22\r\nConnection: close\r\n\r\n413 Content Too Large\n
<431> => HTTP/1.1 431 Request Header Fields Too Large<built-in>36\r\nConnection: close\r\n\r\n431 Request Header Fields Too Large\n
<501> => HTTP/1.1 501 Not Implemented<built-in>20\r\nConnection: close\r\n\r\n501 Not Implemented\n
<505> => HTTP/1.1 505 HTTP Version Not Supported<built-in>31\r\nConnection: close\r\n\r\n505 HTTP Version Not Supported\n
<500> => HTTP/1.1 500 Internal Server Error<built-in>26\r\nConnection: close\r\n\r\n500 Internal Server Error\n
<built-in> => \r\nServer: resty\r\nDate: Thu, 01 Jan 1970 00:00:00 GMT\r\nContent-Type: text/plain\r\nContent-Length: 
<close> => HTTP/1.1 200 OK\r\nServer: resty\r\nDate: Thu, 01 Jan 1970 00:00:00 GMT\r\nContent-Type: text/plain\r\nConnection: close\r\n\r\n
<hi> => 3\r\nhi\n\r\n0\r\n\r\n
<get> => GET / HTTP/1.1\r\nHost: a\r\n\r\n
<post> => POST / HTTP/1.1\r\nHost: a\r\n
<16k> => <8k><8k>
<8k> => <4k><4k>
<4k> => <2k><2k>
<2k> => <1k><1k>
<1k> => <512><512>
<512> => <256><256>
<256> => <128><128>
<128> => <64><64>
<64> => aaaaaaaaaaaaaaaaaaaaaaaaaaaaaaaaaaaaaaaaaaaaaaaaaaaaaaaaaaaaaaaa"#;

/// Tests each case; an empty line stands between two. A line of a case that begins with `> ` is what the site's strands do, one that begins with
/// `< ` stands in the schedule alone, and any other is given: it stands in the schedule and in the history.
fn hold(rt: &impl Abort, alloc: Global, conf: &str, cases: &str) {
    for case in cases.split("\n\n") {
        expect(rt, unlike(alloc, conf, case).as_str(), "", case);
    }
}

/// What is seen of a case where it isn't what the case says, or nothing.
fn unlike(alloc: Global, conf: &str, case: &str) -> String {
    let case = spelled(alloc, case);
    let mut given = String::new(alloc);
    put(
        &mut given,
        "replay --conf t.conf --schedule t.sched @ t.conf: ",
    );
    put(&mut given, spelled(alloc, conf).as_str());
    put(&mut given, " | t.sched: ");
    put_lines(&mut given, case.as_str(), "< ", "> ");
    let mut expected = String::new(alloc);
    put(&mut expected, "0 > ");
    put_lines(&mut expected, case.as_str(), "> ", "< ");
    let seen = program::seen(alloc, given.as_str());
    if seen.as_str() == expected.as_str() {
        String::new(alloc)
    } else {
        seen
    }
}

/// A text with what the names in it mean, and each line whole: one that begins with two spaces goes on with the line before.
fn spelled(alloc: Global, text: &str) -> String {
    let mut all = String::new(alloc);
    put(&mut all, text);
    all = replaced(alloc, all, "\n  ", "");
    for row in NAMES.lines() {
        let (name, meaning) = row.split_once(" => ").unwrap_or((row, ""));
        all = replaced(alloc, all, name, meaning);
    }
    all
}

/// Cases of the site that says `hi`.
fn hold_of_hi(rt: &impl Abort, alloc: Global) {
    hold(rt, alloc, HI, requests::TURNS);
    hold(rt, alloc, HI, bodies::DROPPED);
    hold(rt, alloc, HI, replies::STATUSES);
    hold(rt, alloc, HI, ends::ENDS);
    hold(rt, alloc, HI, timers::HEADERS);
    hold(rt, alloc, HI, cuttings::CUT);
    hold(rt, alloc, HI, cuttings::BETWEEN);
}

/// Cases of other sites.
fn hold_of_others(rt: &impl Abort, alloc: Global) {
    hold(rt, alloc, requests::SAYS, requests::SAID);
    hold(rt, alloc, bodies::SMALL, bodies::LIMITED);
    hold(rt, alloc, replies::SMALL, replies::FOUND);
    hold(rt, alloc, replies::LONG, replies::PIECES);
    hold(rt, alloc, routes::NAMED, routes::HOSTS);
    hold(rt, alloc, routes::DEFAULT, routes::OTHER_HOSTS);
    hold(rt, alloc, routes::PATHS, routes::ASKED);
    hold(rt, alloc, ends::ONE, ends::TURNED);
    hold(rt, alloc, ends::THREE, ends::STOPPED);
    hold(rt, alloc, timers::TIMES, timers::OWN);
}

#[test]
fn clients_are_served(rt: HostRuntime) {
    hold_of_hi(&rt, rt.alloc());
    hold_of_others(&rt, rt.alloc());
}

/// Tests each row, a handler with what is done at its request after this beginning; `|` is before what is sent after a log line.
fn hold_handlers(rt: &impl Abort, alloc: Global, before: &str, rows: &str) {
    for row in rows.lines() {
        let (body, expected) = row.split_once(" => ").unwrap_or((row, ""));
        let mut done = String::new(alloc);
        put(&mut done, before);
        put(&mut done, expected);
        let done = replaced(alloc, done, "|", "\n> put c1 \"");
        let conf = in_place(alloc, handlers::SITE, "BODY", body);
        let case = in_place(alloc, handlers::CASE, "DONE", done.as_str());
        expect(
            rt,
            unlike(alloc, conf.as_str(), case.as_str()).as_str(),
            "",
            row,
        );
    }
}

/// A text with another in the place of a word.
fn in_place(alloc: Global, text: &str, word: &str, other: &str) -> String {
    let mut all = String::new(alloc);
    put(&mut all, text);
    replaced(alloc, all, word, other)
}

/// What stands before the text of a fault that is logged.
const ABORTED: &str = "> log c1 \"0 [error] lua entry thread aborted: runtime error: ";

#[test]
fn handlers_say_what_lua_gives(rt: HostRuntime) {
    hold_handlers(&rt, rt.alloc(), "> put c1 \"<close>", handlers::SAYS);
    hold_handlers(&rt, rt.alloc(), ABORTED, handlers::FAILS);
    hold(&rt, rt.alloc(), handlers::COUNTS, handlers::CASES);
}
