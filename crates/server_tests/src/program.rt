//! Tests of the program, over files, sinks and a live world in memory: rows of words, files and a schedule, with the exit code, what is written, and the
//! history of the live world. REPLAYS and FAULTS show `replay`, SERVES `serve`, USAGE words that are no command, CHECKS and SITES `check`.

ghost use Rattle.std.specs.Prelude.{IfSome};
ghost use Rattle.engine_base.specs.Right.{IsFresh};
ghost use Rattle.schedule.specs.ReplayBook.{book_of};

use crate::rows::{Subject, hold, put, replaced};
use commands::resty;
use resty_base::{MemFiles, MemSink};
use schedule::{Replay, history_text, schedule_of};
use std::alloc::{AllocError, Global};

/// Names in rows, one that is made of others before these; `^` is the end of a line.
const NAMES: &str = r#"<replay> => replay --conf t.conf --schedule t.sched
<serve> => serve --conf t.conf
<check> => check --conf t.conf
<files> => t.conf: <conf> | t.sched: 
<conf> => http { server { listen 8080;^location / { content_by_lua_block { ngx.say("hi") } }^} }^
<http> => http { lua_package_path "m/?.lua"; server { }
<usage> => resty: usage: resty MODE [options]^
<request> => moment 1000^arrive c1^bytes c1 "GET / HTTP/1.0\r\n\r\n"^
<put> => put c1 "HTTP/1.1 200 OK\r\nServer: resty\r\nDate: Thu, 01 Jan 1970 00:00:01 GMT\r\nContent-Type: text/plain\r\nConnection: close\r\n\r\nhi\n"^close c1^
<get> => bytes c1 "GET / HTTP/1.0\r\n\r\n"^
<rest> => Content-Length: 26\r\nConnection: close\r\n\r\n500 Internal Server Error\n"^close c1^
<head> => \r\nServer: resty\r\nDate: Thu, 01 Jan 1970 00:00:00 GMT\r\nContent-Type: text/plain\r\n
<fails> => http { server { location / { content_by_lua_block { error("e", 0) } } } }
<lost> => log c1 failed "0 [error] lua entry thread aborted: runtime error: e"^put c1 "HTTP/1.1 500 Internal Server Error
<modules> => t.conf: <uses> | m/text/greet.lua: <greet> | m/mark.lua: return '!' | t.sched: 
<uses> => http { lua_package_path "m/?.lua"; server { location / { content_by_lua_block { local greet = require "text.greet" <says> } } } }
<says> => ngx.say(greet.hello("you"), greet == require("text.greet"))
<greet> => local mark = require('mark')^local M = {}^function M.hello(name) return 'hello ' .. name .. mark end^return M^"#;

/// Histories that are written.
const REPLAYS: &str = r#"<replay> @ <files><request>stop^ => 0 > <request><put>stop^
<replay> @ <files>stop^ => 0 > stop^
<replay> @ <files>arrive c1^bytes c1 "GET"^stop^ => 0 > arrive c1^bytes c1 "GET"^stop^close c1^
<replay> --events 1 @ <files><request>stop^ => 7 > moment 1000^ ! resty: events spent^
<replay> --events 3 @ <files><request>stop^ => 7 > <request><put> ! resty: events spent^
<replay> --events 4 @ <files><request>stop^ => 0 > <request><put>stop^
<replay> --events 999999999999999999 @ <files><request>stop^ => 0 > <request><put>stop^
<replay> @ <files>fail listen^stop^ => 0 > stop^
<replay> @ <files>fail log^stop^ => 0 > stop^
<replay> @ <modules>arrive c1^<get>stop^ => 0 > arrive c1^<get>put c1 "HTTP/1.1 200 OK<head>Connection: close\r\n\r\nhello you!true\n"^close c1^stop^"#;

/// What ends a replay: the configuration, the schedule, the world, files and outputs. An output that fails changes no exit code.
const FAULTS: &str =
    r#"<replay> @ <files>arrive c1^arrive c3^stop^ => 3 ! resty: t.sched: line 2: not a schedule line^
<replay> @ t.conf: http { server { listen 8080;^location / { access_by_lua_block { } }^} }^ | t.sched: stop^ => 1 ! resty: t.conf: line 2: not built yet^
<replay> @ t.conf: http { server { listen 8080;^location / { access_by_lua_block { } }^} }^ | t.sched: frob^ => 1 ! resty: t.conf: line 2: not built yet^
<replay> @ t.conf: http { server { listen 0;^} }^ | t.sched: stop^ => 1 ! resty: t.conf: line 1: bad value^
<replay> @ <files>arrive c1^ => 3 ! resty: t.sched: line 2: not a schedule line^
<replay> @ <files>arrive c1^frob^ => 3 ! resty: t.sched: line 2: not a schedule line^
<replay> @ <files>bytes s9 "x"^stop^ => 3 ! resty: t.sched: line 1: no such id^
<replay> @ <files>arrive c1^room c2 1^stop^ => 3 > arrive c1^ ! resty: t.sched: line 2: no such id^
<replay> @ <files>arrive c1^fail next^stop^ => 6 > arrive c1^ ! resty: world fault^
<replay> @ t.conf: <fails> | t.sched: arrive c1^fail log^<get>stop^ => 6 > arrive c1^<get><lost><head><rest> ! resty: world fault^
<replay> @ nothing => 4 ! resty: no file t.conf^
<replay> @ t.conf: <conf> => 4 ! resty: no file t.sched^
<replay> @ t.conf: <conf> | long t.sched 67108865 => 4 ! resty: t.sched is too long^
<replay> @ long t.conf 1048577 => 4 ! resty: t.conf is too long^
<replay> @ <files>stop^ | fail 1 => 4 ! resty: cannot read t.conf^
<replay> @ <files>stop^ | fail 2 => 4 ! resty: cannot read t.sched^
<replay> @ <files>stop^ | out 1 => 5 ! resty: cannot write^
<replay> @ err 2 => 4 ! resty: no file "#;

/// Serving the live world, whose history stands after `~`, and a number of events.
const SERVES: &str = r#"<serve> @ t.conf: <conf> @ <request>stop^ => 0 ~ <request><put>stop^
<serve> --events 3 @ t.conf: <conf> @ moment 5^moment 6^stop^ => 0 ~ moment 5^moment 6^stop^
<serve> --events 3 @ t.conf: <conf> @ moment 5^moment 6^moment 7^stop^ => 7 ! resty: events spent^ ~ moment 5^moment 6^moment 7^
<serve> --events 3 @ t.conf: <conf> @ moment 5^fail next^stop^ => 6 ! resty: world fault^ ~ moment 5^
<serve> @ t.conf: <conf> @ fail listen^moment 5^stop^ => 6 ! resty: world fault^
<serve> @ t.conf: <conf> @ moment 5^bytes s9 "x"^stop^ => 3 ! resty: live: line 2: no such id^ ~ moment 5^
<serve> @ nothing @ moment 5^stop^ => 4 ! resty: no file t.conf^"#;

/// Words that are no command.
const USAGE: &str = r#" @ <files>stop^ => 2 ! <usage>
--help @ <files>stop^ => 2 ! <usage>
replay @ <files>stop^ => 2 ! <usage>
replay --conf t.conf --conf t.conf @ <files>stop^ => 2 ! <usage>
replay --schedule t.sched --conf t.conf @ <files>stop^ => 2 ! <usage>
replay --conf '' --schedule t.sched @ <files>stop^ => 2 ! <usage>
replay --conf t.conf --schedule -t.sched @ <files>stop^ => 2 ! <usage>
replay --conf -- --schedule t.sched @ <files>stop^ => 2 ! <usage>
replay --conf t.conf --schedule t.sched -- @ <files>stop^ => 2 ! <usage>
serve @ <files>stop^ => 2 ! <usage>
serve --conf @ <files>stop^ => 2 ! <usage>
serve --conf - @ <files>stop^ => 2 ! <usage>
serve --conf=t.conf @ <files>stop^ => 2 ! <usage>
serve --conf t.conf --schedule t.sched @ <files>stop^ => 2 ! <usage>
serve --conf t.conf --events @ <files>stop^ => 2 ! <usage>
serve --conf t.conf --events 0 @ <files>stop^ => 2 ! <usage>
serve --conf t.conf --events 01 @ <files>stop^ => 2 ! <usage>
serve --conf t.conf --events +1 @ <files>stop^ => 2 ! <usage>
<replay> --events 007 @ <files>stop^ => 2 ! <usage>
serve --events 1 --conf t.conf @ <files>stop^ => 2 ! <usage>
serve --conf t.conf --events 1000000000000000000 @ <files>stop^ => 2 ! <usage>"#;

/// Checks of configurations, and of the 256 modules that a site has at most.
const CHECKS: &str = r#"<check> @ t.conf: <conf> => 0 > site ok^
<check> --events 1 @ t.conf: <conf> => 2 ! <usage>
<check> @ t.conf: http { } => 1 ! resty: t.conf: line 1: syntax error^
<check> @ t.conf: http {^frob; => 1 ! resty: t.conf: line 2: unknown directive^
<check> @ t.conf: http { server { location / { content_by_lua_block {^'x } } } } => 1 ! resty: t.conf: line 1: lua block is not closed^
<check> @ t.conf: http { server { location / { content_by_lua_block {^$ } } } } => 1 ! resty: t.conf: line 2: lua: BadByte^
<check> @ t.conf: http { init_by_lua_block {^x = } server { listen 0; } } => 1 ! resty: t.conf: line 2: bad value^
<check> @ t.conf: http { init_by_lua_block {^x = } server { } } => 1 ! resty: t.conf: line 2: lua: At^
<check> @ modules 256 => 0 > site ok^
<check> @ modules 257 => 1 ! resty: too many modules^
<check> @ modules 2 | fail 3 => 4 ! resty: cannot read m/m2.lua^
<check> @ modules 2 | long m/m1.lua 1048577 => 4 ! resty: m/m1.lua is too long^"#;

/// Sites with modules. A name that stands in no call of `require` is that of no module. Then sites that are refused: at their start, in a module, or at a
/// block that isn't run yet; and those of which a file isn't there.
const SITES: &str =
    r#"<check> @ t.conf: <http> init_by_lua_block { a = require "a" } } | m/a.lua: return 1 => 0 > site ok^
<check> @ t.conf: <http> init_by_lua_block { pcall(function() require "a" end) } } | m/a.lua: return require "b" | m/b.lua: return require "a" => 0 > site ok^
<check> @ t.conf: <http> init_by_lua_block { function f() return function() return require("a.b") end end } } | m/a/b.lua: return 1 => 0 > site ok^
<check> @ t.conf: <http> init_by_lua_block { local r = require pcall(r, "none") } } | m/none.lua: ) => 0 > site ok^
<check> @ t.conf: <http> init_by_lua_block { shared = {} function shared.f() return shared end count = 1 } } => 0 > site ok^
<check> @ t.conf: <http> init_by_lua_block { local r = require r("none") } } => 1 ! resty: init failed: t.conf:1: module 'none' not found^
<check> @ t.conf: <http>^init_by_lua_block { error("no") } } => 1 ! resty: init failed: t.conf:2: no^
<check> @ t.conf: <http> init_by_lua_block { error({}) } } => 1 ! resty: init failed: unknown reason^
<check> @ t.conf: <http> init_by_lua_block { while true do end } } => 1 ! resty: init failed: step budget of 1000000 spent^
<check> @ t.conf: <http> init_by_lua_block { ngx.say("x") } } => 1 ! resty: init failed: API disabled in the context of init_by_lua*^
<check> @ t.conf: <http> init_by_lua_block { require "a" } } | m/a.lua: ^error("no") => 1 ! resty: init failed: m/a.lua:2: no^
<check> @ t.conf: <http> init_by_lua_block { require "a" } } | m/a.lua: local x^local y^x = = y => 1 ! resty: m/a.lua: line 3: lua: At^
<check> @ t.conf: <http> init_by_lua_block { require "a" } } | m/a.lua: ^return 1.5 => 1 ! resty: m/a.lua: line 2: lua: Fraction^
<check> @ t.conf: <http> server {^location / { access_by_lua_block { } } } } => 1 ! resty: t.conf: line 2: not built yet^
<check> @ t.conf: <http> init_by_lua_block { require "a" } server {^^location / { log_by_lua_block { } } } } => 1 ! resty: t.conf: line 3: not built yet^
<check> @ t.conf: <http> init_by_lua_block { require "a" } } => 4 ! resty: no file m/a.lua^
<check> @ t.conf: <http> init_by_lua_block { require "a" } } | m/a.lua: local function f() return require "b.c" end => 4 ! resty: no file m/b/c.lua^
<check> @ t.conf: <http> init_by_lua_block { error("no") require "b" require "a" } } | m/a.lua: ) => 4 ! resty: no file m/b.lua^
<check> @ u.conf: <http> } => 4 ! resty: no file t.conf^"#;

#[test]
fn words_have_their_outcome(rt: HostRuntime) {
    hold(&rt, rt.alloc(), Subject::Program, REPLAYS);
    hold(&rt, rt.alloc(), Subject::Program, FAULTS);
    hold(&rt, rt.alloc(), Subject::Program, SERVES);
    hold(&rt, rt.alloc(), Subject::Program, USAGE);
}

#[test]
fn sites_are_checked(rt: HostRuntime) {
    hold(&rt, rt.alloc(), Subject::Program, CHECKS);
    hold(&rt, rt.alloc(), Subject::Program, SITES);
}

/// What is seen of a row, in which names stand for texts.
pub(crate) fn seen_in_a_line(alloc: Global, given: &str) -> String {
    let seen = seen(alloc, spelled(alloc, given).as_str());
    let mut all = replaced(alloc, seen, "\n", "^");
    for row in NAMES.lines() {
        let (name, meaning) = row.split_once(" => ").unwrap_or((row, ""));
        all = replaced(alloc, all, meaning, name);
    }
    all
}

/// A text with what the names in it mean.
fn spelled(alloc: Global, text: &str) -> String {
    let mut all = String::new(alloc);
    put(&mut all, text);
    for row in NAMES.lines() {
        let (name, meaning) = row.split_once(" => ").unwrap_or((row, ""));
        all = replaced(alloc, all, name, meaning);
    }
    replaced(alloc, all, "^", "\n")
}

/// What is seen of `WORDS @ FILES @ SCHEDULE`: the exit code, after `>` what is written, after `!` what is written of a fault, and after `~` the history of
/// the live world that goes by the schedule, where there are any. Without a schedule nothing happens in that world.
pub(crate) fn seen(alloc: Global, given: &str) -> String {
    let mut all = String::new(alloc);
    if see(alloc, &mut all, given).is_none() {
        put(&mut all, "memory");
    }
    all
}

/// Writes what is seen.
fn see(alloc: Global, all: &mut String, given: &str) -> Option<()> {
    let (words, given) = given.split_once(" @ ").unwrap_or((given, ""));
    let (entries, schedule) = given.split_once(" @ ").unwrap_or((given, "stop\n"));
    let mut outside = Outside {
        files: MemFiles::new(alloc),
        out: MemSink::new(alloc),
        err: MemSink::new(alloc),
    };
    for entry in entries.split(" | ") {
        provide(alloc, &mut outside, entry).ok()?;
    }
    let mut live = world_of(alloc, schedule)?;
    see_run(alloc, all, words, &mut outside, &mut live)
}

/// Files and outputs.
#[derive(Drop)]
struct Outside {
    files: MemFiles,
    out: MemSink,
    err: MemSink,
}

/// A world that goes by this schedule.
fn world_of(alloc: Global, schedule: &str) -> Option<Replay>
    ensures { IfSome result (λ world. IsFresh (book_of world)) }
{
    match schedule_of(alloc, schedule.as_bytes()) {
        Ok(schedule) => Some(Replay::new(alloc, schedule)),
        Err(_) => None,
    }
}

/// Calls the program with these words, and writes what came of it.
fn see_run(
    alloc: Global,
    all: &mut String,
    words: &str,
    outside: &mut Outside,
    live: &mut Replay,
) -> Option<()>
    requires { IsFresh (book_of live.old) }
{
    let words = words_of(alloc, words).ok()?;
    let status = resty(
        alloc,
        words.as_slice(),
        &mut outside.files,
        live,
        &mut outside.out,
        &mut outside.err,
    );
    let code = status.code();
    let _ = write!(all, "{code}");
    put_part(all, " > ", outside.out.taken());
    put_part(all, " ! ", outside.err.taken());
    put_part(all, " ~ ", &history_text(alloc, live.history()).ok()?);
    Some(())
}

/// Writes what isn't empty after a mark.
fn put_part(all: &mut String, mark: &str, bytes: &[u8]) {
    if !bytes.is_empty() {
        put(all, mark);
        put(all, str::from_utf8(bytes).unwrap_or("?"));
    }
}

/// Words with blanks between them; `''` is the empty one.
fn words_of(alloc: Global, text: &str) -> Result<Vec<String>, AllocError> {
    let mut words = Vec::new(alloc);
    for word in text.split_whitespace() {
        let word = if word == "''" { "" } else { word };
        words.push(String::from_str(alloc, word)?)?;
    }
    Ok(words)
}

/// Provides a file, `NAME: TEXT`, or what a word says: `long NAME LENGTH` a file of this length, `modules COUNT` a site with so many modules; `fail N` lets the
/// Nth fetch of a file fail, `out N` and `err N` the Nth put of an output.
fn provide(alloc: Global, outside: &mut Outside, entry: &str) -> Result<(), AllocError> {
    if let Some((name, text)) = entry.split_once(": ") {
        return outside.files.add(alloc, name, text.as_bytes());
    }
    let (word, given) = entry.split_once(' ').unwrap_or((entry, ""));
    let (name, length) = given.split_once(' ').unwrap_or((given, ""));
    match word {
        "long" => add_long(alloc, &mut outside.files, name, length.parse().unwrap_or(0)),
        "modules" => add_modules(alloc, &mut outside.files, given.parse().unwrap_or(0)),
        "fail" => outside.files.fail_at(given.parse().unwrap_or(0)),
        "out" => outside.out.fail_at(given.parse().unwrap_or(0)),
        "err" => outside.err.fail_at(given.parse().unwrap_or(0)),
        _ => Ok(()),
    }
}

/// Adds a file of so many bytes, which are copied 1,024 at a time.
fn add_long(
    alloc: Global,
    files: &mut MemFiles,
    name: &str,
    length: usize,
) -> Result<(), AllocError> {
    let mut long = "x"
        .repeat(alloc, 1_024)?
        .as_str()
        .repeat(alloc, length / 1_024)?;
    long.push_str("x".repeat(alloc, length % 1_024)?.as_str())?;
    files.add(alloc, name, long.as_bytes())
}

/// Adds a site whose init block requires so many modules, from `m1` on.
fn add_modules(alloc: Global, files: &mut MemFiles, count: usize) -> Result<(), AllocError> {
    let mut conf = String::new(alloc);
    put(
        &mut conf,
        "http { lua_package_path \"m/?.lua\"; server { } init_by_lua_block {\n",
    );
    for number in 1..=count {
        let _ = write!(conf, "require \"m{number}\"\n");
        let mut name = String::new(alloc);
        let _ = write!(name, "m/m{number}.lua");
        files.add(alloc, name.as_str(), b"")?;
    }
    put(&mut conf, "} }\n");
    files.add(alloc, "t.conf", conf.as_bytes())
}
