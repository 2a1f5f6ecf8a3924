//! Strands that go by scripts, for what no program of Lua asks for yet, as cases: what comes, and what the engine does then.
//!
//! `sleepers` are strands of scripts, `runs` connections of scripted runs, and `asking` is a world that keeps until when it was asked for events.
use crate::rows::{expect, put, put_lines};
use engine::serve;
use resty_base::{Bytes, Ms};
use schedule::{Replay, history_text, schedule_of};
use std::alloc::{AllocError, Global};
use std::process::Abort;
use std::rc::Rc;
use strand_contract::StrandContract;
use strand_scripts::{Op, Program, ScriptStrand, Site};

mod asking;
mod runs;
mod sleepers;

/// How many connections may be open at a time.
const CONNECTIONS: u32 = 3;

/// More events than any case has.
const EVENTS: u64 = 100;

/// Strands that go by a text.
trait Scripted: StrandContract {
    /// The site of this text.
    fn site(alloc: Global, text: &str) -> Result<Self::Site, AllocError>;
}

/// Tests each case; an empty line stands between two. A line of a case that begins with `> ` is what the engine does, one that
/// begins with `< ` stands in the schedule alone, and any other is given: it stands in the schedule and in the history.
fn hold<S: Scripted>(rt: &impl Abort, alloc: Global, text: &str, cases: &str) {
    for case in cases.split("\n\n") {
        expect(rt, unlike::<S>(alloc, text, case).as_str(), "", case);
    }
}

/// The history of a case where it isn't what the case says, or nothing.
fn unlike<S: Scripted>(alloc: Global, text: &str, case: &str) -> String {
    let mut schedule = String::new(alloc);
    put_lines(&mut schedule, case, "< ", "> ");
    let mut expected = String::new(alloc);
    put_lines(&mut expected, case, "> ", "< ");
    let mut seen = String::new(alloc);
    if see_served::<S>(alloc, &mut seen, text, schedule.as_str()).is_none() {
        put(&mut seen, "memory");
    }
    if seen.as_str() == expected.as_str() {
        String::new(alloc)
    } else {
        seen
    }
}

/// Writes the history that is left once a schedule was served.
fn see_served<S: Scripted>(
    alloc: Global,
    all: &mut String,
    text: &str,
    schedule: &str,
) -> Option<()> {
    let Ok(schedule) = schedule_of(alloc, schedule.as_bytes()) else {
        return None;
    };
    let site = S::site(alloc, text).ok()?;
    let mut world = Replay::new(alloc, schedule);
    let _ = serve::<S, Replay>(alloc, site, &mut world, EVENTS);
    let text = history_text(alloc, world.history()).ok()?;
    put(all, str::from_utf8(&text).unwrap_or("?"));
    Some(())
}

impl Scripted for ScriptStrand {
    /// The site with these programs, one a line: its name, which is one byte, `: `, and operations with `, ` between.
    fn site(alloc: Global, programs: &str) -> Result<Site, AllocError> {
        let mut all = Vec::new(alloc);
        for line in programs.lines() {
            let (name, ops) = line.split_once(": ").unwrap_or((line, ""));
            all.push(Program {
                name: name.as_bytes().first().copied().unwrap_or(b'?'),
                ops: Rc::new(alloc, ops_of(alloc, ops)?)?,
            })?;
        }
        Ok(Site {
            programs: all,
            connections: CONNECTIONS,
        })
    }
}

fn ops_of(alloc: Global, texts: &str) -> Result<Vec<Op>, AllocError> {
    let mut ops = Vec::new(alloc);
    for text in texts.split(", ") {
        ops.push(op_of(alloc, text)?)?;
    }
    Ok(ops)
}

/// An operation: a word, and after a space what it takes.
fn op_of(alloc: Global, text: &str) -> Result<Op, AllocError> {
    let (word, given) = text.split_once(' ').unwrap_or((text, ""));
    Ok(match word {
        "sleep" => Op::Sleep(Ms(given.parse().unwrap_or(0))),
        "yield" => Op::Yield,
        "recall" => Op::Recall,
        "fail" => Op::Fail,
        "log" => Op::Log(Bytes::copy_from_slice(alloc, given.as_bytes())?),
        _ => Op::Say(Bytes::copy_from_slice(alloc, given.as_bytes())?),
    })
}
