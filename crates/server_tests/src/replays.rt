//! Tests of `schedule`: the world that replays a schedule, in rows `SCHEDULE > CALLS => ANSWERS |HISTORY`. ROOM, FAULTS and IDS show what the world answers,
//! EXCHANGE each of its calls.
use crate::rows::{Subject, hold, put, replaced};
use resty_base::{Id, Ms, StrandId};
use resty_world::{Entry, Noted, TimerAnswer, World};
use schedule::*;
use std::alloc::Global;

/// The first connection, whose strand makes the calls.
const CLIENT: Id = Id::Conn(1);

const WHO: StrandId = StrandId::Conn(1);

/// Offers bytes to the connection.
fn put_bytes(alloc: Global, all: &mut String, world: &mut Replay, text: &str) {
    if text.is_empty() || !world.is_open(CLIENT) {
        return put(all, "closed");
    }
    let wrote = world.put_bytes(alloc, CLIENT, text.as_bytes());
    let _ = write!(all, "{wrote:?}");
}

/// The connection `c1`, or a socket.
fn id_of(name: &str) -> Id {
    match name {
        "c1" => CLIENT,
        "s1" => Id::Sock(1),
        _ => Id::Sock(2),
    }
}

fn close(world: &mut Replay, id: Id) -> &'static str {
    if !world.is_open(id) {
        return "closed";
    }
    world.hang_up(id);
    "done"
}

/// Says that bytes of the connection aren't wanted.
fn hold_back(world: &mut Replay) -> &'static str {
    if !world.is_open(CLIENT) {
        return "closed";
    }
    world.wants(CLIENT, false);
    "done"
}

fn forget(world: &mut Replay) -> &'static str {
    if world.is_open(CLIENT) {
        return "open";
    }
    world.forget(WHO);
    "done"
}

/// Notes a start.
fn note_start(world: &mut Replay, alloc: Global) -> &'static str {
    match world.make_room(alloc) {
        Noted::Done if world.note(Entry::Start(1)).is_none() => "done",
        _ => "failed",
    }
}

/// Notes a job that is accepted and given up.
fn note_job(world: &mut Replay, alloc: Global) -> &'static str {
    if let Noted::Memory = world.make_room(alloc) {
        return "failed";
    }
    let timer = Entry::Timer(WHO, Ms(7), TimerAnswer::Job(2));
    let is_accepted = world.note(timer).is_none();
    let is_dropped = world.note(Entry::Dropped(StrandId::Job(2))).is_none();
    if is_accepted && is_dropped {
        "done"
    } else {
        "failed"
    }
}

/// Makes a call of the world, and writes what it answers.
fn call(alloc: Global, all: &mut String, world: &mut Replay, call: &str) {
    let (word, given) = call.split_once(':').unwrap_or((call, ""));
    match word {
        "listen" => {
            let listened = world.listen(alloc, 8080);
            let _ = write!(all, "{listened:?}");
        }
        "next" => {
            let event = world.next_event(alloc, None);
            let _ = write!(all, "{event:?}");
        }
        "put" => put_bytes(alloc, all, world, given),
        "dial" => {
            let dial = world.dial(alloc, WHO, [127, 0, 0, 1], given.parse().unwrap_or(0));
            let _ = write!(all, "{dial:?}");
        }
        "log" => {
            let logged = world.write_log(alloc, WHO, given.as_bytes());
            let _ = write!(all, "{logged:?}");
        }
        "close" => put(all, close(world, id_of(given))),
        "hold-back" => put(all, hold_back(world)),
        "forget" => put(all, forget(world)),
        "start" => put(all, note_start(world, alloc)),
        "job" => put(all, note_job(world, alloc)),
        _ => {
            let count = world.set_aside();
            let _ = write!(all, "{count}");
        }
    }
}

/// The world of a schedule; None where it is refused.
fn world_of(alloc: Global, schedule: &str) -> Option<Replay> {
    match schedule_of(alloc, schedule.as_bytes()) {
        Ok(schedule) => Some(Replay::new(alloc, schedule)),
        Err(_) => None,
    }
}

/// Writes what the calls answer, a `|` and the text of the history.
fn tell(alloc: Global, all: &mut String, world: &mut Replay, calls: &str) {
    for word in calls.split(' ') {
        call(alloc, all, world, word);
        put(all, " ");
    }
    put(all, "|");
    match history_text(alloc, world.history()) {
        Ok(text) => put(all, str::from_utf8(&text).unwrap_or("?")),
        Err(_) => put(all, "memory"),
    }
}

/// What is seen of `SCHEDULE > CALLS`, in which `;` is the end of a line: the answers, and the history.
pub(crate) fn seen(alloc: Global, given: &str) -> String {
    let mut all = String::new(alloc);
    put(&mut all, given);
    let lines = replaced(alloc, all, ";", "\n");
    let (schedule, calls) = lines.as_str().split_once(" > ").unwrap_or(("", ""));
    let mut all = String::new(alloc);
    match world_of(alloc, schedule) {
        Some(mut world) => tell(alloc, &mut all, &mut world, calls),
        None => put(&mut all, "refused"),
    }
    replaced(alloc, all, "\n", ";")
}

/// A connection takes all, then so many bytes as a line lets it, and then it waits. Lines come while it is open.
const ROOM: &str = "\
arrive c1;room c1 3;ready c1;room c1 all;stop; > next put:ab next put:ab put:ab put:ab next put:ab next => \
Arrive(1) Took(2) Ready(Conn(1)) Took(2) Took(1) Later Stop Took(2) Fault \
|arrive c1;put c1 \"ab\";ready c1;put c1 \"ab\";put c1 \"a\";later c1;stop;put c1 \"ab\";
arrive c1;bytes c1 \"GET\";stop; > next next next => \
Arrive(1) Bytes(Conn(1), b\"GET\") Stop |arrive c1;bytes c1 \"GET\";stop;
arrive c1;stop; > next aside hold-back close:c1 aside forget aside => Arrive(1) 2 done done 1 done 0 |arrive c1;close c1;";

/// A line makes one call fail, once it was passed; listening fails by the first line alone, and once.
const FAULTS: &str = "\
arrive c1;fail put c1;fail put c1;ready c1;stop; > next put:ab next put:ab put:ab put:ab => \
Arrive(1) Took(2) Ready(Conn(1)) Broken Broken Took(2) |arrive c1;put c1 \"ab\";ready c1;lost c1;lost c1;put c1 \"ab\";
fail dial;fail log;moment 1;stop; > dial:9000 next dial:9000 dial:9000 log:x log:x => \
Started(1) Moment(Ms(1)) Failed Started(2) Failed Done \
|dial c1 127.0.0.1 9000 s1;moment 1;dial c1 127.0.0.1 9000 failed;dial c1 127.0.0.1 9000 s2;log c1 failed \"x\";log c1 \"x\";
fail listen;stop; > listen listen next => Failed Up Stop |stop;
moment 1;fail listen;stop; > next next listen => Moment(Ms(1)) Stop Up |moment 1;stop;
moment 5;fail next;stop; > next next next next => Moment(Ms(5)) Fault Stop Fault |moment 5;stop;";

/// A line with an id that was never there is bad, until it is there. Bytes after an end or a break are skipped, and so are lines with
/// an id that was hung up.
const IDS: &str = "\
bytes s9 \"x\";stop; > next next => BadLine(1) BadLine(1) |
arrive c1;room c2 1;stop; > next next => Arrive(1) BadLine(2) |arrive c1;
dialled s1;stop; > next dial:9000 next => BadLine(1) Started(1) Dialled(1) |dial c1 127.0.0.1 9000 s1;dialled s1;
dialled s1;bytes s1 \"x\";ended s1;bytes s1 \"y\";ready s1;refused s1;stop; > dial:9000 next next next next close:s1 next => \
Started(1) Dialled(1) Bytes(Sock(1), b\"x\") Ended(Sock(1)) Ready(Sock(1)) done Stop \
|dial c1 127.0.0.1 9000 s1;dialled s1;bytes s1 \"x\";ended s1;ready s1;close s1;stop;
arrive c1;broken c1;bytes c1 \"x\";stop; > next next next => Arrive(1) Broken(Conn(1)) Stop |arrive c1;broken c1;stop;
arrive c1;bytes c1 \"a\";ready c1;room c1 1;fail put c1;moment 1;stop; > next close:c1 put:ab next next => \
Arrive(1) done closed Moment(Ms(1)) Stop |arrive c1;close c1;moment 1;stop;";

/// Each call of the world.
const EXCHANGE: &str = "\
moment 1000;arrive c1;bytes c1 \"GET /\";bytes c1 \" HTTP/1.0\\r\\n\\r\\n\";stop; > \
listen next next put:HTTP log:seen dial:9000 start job close:c1 dial:9001 close:s2 next next => \
Up Moment(Ms(1000)) Arrive(1) Took(4) Done Started(1) done done done Started(2) done Stop Fault \
|moment 1000;arrive c1;put c1 \"HTTP\";log c1 \"seen\";dial c1 127.0.0.1 9000 s1;start t1;\
timer c1 7 = t2;dropped t2;close c1;dial c1 127.0.0.1 9001 s2;close s2;stop;";

#[test]
fn a_world_answers_by_its_schedule_and_tells_what_was_done(rt: HostRuntime) {
    hold(&rt, rt.alloc(), Subject::World, ROOM);
    hold(&rt, rt.alloc(), Subject::World, FAULTS);
    hold(&rt, rt.alloc(), Subject::World, IDS);
    hold(&rt, rt.alloc(), Subject::World, EXCHANGE);
}
