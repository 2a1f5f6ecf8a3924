//! Tests of what the engine holds, in rows of calls with their answers, `-` for none; an empty line stands before rows of new things. DEADLINES show those of
//! strands and all, QUEUE the run queue, SEATS the seats, SOCKETS the sockets that strands hold, POOL the idle ones.
use crate::words::{expect, number, put, put_number, put_thread, small_number, strand, word};
use engine_tables::{Agenda, Seats, Socket, Sockets};
use resty_base::{Bytes, Ms, StrandId};
use shared_rules::Idle;
use sock_pool::Pool;
use std::alloc::{AllocError, Global};
use std::process::Abort;
use wakes::{Deadlines, RunQueue, Whose};

/// What is held.
#[derive(Drop)]
struct Held {
    agenda: Agenda,
    deadlines: Deadlines,
    queue: RunQueue,
    seats: Seats<u32>,
    sockets: Sockets,
    pool: Pool,
}

/// Tests tables of rows, `THING CALL => ANSWER`, each on new things.
fn hold(rt: &impl Abort, alloc: Global, tables: &str) {
    for rows in tables.split("\n\n") {
        let mut held = Held {
            agenda: Agenda::new(alloc),
            deadlines: Deadlines::new(alloc),
            queue: RunQueue::new(alloc),
            seats: Seats::new(alloc),
            sockets: Sockets::new(alloc),
            pool: Pool::new(alloc),
        };
        hold_rows(rt, alloc, &mut held, rows);
    }
}

/// Tests each row on these things.
fn hold_rows(rt: &impl Abort, alloc: Global, held: &mut Held, rows: &str) {
    for row in rows.lines() {
        let (call, expected) = row.split_once(" => ").unwrap_or((row, ""));
        expect(rt, seen(alloc, held, call).as_str(), expected, row);
    }
}

/// What a call answers.
fn seen(alloc: Global, held: &mut Held, call: &str) -> String {
    let mut all = String::new(alloc);
    let (thing, call) = call.split_once(' ').unwrap_or((call, ""));
    match thing {
        "agenda" => see_agenda(&mut all, &mut held.agenda, call),
        "deadlines" => see_deadlines(&mut all, &mut held.deadlines, call),
        "queue" => see_queue(&mut all, &mut held.queue, call),
        "seats" => see_seats(&mut all, &mut held.seats, call),
        "sockets" => see_sockets(&mut all, &mut held.sockets, call),
        _ => see_pool(alloc, &mut all, &mut held.pool, call),
    }
    all
}

/// Writes where there was no memory for a call.
fn put_done(all: &mut String, done: Result<(), AllocError>) {
    if done.is_err() {
        put(all, "memory");
    }
}

/// Writes a number, `-` for none.
fn put_optional(all: &mut String, found: Option<u64>) {
    match found {
        Some(n) => put_number(all, n),
        None => put(all, "-"),
    }
}

/// Writes a moment, `-` for none.
fn put_moment(all: &mut String, moment: Option<Ms>) {
    match moment {
        Some(moment) => put_number(all, moment.0),
        None => put(all, "-"),
    }
}

/// A call of the deadlines of strands: `earliest`, `arm STRAND NUMBER MOMENT`, `cancel STRAND NUMBER`, `end STRAND` or `due MOMENT`.
fn see_agenda(all: &mut String, agenda: &mut Agenda, call: &str) {
    let who = strand(word(call, 1));
    let index = small_number(word(call, 2));
    match word(call, 0) {
        "earliest" => put_moment(all, agenda.earliest()),
        "due" => put_thread(all, agenda.due(Ms(number(word(call, 1))))),
        "arm" => put_done(all, agenda.arm(who, index, Ms(number(word(call, 3))))),
        "cancel" => agenda.cancel(who, index),
        _ => agenda.end(who),
    }
}

/// Whose deadline it is: a job's, an idle socket's, or the first thread's of a connection.
fn whose_of(kind: &str, number: u64) -> Whose {
    match kind {
        "job" => Whose::Job(number),
        "idle" => Whose::Idle(number),
        _ => Whose::Strand(StrandId::Conn(number), 0),
    }
}

/// Writes whose deadline it is.
fn put_whose(all: &mut String, whose: Option<Whose>) {
    let (kind, number) = match whose {
        Some(Whose::Job(number)) => ("job ", number),
        Some(Whose::Idle(number)) => ("idle ", number),
        Some(Whose::Strand(StrandId::Conn(number), 0)) => ("connection ", number),
        Some(_) => ("another ", 0),
        None => return put(all, "-"),
    };
    put(all, kind);
    put_number(all, number);
}

/// A call of all deadlines: `earliest`, `arm MOMENT WHOSE NUMBER`, `cancel NUMBER` or `due MOMENT`.
fn see_deadlines(all: &mut String, deadlines: &mut Deadlines, call: &str) {
    let given = number(word(call, 1));
    match word(call, 0) {
        "arm" if deadlines.has_number() => {
            let whose = whose_of(word(call, 2), number(word(call, 3)));
            put_optional(all, deadlines.arm(Ms(given), whose).ok());
        }
        "due" => put_whose(all, deadlines.due(Ms(given))),
        "cancel" => deadlines.cancel(given),
        _ => put_moment(all, deadlines.earliest()),
    }
}

/// A call of the run queue: `reserve COUNT`, `push STRAND THREAD`, `remove STRAND THREAD` or `pop`.
fn see_queue(all: &mut String, queue: &mut RunQueue, call: &str) {
    let who = strand(word(call, 1));
    let thread = small_number(word(call, 2));
    match word(call, 0) {
        "pop" => put_thread(all, queue.pop()),
        "reserve" => put_done(all, queue.reserve(small_number(word(call, 1)) as usize)),
        "push" => match queue.reserve(1) {
            Ok(()) => queue.push(who, thread),
            Err(_) => put(all, "memory"),
        },
        _ => queue.remove(who, thread),
    }
}

/// A call of the seats: `begin NUMBER VALUE`, `take STRAND`, `back NUMBER VALUE`, `end STRAND` or `first NUMBER`, the first one after it.
fn see_seats(all: &mut String, seats: &mut Seats<u32>, call: &str) {
    let given = number(word(call, 1));
    let value = small_number(word(call, 2));
    match word(call, 0) {
        "begin" => put_done(all, seats.begin(given, value)),
        "take" => put_optional(all, seats.take(strand(word(call, 1))).map(u64::from)),
        "back" => put(
            all,
            if seats.put_back(given, value) {
                "yes"
            } else {
                "no"
            },
        ),
        "end" => seats.end(strand(word(call, 1))),
        _ => put_optional(all, seats.first_after(word(call, 1).parse().ok())),
    }
}

/// Writes a socket: its place, its number and its uses.
fn put_socket(all: &mut String, socket: Option<Socket>) {
    match socket {
        Some(Socket { at, sock, uses }) => {
            let _ = write!(all, "{at} {sock} {uses}");
        }
        None => put(all, "-"),
    }
}

/// A strand gets a socket, where it may.
fn open(sockets: &mut Sockets, who: StrandId, socket: Socket) -> Result<(), AllocError> {
    sockets.reserve(who)?;
    if let None = sockets.at(who, socket.at) {
        if let None = sockets.owner(socket.sock) {
            sockets.open(who, socket);
        }
    }
    Ok(())
}

/// A call of the sockets of strands: `reserve STRAND`, `open STRAND PLACE SOCKET USES`, `at STRAND PLACE`, `owner SOCKET`, `close STRAND PLACE` or
/// `close-first STRAND`.
fn see_sockets(all: &mut String, sockets: &mut Sockets, call: &str) {
    let who = strand(word(call, 1));
    let at = small_number(word(call, 2));
    match word(call, 0) {
        "reserve" => put_done(all, sockets.reserve(who)),
        "open" => {
            let socket = Socket {
                at,
                sock: number(word(call, 3)),
                uses: small_number(word(call, 4)),
            };
            put_done(all, open(sockets, who, socket));
        }
        "at" => put_socket(all, sockets.at(who, at)),
        "owner" => put_thread(all, sockets.owner(number(word(call, 1)))),
        "close" => put_socket(all, sockets.close(who, at)),
        _ => put_socket(all, sockets.close_first(who)),
    }
}

/// The key that a word writes.
fn key_of(alloc: Global, word: &str) -> Bytes {
    let text = if word == "''" { "" } else { word };
    Bytes::copy_from_slice(alloc, text.as_bytes()).unwrap_or(Bytes::from_static(b"memory"))
}

/// Writes what a pool keeps: the socket that it closes for it.
fn see_kept(alloc: Global, all: &mut String, pool: &mut Pool, call: &str) {
    let idle = Idle {
        key: key_of(alloc, word(call, 1)),
        sock: number(word(call, 2)),
        uses: small_number(word(call, 5)),
        until: word(call, 3).parse().ok().map(Ms),
    };
    match pool.keep(idle, small_number(word(call, 4))) {
        Ok(closed) => put_optional(all, closed),
        Err(_) => put(all, "memory"),
    }
}

/// A call of the pool: `keep KEY SOCKET MOMENT SIZE`, maybe with uses, `take KEY`, `gave SOCKET`, `expire MOMENT` or `last`.
fn see_pool(alloc: Global, all: &mut String, pool: &mut Pool, call: &str) {
    let given = word(call, 1);
    match word(call, 0) {
        "keep" => see_kept(alloc, all, pool, call),
        "take" => match pool.take(&key_of(alloc, given)) {
            Some((sock, uses)) => {
                let _ = write!(all, "{sock} {uses}");
            }
            None => put(all, "-"),
        },
        "gave" => put(
            all,
            if pool.idle_gave(number(given)) {
                "yes"
            } else {
                "no"
            },
        ),
        "expire" => put_optional(all, pool.expire(Ms(number(given)))),
        _ => put_optional(all, pool.last()),
    }
}

/// Sleepers wake by moment and then by order of arming; a deadline that is armed anew counts as armed now; a cancelled one never comes; a strand that is over
/// leaves none behind.
const DEADLINES: &str = "\
agenda earliest => -
agenda arm c9 2 5
agenda arm c9 1 3
agenda arm j1 2 3
agenda earliest => 3
agenda due 2 => -
agenda due 4 => c9 1
agenda due 4 => j1 2
agenda due 4 => -
agenda due 5 => c9 2
agenda earliest => -

agenda arm c1 2 3
agenda arm c2 2 3
agenda arm c1 2 3
agenda due 3 => c2 2
agenda due 3 => c1 2
agenda due 3 => -

agenda cancel c1 2
agenda arm c1 2 3
agenda arm c1 3 3
agenda cancel c1 2
agenda cancel c1 4
agenda due 9 => c1 3
agenda due 9 => -
agenda arm c1 2 4
agenda due 9 => c1 2

agenda end c1
agenda arm c1 0 3
agenda arm j1 0 3
agenda arm c1 1 2
agenda arm c1 2 7
agenda end c1
agenda due 9 => j1 0
agenda due 9 => -

deadlines earliest => -
deadlines arm 5 job 1 => 1
deadlines arm 3 job 2 => 2
deadlines arm 3 idle 3 => 3
deadlines arm 9 connection 1 => 4
deadlines earliest => 3
deadlines due 2 => -
deadlines due 3 => job 2
deadlines due 4 => idle 3
deadlines due 4 => -
deadlines cancel 1
deadlines arm 9 job 1 => 5
deadlines due 9 => connection 1
deadlines cancel 77
deadlines earliest => 9
deadlines cancel 5
deadlines due 100 => -
deadlines earliest => -";

/// The first of the same threads leaves.
const QUEUE: &str = "\
queue reserve 5
queue pop => -
queue push c1 0
queue push j1 0
queue push c1 1
queue push j1 0
queue push c1 2
queue remove j1 0
queue remove j1 7
queue pop => c1 0
queue pop => c1 1
queue pop => j1 0
queue remove c1 2
queue pop => -";

/// Seats stand in the order of beginning; one is vacant during a turn and keeps its place.
const SEATS: &str = "\
seats first - => -
seats begin 1 10
seats begin 2 20
seats begin 5 50
seats first - => 1
seats first 1 => 2
seats end c2
seats first 1 => 5
seats first 5 => -

seats take c1 => -
seats begin 1 10
seats begin 2 30
seats take c1 => 10
seats take c1 => -
seats first - => 1
seats back 1 11 => yes
seats take c1 => 11
seats end c1
seats back 1 12 => no
seats take c1 => -";

/// A socket is found by its place and by its number; a closed one is held no more, and may be taken by another strand; those of a dropped strand are closed as
/// they were got.
const SOCKETS: &str = "\
sockets at c1 0 => -
sockets owner 7 => -
sockets open c1 0 7 0
sockets open j1 0 5 3
sockets at c1 0 => 0 7 0
sockets at j1 0 => 0 5 3
sockets at j1 1 => -
sockets owner 7 => c1 0
sockets owner 5 => j1 0
sockets owner 0 => -

sockets open c1 0 4 0
sockets open c1 1 2 0
sockets open c2 0 9 0
sockets close c1 0 => 0 4 0
sockets close c1 0 => -
sockets close c2 1 => -
sockets owner 4 => -
sockets owner 2 => c1 1
sockets at c2 0 => 0 9 0
sockets open c2 1 4 1
sockets owner 4 => c2 1

sockets close-first c1 => -
sockets open c1 0 4 0
sockets open c2 0 9 0
sockets open c1 1 2 0
sockets open c1 2 3 0
sockets close c1 1 => 1 2 0
sockets reserve c1
sockets close-first c1 => 0 4 0
sockets close-first c1 => 2 3 0
sockets close-first c1 => -
sockets owner 9 => c2 0";

/// The most recent socket of the key is taken; uses rise with each take up to their end; a full key closes its least recent socket; sockets end by moment and
/// then as they were kept; one at which something came leaves.
const POOL: &str = "\
pool take a => -
pool keep a 1 - 9 => -
pool keep b 2 - 9 => -
pool keep a 3 - 9 => -
pool keep a 4 - 9 => -
pool last => 1
pool take a => 4 1
pool take a => 3 1
pool take '' => -
pool take b => 2 1
pool take b => -
pool take a => 1 1
pool take a => -
pool last => -

pool keep '' 7 - 1 0 => -
pool take '' => 7 1
pool keep '' 7 - 1 1 => -
pool take '' => 7 2
pool keep '' 7 - 1 4294967294 => -
pool take '' => 7 4294967295
pool keep '' 7 - 1 4294967295 => -
pool take '' => 7 4294967295

pool keep a 1 - 0 => -
pool keep b 2 - 1 => -
pool keep a 3 - 0 => 1
pool keep a 4 - 1 => 3
pool keep a 5 - 2 => -
pool keep a 6 - 3 => -
pool keep a 7 - 1 => 4
pool keep a 6 - 3 => -
pool last => 2
pool take a => 6 1
pool take a => 7 1
pool take a => 5 1
pool take a => -

pool keep a 1 30 9 => -
pool keep b 2 20 9 => -
pool keep a 3 20 9 => -
pool keep b 4 - 9 => -
pool keep c 5 20 9 => -
pool expire 19 => -
pool expire 20 => 2
pool take a => 3 1
pool expire 29 => 5
pool expire 29 => -
pool keep a 1 40 9 => -
pool expire 39 => -
pool expire 40 => 1
pool expire 18446744073709551615 => -
pool last => 4

pool keep a 1 5 9 => -
pool keep a 2 - 9 => -
pool keep b 1 6 9 => -
pool take a => 2 1
pool take a => -
pool gave 2 => no
pool gave 1 => yes
pool gave 1 => no
pool expire 9 => -
pool take b => -";

#[test]
fn what_is_held_is_found(rt: HostRuntime) {
    hold(&rt, rt.alloc(), DEADLINES);
    hold(&rt, rt.alloc(), QUEUE);
    hold(&rt, rt.alloc(), SEATS);
    hold(&rt, rt.alloc(), SOCKETS);
    hold(&rt, rt.alloc(), POOL);
}
