//! The entries of a history.
ghost use Rattle.std.specs.Prelude.{◌≡◌, ◌++◌, OnOk, codes, decimal};
ghost use Rattle.resty_world.specs.declared.entry.Entry.TheVariants.{Dial, Dict, Keep, Log, Take, Timer};
ghost use Rattle.schedule_text.specs.EntryTexts.{entry_line, entry_text, host_text, plain_text, pool_text, socket_or, taken_text, timer_text};
ghost use Rattle.schedule_text.specs.Words.{quoted, strand_text};

use crate::text::dictionary::{put_answer, put_call};
use crate::text::events::put_event;
use crate::text::words::{
    put, put_named, put_named_bytes, put_numbered, put_small, put_who, put_with_quoted,
};
use resty_base::{Boxed, Bytes, DictAnswer, DictCall, Ms, StrandId};
use resty_world::{Entry, TimerAnswer};
use std::alloc::AllocError;

/// Puts an entry with the end of its line.
pub fn put_entry(out: &mut Vec<u8>, entry: &Entry) -> Result<(), AllocError>
    ensures { OnOk result (out.new.items ≡ out.old.items ++ entry_line entry.now) }
{
    put_entry_body(out, entry)?;
    put(out, b"\n")
}

/// Puts an entry without the end of its line.
pub fn put_entry_body(out: &mut Vec<u8>, entry: &Entry) -> Result<(), AllocError>
    ensures { OnOk result (out.new.items ≡ out.old.items ++ entry_text entry.now) }
{
    match entry {
        Entry::Dial(who, host, port, number) => put_dial(out, who, host, *port, *number),
        Entry::Log(who, text, written) => put_log(out, who, text, *written),
        Entry::Dict(who, zone, call, answer) => put_dict(out, who, zone, call, answer),
        Entry::Take(who, key, got) => put_take(out, who, key, *got),
        Entry::Keep(who, number, key, idle, size, closed) => {
            put_keep(out, who, *number, key, *idle, *size, *closed)
        }
        Entry::Timer(who, due, answer) => put_timer(out, who, *due, *answer),
        _ => put_plain_entry(out, entry),
    }
}

/// Puts an entry that isn't of what a strand did; those that are have no text here.
fn put_plain_entry(out: &mut Vec<u8>, entry: &Entry) -> Result<(), AllocError>
    ensures { OnOk result (out.new.items ≡ out.old.items ++ plain_text entry.now) }
{
    match entry {
        Entry::Given(event) => put_event(out, event),
        Entry::Put(id, bytes) => put_named_bytes(out, b"put ", id, bytes),
        Entry::Later(id) => put_named(out, b"later ", id),
        Entry::Lost(id) => put_named(out, b"lost ", id),
        Entry::Close(id) => put_named(out, b"close ", id),
        Entry::Start(number) => put_numbered(out, b"start t", *number),
        Entry::Turned(number) => put_numbered(out, b"turned c", *number),
        Entry::Dropped(who) => put_who(out, b"dropped ", who),
        _ => Ok(()),
    }
}

/// Puts a space and a host, as four numbers with dots.
fn put_host(out: &mut Vec<u8>, host: &[u8; 4]) -> Result<(), AllocError>
    ensures { OnOk result (out.new.items ≡ out.old.items ++ codes " " ++ host_text host.now) }
{
    put_numbered(out, b" ", host[0] as u64)?;
    put_numbered(out, b".", host[1] as u64)?;
    put_numbered(out, b".", host[2] as u64)?;
    put_numbered(out, b".", host[3] as u64)
}

/// Puts a dial, and the socket that was dialled.
fn put_dial(
    out: &mut Vec<u8>,
    who: &StrandId,
    host: &[u8; 4],
    port: u16,
    number: Option<u64>,
) -> Result<(), AllocError>
    ensures { OnOk result (out.new.items ≡ out.old.items ++ entry_text (Dial who.now host.now port number)) }
{
    put_who(out, b"dial ", who)?;
    put_host(out, host)?;
    put_numbered(out, b" ", port as u64)?;
    put_dialled(out, number)
}

/// Puts a space and the socket that was dialled.
fn put_dialled(out: &mut Vec<u8>, number: Option<u64>) -> Result<(), AllocError>
    ensures { OnOk result (out.new.items ≡ out.old.items ++ codes " " ++ socket_or (codes "failed") number) }
{
    match number {
        None => put(out, b" failed"),
        Some(number) => put_numbered(out, b" s", number),
    }
}

/// Puts a log line.
fn put_log(out: &mut Vec<u8>, who: &StrandId, text: &Bytes, written: bool) -> Result<(), AllocError>
    ensures { OnOk result (out.new.items ≡ out.old.items ++ entry_text (Log who.now text.now written)) }
{
    put_who(out, b"log ", who)?;
    if written {
        put_with_quoted(out, b" ", text.as_slice())
    } else {
        put_with_quoted(out, b" failed ", text.as_slice())
    }
}

/// Puts the call of a dictionary with its answer.
fn put_dict(
    out: &mut Vec<u8>,
    who: &StrandId,
    zone: &Bytes,
    call: &Boxed<DictCall>,
    answer: &Boxed<DictAnswer>,
) -> Result<(), AllocError>
    ensures { OnOk result (out.new.items ≡ out.old.items ++ entry_text (Dict who.now zone.now call.now answer.now)) }
{
    put_who(out, b"dict ", who)?;
    put_spaced(out, zone.as_slice())?;
    put_call(out, call.get())?;
    put(out, b" = ")?;
    put_answer(out, answer.get())
}

/// Puts a text with a space before and after it.
fn put_spaced(out: &mut Vec<u8>, text: &[u8]) -> Result<(), AllocError>
    ensures { OnOk result (out.new.items ≡ out.old.items ++ codes " " ++ text.now ++ codes " ") }
{
    put(out, b" ")?;
    put(out, text)?;
    put(out, b" ")
}

/// Puts the taking of a socket from a pool.
fn put_take(
    out: &mut Vec<u8>,
    who: &StrandId,
    key: &Bytes,
    got: Option<(u64, u32)>,
) -> Result<(), AllocError>
    ensures { OnOk result (out.new.items ≡ out.old.items ++ entry_text (Take who.now key.now got)) }
{
    put_who(out, b"take ", who)?;
    put_with_quoted(out, b" ", key.as_slice())?;
    put_taken(out, got)
}

/// Puts what a pool gave.
fn put_taken(out: &mut Vec<u8>, got: Option<(u64, u32)>) -> Result<(), AllocError>
    ensures { OnOk result (out.new.items ≡ out.old.items ++ codes " = " ++ taken_text got) }
{
    match got {
        None => put(out, b" = none"),
        Some((number, uses)) => {
            put_numbered(out, b" = s", number)?;
            put_small(out, b" ", uses)
        }
    }
}

/// Puts the keeping of a socket.
fn put_keep(
    out: &mut Vec<u8>,
    who: &StrandId,
    number: u64,
    key: &Bytes,
    idle: Ms,
    size: u32,
    closed: Option<u64>,
) -> Result<(), AllocError>
    ensures { OnOk result (out.new.items ≡ out.old.items ++ entry_text (Keep who.now number key.now idle size closed)) }
{
    put_kept(out, who, number, key.as_slice())?;
    put_pool(out, idle, size, closed)
}

/// Puts a socket that was kept, and its key.
fn put_kept(out: &mut Vec<u8>, who: &StrandId, number: u64, key: &[u8]) -> Result<(), AllocError>
    ensures { OnOk result (out.new.items ≡ out.old.items
        ++ codes "keep " ++ strand_text who.now ++ codes " s" ++ decimal number ++ codes " " ++ quoted key.now) }
{
    put_who(out, b"keep ", who)?;
    put_numbered(out, b" s", number)?;
    put_with_quoted(out, b" ", key)
}

/// Puts how long a socket may be idle, the size of its pool, and the socket that was closed for it.
fn put_pool(out: &mut Vec<u8>, idle: Ms, size: u32, closed: Option<u64>) -> Result<(), AllocError>
    ensures { OnOk result (out.new.items ≡ out.old.items ++ codes " " ++ pool_text idle.0 size closed) }
{
    put_numbered(out, b" ", idle.0)?;
    put_small(out, b" ", size)?;
    match closed {
        None => put(out, b" = kept"),
        Some(number) => put_numbered(out, b" = kept s", number),
    }
}

/// Puts the asking for a timer.
fn put_timer(
    out: &mut Vec<u8>,
    who: &StrandId,
    due: Ms,
    answer: TimerAnswer,
) -> Result<(), AllocError>
    ensures { OnOk result (out.new.items ≡ out.old.items ++ entry_text (Timer who.now due answer)) }
{
    put_who(out, b"timer ", who)?;
    put_numbered(out, b" ", due.0)?;
    put_timer_answer(out, answer)
}

/// Puts what was returned where a timer was asked for.
fn put_timer_answer(out: &mut Vec<u8>, answer: TimerAnswer) -> Result<(), AllocError>
    ensures { OnOk result (out.new.items ≡ out.old.items ++ codes " = " ++ timer_text answer) }
{
    match answer {
        TimerAnswer::Job(number) => put_numbered(out, b" = t", number),
        TimerAnswer::Full => put(out, b" = full"),
        TimerAnswer::Exiting => put(out, b" = exiting"),
    }
}
