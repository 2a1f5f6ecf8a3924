//! Whether an entry of a history is within its ranges. Tests are joined by `&`, since all of them can be made: none has to hold
//! for another, and the proof then has one way through each arm.
ghost use Rattle.std.specs.Prelude.{◌≡◌, ◌↔◌, All, IsTrue};
ghost use Rattle.resty_world.specs.declared.entry.Entry.TheVariants.{Dial, Keep};
ghost use Rattle.schedule_text.specs.Ranges.{IsAnswer, IsBytes, IsCall, IsEntry, IsInit, IsInteger, IsPlain, IsSmall, IsSocket};
ghost use Rattle.schedule_text.specs.Ranges.{IsTaken, IsTimer, IsValue, IsZone, is_zone_byte as zone_byte};

use crate::ranges::{LAST_NUMBER, is_event, is_id, is_number, is_ordinal, is_strand};
use resty_base::{Bytes, DictAnswer, DictCall, DictValue, Ms, StrandId};
use resty_world::{Entry, TimerAnswer};

/// Whether they are bytes, which the type has already.
fn are_bytes(bytes: &[u8]) -> bool
    ensures { IsTrue result ↔ IsBytes bytes.now }
{
    let _bytes = bytes;
    true
}

/// Whether the number has at most 32 bits, which the type has already.
fn is_small(number: u32) -> bool
    ensures { IsTrue result ↔ IsSmall number }
{
    let _number = number;
    true
}

fn are_names(names: &[Bytes]) -> bool
    ensures { IsTrue result ↔ All IsBytes names.now }
{
    names.iter().all(|name| are_bytes(name.as_slice()))
}

fn is_zone_byte(byte: u8) -> bool
    ensures { result ≡ zone_byte byte }
{
    matches!(byte, b'a'..=b'z' | b'A'..=b'Z' | b'0'..=b'9' | b'_' | b'-' | b'.')
}

fn is_zone(zone: &[u8]) -> bool
    ensures { IsTrue result ↔ IsZone zone.now }
{
    !zone.is_empty() && zone.iter().all(|byte| is_zone_byte(*byte))
}

fn is_socket(socket: Option<u64>) -> bool
    ensures { IsTrue result ↔ IsSocket socket }
{
    match socket {
        None => true,
        Some(number) => is_ordinal(number),
    }
}

fn is_integer(number: i64) -> bool
    ensures { IsTrue result ↔ IsInteger number }
{
    number.unsigned_abs() <= LAST_NUMBER
}

fn is_value(value: &DictValue) -> bool
    ensures { IsTrue result ↔ IsValue value.now }
{
    match value {
        DictValue::Text(bytes) => are_bytes(bytes.as_slice()),
        DictValue::Number(number) => is_integer(*number),
        DictValue::Truth(_) => true,
    }
}

fn is_init(init: Option<i64>, ttl: u64) -> bool
    ensures { IsTrue result ↔ IsInit init ttl }
{
    match init {
        None => ttl == 0,
        Some(first) => is_integer(first) & is_number(ttl),
    }
}

fn is_call(call: &DictCall) -> bool
    ensures { IsTrue result ↔ IsCall call.now }
{
    match call {
        DictCall::Get(key) | DictCall::Delete(key) => are_bytes(key.as_slice()),
        DictCall::Store {
            how: _,
            key,
            value,
            ttl,
            flags,
        } => { are_bytes(key.as_slice()) & is_value(value) & is_number(*ttl) & is_small(*flags) }
        DictCall::Incr { key, by, init, ttl } => {
            are_bytes(key.as_slice()) & is_integer(*by) & is_init(*init, *ttl)
        }
        DictCall::FlushAll => true,
        DictCall::FlushExpired(most) | DictCall::Keys(most) => is_small(*most),
    }
}

fn is_answer(answer: &DictAnswer) -> bool
    ensures { IsTrue result ↔ IsAnswer answer.now }
{
    match answer {
        DictAnswer::Found(value, flags) => is_value(value) & is_small(*flags),
        DictAnswer::Number(number, _) => is_integer(*number),
        DictAnswer::Count(count) => is_small(*count),
        DictAnswer::Names(names) => are_names(names.as_slice()),
        DictAnswer::Nothing
        | DictAnswer::Done(_)
        | DictAnswer::Exists
        | DictAnswer::Missing
        | DictAnswer::NoMemory(_)
        | DictAnswer::NotNumber
        | DictAnswer::OutOfRange => true,
    }
}

fn is_taken(got: Option<(u64, u32)>) -> bool
    ensures { IsTrue result ↔ IsTaken got }
{
    match got {
        None => true,
        Some((socket, uses)) => is_ordinal(socket) & is_small(uses),
    }
}

fn is_timer(answer: TimerAnswer) -> bool
    ensures { IsTrue result ↔ IsTimer answer }
{
    match answer {
        TimerAnswer::Job(number) => is_ordinal(number),
        TimerAnswer::Full | TimerAnswer::Exiting => true,
    }
}

/// Whether the entry has its numbers and bytes in their ranges.
pub fn is_entry(entry: &Entry) -> bool
    ensures { IsTrue result ↔ IsEntry entry.now }
{
    match entry {
        Entry::Dial(who, host, port, socket) => { is_dial(who, host, *port, *socket) }
        Entry::Log(who, text, _) => is_strand(who) & are_bytes(text.as_slice()),
        Entry::Dict(who, zone, call, answer) => {
            is_strand(who)
                & is_zone(zone.as_slice())
                & is_call(call.get())
                & is_answer(answer.get())
        }
        Entry::Take(who, key, got) => is_strand(who) & are_bytes(key.as_slice()) & is_taken(*got),
        Entry::Keep(who, socket, key, idle, size, closed) => {
            is_keep(who, *socket, key, *idle, *size, *closed)
        }
        Entry::Timer(who, due, answer) => { is_strand(who) & is_number(due.0) & is_timer(*answer) }
        _ => is_plain(entry),
    }
}

/// The same of an entry that isn't of what a strand did.
fn is_plain(entry: &Entry) -> bool
    ensures { IsTrue result ↔ IsPlain entry.now }
{
    match entry {
        Entry::Given(event) => is_event(event),
        Entry::Put(id, bytes) => is_id(*id) & are_bytes(bytes.as_slice()),
        Entry::Later(id) | Entry::Lost(id) | Entry::Close(id) => is_id(*id),
        Entry::Start(number) | Entry::Turned(number) => is_ordinal(*number),
        Entry::Dropped(who) => is_strand(who),
        _ => false,
    }
}

/// Whether a dial is within its ranges: those of the port and of the numbers of the host are those of their types.
fn is_dial(who: &StrandId, host: &[u8; 4], port: u16, socket: Option<u64>) -> bool
    ensures { IsTrue result ↔ IsEntry (Dial who.now host.now port socket) }
{
    is_strand(who) & are_bytes(host.as_slice()) & (port <= u16::MAX) & is_socket(socket)
}

/// Whether the keeping of a socket is within its ranges.
fn is_keep(
    who: &StrandId,
    socket: u64,
    key: &Bytes,
    idle: Ms,
    size: u32,
    closed: Option<u64>,
) -> bool
    ensures { IsTrue result ↔ IsEntry (Keep who.now socket key.now idle size closed) }
{
    is_strand(who)
        & is_ordinal(socket)
        & are_bytes(key.as_slice())
        & is_number(idle.0)
        & is_small(size)
        & is_socket(closed)
}
