//! The entry of a history that a text is, if it is one.
ghost use Rattle.std.specs.Prelude.{◌≡◌, IfOk};
ghost use Rattle.schedule_text.specs.FoundEntries as found;

use crate::reading::dictionary::{answer_in, call_in};
use crate::reading::lines::event_in;
use crate::reading::names::{id_in, socket_in, strand_in};
use crate::reading::numbers::{number_in, numbered, octet_in, port_in, small_in};
use crate::reading::quotes::{first_quoted, unquoted};
use crate::reading::splits::{begins, first_word, is, split};
use resty_base::{Boxed, Bytes, DictAnswer, DictCall, Ms, StrandId};
use resty_world::{Entry, TimerAnswer};
use std::alloc::{AllocError, Global};

/// Four numbers with dots.
fn host_in(text: &[u8]) -> [u8; 4]
    ensures { result ≡ found.host_in text.now }
{
    let (first, rest) = split(text, b'.');
    let (second, rest) = split(rest, b'.');
    let (third, fourth) = split(rest, b'.');
    [
        octet_in(first),
        octet_in(second),
        octet_in(third),
        octet_in(fourth),
    ]
}

/// A dial, of which the text begins after the strand.
fn dial_in(who: StrandId, text: &[u8]) -> Entry
    ensures { result ≡ found.dial_in who text.now }
{
    let (host, rest) = first_word(text);
    let (port, socket) = first_word(rest);
    Entry::Dial(who, host_in(host), port_in(port), socket_in(socket))
}

/// A line of a log, of which the text begins after the strand.
fn log_in(alloc: Global, who: StrandId, text: &[u8]) -> Result<Entry, AllocError>
    ensures { IfOk result (λ entry. entry ≡ found.log_in who text.now) }
{
    if begins(text, b'f') {
        let (_, quoted) = first_word(text);
        Ok(Entry::Log(who, unquoted(alloc, quoted)?, false))
    } else {
        Ok(Entry::Log(who, unquoted(alloc, text)?, true))
    }
}

/// A call of a dictionary with its answer, of which the text begins after the strand.
fn dict_in(alloc: Global, who: StrandId, text: &[u8]) -> Result<Entry, AllocError>
    ensures { IfOk result (λ entry. entry ≡ found.dict_in who text.now) }
{
    let (zone, rest) = first_word(text);
    let (word, rest) = first_word(rest);
    let (call, rest) = boxed_call_in(alloc, word, rest)?;
    let (_, answer) = first_word(rest);
    let answer = boxed_answer_in(alloc, answer)?;
    let zone = Bytes::copy_from_slice(alloc, zone)?;
    Ok(Entry::Dict(who, zone, call, answer))
}

/// The call whose first word this is, on the heap, and what stands after the call and a space.
fn boxed_call_in<'a>(
    alloc: Global,
    word: &[u8],
    rest: &'a [u8],
) -> Result<(Boxed<DictCall>, &'a [u8]), AllocError>
    ensures { IfOk result (λ read. (read.0 ≡ found.call_of word.now rest.now) × (read.1.now ≡ found.after_call word.now rest.now)) }
{
    let (call, after) = call_in(alloc, word, rest)?;
    Ok((Boxed::new(alloc, call)?, after))
}

/// The answer that the text is, on the heap.
fn boxed_answer_in(alloc: Global, text: &[u8]) -> Result<Boxed<DictAnswer>, AllocError>
    ensures { IfOk result (λ answer. answer ≡ found.answer_in text.now) }
{
    Boxed::new(alloc, answer_in(alloc, text)?)
}

/// What a pool gave.
fn taken_in(text: &[u8]) -> Option<(u64, u32)>
    ensures { result ≡ found.taken_in text.now }
{
    if begins(text, b's') {
        let (socket, uses) = first_word(text);
        Some((numbered(socket), small_in(uses)))
    } else {
        None
    }
}

/// The taking of a socket from a pool, of which the text begins after the strand.
fn take_in(alloc: Global, who: StrandId, text: &[u8]) -> Result<Entry, AllocError>
    ensures { IfOk result (λ entry. entry ≡ found.take_in who text.now) }
{
    let (key, rest) = first_quoted(alloc, text)?;
    let (_, got) = first_word(rest);
    Ok(Entry::Take(who, key, taken_in(got)))
}

/// The keeping of a socket, of which the text begins after the key.
fn kept_in(who: StrandId, socket: u64, key: Bytes, text: &[u8]) -> Entry
    ensures { result ≡ found.kept_in who socket key text.now }
{
    let (idle, rest) = first_word(text);
    let (size, rest) = first_word(rest);
    let (_, rest) = first_word(rest);
    let (_, closed) = first_word(rest);
    let idle = Ms(number_in(idle));
    Entry::Keep(who, socket, key, idle, small_in(size), socket_in(closed))
}

/// The keeping of a socket, of which the text begins after the strand.
fn keep_in(alloc: Global, who: StrandId, text: &[u8]) -> Result<Entry, AllocError>
    ensures { IfOk result (λ entry. entry ≡ found.keep_in who text.now) }
{
    let (socket, quoted) = first_word(text);
    let (key, rest) = first_quoted(alloc, quoted)?;
    Ok(kept_in(who, numbered(socket), key, rest))
}

/// What was returned where a timer was asked for.
fn timer_answer_in(text: &[u8]) -> TimerAnswer
    ensures { result ≡ found.timer_answer_in text.now }
{
    if begins(text, b't') {
        TimerAnswer::Job(numbered(text))
    } else if begins(text, b'f') {
        TimerAnswer::Full
    } else {
        TimerAnswer::Exiting
    }
}

/// The asking for a timer, of which the text begins after the strand.
fn timer_in(who: StrandId, text: &[u8]) -> Entry
    ensures { result ≡ found.timer_in who text.now }
{
    let (due, rest) = first_word(text);
    let (_, answer) = first_word(rest);
    Entry::Timer(who, Ms(number_in(due)), timer_answer_in(answer))
}

/// An entry of one word and one name, else a given event.
fn plain_entry(alloc: Global, word: &[u8], rest: &[u8], text: &[u8]) -> Result<Entry, AllocError>
    ensures { IfOk result (λ entry. entry ≡ found.plain_entry word.now rest.now text.now) }
{
    if is(word, b"later") {
        Ok(Entry::Later(id_in(rest)))
    } else if is(word, b"lost") {
        Ok(Entry::Lost(id_in(rest)))
    } else if is(word, b"close") {
        Ok(Entry::Close(id_in(rest)))
    } else if is(word, b"start") {
        Ok(Entry::Start(numbered(rest)))
    } else if is(word, b"turned") {
        Ok(Entry::Turned(numbered(rest)))
    } else if is(word, b"dropped") {
        Ok(Entry::Dropped(strand_in(rest)))
    } else {
        Ok(Entry::Given(event_in(alloc, text)?))
    }
}

/// An entry of what a strand did, else another.
fn strand_entry(alloc: Global, word: &[u8], rest: &[u8], text: &[u8]) -> Result<Entry, AllocError>
    ensures { IfOk result (λ entry. entry ≡ found.strand_entry word.now rest.now text.now) }
{
    let (who, after) = first_word(rest);
    let who = strand_in(who);
    if is(word, b"dial") {
        Ok(dial_in(who, after))
    } else if is(word, b"log") {
        log_in(alloc, who, after)
    } else if is(word, b"dict") {
        dict_in(alloc, who, after)
    } else if is(word, b"take") {
        take_in(alloc, who, after)
    } else if is(word, b"keep") {
        keep_in(alloc, who, after)
    } else if is(word, b"timer") {
        Ok(timer_in(who, after))
    } else {
        plain_entry(alloc, word, rest, text)
    }
}

/// The entry that the text is, if it is one.
pub fn entry_in(alloc: Global, text: &[u8]) -> Result<Entry, AllocError>
    ensures { IfOk result (λ entry. entry ≡ found.entry_in text.now) }
{
    let (word, rest) = first_word(text);
    if is(word, b"put") {
        let (id, quoted) = first_word(rest);
        Ok(Entry::Put(id_in(id), unquoted(alloc, quoted)?))
    } else {
        strand_entry(alloc, word, rest, text)
    }
}
