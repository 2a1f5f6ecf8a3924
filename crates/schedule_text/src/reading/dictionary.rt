//! The calls of a dictionary and its answers that stand within a text.
ghost use Rattle.std.specs.Prelude.{◌≡◌, IfOk, codes, false, length};
ghost use Rattle.schedule_text.specs.Found as parts;
ghost use Rattle.schedule_text.specs.FoundEntries as found;

use crate::reading::numbers::{integer_in, number_in, small_in};
use crate::reading::quotes::first_quoted;
use crate::reading::splits::{begins, first_word, is};
use resty_base::{ByteLists, Bytes, DictAnswer, DictCall, DictValue, How};
use std::alloc::{AllocError, Global};

/// A value that isn't quoted.
fn plain_value(text: &[u8]) -> DictValue
    ensures { result ≡ found.plain_value text.now }
{
    if begins(text, b't') {
        DictValue::Truth(true)
    } else if begins(text, b'f') {
        DictValue::Truth(false)
    } else {
        DictValue::Number(integer_in(text))
    }
}

/// A value, and what stands after it and a space.
fn first_value(alloc: Global, text: &[u8]) -> Result<(DictValue, &[u8]), AllocError>
    ensures { IfOk result (λ read. (read.0 ≡ found.value_in text.now) × (read.1.now ≡ found.after_value text.now)) }
{
    if begins(text, b'"') {
        let (bytes, rest) = first_quoted(alloc, text)?;
        Ok((DictValue::Text(bytes), rest))
    } else {
        let (word, rest) = first_word(text);
        Ok((plain_value(word), rest))
    }
}

/// The storing of a value, of which the text begins after the key.
fn store(alloc: Global, how: How, key: Bytes, text: &[u8]) -> Result<(DictCall, &[u8]), AllocError>
    ensures { IfOk result (λ read. (read.0 ≡ found.store_in how key text.now) × (read.1.now ≡ found.after_store text.now)) }
{
    let (value, rest) = first_value(alloc, text)?;
    let (ttl, rest) = first_word(rest);
    let (flags, rest) = first_word(rest);
    let call = DictCall::Store {
        how,
        key,
        value,
        ttl: number_in(ttl),
        flags: small_in(flags),
    };
    Ok((call, rest))
}

/// The adding to a number, of which the text begins after the key.
fn incr(key: Bytes, text: &[u8]) -> (DictCall, &[u8])
    ensures call { result.0 ≡ found.incr_in key text.now }
    ensures rest { result.1.now ≡ found.after_incr text.now }
{
    let (by, rest) = first_word(text);
    let by = integer_in(by);
    let (first, after) = first_word(rest);
    if begins(rest, b'n') {
        let call = DictCall::Incr {
            key,
            by,
            init: None,
            ttl: 0,
        };
        return (call, after);
    }
    let (ttl, after) = first_word(after);
    let call = DictCall::Incr {
        key,
        by,
        init: Some(integer_in(first)),
        ttl: number_in(ttl),
    };
    (call, after)
}

/// A call without a key, by its first word and what stands after that.
fn plain_call<'a>(word: &[u8], rest: &'a [u8]) -> (DictCall, &'a [u8])
    ensures call { result.0 ≡ found.plain_call word.now rest.now }
    ensures rest { result.1.now ≡ found.after_plain word.now rest.now }
{
    if is(word, b"flush_all") {
        return (DictCall::FlushAll, rest);
    }
    let (most, after) = first_word(rest);
    if is(word, b"flush_expired") {
        (DictCall::FlushExpired(small_in(most)), after)
    } else if is(word, b"get_keys") {
        (DictCall::Keys(small_in(most)), after)
    } else {
        (DictCall::FlushAll, after)
    }
}

/// A call with a key, of which the text begins after that.
fn keyed_call<'a>(
    alloc: Global,
    word: &[u8],
    key: Bytes,
    text: &'a [u8],
) -> Result<(DictCall, &'a [u8]), AllocError>
    ensures { IfOk result (λ read. (read.0 ≡ found.keyed_call word.now key text.now) × (read.1.now ≡ found.after_keyed word.now text.now)) }
{
    if is(word, b"get") {
        Ok((DictCall::Get(key), text))
    } else if is(word, b"set") {
        store(alloc, How::Set, key, text)
    } else if is(word, b"add") {
        store(alloc, How::Add, key, text)
    } else if is(word, b"replace") {
        store(alloc, How::Replace, key, text)
    } else if is(word, b"delete") {
        Ok((DictCall::Delete(key), text))
    } else {
        Ok(incr(key, text))
    }
}

/// The call whose first word this is, and what stands after the call and a space.
pub fn call_in<'a>(
    alloc: Global,
    word: &[u8],
    rest: &'a [u8],
) -> Result<(DictCall, &'a [u8]), AllocError>
    ensures { IfOk result (λ read. (read.0 ≡ found.call_of word.now rest.now) × (read.1.now ≡ found.after_call word.now rest.now)) }
{
    if begins(rest, b'"') {
        let (key, after) = first_quoted(alloc, rest)?;
        keyed_call(alloc, word, key, after)
    } else {
        Ok(plain_call(word, rest))
    }
}

/// Quoted texts with one space between them.
fn names_in(alloc: Global, text: &[u8]) -> Result<ByteLists, AllocError>
    ensures { IfOk result (λ read. read ≡ found.names_in (length text.now) text.now) }
{
    let mut names = Vec::new(alloc);
    let mut rest = text;
    for _ in 0..text.len() {
        if rest.is_empty() {
            break;
        }
        let (name, after) = first_quoted(alloc, rest)?;
        names.push(name)?;
        rest = after;
    }
    Ok(ByteLists::of(names))
}

/// An answer but names, by its first word and what stands after that.
fn answer_by_word(alloc: Global, word: &[u8], rest: &[u8]) -> Result<DictAnswer, AllocError>
    ensures { IfOk result (λ answer. answer ≡ found.answer_of word.now rest.now) }
{
    if is(word, b"found") {
        let (value, flags) = first_value(alloc, rest)?;
        Ok(DictAnswer::Found(value, small_in(flags)))
    } else {
        Ok(plain_answer(word, rest))
    }
}

/// An answer that has no value and no names, by its first word and what stands after that.
fn plain_answer(word: &[u8], rest: &[u8]) -> DictAnswer
    ensures { parts.is word.now (codes "found") ≡ false → result ≡ found.answer_of word.now rest.now }
{
    let (first, after) = first_word(rest);
    if is(word, b"done") {
        DictAnswer::Done(!rest.is_empty())
    } else if is(word, b"exists") {
        DictAnswer::Exists
    } else if is(word, b"missing") {
        DictAnswer::Missing
    } else if is(word, b"no") {
        DictAnswer::NoMemory(!after.is_empty())
    } else if is(word, b"not") {
        DictAnswer::NotNumber
    } else if is(word, b"range") {
        DictAnswer::OutOfRange
    } else if is(word, b"number") {
        DictAnswer::Number(integer_in(first), !after.is_empty())
    } else if is(word, b"count") {
        DictAnswer::Count(small_in(rest))
    } else {
        DictAnswer::Nothing
    }
}

/// The answer that the text is, if it is one.
pub fn answer_in(alloc: Global, text: &[u8]) -> Result<DictAnswer, AllocError>
    ensures { IfOk result (λ answer. answer ≡ found.answer_in text.now) }
{
    let (word, rest) = first_word(text);
    if is(word, b"keys") {
        Ok(DictAnswer::Names(names_in(alloc, rest)?))
    } else {
        answer_by_word(alloc, word, rest)
    }
}
