//! The calls of a dictionary, and its answers.
ghost use Rattle.std.specs.Prelude.{◌≡◌, ◌++◌, OnOk};
ghost use Rattle.resty_base.specs.declared.dictionary.DictAnswer.TheVariants.{Found, Names, Number};
ghost use Rattle.resty_base.specs.declared.dictionary.DictCall.TheVariants.{Incr, Store};
ghost use Rattle.schedule_text.specs.EntryTexts.{answer_text, call_text, forcible_text, how_text, init_text, value_text};

use crate::text::words::{
    put, put_integer, put_numbered, put_quoted, put_small, put_with_integer, put_with_quoted,
};
use resty_base::{ByteLists, Bytes, DictAnswer, DictCall, DictValue, How};
use std::alloc::AllocError;

fn put_value(out: &mut Vec<u8>, value: &DictValue) -> Result<(), AllocError>
    ensures { OnOk result (out.new.items ≡ out.old.items ++ value_text value.now) }
{
    match value {
        DictValue::Text(bytes) => put_quoted(out, bytes.as_slice()),
        DictValue::Number(number) => put_integer(out, *number),
        DictValue::Truth(true) => put(out, b"true"),
        DictValue::Truth(false) => put(out, b"false"),
    }
}

/// Puts a text and a value.
fn put_with_value(out: &mut Vec<u8>, text: &[u8], value: &DictValue) -> Result<(), AllocError>
    ensures { OnOk result (out.new.items ≡ out.old.items ++ text.now ++ value_text value.now) }
{
    put(out, text)?;
    put_value(out, value)
}

/// The word for how a value is stored, and a space.
fn word_of(how: How) -> &'static [u8]
    ensures { result.now ≡ how_text how }
{
    match how {
        How::Set => b"set ",
        How::Add => b"add ",
        How::Replace => b"replace ",
    }
}

fn put_init(out: &mut Vec<u8>, init: Option<i64>, ttl: u64) -> Result<(), AllocError>
    ensures { OnOk result (out.new.items ≡ out.old.items ++ init_text init ttl) }
{
    match init {
        None => put(out, b" none"),
        Some(number) => {
            put_with_integer(out, b" ", number)?;
            put_numbered(out, b" ", ttl)
        }
    }
}

/// Puts the storing of a value.
fn put_store(
    out: &mut Vec<u8>,
    how: How,
    key: &Bytes,
    value: &DictValue,
    ttl: u64,
    flags: u32,
) -> Result<(), AllocError>
    ensures { OnOk result (out.new.items ≡ out.old.items ++ call_text (Store how key.now value.now ttl flags)) }
{
    put_with_quoted(out, word_of(how), key.as_slice())?;
    put_with_value(out, b" ", value)?;
    put_numbered(out, b" ", ttl)?;
    put_small(out, b" ", flags)
}

/// Puts the adding to a number.
fn put_incr(
    out: &mut Vec<u8>,
    key: &Bytes,
    by: i64,
    init: Option<i64>,
    ttl: u64,
) -> Result<(), AllocError>
    ensures { OnOk result (out.new.items ≡ out.old.items ++ call_text (Incr key.now by init ttl)) }
{
    put_with_quoted(out, b"incr ", key.as_slice())?;
    put_with_integer(out, b" ", by)?;
    put_init(out, init, ttl)
}

/// Puts a call of a dictionary.
pub fn put_call(out: &mut Vec<u8>, call: &DictCall) -> Result<(), AllocError>
    ensures { OnOk result (out.new.items ≡ out.old.items ++ call_text call.now) }
{
    match call {
        DictCall::Get(key) => put_with_quoted(out, b"get ", key.as_slice()),
        DictCall::Store {
            how,
            key,
            value,
            ttl,
            flags,
        } => put_store(out, *how, key, value, *ttl, *flags),
        DictCall::Delete(key) => put_with_quoted(out, b"delete ", key.as_slice()),
        DictCall::Incr { key, by, init, ttl } => put_incr(out, key, *by, *init, *ttl),
        DictCall::FlushAll => put(out, b"flush_all"),
        DictCall::FlushExpired(most) => put_small(out, b"flush_expired ", *most),
        DictCall::Keys(most) => put_small(out, b"get_keys ", *most),
    }
}

/// Puts a text, and that valid items were evicted.
fn put_forcible(out: &mut Vec<u8>, text: &[u8], forcible: bool) -> Result<(), AllocError>
    ensures { OnOk result (out.new.items ≡ out.old.items ++ text.now ++ forcible_text forcible) }
{
    put(out, text)?;
    if forcible {
        put(out, b" forcible")
    } else {
        Ok(())
    }
}

/// Puts keys.
fn put_names(out: &mut Vec<u8>, names: &ByteLists) -> Result<(), AllocError>
    ensures { OnOk result (out.new.items ≡ out.old.items ++ answer_text (Names names.now)) }
{
    put(out, b"keys")?;
    for name in names.as_slice() {
        put_with_quoted(out, b" ", name.as_slice())?;
    }
    Ok(())
}

/// Puts a value that was found, and its flags.
fn put_found(out: &mut Vec<u8>, value: &DictValue, flags: u32) -> Result<(), AllocError>
    ensures { OnOk result (out.new.items ≡ out.old.items ++ answer_text (Found value.now flags)) }
{
    put_with_value(out, b"found ", value)?;
    put_small(out, b" ", flags)
}

/// Puts the number that an adding made.
fn put_sum(out: &mut Vec<u8>, number: i64, forcible: bool) -> Result<(), AllocError>
    ensures { OnOk result (out.new.items ≡ out.old.items ++ answer_text (Number number forcible)) }
{
    put_with_integer(out, b"number ", number)?;
    put_forcible(out, b"", forcible)
}

/// Puts the answer of a dictionary.
pub fn put_answer(out: &mut Vec<u8>, answer: &DictAnswer) -> Result<(), AllocError>
    ensures { OnOk result (out.new.items ≡ out.old.items ++ answer_text answer.now) }
{
    match answer {
        DictAnswer::Found(value, flags) => put_found(out, value, *flags),
        DictAnswer::Nothing => put(out, b"none"),
        DictAnswer::Done(forcible) => put_forcible(out, b"done", *forcible),
        DictAnswer::Exists => put(out, b"exists"),
        DictAnswer::Missing => put(out, b"missing"),
        DictAnswer::NoMemory(forcible) => put_forcible(out, b"no memory", *forcible),
        DictAnswer::NotNumber => put(out, b"not a number"),
        DictAnswer::OutOfRange => put(out, b"range"),
        DictAnswer::Number(number, forcible) => put_sum(out, *number, *forcible),
        DictAnswer::Count(count) => put_small(out, b"count ", *count),
        DictAnswer::Names(names) => put_names(out, names),
    }
}
