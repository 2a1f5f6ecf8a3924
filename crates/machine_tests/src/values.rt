//! Values in a short written form.

use lua_values::{ObjectKind, Value};
use resty_base::{Bytes, whole};
use std::alloc::{AllocError, AllocFailed, Global};
use std::process::Abort;

/// Why a line has no outcome: it can't be read, or out of memory.
#[derive(Clone, Copy, Debug, Drop)]
pub(crate) enum Wrong {
    Line,
    Memory,
}

impl From<AllocError> for Wrong {
    fn from(_: AllocError) -> Wrong {
        Wrong::Memory
    }
}

impl From<AllocFailed<Value>> for Wrong {
    fn from(_: AllocFailed<Value>) -> Wrong {
        Wrong::Memory
    }
}

/// Whether a line holds; one that can't be read doesn't.
pub(crate) fn whether(outcome: Result<bool, Wrong>) -> Result<bool, AllocError> {
    match outcome {
        Ok(holds) => Ok(holds),
        Err(Wrong::Line) => Ok(false),
        Err(Wrong::Memory) => Err(AllocError),
    }
}

/// The values of words with commas between them.
pub(crate) fn values(alloc: Global, words: &str) -> Result<Vec<Value>, Wrong> {
    let mut values = Vec::new(alloc);
    if words.is_empty() {
        return Ok(values);
    }
    for word in words.split(", ") {
        values.push(value(alloc, word)?)?;
    }
    Ok(values)
}

/// `nil`, `true`, `false`, `null`, a number, `'` and a text, `x` and how many bytes a text of that letter has, or a kind with a
/// number after a colon, as `table:1`.
pub(crate) fn value(alloc: Global, word: &str) -> Result<Value, Wrong> {
    if let Some(text) = word.strip_prefix('\'') {
        return text_value(alloc, text);
    }
    if let Some(count) = word.strip_prefix('x') {
        return text_value(alloc, "x".repeat(alloc, number(count)?)?.as_str());
    }
    if let Some((kind, number)) = word.split_once(':') {
        return reference(kind, id(number)?);
    }
    Ok(match word {
        "nil" => Value::Nil,
        "true" => Value::Truth(true),
        "false" => Value::Truth(false),
        "null" => Value::Null,
        _ => {
            let n = word.parse::<i64>().ok().ok_or(Wrong::Line)?;
            Value::Number(whole(n).ok_or(Wrong::Line)?)
        }
    })
}

/// A text.
pub(crate) fn text_value(alloc: Global, text: &str) -> Result<Value, Wrong> {
    Ok(Value::Text(Bytes::copy_from_slice(alloc, text.as_bytes())?))
}

/// The value of a kind that has a number.
fn reference(kind: &str, n: u32) -> Result<Value, Wrong> {
    Ok(match kind {
        "table" => Value::Table(n),
        "closure" => Value::Closure(n),
        "native" => Value::Native(n),
        "thread" => Value::Thread(n),
        _ => Value::Object(object(kind)?, n),
    })
}

/// `socket`, `reader`, `semaphore` or `zone`.
pub(crate) fn object(word: &str) -> Result<ObjectKind, Wrong> {
    Ok(match word {
        "socket" => ObjectKind::Socket,
        "reader" => ObjectKind::Reader,
        "semaphore" => ObjectKind::Semaphore,
        "zone" => ObjectKind::Zone,
        _ => return Err(Wrong::Line),
    })
}

/// The number of a table, a function or an object.
pub(crate) fn id(word: &str) -> Result<u32, Wrong> {
    word.parse().ok().ok_or(Wrong::Line)
}

/// A count of bytes.
fn number(word: &str) -> Result<usize, Wrong> {
    word.parse().ok().ok_or(Wrong::Line)
}

/// What is seen is what the row says.
pub(crate) fn expect(rt: &impl Abort, seen: &str, expected: &str, row: &str) {
    assert_eq!(rt; seen, expected, "{row}");
}
