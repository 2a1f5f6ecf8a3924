//! Words of scripts, and what their calls answer as texts.

use crate::values;
use lua_values::{ObjectKind, TypeKind, Value};
use std::alloc::Global;

/// The value of a word, nil where there is none or no memory for it.
pub(super) fn value(alloc: Global, word: &str) -> Value {
    values::value(alloc, word).unwrap_or(Value::Nil)
}

/// `text`, or the kind of an object.
pub(super) fn type_kind(word: &str) -> TypeKind {
    if word == "text" {
        TypeKind::Text
    } else {
        TypeKind::Object(values::object(word).unwrap_or(ObjectKind::Zone))
    }
}

/// The number of a table, a cell, a closure or a function, the greatest where there is none.
pub(super) fn id(word: &str) -> u32 {
    word.parse().unwrap_or(u32::MAX)
}

/// A count, the greatest where there is none.
pub(super) fn count(word: &str) -> u64 {
    word.parse().unwrap_or(u64::MAX)
}

/// The number of a table, or `none`.
pub(super) fn optional(word: &str) -> Option<u32> {
    word.parse().ok()
}

/// Writes a text, or leaves it out where there is no memory for it, so that the line fails.
pub(super) fn put(all: &mut String, text: &str) {
    let _ = all.push_str(text);
}

/// Writes a number after a word.
pub(super) fn put_number(all: &mut String, word: &str, n: u64) {
    put(all, word);
    let _ = write!(all, "{n}");
}

/// Writes a value.
pub(super) fn see_value(all: &mut String, value: &Value) {
    match value {
        Value::Nil => put(all, "nil"),
        Value::Truth(true) => put(all, "true"),
        Value::Truth(false) => put(all, "false"),
        Value::Null => put(all, "null"),
        Value::Number(number) => {
            let n = number.get();
            let _ = write!(all, "{n}");
        }
        Value::Text(bytes) => {
            put(all, "'");
            put(all, str::from_utf8(bytes).unwrap_or("?"));
        }
        Value::Table(n) => put_number(all, "table:", u64::from(*n)),
        Value::Closure(n) => put_number(all, "closure:", u64::from(*n)),
        Value::Native(n) => put_number(all, "native:", u64::from(*n)),
        Value::Thread(n) => put_number(all, "thread:", u64::from(*n)),
        Value::Object(_, n) => put_number(all, "object:", u64::from(*n)),
    }
}

/// Writes the number of a table, or `none`.
pub(super) fn see_optional(all: &mut String, table: Option<u32>) {
    match table {
        Some(n) => put_number(all, "", u64::from(n)),
        None => put(all, "none"),
    }
}
