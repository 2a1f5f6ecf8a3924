//! Concatenation, and the length of a text.

ghost use Rattle.std.specs.Prelude.{◌≡◌, IfOk, ◌++◌, pos, length};
ghost use Rattle.lua_operators.specs.Concatenation.{concatenated, is_text_or_number};
ghost use Rattle.lua_numbers.specs.Arithmetic.{within_range};

use crate::{Outcome, text_of};
use lua_numbers::NumFault;
use lua_values::Value;
use resty_base::{Bytes, Whole};
use std::alloc::{AllocError, Global};

/// Whether the value is a text or a number, which `..` takes.
pub(crate) fn is_text_or_number(value: &Value) -> bool
    ensures { result ≡ is_text_or_number value.now }
{
    match value {
        Value::Number(_) | Value::Text(_) => true,
        _ => false,
    }
}

/// `a .. b` (Lua 5.1 Reference Manual, 2.5.4): texts, and numbers as their texts.
pub fn concatenated(alloc: Global, a: &Value, b: &Value) -> Result<Outcome, AllocError>
    ensures { IfOk result (λ outcome. outcome ≡ concatenated a.now b.now) }
{
    if !(is_text_or_number(a) && is_text_or_number(b)) {
        return Ok(Outcome::NeedsEvent);
    }
    let mut bytes = Vec::new(alloc);
    bytes.extend_from_slice(text_of(alloc, a)?.as_slice())?;
    bytes.extend_from_slice(text_of(alloc, b)?.as_slice())?;
    Ok(Outcome::Gives(Value::Text(Bytes::from_vec(bytes)?)))
}

/// `#text` (Lua 5.1 Reference Manual, 2.5.5): how many bytes it has.
pub fn length(text: &[u8]) -> Result<Whole, NumFault>
    ensures { result ≡ within_range (pos (length text.now)) }
{
    match i64::try_from(text.len()) {
        Ok(count) => Whole::new(count).ok_or(NumFault::Range),
        Err(_) => Err(NumFault::Range),
    }
}
