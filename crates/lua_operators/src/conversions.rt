//! The number of a value, and its text.

ghost use Rattle.std.specs.Prelude.{◌≡◌, IfOk};
ghost use Rattle.lua_operators.specs.Conversions.{number_of, text_of};

use crate::type_of;
use lua_values::Value;
use resty_base::{Bytes, Whole};
use std::alloc::{AllocError, Global};

/// The number of a value: of a number itself, of a text the number that it writes, of others none
/// (Lua 5.1 Reference Manual, 2.2.1).
pub fn number_of(value: &Value) -> Option<Whole>
    ensures { result ≡ number_of value.now }
{
    match value {
        Value::Number(number) => Some(*number),
        Value::Text(text) => lua_numbers::number_of(text.as_slice()),
        _ => None,
    }
}

/// The text of a value, as `tostring` gives it without a metatable (Lua 5.1 Reference Manual, 5.1). A text is given
/// as it is and shares its bytes; of a table, a function, a thread or an object there is its type's name alone.
pub fn text_of(alloc: Global, value: &Value) -> Result<Bytes, AllocError>
    ensures { IfOk result (λ text. text ≡ text_of value.now) }
{
    match value {
        Value::Truth(true) => Ok(Bytes::from_static(b"true")),
        Value::Truth(false) => Ok(Bytes::from_static(b"false")),
        Value::Number(number) => lua_numbers::text_of(alloc, *number),
        Value::Text(text) => text.clone(),
        Value::Null => Ok(Bytes::from_static(b"userdata: NULL")),
        _ => Ok(Bytes::from_static(type_of(value).name())),
    }
}
