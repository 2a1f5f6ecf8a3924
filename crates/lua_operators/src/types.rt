//! The types of values, and their truth.

ghost use Rattle.std.specs.Prelude.{◌≡◌};
ghost use Rattle.lua_operators.specs.Types.{type_of, is_truthy};
ghost use Rattle.lua_operators.specs.TypeNames.{type_name};

use lua_values::{ObjectKind, Value};

/// A type of values (Lua 5.1 Reference Manual, 2.2).
#[derive(Clone, Copy, Debug, PartialEq, Eq)]
pub enum LuaType {
    Nil,
    Boolean,
    Number,
    String,
    Table,
    Function,
    Thread,
    Userdata,
}

impl LuaType {
    /// The name that `type` gives it (Lua 5.1 Reference Manual, 5.1).
    pub fn name(self) -> &'static [u8]
        ensures { result.now ≡ type_name self }
    {
        match self {
            LuaType::Nil => b"nil",
            LuaType::Boolean => b"boolean",
            LuaType::Number => b"number",
            LuaType::String => b"string",
            LuaType::Table => b"table",
            LuaType::Function => b"function",
            LuaType::Thread => b"thread",
            LuaType::Userdata => b"userdata",
        }
    }
}

/// The type of a value. The host's null and its objects are userdata, but a reader is called, so it is a function.
pub fn type_of(value: &Value) -> LuaType
    ensures { result ≡ type_of value.now }
{
    match value {
        Value::Nil => LuaType::Nil,
        Value::Truth(_) => LuaType::Boolean,
        Value::Number(_) => LuaType::Number,
        Value::Text(_) => LuaType::String,
        Value::Table(_) => LuaType::Table,
        Value::Closure(_) | Value::Native(_) | Value::Object(ObjectKind::Reader, _) => {
            LuaType::Function
        }
        Value::Thread(_) => LuaType::Thread,
        Value::Null | Value::Object(_, _) => LuaType::Userdata,
    }
}

/// Whether a condition takes the value for true: all but nil and false (Lua 5.1 Reference Manual, 2.2).
pub fn is_truthy(value: &Value) -> bool
    ensures { result ≡ is_truthy value.now }
{
    match value {
        Value::Nil => false,
        Value::Truth(truth) => *truth,
        _ => true,
    }
}
