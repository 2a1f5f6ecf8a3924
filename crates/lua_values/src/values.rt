//! The values of Lua, and a list of them.

ghost use Rattle.std.specs.Prelude.{◌≡◌};

use resty_base::{Bytes, Whole};
use std::alloc::AllocError;
use std::fmt::{self, Debug, Formatter, Write};
use std::hash::{Hash, Hasher};
use std::marker::Model;

/// What an object of the host is: a socket, a reader of one, a semaphore, or a zone of shared memory.
#[derive(Clone, Copy, Debug, PartialEq, Eq)]
pub enum ObjectKind {
    Socket,
    Reader,
    Semaphore,
    Zone,
}

/// A Lua value. Tables and closures are numbers in a store, threads and objects are numbers of the run, and natives are
/// numbers of the host's functions. `Null` is the host's null.
#[derive(PartialEq, Eq, Drop)]
pub enum Value {
    Nil,
    Truth(bool),
    Number(Whole),
    Text(Bytes),
    Table(u32),
    Closure(u32),
    Native(u32),
    Thread(u32),
    Null,
    Object(ObjectKind, u32),
}

impl Value {
    ghost use Rattle.lua_values.specs.Values.{is_nil};

    /// Whether it is nil.
    pub fn is_nil(&self) -> bool
        ensures { result ≡ is_nil self.now }
    {
        match self {
            Value::Nil => true,
            _ => false,
        }
    }
}

/// Written as the name of its variant.
impl Debug for Value {
    fn fmt<W: Write>(&self, f: &mut Formatter<W>) -> fmt::Result {
        f.write_str(match self {
            Value::Nil => "Nil",
            Value::Truth(_) => "Truth",
            Value::Number(_) => "Number",
            Value::Text(_) => "Text",
            Value::Table(_) => "Table",
            Value::Closure(_) => "Closure",
            Value::Native(_) => "Native",
            Value::Thread(_) => "Thread",
            Value::Null => "Null",
            Value::Object(_, _) => "Object",
        })
    }
}

/// A hasher is fed one write at most, for a text its bytes.
impl Hash for Value {
    ghost use Rattle.std.specs.Cmp.Rules.{hashing};
    ghost use Rattle.std.proofs.Common.{rules};
    ghost use Rattle.lua_values.specs.Values.{hashed};

    ghost hash_input = { hashed };

    ghost respects_eq = { Prim.search (hashing, rules) };

    fn hash<H: Hasher>(&self, state: &mut H) {
        match self {
            Value::Nil | Value::Null => {}
            Value::Truth(truth) => truth.hash(state),
            Value::Number(number) => state.write_i64(number.get()),
            Value::Text(text) => state.write(text),
            Value::Table(n) | Value::Closure(n) | Value::Native(n) | Value::Thread(n) => {
                state.write_u32(*n);
            }
            Value::Object(_, n) => state.write_u32(*n),
        }
    }
}

/// A clone is the same value, and shares its bytes; `AllocError` where these have too many owners.
impl Clone for Value {
    ghost is_clone = { λ value copy. copy ≡ value };

    fn clone(&self) -> Result<Value, AllocError> {
        Ok(match self {
            Value::Nil => Value::Nil,
            Value::Truth(truth) => Value::Truth(*truth),
            Value::Number(number) => Value::Number(*number),
            Value::Text(text) => Value::Text(text.clone()?),
            Value::Table(t) => Value::Table(*t),
            Value::Closure(c) => Value::Closure(*c),
            Value::Native(n) => Value::Native(*n),
            Value::Thread(n) => Value::Thread(*n),
            Value::Null => Value::Null,
            Value::Object(kind, n) => Value::Object(*kind, *n),
        })
    }
}

/// A list of values, which contracts see as that.
#[derive(Debug, Drop)]
pub struct Values {
    items: Vec<Value>,
}

impl Model for Values {
    ghost use Rattle.std.specs.Prelude.{List};
    ghost use Rattle.lua_values.specs.declared.values.Value.{Value as LuaValue};

    ghost Value = { List LuaValue };

    ghost view = { λ values. values.items.items };
}

impl Values {
    /// The list that `items` holds; takes no memory.
    pub fn of(items: Vec<Value>) -> Values
        ensures { result ≡ items.items }
    {
        Values { items }
    }

    /// The values in order.
    pub fn as_slice(&self) -> &[Value]
        ensures { result.now ≡ self.now }
    {
        self.items.as_slice()
    }

    /// The list as a `Vec`; takes no memory.
    pub fn into_vec(self) -> Vec<Value>
        ensures { result.items ≡ self }
    {
        let Values { items } = self;
        items
    }
}
