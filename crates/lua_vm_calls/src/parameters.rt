//! Arguments of the machine's own functions.

ghost use Rattle.std.specs.Prelude.{◌≡◌, drop, min, ◌-◌, ◌^◌};
ghost use Rattle.lua_values.specs.Heap.{StoreView};
ghost use Rattle.lua_meaning.specs.Setting.{Setting};
ghost use Rattle.lua_meaning.specs.Signs.{first};
ghost use Rattle.lua_meaning.specs.Positions.{callers_at};
ghost use Rattle.lua_meaning.specs.ProtectedCalls.{raise_missing};
ghost use Rattle.lua_meaning.specs.Natives.{texts_length};
ghost use Rattle.lua_frames.specs.Frames.{here, slots_of};
ghost use Rattle.lua_frames.specs.Follows.{Works};

use lua_ast::Program;
use lua_frames::{Flow, Frames, raise};
use lua_operators::argument_fault;
use lua_values::Value;
use std::alloc::AllocError;

/// The bytes of the texts among some values, at most 2^64 - 1.
pub(crate) fn texts_length(values: &[Value]) -> u64
    ensures { result ≡ min (texts_length values.now) (2 ^ 64 - 1) }
{
    let mut length: u64 = 0;
    for value in values {
        if let Value::Text(text) = value {
            length = length.saturating_add(text.as_slice().len() as u64);
        }
    }
    length
}

/// Takes the first of some values, nil of none.
pub(crate) fn take(values: &mut Vec<Value>) -> Value
    ensures value { result ≡ first values.old.items }
    ensures left { values.new.items ≡ drop 1 values.old.items }
{
    if values.is_empty() {
        Value::Nil
    } else {
        values.remove(0)
    }
}

/// Fails as an argument, numbered from 1, is missing.
pub(crate) fn raise_missing(
    frames: &mut Frames,
    program: &Program,
    line: u32,
    number: u32,
    name: &[u8],
) -> Result<Flow, AllocError>
    ensures { (S : Setting) → (store : StoreView) → S.program ≡ program.now
        → Works S (raise_missing S (callers_at (here frames.old) line) number name.now (slots_of frames.old)) frames.old store frames.new store result }
{
    let text = argument_fault(frames.alloc, number, name, b"value", b"no value")?;
    raise(frames, program, line, text.as_slice())
}
