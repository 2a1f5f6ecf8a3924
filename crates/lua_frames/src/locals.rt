//! New local variables (Lua 5.1 Reference Manual, 2.4.7).

ghost use Rattle.std.specs.Prelude.{◌≡◌, slice_get, slice_set};
ghost use Rattle.lua_values.specs.declared.values.Value.TheVariants.{Nil};
ghost use Rattle.lua_meaning.specs.declared.slots.Slot.TheVariants.{Plain};
ghost use Rattle.lua_meaning.specs.Signs.{or_nil};
ghost use Rattle.lua_meaning.specs.Variables.{with_locals};
ghost use Rattle.lua_frames.specs.Locals.{PutsPlain};

use crate::Frames;
use lua_meaning::Slot;
use lua_values::Value;
use std::mem;

/// New local variables: each slot gets the value at its index, nil where there are too few.
pub fn set_locals(slots: &mut Vec<Slot>, places: &[u8], values: &mut Vec<Value>)
    ensures { slots.new.items ≡ with_locals places.now values.old.items slots.old.items }
{
    for k in 0..places.len() {
        let value = take_value(values, k);
        set_slot(slots, places[k], value);
    }
}

/// Takes the value at an index, nil where there is none.
pub fn take_value(values: &mut Vec<Value>, i: usize) -> Value
    ensures value { result ≡ or_nil (slice_get values.old.items i) }
    ensures left { values.new.items ≡ slice_set values.old.items i Nil }
{
    match values.get_mut(i) {
        None => Value::Nil,
        Some(value) => mem::replace(value, Value::Nil),
    }
}

/// A slot has a value of its own from now on, if it is there.
fn set_slot(slots: &mut Vec<Slot>, i: u8, value: Value)
    ensures { slots.new.items ≡ slice_set slots.old.items i (Plain value) }
{
    if let Some(slot) = slots.get_mut(i as usize) {
        *slot = Slot::Plain(value);
    }
}

/// A slot of the frame on top has a value of its own from now on, if it is there.
pub fn put_plain(frames: &mut Frames, i: u8, value: Value)
    ensures { PutsPlain i value frames.old frames.new }
{
    set_slot(&mut frames.top.slots, i, value);
}
