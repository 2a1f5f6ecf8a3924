//! Taking what is given.

ghost use Rattle.std.specs.Prelude.{◌≡◌, IfOk};
ghost use Rattle.std.specs.Option.{option_map};
ghost use Rattle.lua_meaning.specs.Signs.{first};
ghost use Rattle.lua_frames.specs.Changes.{TakesFirst, TakesValues};

use crate::{Frames, Signal};
use lua_values::Value;
use std::alloc::AllocError;
use std::mem;

/// Takes the first value of what is given, nil of none; `None` where no values are given, which is then left.
pub fn take_first(frames: &mut Frames) -> Option<Value>
    ensures { TakesFirst frames.old frames.new result }
{
    let given = mem::replace(&mut frames.given, Signal::Nothing);
    match given {
        Signal::Nothing => Some(Value::Nil),
        Signal::One(value) => Some(value),
        Signal::Many(values) => Some(first_of(values)),
        other => {
            frames.given = other;
            None
        }
    }
}

/// Takes the values that are given; `None` where none are, and what is given is then left.
pub fn take_values(frames: &mut Frames) -> Result<Option<Vec<Value>>, AllocError>
    ensures { IfOk result (λ taken. TakesValues frames.old frames.new (option_map (λ values. values.items) taken)) }
{
    let given = mem::replace(&mut frames.given, Signal::Nothing);
    match given {
        Signal::Nothing => Ok(Some(frames.lists.values.fresh())),
        Signal::One(value) => {
            let mut values = frames.lists.values.fresh();
            values.push(value)?;
            Ok(Some(values))
        }
        Signal::Many(values) => Ok(Some(values)),
        other => {
            frames.given = other;
            Ok(None)
        }
    }
}

/// The first of some values, nil of none.
pub(crate) fn first_of(values: Vec<Value>) -> Value
    ensures { result ≡ first values.items }
{
    let mut values = values;
    if values.is_empty() {
        Value::Nil
    } else {
        values.swap_remove(0)
    }
}
