//! Ends of work: what it gives.

ghost use Rattle.std.specs.Prelude.{[], ◌∷◌};
ghost use Rattle.lua_meaning.specs.Works.{Values, Failed, Return, Break};
ghost use Rattle.lua_frames.specs.Changes.{Ends};

use crate::{Flow, Frames, Signal};
use lua_values::Value;
use std::alloc::AllocError;

/// Gives no value.
pub fn give_nothing(frames: &mut Frames) -> Result<Flow, AllocError>
    ensures { Ends (Values []) frames.old frames.new result }
{
    frames.given = Signal::Nothing;
    Ok(Flow::Went)
}

/// Gives one value.
pub fn give_one(frames: &mut Frames, value: Value) -> Result<Flow, AllocError>
    ensures { Ends (Values (value ∷ [])) frames.old frames.new result }
{
    frames.given = Signal::One(value);
    Ok(Flow::Went)
}

/// Gives a list of values.
pub fn give_many(frames: &mut Frames, values: Vec<Value>) -> Result<Flow, AllocError>
    ensures { Ends (Values values.items) frames.old frames.new result }
{
    frames.given = Signal::Many(values);
    Ok(Flow::Went)
}

/// Fails with a value.
pub fn raise_value(frames: &mut Frames, value: Value) -> Result<Flow, AllocError>
    ensures { Ends (Failed value) frames.old frames.new result }
{
    frames.given = Signal::Raised(value);
    Ok(Flow::Went)
}

/// Ends a run of a loop's body.
pub fn give_break(frames: &mut Frames) -> Result<Flow, AllocError>
    ensures { Ends Break frames.old frames.new result }
{
    frames.given = Signal::Broke;
    Ok(Flow::Went)
}
