//! The arguments after the parameters, `...` (Lua 5.1 Reference Manual, 2.5.9).

ghost use Rattle.lua_meaning.specs.Setting.{Setting};
ghost use Rattle.lua_meaning.specs.Expressions.{give_counted, first_extra};
ghost use Rattle.lua_frames.specs.Frames.{slots_of};
ghost use Rattle.lua_frames.specs.Follows.{Works};

use lua_frames::{Flow, Frames, give_many, give_one};
use lua_values::{Store, Value};
use std::alloc::AllocError;

/// Gives all of them; each counts a step.
pub(crate) fn give_extras(frames: &mut Frames, store: &mut Store) -> Result<Flow, AllocError>
    ensures { (S : Setting) → Works S (give_counted frames.old.top.extras.items (slots_of frames.old)) frames.old store.old frames.new store.new result }
{
    if !store.count(frames.top.extras.len() as u64) {
        return Ok(Flow::Spent);
    }
    let values = frames.top.extras.as_slice().to_vec(frames.alloc)?;
    give_many(frames, values)
}

/// Gives the first of them, where one value is wanted; it counts a step if there is one.
pub(crate) fn give_first_extra(frames: &mut Frames, store: &mut Store) -> Result<Flow, AllocError>
    ensures { (S : Setting) → Works S (first_extra frames.old.top.extras.items (slots_of frames.old)) frames.old store.old frames.new store.new result }
{
    match frames.top.extras.as_slice() {
        [] => give_one(frames, Value::Nil),
        [value, ..] => {
            let value = value.clone()?;
            if !store.count(1) {
                return Ok(Flow::Spent);
            }
            give_one(frames, value)
        }
    }
}
