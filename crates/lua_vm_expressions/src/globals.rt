//! Global variables (Lua 5.1 Reference Manual, 2.3).

ghost use Rattle.lua_meaning.specs.Setting.{Setting};
ghost use Rattle.lua_meaning.specs.Expressions.{global_work};
ghost use Rattle.lua_frames.specs.Frames.{here, slots_of};
ghost use Rattle.lua_frames.specs.Follows.{Works};

use lua_frames::{Flow, Frames, Item, give_one, handler, wait};
use lua_operators::Event;
use lua_values::{Store, Value};
use resty_base::Bytes;
use std::alloc::AllocError;

/// Gives a global variable of an expression at a line. For one that the global table hasn't but handles, the index of the table waits
/// for the name.
pub(crate) fn give_global(
    frames: &mut Frames,
    store: &Store,
    line: u32,
    name: &Bytes,
) -> Result<Flow, AllocError>
    ensures { (S : Setting) → Works S (global_work S line name.now (here frames.old) (slots_of frames.old))
        frames.old store.now frames.new store.now result }
{
    let key = Value::Text(name.clone()?);
    let globals = store.globals();
    let value = store.get(globals, &key).clone()?;
    if !value.is_nil() {
        return give_one(frames, value);
    }
    let by = handler(store, &Value::Table(globals), Event::Index)?;
    if by.is_nil() {
        return give_one(frames, Value::Nil);
    }
    wait(frames, Item::At(line, Value::Table(globals)))?;
    give_one(frames, key)
}
