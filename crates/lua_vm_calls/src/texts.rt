//! `tostring` (Lua 5.1 Reference Manual, 5.1).

ghost use Rattle.std.specs.Prelude.{◌≡◌, ◌/◌, ◌-◌, ◌^◌, ◌∷◌, [], ℕ, false, min};
ghost use Rattle.lua_meaning.specs.Works.{and_then, Count};
ghost use Rattle.lua_meaning.specs.Setting.{Setting};
ghost use Rattle.lua_meaning.specs.Positions.{callers_at};
ghost use Rattle.lua_meaning.specs.Signs.{give_one};
ghost use Rattle.lua_meaning.specs.Calls.{call, call_for_one};
ghost use Rattle.lua_meaning.specs.Natives.{make_text_of, tostring_work};
ghost use Rattle.lua_values.specs.Heap.{StoreView};
ghost use Rattle.lua_frames.specs.Frames.{here, slots_of};
ghost use Rattle.lua_frames.specs.Follows.{Works};
ghost use Rattle.lua_vm_functions.specs.CallEnds.{back_in};
ghost use Rattle.lua_vm_calls.specs.TextParts.{Told, tostring_of, text_made};

use crate::parameters::{raise_missing, texts_length};
use lua_ast::Program;
use lua_frames::{Flow, Frames, Item, give_nothing, give_one, handler, raise_fault, wait};
use lua_operators::{Event, Fault, text_of};
use lua_values::{BYTES_OF_A_STEP, Store, StoreFault, TEXT_UNITS, Value};
use resty_base::{Boxed, Bytes};
use std::alloc::AllocError;

/// `tostring`: the text of its first argument, or what the handler of that gives.
pub(crate) fn tostring_call(
    frames: &mut Frames,
    program: &Program,
    store: &mut Store,
    line: u32,
    args: Vec<Value>,
) -> Result<Flow, AllocError>
    ensures { (S : Setting) → S.program ≡ program.now
        → Works S (and_then (tostring_work S args.items (callers_at (here frames.old) line) []) (back_in false (slots_of frames.old)))
        frames.old store.old frames.new store.new result }
{
    let taken = texts_length(&args);
    match args.as_slice() {
        [] => raise_missing(frames, program, line, 1, b"tostring"),
        [value, ..] => tell(frames, program, store, line, taken, value),
    }
}

/// `tostring` of a value, with arguments of so many bytes of text.
fn tell(
    frames: &mut Frames,
    program: &Program,
    store: &mut Store,
    line: u32,
    taken: u64,
    value: &Value,
) -> Result<Flow, AllocError>
    ensures { (S : Setting) → (bytes : ℕ) → S.program ≡ program.now → Told bytes taken
        → Works S (and_then (tostring_of S (callers_at (here frames.old) line) bytes value.now []) (back_in false (slots_of frames.old)))
        frames.old store.old frames.new store.new result }
{
    let by = handler(store, value, Event::ToString)?;
    if by.is_nil() {
        give_text_of(frames, program, store, line, taken, value)
    } else {
        call_handler(frames, store, line, taken, by, value.clone()?)
    }
}

/// The text of a value: a text gives itself, and any other value's is made.
fn give_text_of(
    frames: &mut Frames,
    program: &Program,
    store: &mut Store,
    line: u32,
    taken: u64,
    value: &Value,
) -> Result<Flow, AllocError>
    ensures { (S : Setting) → (bytes : ℕ) → S.program ≡ program.now → Told bytes taken
        → Works S (make_text_of S (callers_at (here frames.old) line) bytes store.old.heap value.now (slots_of frames.old))
        frames.old store.old frames.new store.new result }
{
    match value {
        Value::Text(text) => {
            let text = text.clone()?;
            if store.count(taken / BYTES_OF_A_STEP) {
                give_one(frames, Value::Text(text))
            } else {
                Ok(Flow::Spent)
            }
        }
        other => {
            let text = text_of(frames.alloc, other)?;
            give_made(frames, program, store, line, taken, text)
        }
    }
}

/// A text that is made, whose bytes are counted with those that were taken.
fn give_made(
    frames: &mut Frames,
    program: &Program,
    store: &mut Store,
    line: u32,
    taken: u64,
    text: Bytes,
) -> Result<Flow, AllocError>
    ensures { (S : Setting) → (bytes : ℕ) → S.program ≡ program.now → Told bytes taken
        → Works S (text_made S (callers_at (here frames.old) line) bytes store.old.heap text (slots_of frames.old))
        frames.old store.old frames.new store.new result }
{
    let length = text.as_slice().len() as u64;
    match store.add_units(length + TEXT_UNITS) {
        Ok(()) => {
            if store.count(taken.saturating_add(length) / BYTES_OF_A_STEP) {
                give_one(frames, Value::Text(text))
            } else {
                Ok(Flow::Spent)
            }
        }
        Err(StoreFault::Full) => {
            if store.count(taken / BYTES_OF_A_STEP) {
                raise_fault(frames, program, line, Fault::StorageLimit)
            } else {
                Ok(Flow::Spent)
            }
        }
        Err(_) => Err(AllocError),
    }
}

/// Calls the handler of a value, of which one value is wanted.
fn call_handler(
    frames: &mut Frames,
    store: &mut Store,
    line: u32,
    taken: u64,
    by: Value,
    value: Value,
) -> Result<Flow, AllocError>
    ensures { (S : Setting) → (bytes : ℕ) → Told bytes taken
        → Works S (Count (bytes / 64) (call_for_one (callers_at (here frames.old) line) by (value ∷ []) (slots_of frames.old) give_one))
        frames.old store.old frames.new store.new result }
{
    if !store.count(taken / BYTES_OF_A_STEP) {
        return Ok(Flow::Spent);
    }
    wait(frames, Item::First)?;
    wait_for_call(frames, line, by, value)
}

/// The call of a value with one argument waits, and begins next.
fn wait_for_call(
    frames: &mut Frames,
    line: u32,
    by: Value,
    value: Value,
) -> Result<Flow, AllocError>
    ensures { (S : Setting) → (store : StoreView)
        → Works S (call (callers_at (here frames.old) line) by (value ∷ []) (slots_of frames.old)) frames.old store frames.new store result }
{
    let mut args = frames.lists.values.fresh();
    args.push(value)?;
    let by = Boxed::new(frames.alloc, by)?;
    wait(frames, Item::Call(line, by, args))?;
    give_nothing(frames)
}
