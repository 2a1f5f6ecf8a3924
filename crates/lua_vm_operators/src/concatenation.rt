//! `..` (Lua 5.1 Reference Manual, 2.5.4).

ghost use Rattle.std.specs.Prelude.{◌≡◌};
ghost use Rattle.lua_meaning.specs.Setting.{Setting};
ghost use Rattle.lua_meaning.specs.Positions.{callers_at};
ghost use Rattle.lua_meaning.specs.Concatenation.{text_length, make_text, concatenation_work};
ghost use Rattle.lua_meaning.specs.Signs.{give_one};
ghost use Rattle.lua_frames.specs.Frames.{here, slots_of};
ghost use Rattle.lua_frames.specs.Follows.{Works};

use crate::handlers::{handle, handler_of_two};
use lua_ast::Program;
use lua_frames::{Flow, Frames, Host, give_one, raise_fault};
use lua_operators::{Event, Fault, Outcome, concatenated, concatenation_fault};
use lua_values::{BYTES_OF_A_STEP, Store, StoreFault, TEXT_UNITS, Value};
use lua_vm_calls::two;
use std::alloc::AllocError;

/// The bytes of a value that is a text.
fn text_length(value: &Value) -> u64
    ensures { result ≡ text_length value.now }
{
    match value {
        Value::Text(text) => text.as_slice().len() as u64,
        _ => 0,
    }
}

/// `a .. b`.
pub(crate) fn concatenation<H: Host>(
    frames: &mut Frames,
    host: &H,
    store: &mut Store,
    line: u32,
    a: Value,
    b: Value,
) -> Result<Flow, AllocError>
    ensures { Works (H.setting host.now) (concatenation_work (H.setting host.now) (callers_at (here frames.old) line) a b (slots_of frames.old))
        frames.old store.old frames.new store.new result }
{
    match concatenated(frames.alloc, &a, &b)? {
        Outcome::Gives(value) => {
            let bytes = (text_length(&a) + text_length(&b)).saturating_add(text_length(&value));
            if store.count(bytes / BYTES_OF_A_STEP) {
                give_text(frames, host.program(), store, line, value)
            } else {
                Ok(Flow::Spent)
            }
        }
        Outcome::Faults(fault) => raise_fault(frames, host.program(), line, Fault::Number(fault)),
        Outcome::NeedsEvent => {
            let by = handler_of_two(store, &a, &b, Event::Concat)?;
            let fault = concatenation_fault(&a, &b);
            let operands = two(&mut frames.lists, a, b)?;
            handle(frames, host, store, line, by, operands, fault)
        }
    }
}

/// Gives a text that was made, once its units are counted.
fn give_text(
    frames: &mut Frames,
    program: &Program,
    store: &mut Store,
    line: u32,
    value: Value,
) -> Result<Flow, AllocError>
    ensures { (S : Setting) → S.program ≡ program.now
        → Works S (make_text S (callers_at (here frames.old) line) (text_length value) (slots_of frames.old) (give_one value (slots_of frames.old)))
        frames.old store.old frames.new store.new result }
{
    match store.add_units(text_length(&value) + TEXT_UNITS) {
        Ok(()) => give_one(frames, value),
        Err(StoreFault::Full) => raise_fault(frames, program, line, Fault::StorageLimit),
        Err(_) => Err(AllocError),
    }
}
