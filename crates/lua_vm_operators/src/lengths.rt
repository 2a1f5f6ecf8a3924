//! `#` (Lua 5.1 Reference Manual, 2.5.5).

ghost use Rattle.std.specs.Prelude.{◌≡◌, ◌≤◌};
ghost use Rattle.lua_values.specs.Heap.{StoreView};
ghost use Rattle.lua_values.specs.Values.{number};
ghost use Rattle.lua_meaning.specs.Setting.{Setting};
ghost use Rattle.lua_meaning.specs.Positions.{callers_at};
ghost use Rattle.lua_meaning.specs.Signs.{give_one};
ghost use Rattle.lua_meaning.specs.Operators.{length_work};
ghost use Rattle.lua_frames.specs.Frames.{here, slots_of};
ghost use Rattle.lua_frames.specs.Follows.{Works};

use lua_ast::Program;
use lua_frames::{Flow, Frames, give_one, raise_fault, raise_operand};
use lua_operators::{Fault, OperandFault, length, type_of};
use lua_values::{Store, Value};
use resty_base::Whole;
use std::alloc::AllocError;

/// `#a`: of a text its bytes, of a table its least border.
pub(crate) fn length_of(
    frames: &mut Frames,
    program: &Program,
    store: &Store,
    line: u32,
    a: &Value,
) -> Result<Flow, AllocError>
    ensures { (S : Setting) → S.program ≡ program.now
        → Works S (length_work S (callers_at (here frames.old) line) a.now (slots_of frames.old)) frames.old store.now frames.new store.now result }
{
    match a {
        Value::Text(text) => match length(text.as_slice()) {
            Ok(n) => give_one(frames, Value::Number(n)),
            Err(fault) => raise_fault(frames, program, line, Fault::Number(fault)),
        },
        Value::Table(t) => give_border(frames, store.border(*t)),
        other => raise_operand(frames, program, line, OperandFault::Length(type_of(other))),
    }
}

/// Gives a border.
fn give_border(frames: &mut Frames, border: u64) -> Result<Flow, AllocError>
    requires { border ≤ 32_768 }
    ensures { (S : Setting) → (store : StoreView) → Works S (give_one (number border) (slots_of frames.old)) frames.old store frames.new store result }
{
    match Whole::new(border as i64) {
        Some(n) => give_one(frames, Value::Number(n)),
        None => unreachable!(),
    }
}
