//! Faults at a line.

ghost use Rattle.std.specs.Prelude.{◌≡◌, drop};
ghost use Rattle.lua_values.specs.Heap.{StoreView};
ghost use Rattle.lua_meaning.specs.Setting.{Setting};
ghost use Rattle.lua_meaning.specs.Positions.{callers_at, raise_fault, raise_operand};
ghost use Rattle.lua_meaning.specs.Natives.{raise_value};
ghost use Rattle.lua_frames.specs.Frames.{here, slots_of};
ghost use Rattle.lua_frames.specs.Follows.{Works};

use crate::{Flow, Frames, position_at, positioned, raise, raise_value};
use lua_ast::Program;
use lua_operators::{Fault, OperandFault};
use lua_values::Value;
use std::alloc::AllocError;

/// A fault at a line.
pub fn raise_fault(
    frames: &mut Frames,
    program: &Program,
    line: u32,
    fault: Fault,
) -> Result<Flow, AllocError>
    ensures { (S : Setting) → (store : StoreView) → S.program ≡ program.now
        → Works S (raise_fault S (callers_at (here frames.old) line) fault (slots_of frames.old)) frames.old store frames.new store result }
{
    raise(frames, program, line, fault.text())
}

/// An operator that isn't defined on its operands, at a line.
pub fn raise_operand(
    frames: &mut Frames,
    program: &Program,
    line: u32,
    fault: OperandFault,
) -> Result<Flow, AllocError>
    ensures { (S : Setting) → (store : StoreView) → S.program ≡ program.now
        → Works S (raise_operand S (callers_at (here frames.old) line) fault (slots_of frames.old)) frames.old store frames.new store result }
{
    let text = fault.text(frames.alloc)?;
    raise(frames, program, line, text.as_slice())
}

/// A value that is raised at a line: a text after the position of the Lua function that comes after so many, from the innermost
/// on, and any other value as it is.
pub fn raise_given(
    frames: &mut Frames,
    program: &Program,
    line: u32,
    skip: usize,
    value: Value,
) -> Result<Flow, AllocError>
    ensures { (S : Setting) → (store : StoreView) → S.program ≡ program.now
        → Works S (raise_value S (drop skip (callers_at (here frames.old) line)) value (slots_of frames.old)) frames.old store frames.new store result }
{
    match value {
        Value::Text(text) => {
            let position = position_at(frames, program, line, skip);
            let whole = positioned(frames.alloc, program, position, text.as_slice())?;
            raise_value(frames, whole)
        }
        other => raise_value(frames, other),
    }
}
