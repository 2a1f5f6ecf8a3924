//! The positions of faults.

ghost use Rattle.std.specs.Prelude.{◌≡◌, ◌++◌, [], drop, IfOk};
ghost use Rattle.lua_values.specs.Heap.{StoreView};
ghost use Rattle.lua_meaning.specs.Setting.{Setting};
ghost use Rattle.lua_values.specs.declared.values.Value.TheVariants.{Text};
ghost use Rattle.lua_meaning.specs.Positions.{callers_at, position_of, position_text, name_of, raise};
ghost use Rattle.lua_frames.specs.Around.{around_of};
ghost use Rattle.lua_frames.specs.PositionIn.{IsPositionIn};
ghost use Rattle.lua_frames.specs.Frames.{here, slots_of};
ghost use Rattle.lua_frames.specs.Follows.{Works};

use crate::{Flow, Frame, Frames, Kind, Signal};
use lua_ast::Program;
use lua_meaning::Position;
use lua_operators::with_position;
use lua_values::Value;
use std::alloc::{AllocError, Global};

/// The name of a file of the program, empty of none.
fn name_of(program: &Program, file: u32) -> &[u8]
    ensures { (S : Setting) → S.program ≡ program.now → result.now ≡ name_of S file }
{
    match program.files.as_slice().get(file as usize) {
        None => b"",
        Some(name) => name.as_slice(),
    }
}

/// The position of a Lua function at a line, if its file has a name.
fn position_in(program: &Program, function: u32, line: u32) -> Option<Position>
    ensures { (S : Setting) → S.program ≡ program.now → IsPositionIn S function line result }
{
    match program.functions.get(function as usize) {
        None => None,
        Some(f) => {
            if name_of(program, f.file).is_empty() {
                None
            } else {
                Some(Position { file: f.file, line })
            }
        }
    }
}

/// The position of the first, from the innermost on and after `skip`, of the Lua functions that run in these frames.
fn position_below(program: &Program, frames: &[Frame], skip: usize) -> Option<Position>
    ensures { (S : Setting) → S.program ≡ program.now → result ≡ position_of S (drop skip (around_of [] frames.now)) }
{
    let mut skip = skip;
    let mut i = frames.len();
    while i > 0 {
        i -= 1;
        let frame = &frames[i];
        match frame.kind {
            Kind::Lua => {
                if skip > 0 {
                    skip -= 1;
                } else if let Some(position) = position_in(program, frame.function, frame.line) {
                    return Some(position);
                }
            }
            _ => {}
        }
    }
    None
}

/// The position of the first, from the innermost on and after `skip`, of the Lua functions that run, of which the innermost
/// is at a line; only those whose file has a name have a position.
pub fn position_at(frames: &Frames, program: &Program, line: u32, skip: usize) -> Option<Position>
    ensures { (S : Setting) → S.program ≡ program.now → result ≡ position_of S (drop skip (callers_at (here frames.now) line)) }
{
    match frames.top.kind {
        Kind::Lua => {
            if skip > 0 {
                return position_below(program, frames.below.as_slice(), skip - 1);
            }
            match position_in(program, frames.top.function, line) {
                None => position_below(program, frames.below.as_slice(), 0),
                Some(position) => Some(position),
            }
        }
        _ => position_below(program, frames.below.as_slice(), skip),
    }
}

/// A text after a position.
pub fn positioned(
    alloc: Global,
    program: &Program,
    position: Option<Position>,
    text: &[u8],
) -> Result<Value, AllocError>
    ensures { IfOk result (λ value. (S : Setting) → S.program ≡ program.now → value ≡ Text (position_text S position ++ text.now)) }
{
    let whole = match position {
        None => with_position(alloc, b"", 0, text)?,
        Some(at) => with_position(alloc, name_of(program, at.file), at.line, text)?,
    };
    Ok(Value::Text(whole))
}

/// Fails with a text, after the position of the Lua function that runs, which is at a line.
pub fn raise(
    frames: &mut Frames,
    program: &Program,
    line: u32,
    text: &[u8],
) -> Result<Flow, AllocError>
    ensures { (S : Setting) → (store : StoreView) → S.program ≡ program.now
        → Works S (raise S (callers_at (here frames.old) line) text.now (slots_of frames.old)) frames.old store frames.new store result }
{
    let position = position_at(frames, program, line, 0);
    frames.given = Signal::Raised(positioned(frames.alloc, program, position, text)?);
    Ok(Flow::Went)
}
