//! Faults of assignments.

ghost use Rattle.std.specs.Prelude.{◌≡◌};
ghost use Rattle.lua_meaning.specs.Setting.{Setting};
ghost use Rattle.lua_operators.specs.Faults.{fault_text};
ghost use Rattle.lua_meaning.specs.Positions.{callers_at, positioned};
ghost use Rattle.lua_frames.specs.Frames.{here};
ghost use Rattle.lua_vm_statements.specs.Assignments.{Fails};

use lua_ast::Program;
use lua_frames::{Flow, Frames, position_at, positioned, raise_value};
use lua_operators::Fault;
use std::alloc::AllocError;

/// Fails with a fault at a line.
pub(crate) fn fail(
    frames: &mut Frames,
    program: &Program,
    line: u32,
    fault: Fault,
) -> Result<Flow, AllocError>
    ensures { (S : Setting) → S.program ≡ program.now
        → Fails (positioned S (callers_at (here frames.old) line) (fault_text fault)) frames.old frames.new result }
{
    let position = position_at(frames, program, line, 0);
    let text = positioned(frames.alloc, program, position, fault.text())?;
    raise_value(frames, text)
}
