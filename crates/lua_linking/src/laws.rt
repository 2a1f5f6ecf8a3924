//! Laws of joined programs, each the contract of a function that does nothing.

ghost use Rattle.lua_ast.specs.WholeProgram.{IsWholeProgram};
ghost use Rattle.lua_ast.specs.declared.programs.Program.{Program};
ghost use Rattle.lua_linking.specs.Joining.{IsJoined};

/// Whole programs joined are a whole program.
pub fn joined_programs_are_whole()
    ensures { (first second joined : Program) → IsJoined first second joined → IsWholeProgram first → IsWholeProgram second → IsWholeProgram joined }
{}
