//! The evaluator in direct style, as laws.

ghost use Rattle.lua_meaning.specs.DirectEquations.{DirectEquations};

/// What a block, an operator, a turn of `while`, a call, a tail call, an index through a metatable and `pcall` come to, as
/// equations on evaluations.
pub fn direct_equations()
    ensures { DirectEquations }
{}
