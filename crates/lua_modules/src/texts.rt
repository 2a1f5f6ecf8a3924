//! The program of a text: its tokens, and then their grammar.

ghost use Rattle.std.specs.Prelude.{IfOk, IfErr, ◌≤◌};
ghost use Rattle.lua_ast.specs.WholeProgram.{IsWholeProgram};
ghost use Rattle.lua_modules.specs.Texts.{HasProgram, IsTextFault};

use crate::ModuleFault;
use lua_ast::Program;
use lua_lexer::lex;
use lua_parser::parse;
use std::alloc::Global;

/// The program of a text that begins on this line.
pub(crate) fn program_of(alloc: Global, text: &[u8], line: u32) -> Result<Program, ModuleFault>
    requires { line ≤ 4_293_918_719 }
    ensures program { IfOk result (HasProgram line text.now) }
    ensures whole { IfOk result IsWholeProgram }
    ensures fault { IfErr result (IsTextFault line text.now) }
{
    let tokens = lex(alloc, text, line)?;
    Ok(parse(alloc, tokens.as_slice())?)
}
