//! The program of a whole text, whose tokens are a chunk.
ghost use Rattle.std.specs.Prelude.{◌≡◌, ◌∷◌, [], IfErr, IfOk, MatchResult};
ghost use Rattle.lua_ast.specs.declared.programs.Program.{Program};
ghost use Rattle.lua_ast.specs.WholeProgram.{IsWholeProgram};
ghost use Rattle.lua_grammar.specs.Grammar.{first_line, IsProgramOf};
ghost use Rattle.lua_grammar.specs.Printing.{lexemes};
ghost use Rattle.lua_parser_base.specs.Next.{IsMemory};
ghost use Rattle.lua_parser_base.specs.Standing.{IsBroken, OnLimit};
ghost use Rattle.lua_parser.specs.Unfit.{IsUnfit, OfAt};

use crate::statements::block;
use lua_ast::{Function, Program};
use lua_grammar::a_program_is_whole;
use lua_lexer::Token;
use lua_parser_base::{Nesting, ParseFault, Parser};
use resty_base::{ByteLists, Bytes};
use std::alloc::Global;

/// The program of a chunk's tokens, with one file without a name; the chunk is function 0. Tokens that have no program are
/// refused with a fault that says why, and the line of a token.
pub fn parse(alloc: Global, tokens: &[Token]) -> Result<Program, ParseFault>
    ensures program { IfOk result (IsProgramOf tokens.now) }
    ensures whole { IfOk result IsWholeProgram }
    ensures unfit { IfErr result (OfAt (IsUnfit tokens.now)) }
    ensures limits { IfErr result (OnLimit (IsBroken tokens.now)) }
    ensures complete { IfErr result (λ fault. (fault ≡ ParseFault.Memory → ⊥) → (program : Program) → IsProgramOf tokens.now program → ⊥) }
{
    let mut parser = Parser::new(alloc)?;
    let body = block(&mut parser, alloc, tokens, Nesting::outermost())?;
    if parser.index < tokens.len() {
        return Err(parser.unfit(tokens));
    }
    let functions = parser.into_functions(alloc, body, first_line(tokens))?;
    a_program_is_whole();
    program_of(alloc, functions)
}

/// The program of those functions, with one file without a name.
fn program_of(alloc: Global, functions: Vec<Function>) -> Result<Program, ParseFault>
    ensures { MatchResult result (λ program. (program.files ≡ [] ∷ []) × (program.functions ≡ functions)) IsMemory }
{
    let files = vec![in alloc; Bytes::new()]?;
    Ok(Program {
        files: ByteLists::of(files),
        functions,
    })
}

/// The line of the first token, 1 of none.
#[tactic(auto, using(lua_parser_base::proofs::Chunks::line_of_first, lua_parser_base::proofs::Chunks::line_of_none))]
fn first_line(tokens: &[Token]) -> u32
    ensures { result ≡ first_line (lexemes tokens.now) }
{
    match tokens.get(0) {
        Some(token) => token.line,
        None => 1,
    }
}
