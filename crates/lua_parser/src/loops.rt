//! Loops: `while`, `repeat`, and both kinds of `for`.
ghost use Rattle.std.specs.Prelude.{◌≡◌, ℕ, List, length, IfErr, IfNone, IfOk, OnOk};
ghost use Rattle.lua_lexer.specs.declared.tokens.TokenKind.TheVariants.{Sign as SignKind, Word as WordKind};
ghost use Rattle.lua_lexer.specs.declared.signs.Sign.TheVariants.{Assign, Comma};
ghost use Rattle.lua_lexer.specs.declared.words.Word.TheVariants.{For, Repeat, While};
ghost use Rattle.lua_grammar.specs.Tree.{NameList};
ghost use Rattle.lua_grammar.specs.Resolution.{names_of};
ghost use Rattle.lua_parser_base.specs.States.{state, Advances, AdvancesOrStays, IfErrWhere, CanDeclare};
ghost use Rattle.lua_parser_base.specs.Next.{IsNext, IsAhead, IsNotNext};
ghost use Rattle.lua_parser_base.specs.ReadsStatements.{ReadsStat, ReadsLoop, ReadsStep, before_for};
ghost use Rattle.lua_parser_base.specs.StatementRefusals.{RefusesFor, RefusesLoop, RefusesStat, RefusesStep};
ghost use Rattle.lua_parser_base.specs.Standing.{FirstFault};
ghost use Rattle.lua_parser_base.specs.Standing as Standing;
ghost use Rattle.lua_parser.specs.Parts.{ReadsRange};

use crate::pairs::{before_word, beside};
use crate::statements::{inner_block, scoped, value, values};
use lua_ast::{Expr, Stmt};
use lua_lexer::{Sign, Token, Word};
use lua_parser_base::{
    LoopBlock, Nesting, ParseFault, Parser, Range, generic_for, numeric_for, repeat_node,
    while_node,
};
use resty_base::Bytes;
use std::alloc::Global;

/// stat ::= while exp do block end
#[cycle(descent)]
pub(crate) fn while_loop(
    parser: &mut Parser,
    alloc: Global,
    tokens: &[Token],
    at: Nesting,
) -> Result<Stmt, ParseFault>
    ensures reads { IfOk result (λ out. ReadsStat at (state tokens.now parser.old) out (state tokens.now parser.new)) }
    ensures refuses { IfErrWhere (IsAhead (WordKind While)) result (RefusesStat at) tokens.now parser.old parser.new }
    ensures order { IfErr result (FirstFault (Standing.statement at) (state tokens.now parser.old) (state tokens.now parser.new)) }
    ensures forward { OnOk result (Advances tokens.now parser.old parser.new) }
{
    let line = parser.take_word(tokens, Word::While)?;
    let test = value(parser, alloc, tokens, at)?;
    let (test, _) = beside(test, parser.take_word(tokens, Word::Do))?;
    let body = scoped(parser, alloc, tokens, at.looped());
    let (test, body) = beside(test, before_word(body, parser, tokens, Word::End))?;
    while_node(alloc, line, test, body)
}

/// stat ::= repeat block until exp
#[cycle(descent)]
pub(crate) fn repeat_loop(
    parser: &mut Parser,
    alloc: Global,
    tokens: &[Token],
    at: Nesting,
) -> Result<Stmt, ParseFault>
    ensures reads { IfOk result (λ out. ReadsStat at (state tokens.now parser.old) out (state tokens.now parser.new)) }
    ensures refuses { IfErrWhere (IsAhead (WordKind Repeat)) result (RefusesStat at) tokens.now parser.old parser.new }
    ensures order { IfErr result (FirstFault (Standing.statement at) (state tokens.now parser.old) (state tokens.now parser.new)) }
    ensures forward { OnOk result (Advances tokens.now parser.old parser.new) }
{
    let line = parser.take_word(tokens, Word::Repeat)?;
    let count = parser.in_scope();
    let body = inner_block(parser, alloc, tokens, at.looped())?;
    parser.take_word(tokens, Word::Until)?;
    let test = value(parser, alloc, tokens, at)?;
    parser.leave(count);
    repeat_node(alloc, line, body, test)
}

/// stat ::= for Name `=´ exp `,´ exp [`,´ exp] do block end | for namelist in explist do block end
#[cycle(descent)]
pub(crate) fn for_loop(
    parser: &mut Parser,
    alloc: Global,
    tokens: &[Token],
    at: Nesting,
) -> Result<Stmt, ParseFault>
    ensures reads { IfOk result (λ out. ReadsStat at (state tokens.now parser.old) out (state tokens.now parser.new)) }
    ensures refuses { IfErrWhere (IsAhead (WordKind For)) result (RefusesStat at) tokens.now parser.old parser.new }
    ensures order { IfErr result (FirstFault (Standing.statement at) (state tokens.now parser.old) (state tokens.now parser.new)) }
    ensures forward { OnOk result (Advances tokens.now parser.old parser.new) }
{
    let line = parser.take_word(tokens, Word::For)?;
    let count = parser.in_scope();
    let names = parser.names(alloc, tokens, count)?;
    if parser.at_sign(tokens, Sign::Assign) {
        return range_loop(parser, alloc, tokens, at, names, line);
    }
    list_loop(parser, alloc, tokens, at, names, line)
}

/// stat ::= for Name `=´ exp `,´ exp [`,´ exp] do block end
/// Reads it from its `=` on. Its `for` is on that line.
#[cycle(descent)]
fn range_loop(
    parser: &mut Parser,
    alloc: Global,
    tokens: &[Token],
    at: Nesting,
    names: Vec<Bytes>,
    line: u32,
) -> Result<Stmt, ParseFault>
    ensures reads { IfOk result (λ out. (list : NameList) → names.items ≡ names_of list
        → ReadsStat at (before_for line list (state tokens.now parser.old)) out (state tokens.now parser.new)) }
    ensures refuses { IfErrWhere (IsNext (SignKind Assign)) result (RefusesFor at names.items) tokens.now parser.old parser.new }
    ensures order { IfErrWhere (CanDeclare names.items) result (FirstFault (Standing.for_tail at names.items)) tokens.now parser.old parser.new }
    ensures forward { OnOk result (Advances tokens.now parser.old parser.new) }
{
    if names.len() != 1 {
        return Err(parser.unfit(tokens));
    }
    let range = range(parser, alloc, tokens, at)?;
    let block = loop_block(parser, alloc, tokens, at, names, line);
    let (range, block) = beside(range, block)?;
    numeric_for(alloc, line, range, block)
}

/// `=´ exp `,´ exp [`,´ exp]
/// Reads them after a name.
#[cycle(descent)]
fn range(
    parser: &mut Parser,
    alloc: Global,
    tokens: &[Token],
    at: Nesting,
) -> Result<Range, ParseFault>
    ensures reads { IfOk result (λ range. ReadsRange at (state tokens.now parser.old) range (state tokens.now parser.new)) }
    ensures refuses { (names : List (List ℕ)) → length names ≡ 1
        → IfErrWhere (IsNext (SignKind Assign)) result (RefusesFor at names) tokens.now parser.old parser.new }
    ensures order { (names : List (List ℕ)) → length names ≡ 1
        → IfErr result (FirstFault (Standing.for_tail at names) (state tokens.now parser.old) (state tokens.now parser.new)) }
    ensures forward { OnOk result (Advances tokens.now parser.old parser.new) }
{
    parser.take_sign(tokens, Sign::Assign)?;
    let from = value(parser, alloc, tokens, at)?;
    let (from, _) = beside(from, parser.take_sign(tokens, Sign::Comma))?;
    let (from, to) = beside(from, value(parser, alloc, tokens, at))?;
    match step(parser, alloc, tokens, at) {
        Ok(step) => Ok(Range { from, to, step }),
        Err(fault) => {
            drop(from);
            drop(to);
            Err(fault)
        }
    }
}

/// [`,´ exp]
/// Reads them where they stand next.
#[cycle(descent)]
fn step(
    parser: &mut Parser,
    alloc: Global,
    tokens: &[Token],
    at: Nesting,
) -> Result<Option<Expr>, ParseFault>
    ensures reads { IfOk result (λ step. ReadsStep at (state tokens.now parser.old) step (state tokens.now parser.new)) }
    ensures stops { IfOk result (λ step. IfNone step (IsNext (SignKind Comma) (state tokens.now parser.old) → ⊥)) }
    ensures refuses { IfErr result (RefusesStep at (state tokens.now parser.old) (state tokens.now parser.new)) }
    ensures order { IfErr result (FirstFault (Standing.step at) (state tokens.now parser.old) (state tokens.now parser.new)) }
    ensures forward { OnOk result (AdvancesOrStays tokens.now parser.old parser.new) }
{
    if !parser.at_sign(tokens, Sign::Comma) {
        return Ok(None);
    }
    parser.take_sign(tokens, Sign::Comma)?;
    let step = value(parser, alloc, tokens, at)?;
    Ok(Some(step))
}

/// stat ::= for namelist in explist do block end
/// Reads it from its `in` on. Its `for` is on that line.
#[cycle(descent)]
fn list_loop(
    parser: &mut Parser,
    alloc: Global,
    tokens: &[Token],
    at: Nesting,
    names: Vec<Bytes>,
    line: u32,
) -> Result<Stmt, ParseFault>
    ensures reads { IfOk result (λ out. (list : NameList) → names.items ≡ names_of list
        → ReadsStat at (before_for line list (state tokens.now parser.old)) out (state tokens.now parser.new)) }
    ensures refuses { IfErrWhere (IsNotNext (SignKind Assign)) result (RefusesFor at names.items) tokens.now parser.old parser.new }
    ensures order { IfErrWhere (CanDeclare names.items) result (FirstFault (Standing.for_tail at names.items)) tokens.now parser.old parser.new }
    ensures forward { OnOk result (Advances tokens.now parser.old parser.new) }
{
    parser.take_word(tokens, Word::In)?;
    let values = values(parser, alloc, tokens, at)?;
    let block = loop_block(parser, alloc, tokens, at, names, line)?;
    generic_for(alloc, line, values, block)
}

/// do block end
/// The block sees the loop's variables.
#[cycle(descent)]
fn loop_block(
    parser: &mut Parser,
    alloc: Global,
    tokens: &[Token],
    at: Nesting,
    names: Vec<Bytes>,
    line: u32,
) -> Result<LoopBlock, ParseFault>
    ensures reads { IfOk result (λ block. ReadsLoop at names.items (state tokens.now parser.old) block (state tokens.now parser.new)) }
    ensures refuses { IfErr result (RefusesLoop at names.items (state tokens.now parser.old) (state tokens.now parser.new)) }
    ensures order { IfErrWhere (CanDeclare names.items) result (FirstFault (Standing.loop at names.items)) tokens.now parser.old parser.new }
    ensures forward { OnOk result (Advances tokens.now parser.old parser.new) }
{
    parser.take_word(tokens, Word::Do)?;
    let count = parser.in_scope();
    let slots = parser.declare(alloc, names, line)?;
    let body = inner_block(parser, alloc, tokens, at.looped())?;
    parser.leave(count);
    parser.take_word(tokens, Word::End)?;
    Ok(LoopBlock { slots, body })
}
