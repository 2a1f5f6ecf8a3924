//! Expressions: operands, and the operators before and between them.
ghost use Rattle.std.specs.Prelude.{◌≤◌, ℕ, min, IfOk, IfErr, IfNone, OnOk};
ghost use Rattle.lua_grammar.specs.Operators.{kind_of, left_level, level};
ghost use Rattle.lua_grammar.specs.declared.operators.Operator.{Operator};
ghost use Rattle.lua_parser_base.specs.States.{state, Advances, IfAdvances, SkipsOperator, IfErrWhere};
ghost use Rattle.lua_parser_base.specs.Reads.{ReadsExp};
ghost use Rattle.lua_parser_base.specs.Next.{IsNext, ahead, IsAhead};
ghost use Rattle.lua_parser_base.specs.Kinds.{OperandBegins, UnaryBegins};
ghost use Rattle.lua_lexer.specs.declared.tokens.TokenKind.TheVariants.{Word as WordKind};
ghost use Rattle.lua_lexer.specs.declared.words.Word.TheVariants.{Function};
ghost use Rattle.lua_grammar.specs.Stopping.{EndsAt};
ghost use Rattle.lua_parser_base.specs.Refusals.{RefusesExp, RefusesFrom};
ghost use Rattle.lua_parser_base.specs.Standing.{FirstFault};
ghost use Rattle.lua_parser_base.specs.Standing as Standing;
ghost use Rattle.lua_parser.specs.Parts.{FirstFaultOfRight, ReadsRight, RefusesRight};

use crate::pairs::beside;
use crate::statements::body;
use crate::suffixes::{prefix, table};
use lua_ast::ExprKind;
use lua_grammar::{left_level, level, operator_of, right_level};
use lua_lexer::{Token, Word};
use lua_parser_base::{
    Built, Infix, Nesting, Operand, ParseFault, Parser, Prefix, binary, leaf, unary,
};
use std::alloc::Global;

/// Reads a binary operator where it is the next token and may stand after an expression of the level `left` in one of
/// at least the level `lowest`.
fn skip_operator(parser: &mut Parser, tokens: &[Token], left: u8, lowest: u8) -> Option<Infix>
    ensures skips { SkipsOperator left lowest result (state tokens.now parser.old) (state tokens.now parser.new) }
    ensures missing { IfNone result ((op : Operator) → IsNext (kind_of op) (state tokens.now parser.old) → lowest ≤ level op → left_level op ≤ left → ⊥) }
    ensures forward { IfAdvances result tokens.now parser.old parser.new }
{
    let token = tokens.get(parser.index)?;
    let op = operator_of(&token.kind)?;
    if lowest <= level(op) && left_level(op) <= left {
        parser.advance(tokens, token);
        return Some(Infix {
            op,
            line: token.line,
        });
    }
    None
}

/// exp ::= exp binop exp
/// Reads an expression of at least that level of precedence, as long as it goes. A unary operator may begin it anyway.
#[cycle(descent)]
pub(crate) fn expression(
    parser: &mut Parser,
    alloc: Global,
    tokens: &[Token],
    at: Nesting,
    lowest: u8,
) -> Result<Built, ParseFault>
    ensures reads { IfOk result (λ b. ReadsExp at (state tokens.now parser.old) b (state tokens.now parser.new)) }
    ensures level { IfOk result (λ b. min lowest 7 ≤ b.level) }
    ensures ends { OnOk result (EndsAt lowest (ahead (state tokens.now parser.new))) }
    ensures refuses { lowest ≤ 7 → IfErr result (RefusesFrom lowest at (state tokens.now parser.old) (state tokens.now parser.new)) }
    ensures order { IfErr result (FirstFault (Standing.here (Standing.exp lowest) at) (state tokens.now parser.old) (state tokens.now parser.new)) }
    ensures forward { OnOk result (Advances tokens.now parser.old parser.new) }
{
    let mut left = operand(parser, alloc, tokens, at)?;
    while let Some(infix) = skip_operator(parser, tokens, left.level, lowest) {
        let right = right_operand(parser, alloc, tokens, at, &left, infix);
        let (before, right) = beside(left, right)?;
        left = binary(alloc, before, infix.op, infix.line, right)?;
    }
    Ok(left)
}

/// exp ::= exp binop exp
/// Reads what stands after the operator, where what stands before it isn't too high.
#[cycle(descent)]
fn right_operand(
    parser: &mut Parser,
    alloc: Global,
    tokens: &[Token],
    at: Nesting,
    left: &Built,
    found: Infix,
) -> Result<Built, ParseFault>
    ensures reads { IfOk result (λ right. ReadsRight at left.now found (state tokens.now parser.old) right (state tokens.now parser.new)) }
    ensures refuses { IfErr result (RefusesRight at left.now found (state tokens.now parser.old) (state tokens.now parser.new)) }
    ensures order { IfErr result (FirstFaultOfRight at left.now found (state tokens.now parser.old) (state tokens.now parser.new)) }
    ensures forward { OnOk result (Advances tokens.now parser.old parser.new) }
{
    at.above(left.height, found.line)?;
    let inner = parser.part(tokens, at)?;
    expression(parser, alloc, tokens, inner, right_level(found.op))
}

/// exp ::= nil | false | true | Number | String | `...´ | function | prefixexp | tableconstructor | unop exp
/// Reads an expression without a binary operator, but for one within a unary operand.
#[cycle(descent)]
fn operand(
    parser: &mut Parser,
    alloc: Global,
    tokens: &[Token],
    at: Nesting,
) -> Result<Built, ParseFault>
    ensures reads { IfOk result (λ b. ReadsExp at (state tokens.now parser.old) b (state tokens.now parser.new)) }
    ensures level { IfOk result (λ b. 7 ≤ b.level) }
    ensures refuses { IfErr result (RefusesExp at (state tokens.now parser.old) (state tokens.now parser.new)) }
    ensures order { (m : ℕ) → IfErr result (FirstFault (Standing.here (Standing.exp m) at) (state tokens.now parser.old) (state tokens.now parser.new)) }
    ensures forward { OnOk result (Advances tokens.now parser.old parser.new) }
{
    match parser.operand_ahead(tokens) {
        Operand::Unary => unary_operand(parser, alloc, tokens, at),
        Operand::Closure => closure(parser, alloc, tokens, at),
        Operand::Table => table(parser, alloc, tokens, at),
        Operand::Nil => parser.nil(tokens, at),
        Operand::True => parser.truth(tokens, at),
        Operand::False => parser.falsity(tokens, at),
        Operand::Number => parser.number(tokens, at),
        Operand::Text => parser.text(tokens, at),
        Operand::Vararg => parser.vararg(tokens, at),
        Operand::Prefix => prefix_operand(parser, alloc, tokens, at),
    }
}

/// exp ::= unop exp
#[cycle(descent)]
fn unary_operand(
    parser: &mut Parser,
    alloc: Global,
    tokens: &[Token],
    at: Nesting,
) -> Result<Built, ParseFault>
    ensures reads { IfOk result (λ b. ReadsExp at (state tokens.now parser.old) b (state tokens.now parser.new)) }
    ensures level { IfOk result (λ b. 7 ≤ b.level) }
    ensures refuses { IfErrWhere UnaryBegins result (RefusesExp at) tokens.now parser.old parser.new }
    ensures order { (m : ℕ) → IfErr result (FirstFault (Standing.here (Standing.exp m) at) (state tokens.now parser.old) (state tokens.now parser.new)) }
    ensures forward { OnOk result (Advances tokens.now parser.old parser.new) }
{
    let prefixed = parser.take_unary(tokens)?;
    let inner = parser.part(tokens, at)?;
    let operand = expression(parser, alloc, tokens, inner, 7)?;
    unary(alloc, prefixed.op, prefixed.line, operand)
}

/// function ::= function funcbody
#[cycle(descent)]
fn closure(
    parser: &mut Parser,
    alloc: Global,
    tokens: &[Token],
    at: Nesting,
) -> Result<Built, ParseFault>
    ensures reads { IfOk result (λ b. ReadsExp at (state tokens.now parser.old) b (state tokens.now parser.new)) }
    ensures level { IfOk result (λ b. 7 ≤ b.level) }
    ensures refuses { IfErrWhere (IsAhead (WordKind Function)) result (RefusesExp at) tokens.now parser.old parser.new }
    ensures order { (m : ℕ) → IfErr result (FirstFault (Standing.here (Standing.exp m) at) (state tokens.now parser.old) (state tokens.now parser.new)) }
    ensures forward { OnOk result (Advances tokens.now parser.old parser.new) }
{
    let line = parser.take_word(tokens, Word::Function)?;
    let number = body(parser, alloc, tokens, at, line, Vec::new(alloc))?;
    Ok(leaf(line, ExprKind::Function(number)))
}

/// exp ::= prefixexp
#[cycle(descent)]
fn prefix_operand(
    parser: &mut Parser,
    alloc: Global,
    tokens: &[Token],
    at: Nesting,
) -> Result<Built, ParseFault>
    ensures reads { IfOk result (λ b. ReadsExp at (state tokens.now parser.old) b (state tokens.now parser.new)) }
    ensures level { IfOk result (λ b. 7 ≤ b.level) }
    ensures refuses { IfErrWhere (OperandBegins Operand.Prefix) result (RefusesExp at) tokens.now parser.old parser.new }
    ensures order { (m : ℕ) → IfErr result (FirstFault (Standing.here (Standing.exp m) at) (state tokens.now parser.old) (state tokens.now parser.new)) }
    ensures forward { OnOk result (Advances tokens.now parser.old parser.new) }
{
    let prefix = prefix(parser, alloc, tokens, at)?;
    let Prefix { expr, height, .. } = prefix;
    Ok(Built {
        expr,
        height,
        level: 9,
    })
}
