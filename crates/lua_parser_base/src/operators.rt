//! Which kind of operand a token begins, and unary operators.
ghost use Rattle.std.specs.Prelude.{◌≡◌, IfOk, IfErr, MatchOption, OnOk};
ghost use Rattle.lua_grammar.specs.Operators.{kind_of_unary};
ghost use Rattle.lua_parser_base.specs.States.{state, Takes, Advances};
ghost use Rattle.lua_parser_base.specs.Next.{Misses, OnAt, ahead};
ghost use Rattle.lua_parser_base.specs.Kinds.{IsUnary, operand_of};

use crate::ParseFault;
use crate::cursor::Parser;
use lua_ast::UnOp;
use lua_grammar::Operator;
use lua_lexer::{Sign, Token, TokenKind, Word};

/// A binary operator, and its line.
#[derive(Clone, Copy)]
pub struct Infix {
    pub op: Operator,
    pub line: u32,
}

/// What an operand is by its first token.
#[derive(Clone, Copy, PartialEq, Eq)]
pub enum Operand {
    Unary,
    Closure,
    Table,
    Nil,
    True,
    False,
    Number,
    Text,
    Vararg,
    Prefix,
}

/// A unary operator, and its line.
#[derive(Clone, Copy)]
pub struct Prefixed {
    pub op: UnOp,
    pub line: u32,
}

impl Parser {
    /// What the next token begins.
    pub fn operand_ahead(&self, tokens: &[Token]) -> Operand
        ensures { result ≡ operand_of (ahead (state tokens.now self.now)) }
    {
        match tokens.get(self.index) {
            Some(token) => operand_of(&token.kind),
            None => Operand::Prefix,
        }
    }

    /// Reads a unary operator.
    pub fn take_unary(&mut self, tokens: &[Token]) -> Result<Prefixed, ParseFault>
        ensures takes { IfOk result (λ found. Takes (kind_of_unary found.op) found.line (state tokens.now self.old) (state tokens.now self.new)) }
        ensures misses { IfErr result (OnAt (Misses IsUnary (state tokens.now self.old) (state tokens.now self.new))) }
        ensures forward { OnOk result (Advances tokens.now self.old self.new) }
    {
        let Some(token) = tokens.get(self.index) else {
            return Err(self.unfit(tokens));
        };
        let Some(op) = unary_of(&token.kind) else {
            return Err(self.unfit(tokens));
        };
        self.advance(tokens, token);
        Ok(Prefixed {
            op,
            line: token.line,
        })
    }
}

/// What a token begins.
fn operand_of(kind: &TokenKind) -> Operand
    ensures { result ≡ operand_of kind.now }
{
    match kind {
        TokenKind::Word(Word::Not) | TokenKind::Sign(Sign::Hash) | TokenKind::Sign(Sign::Minus) =>
            Operand::Unary,
        TokenKind::Word(Word::Function) => Operand::Closure,
        TokenKind::Sign(Sign::OpenBrace) => Operand::Table,
        TokenKind::Word(Word::Nil) => Operand::Nil,
        TokenKind::Word(Word::True) => Operand::True,
        TokenKind::Word(Word::False) => Operand::False,
        TokenKind::Number(_) => Operand::Number,
        TokenKind::Text(_) => Operand::Text,
        TokenKind::Sign(Sign::Ellipsis) => Operand::Vararg,
        _ => Operand::Prefix,
    }
}

/// The unary operator that a token is, if it is one.
fn unary_of(kind: &TokenKind) -> Option<UnOp>
    ensures { MatchOption result (IsUnary kind.now → ⊥) (λ op. kind.now ≡ kind_of_unary op) }
{
    match kind {
        TokenKind::Word(Word::Not) => Some(UnOp::Not),
        TokenKind::Sign(Sign::Hash) => Some(UnOp::Length),
        TokenKind::Sign(Sign::Minus) => Some(UnOp::Minus),
        _ => None,
    }
}
