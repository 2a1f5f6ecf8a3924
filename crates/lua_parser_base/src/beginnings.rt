//! What a token begins in a block, the statement `break`, and the name of a function in a statement.
ghost use Rattle.std.specs.Prelude.{◌≡◌, IfErr, IfOk, OnOk};
ghost use Rattle.lua_parser_base.specs.States.{state, Advances, IfErrWhere};
ghost use Rattle.lua_parser_base.specs.ReadsStatements.{ReadsLast, ReadsFuncName, ReadsMember};
ghost use Rattle.lua_lexer.specs.declared.tokens.TokenKind.TheVariants.{Sign as SignKind};
ghost use Rattle.lua_lexer.specs.declared.tokens.TokenKind.TheVariants.{Word as WordKind};
ghost use Rattle.lua_lexer.specs.declared.signs.Sign.TheVariants.{Dot};
ghost use Rattle.lua_lexer.specs.declared.words.Word.TheVariants.{Break};
ghost use Rattle.lua_parser_base.specs.Next.{IsNext, MissesMember, ahead};
ghost use Rattle.lua_parser_base.specs.Kinds.{begins_of};
ghost use Rattle.lua_parser_base.specs.declared.nesting.Nesting.{Nesting};
ghost use Rattle.lua_parser_base.specs.Standing.{FirstFault};
ghost use Rattle.lua_parser_base.specs.Standing as Standing;
ghost use Rattle.lua_parser_base.specs.StatementRefusals.{RefusesFuncName, RefusesLast};

use crate::ParseFault;
use crate::cursor::Parser;
use crate::nesting::{HIGHEST, Nesting};
use crate::nodes::{member, share};
use crate::statement_nodes::FunctionName;
use lua_ast::{Stmt, StmtKind};
use lua_lexer::{Sign, Token, TokenKind, Word};
use std::alloc::Global;

/// What the next token begins.
#[derive(Clone, Copy, PartialEq, Eq)]
pub enum Begins {
    If,
    While,
    Do,
    For,
    Repeat,
    Function,
    Local,
    /// The last statement of a block.
    Last,
    /// The block ends.
    Nothing,
    /// An assignment or a call.
    Prefix,
}

impl Parser {
    /// What the next token begins in a block.
    pub fn begins(&self, tokens: &[Token]) -> Begins
        ensures { result ≡ begins_of (ahead (state tokens.now self.now)) }
    {
        match tokens.get(self.index) {
            Some(token) => begins_of(&token.kind),
            None => Begins::Nothing,
        }
    }

    /// laststat ::= break
    /// It stands in a loop alone.
    pub fn break_statement(&mut self, tokens: &[Token], at: Nesting) -> Result<Stmt, ParseFault>
        ensures reads { IfOk result (λ last. ReadsLast at (state tokens.now self.old) last (state tokens.now self.new)) }
        ensures refuses { IfErrWhere (IsNext (WordKind Break)) result (RefusesLast at) tokens.now self.old self.new }
        ensures order { IfErr result (FirstFault (Standing.statement at) (state tokens.now self.old) (state tokens.now self.new)) }
        ensures forward { OnOk result (Advances tokens.now self.old self.new) }
    {
        let line = self.take_word(tokens, Word::Break)?;
        if !at.in_loop {
            return Err(ParseFault::BreakOutside(line));
        }
        Ok(Stmt {
            line,
            kind: StmtKind::Break,
        })
    }

    /// funcname ::= Name {`.´ Name} [`:´ Name]
    /// Reads the name of a function in a statement up to the `:` of a method.
    pub fn function_name(
        &mut self,
        alloc: Global,
        tokens: &[Token],
    ) -> Result<FunctionName, ParseFault>
        ensures reads { IfOk result (λ name. ReadsFuncName (state tokens.now self.old) name (state tokens.now self.new)) }
        ensures stops { OnOk result (IsNext (SignKind Dot) (state tokens.now self.new) → ⊥) }
        ensures refuses { (at : Nesting) → IfErr result (RefusesFuncName at (state tokens.now self.old) (state tokens.now self.new)) }
        ensures order { IfErr result (FirstFault (Standing.function_name) (state tokens.now self.old) (state tokens.now self.new)) }
        ensures forward { OnOk result (Advances tokens.now self.old self.new) }
    {
        let named = self.take_name(tokens)?;
        let mut name = FunctionName {
            target: self.variable(named)?,
            height: 1,
        };
        while self.at_sign(tokens, Sign::Dot) {
            name = self.name_member(alloc, tokens, Sign::Dot, name)?;
        }
        Ok(name)
    }

    /// Reads that sign and a name after the name of a function in a statement.
    pub fn name_member(
        &mut self,
        alloc: Global,
        tokens: &[Token],
        sign: Sign,
        object: FunctionName,
    ) -> Result<FunctionName, ParseFault>
        ensures reads { IfOk result (λ whole. ReadsMember sign object (state tokens.now self.old) whole (state tokens.now self.new)) }
        ensures misses { IfErr result (MissesMember sign object.height (state tokens.now self.old) (state tokens.now self.new)) }
        ensures forward { OnOk result (Advances tokens.now self.old self.new) }
    {
        let FunctionName { target, height } = object;
        let object = share(alloc, target)?;
        let (line, named) = self.take_member(tokens, sign, height, HIGHEST)?;
        Ok(FunctionName {
            target: member(alloc, object, line, named)?,
            height: height + 1,
        })
    }
}

/// What a token begins in a block.
fn begins_of(kind: &TokenKind) -> Begins
    ensures { result ≡ begins_of kind.now }
{
    match kind {
        TokenKind::Word(Word::If) => Begins::If,
        TokenKind::Word(Word::While) => Begins::While,
        TokenKind::Word(Word::Do) => Begins::Do,
        TokenKind::Word(Word::For) => Begins::For,
        TokenKind::Word(Word::Repeat) => Begins::Repeat,
        TokenKind::Word(Word::Function) => Begins::Function,
        TokenKind::Word(Word::Local) => Begins::Local,
        TokenKind::Word(Word::Return) | TokenKind::Word(Word::Break) => Begins::Last,
        TokenKind::Word(Word::End)
        | TokenKind::Word(Word::Else)
        | TokenKind::Word(Word::ElseIf)
        | TokenKind::Word(Word::Until) => Begins::Nothing,
        _ => Begins::Prefix,
    }
}
