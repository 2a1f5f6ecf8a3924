//! What a prefix goes on with, and the separators and names of fields.
ghost use Rattle.std.specs.Prelude.{◌≡◌, ◌<◌, ◌↔◌, Some, slice_get, IfOk, IfErr, IsTrue, MatchOption, OnOk};
ghost use Rattle.lua_lexer.specs.declared.tokens.TokenKind.TheVariants.{Sign as SignKind};
ghost use Rattle.lua_lexer.specs.declared.signs.Sign.TheVariants.{Dot, OpenParenthesis};
ghost use Rattle.lua_grammar.specs.Grammar.{first_line};
ghost use Rattle.lua_parser_base.specs.States.{state, Advances, TakesSeparator, OpensOnLine, GoesOn, Stops, IfErrWhere};
ghost use Rattle.lua_parser_base.specs.Reads.{ReadsPrefix, Extends};
ghost use Rattle.lua_parser_base.specs.ReadsNames.{TakesMember};
ghost use Rattle.lua_parser_base.specs.Next.{Begin, CannotOpen, IsKind, IsNext, Misses, MissesMemberBelow, OnAt, IsNotNext};
ghost use Rattle.lua_parser_base.specs.Kinds.{BeginNamed, IsSeparator, IsSuffix};
ghost use Rattle.lua_parser_base.specs.Refusals.{RefusesPrefix, RefusesSuffix};
ghost use Rattle.lua_parser_base.specs.Standing.{FirstFault, FirstFaultOfPrefix};
ghost use Rattle.lua_parser_base.specs.Standing as Standing;

use crate::ParseFault;
use crate::cursor::{Named, Parser, is_name, is_sign};
use crate::nesting::Nesting;
use crate::nodes::{Form, Prefix, member, share};
use lua_lexer::{Sign, Token, TokenKind};
use std::alloc::Global;

/// What may follow a prefix.
#[derive(Clone, Copy, PartialEq, Eq)]
pub enum Suffix {
    Member,
    Item,
    Method,
    Arguments,
}

impl Parser {
    /// What follows a prefix, if it goes on.
    pub fn suffix_ahead(&self, tokens: &[Token]) -> Option<Suffix>
        ensures { MatchOption result (Stops (state tokens.now self.now)) (λ suffix. Begin (IsSuffix suffix) (state tokens.now self.now).left) }
    {
        let Some(token) = tokens.get(self.index) else {
            return None;
        };
        suffix_of(&token.kind)
    }

    /// var ::= Name
    /// It stands wherever an expression does.
    pub fn name(&mut self, tokens: &[Token], at: Nesting) -> Result<Prefix, ParseFault>
        ensures reads { IfOk result (λ p. ReadsPrefix at (state tokens.now self.old) p (state tokens.now self.new)) }
        ensures refuses { IfErrWhere (IsNotNext (SignKind OpenParenthesis)) result (RefusesPrefix at) tokens.now self.old self.new }
        ensures order { IfErr result (FirstFault (Standing.prefix at) (state tokens.now self.old) (state tokens.now self.new)) }
        ensures forward { OnOk result (Advances tokens.now self.old self.new) }
    {
        let named = self.take_name(tokens)?;
        Ok(Prefix {
            expr: self.variable(named)?,
            height: 1,
            form: Form::Variable,
        })
    }

    /// var ::= prefixexp `.´ Name
    /// Reads `.name` after a prefix.
    pub fn member(
        &mut self,
        alloc: Global,
        tokens: &[Token],
        at: Nesting,
        object: Prefix,
    ) -> Result<Prefix, ParseFault>
        ensures reads { IfOk result (λ p. Extends at object (state tokens.now self.old) p (state tokens.now self.new)) }
        ensures refuses { IfErrWhere (IsNext (SignKind Dot)) result (RefusesSuffix at object) tokens.now self.old self.new }
        ensures order { IfErr result (FirstFaultOfPrefix at object (state tokens.now self.old) (state tokens.now self.new)) }
        ensures forward { OnOk result (Advances tokens.now self.old self.new) }
    {
        let Prefix { expr, height, .. } = object;
        let object = share(alloc, expr)?;
        let (dot, named) = self.take_member(tokens, Sign::Dot, height, at.room)?;
        Ok(Prefix {
            expr: member(alloc, object, dot, named)?,
            height: height.saturating_add(1),
            form: Form::Variable,
        })
    }

    /// Reads that sign and a name, and returns the sign's line with the name. What stands before the sign has that height, which is to be below `room`.
    pub(crate) fn take_member(
        &mut self,
        tokens: &[Token],
        sign: Sign,
        height: u32,
        room: u32,
    ) -> Result<(u32, Named), ParseFault>
        ensures takes { IfOk result (λ found. TakesMember sign found.0 found.1.name found.1.line (state tokens.now self.old) (state tokens.now self.new)) }
        ensures low { OnOk result (height < room) }
        ensures misses { IfErr result (MissesMemberBelow room sign height (state tokens.now self.old) (state tokens.now self.new)) }
        ensures forward { OnOk result (Advances tokens.now self.old self.new) }
    {
        let line = self.take_sign(tokens, sign)?;
        if height >= room {
            return Err(ParseFault::Depth(line));
        }
        Ok((line, self.take_name(tokens)?))
    }

    /// The line of the next token, with which arguments may begin.
    pub fn arguments_line(&self, tokens: &[Token]) -> Result<u32, ParseFault>
        ensures line { IfOk result (λ line. line ≡ first_line (state tokens.now self.now).left) }
        ensures same { OnOk result (OpensOnLine (state tokens.now self.now)) }
        ensures closed { IfErr result (CannotOpen (state tokens.now self.now)) }
    {
        let Some(token) = tokens.get(self.index) else {
            return Err(self.unfit(tokens));
        };
        self.opening_line(tokens, token)
    }

    /// The line of that token, which is the next one; a `(` has to be on the line of the token before it.
    fn opening_line(&self, tokens: &[Token], token: &Token) -> Result<u32, ParseFault>
        requires { slice_get tokens.now self.now.index ≡ Some token.now }
        ensures line { IfOk result (λ line. line ≡ first_line (state tokens.now self.now).left) }
        ensures same { OnOk result (OpensOnLine (state tokens.now self.now)) }
        ensures closed { IfErr result (CannotOpen (state tokens.now self.now)) }
    {
        if is_open_parenthesis(&token.kind) {
            if token.line == self.line {
                return Ok(token.line);
            }
            return Err(ParseFault::Ambiguous(token.line));
        }
        Ok(token.line)
    }

    /// fieldsep ::= `,´ | `;´
    #[tactic(auto, using(crate::proofs::Tables::comma_taken, crate::proofs::Tables::semicolon_taken))]
    pub fn take_separator(&mut self, tokens: &[Token]) -> Result<(), ParseFault>
        ensures takes { OnOk result (TakesSeparator (state tokens.now self.old) (state tokens.now self.new)) }
        ensures misses { IfErr result (OnAt (Misses IsSeparator (state tokens.now self.old) (state tokens.now self.new))) }
        ensures forward { OnOk result (Advances tokens.now self.old self.new) }
    {
        if self.at_sign(tokens, Sign::Comma) {
            self.take_sign(tokens, Sign::Comma)?;
            return Ok(());
        }
        self.take_sign(tokens, Sign::Semicolon)?;
        Ok(())
    }

    /// Whether a name and `=` follow.
    pub fn at_named_field(&self, tokens: &[Token]) -> bool
        ensures { IsTrue result ↔ BeginNamed (state tokens.now self.now).left }
    {
        let Some(token) = tokens.get(self.index) else {
            return false;
        };
        let Some(next) = tokens.get(self.index + 1) else {
            return false;
        };
        is_name(&token.kind) && is_sign(&next.kind, Sign::Assign)
    }
}

/// What follows a prefix where a token goes on with it.
fn suffix_of(kind: &TokenKind) -> Option<Suffix>
    ensures { MatchOption result (GoesOn kind.now → ⊥) (λ suffix. IsSuffix suffix kind.now) }
{
    match kind {
        TokenKind::Sign(Sign::Dot) => Some(Suffix::Member),
        TokenKind::Sign(Sign::OpenBracket) => Some(Suffix::Item),
        TokenKind::Sign(Sign::Colon) => Some(Suffix::Method),
        TokenKind::Sign(Sign::OpenParenthesis) | TokenKind::Sign(Sign::OpenBrace) => {
            Some(Suffix::Arguments)
        }
        TokenKind::Text(_) => Some(Suffix::Arguments),
        _ => None,
    }
}

/// Whether a token is `(`.
fn is_open_parenthesis(kind: &TokenKind) -> bool
    ensures { IsTrue result ↔ IsKind (SignKind OpenParenthesis) kind.now }
{
    matches!(kind, TokenKind::Sign(Sign::OpenParenthesis))
}
