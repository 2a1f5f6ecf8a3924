//! Operands of one token: `nil`, `true`, `false`, a number, a text and `...`.
ghost use Rattle.std.specs.Prelude.{◌≤◌, ℕ, ℤ, List, IfOk, IfErr, OnOk};
ghost use Rattle.lua_lexer.specs.declared.tokens.TokenKind.TheVariants.{Number as NumberKind, Sign as SignKind, Text as TextKind, Word as WordKind};
ghost use Rattle.lua_parser_base.specs.States.{state, Takes, Advances, IfErrWhere};
ghost use Rattle.lua_parser_base.specs.Reads.{ReadsExp};
ghost use Rattle.lua_parser_base.specs.Next.{Begin, IsMemory, IsNext, IsNumber, IsText, Misses, OnAt};
ghost use Rattle.lua_parser_base.specs.Refusals.{RefusesExp};
ghost use Rattle.lua_lexer.specs.declared.signs.Sign.TheVariants.{Ellipsis};
ghost use Rattle.lua_lexer.specs.declared.words.Word.TheVariants.{False, Nil, True};
ghost use Rattle.lua_parser_base.specs.Standing.{FirstFault};
ghost use Rattle.lua_parser_base.specs.Standing as Standing;

use crate::ParseFault;
use crate::cursor::Parser;
use crate::nesting::Nesting;
use crate::nodes::{Built, leaf};
use lua_ast::ExprKind;
use lua_lexer::{Sign, Token, TokenKind, Word};
use resty_base::Whole;

/// A number, and its line.
#[derive(Clone, Copy)]
pub(crate) struct Numeral {
    pub number: Whole,
    pub line: u32,
}

impl Parser {
    /// Reads `nil`.
    pub fn nil(&mut self, tokens: &[Token], at: Nesting) -> Result<Built, ParseFault>
        ensures reads { IfOk result (λ b. ReadsExp at (state tokens.now self.old) b (state tokens.now self.new)) }
        ensures level { IfOk result (λ b. 7 ≤ b.level) }
        ensures takes { IfOk result (λ b. Takes (WordKind Nil) b.expr.line (state tokens.now self.old) (state tokens.now self.new)) }
        ensures surely { IsNext (WordKind Nil) (state tokens.now self.old) → IfErr result IsMemory }
        ensures forward { OnOk result (Advances tokens.now self.old self.new) }
    {
        let line = self.take_word(tokens, Word::Nil)?;
        Ok(leaf(line, ExprKind::Nil))
    }

    /// Reads `true`.
    pub fn truth(&mut self, tokens: &[Token], at: Nesting) -> Result<Built, ParseFault>
        ensures reads { IfOk result (λ b. ReadsExp at (state tokens.now self.old) b (state tokens.now self.new)) }
        ensures level { IfOk result (λ b. 7 ≤ b.level) }
        ensures takes { IfOk result (λ b. Takes (WordKind True) b.expr.line (state tokens.now self.old) (state tokens.now self.new)) }
        ensures surely { IsNext (WordKind True) (state tokens.now self.old) → IfErr result IsMemory }
        ensures forward { OnOk result (Advances tokens.now self.old self.new) }
    {
        let line = self.take_word(tokens, Word::True)?;
        Ok(leaf(line, ExprKind::True))
    }

    /// Reads `false`.
    pub fn falsity(&mut self, tokens: &[Token], at: Nesting) -> Result<Built, ParseFault>
        ensures reads { IfOk result (λ b. ReadsExp at (state tokens.now self.old) b (state tokens.now self.new)) }
        ensures level { IfOk result (λ b. 7 ≤ b.level) }
        ensures takes { IfOk result (λ b. Takes (WordKind False) b.expr.line (state tokens.now self.old) (state tokens.now self.new)) }
        ensures surely { IsNext (WordKind False) (state tokens.now self.old) → IfErr result IsMemory }
        ensures forward { OnOk result (Advances tokens.now self.old self.new) }
    {
        let line = self.take_word(tokens, Word::False)?;
        Ok(leaf(line, ExprKind::False))
    }

    /// Reads a number.
    pub fn number(&mut self, tokens: &[Token], at: Nesting) -> Result<Built, ParseFault>
        ensures reads { IfOk result (λ b. ReadsExp at (state tokens.now self.old) b (state tokens.now self.new)) }
        ensures level { IfOk result (λ b. 7 ≤ b.level) }
        ensures takes { IfOk result (λ b. (n : ℤ) × Takes (NumberKind n) b.expr.line (state tokens.now self.old) (state tokens.now self.new)) }
        ensures surely { Begin IsNumber (state tokens.now self.old).left → IfErr result IsMemory }
        ensures forward { OnOk result (Advances tokens.now self.old self.new) }
    {
        let numeral = self.take_number(tokens)?;
        Ok(leaf(numeral.line, ExprKind::Number(numeral.number)))
    }

    /// Reads a text.
    pub fn text(&mut self, tokens: &[Token], at: Nesting) -> Result<Built, ParseFault>
        ensures reads { IfOk result (λ b. ReadsExp at (state tokens.now self.old) b (state tokens.now self.new)) }
        ensures level { IfOk result (λ b. 7 ≤ b.level) }
        ensures takes { IfOk result (λ b. (bytes : List ℕ) × Takes (TextKind bytes) b.expr.line (state tokens.now self.old) (state tokens.now self.new)) }
        ensures surely { Begin IsText (state tokens.now self.old).left → IfErr result IsMemory }
        ensures forward { OnOk result (Advances tokens.now self.old self.new) }
    {
        let text = self.take_text(tokens)?;
        Ok(text.into_text())
    }

    /// Reads `...`.
    pub fn vararg(&mut self, tokens: &[Token], at: Nesting) -> Result<Built, ParseFault>
        ensures reads { IfOk result (λ b. ReadsExp at (state tokens.now self.old) b (state tokens.now self.new)) }
        ensures level { IfOk result (λ b. 7 ≤ b.level) }
        ensures refuses { IfErrWhere (IsNext (SignKind Ellipsis)) result (RefusesExp at) tokens.now self.old self.new }
        ensures order { (m : ℕ) → IfErr result (FirstFault (Standing.here (Standing.exp m) at) (state tokens.now self.old) (state tokens.now self.new)) }
        ensures forward { OnOk result (Advances tokens.now self.old self.new) }
    {
        let line = self.take_sign(tokens, Sign::Ellipsis)?;
        if at.vararg {
            return Ok(leaf(line, ExprKind::Vararg));
        }
        Err(ParseFault::VarargOutside(line))
    }

    /// Reads a number alone.
    fn take_number(&mut self, tokens: &[Token]) -> Result<Numeral, ParseFault>
        ensures takes { IfOk result (λ found. Takes (NumberKind found.number) found.line (state tokens.now self.old) (state tokens.now self.new)) }
        ensures misses { IfErr result (OnAt (Misses IsNumber (state tokens.now self.old) (state tokens.now self.new))) }
        ensures forward { OnOk result (Advances tokens.now self.old self.new) }
    {
        let Some(token) = tokens.get(self.index) else {
            return Err(self.unfit(tokens));
        };
        match &token.kind {
            TokenKind::Number(number) => {
                let number = *number;
                self.advance(tokens, token);
                Ok(Numeral {
                    number,
                    line: token.line,
                })
            }
            _ => Err(self.unfit(tokens)),
        }
    }
}
