//! How far the tokens were read: what the next token is, how it is taken, and the fault where it is another than the wanted one.
ghost use Rattle.std.specs.Prelude.{◌≡◌, ◌↔◌, IfOk, IfErr, IfNone, IsTrue, MatchResult, OnOk, slice_get, Some};
ghost use Rattle.lua_lexer.specs.declared.tokens.TokenKind.TheVariants.{Name as NameKind, Text as TextKind, Word as WordKind, Sign as SignKind};
ghost use Rattle.lua_grammar.specs.Grammar.{first_line};
ghost use Rattle.lua_grammar.specs.Printing.{lexemes};
ghost use Rattle.lua_parser_base.specs.States.{state, last_line, Takes, Skips, Advances, IfAdvances};
ghost use Rattle.lua_parser_base.specs.Nesting.{IsWithin, IsPart};
ghost use Rattle.lua_parser_base.specs.Next.{Begin, Ends, HasNoPart, IsDepth, IsText, IsKind, IsName, IsNext, IsTooDeep, Misses, OnAt, line_or};

use crate::ParseFault;
use crate::frames::Frame;
use crate::nesting::{DEEPEST, Nesting};
use lua_ast::Function;
use lua_lexer::{Sign, Token, TokenKind, Word};
use resty_base::Bytes;

/// A name or a text, and its line.
#[derive(Drop)]
pub struct Named {
    pub name: Bytes,
    pub line: u32,
}

/// How far the tokens were read, and what is known there.
#[derive(Drop)]
pub struct Parser {
    /// How many tokens were read.
    pub index: usize,
    /// The line of the last token that was read.
    pub line: u32,
    /// One for each function whose word `function` was read.
    pub functions: Vec<Function>,
    /// The innermost function.
    pub frame: Frame,
    /// The functions that enclose it, the innermost last.
    pub enclosing: Vec<Frame>,
}

impl Parser {
    /// The fault at a token that fits nothing, or at the text's end.
    pub fn unfit(&self, tokens: &[Token]) -> ParseFault
        ensures { result ≡ ParseFault.At (line_or (last_line (lexemes tokens.now)) (state tokens.now self.now).left) }
    {
        match tokens.get(self.index) {
            Some(token) => ParseFault::At(token.line),
            None => ParseFault::At(last_line(tokens)),
        }
    }

    /// Reads the next token, which is that.
    pub fn advance(&mut self, tokens: &[Token], token: &Token)
        requires { slice_get tokens.now self.old.index ≡ Some token.now }
        ensures takes { Takes token.now.kind token.now.line (state tokens.now self.old) (state tokens.now self.new) }
        ensures forward { Advances tokens.now self.old self.new }
    {
        self.index += 1;
        self.line = token.line;
    }

    /// Whether the next token is that keyword.
    pub fn at_word(&self, tokens: &[Token], word: Word) -> bool
        ensures { IsTrue result ↔ IsNext (WordKind word) (state tokens.now self.now) }
    {
        match tokens.get(self.index) {
            Some(token) => is_word(&token.kind, word),
            None => false,
        }
    }

    /// Whether the next token is that sign.
    pub fn at_sign(&self, tokens: &[Token], sign: Sign) -> bool
        ensures { IsTrue result ↔ IsNext (SignKind sign) (state tokens.now self.now) }
    {
        match tokens.get(self.index) {
            Some(token) => is_sign(&token.kind, sign),
            None => false,
        }
    }

    /// Reads that keyword where it is the next token, and returns its line.
    pub(crate) fn skip_word(&mut self, tokens: &[Token], word: Word) -> Option<u32>
        ensures skips { Skips (WordKind word) result (state tokens.now self.old) (state tokens.now self.new) }
        ensures missing { IfNone result (IsNext (WordKind word) (state tokens.now self.old) → ⊥) }
        ensures forward { IfAdvances result tokens.now self.old self.new }
    {
        let token = tokens.get(self.index)?;
        if is_word(&token.kind, word) {
            self.advance(tokens, token);
            return Some(token.line);
        }
        None
    }

    /// Reads that sign where it is the next token, and returns its line.
    pub fn skip_sign(&mut self, tokens: &[Token], sign: Sign) -> Option<u32>
        ensures skips { Skips (SignKind sign) result (state tokens.now self.old) (state tokens.now self.new) }
        ensures missing { IfNone result (IsNext (SignKind sign) (state tokens.now self.old) → ⊥) }
        ensures forward { IfAdvances result tokens.now self.old self.new }
    {
        let token = tokens.get(self.index)?;
        if is_sign(&token.kind, sign) {
            self.advance(tokens, token);
            return Some(token.line);
        }
        None
    }

    /// Reads that keyword, and returns its line.
    pub fn take_word(&mut self, tokens: &[Token], word: Word) -> Result<u32, ParseFault>
        ensures takes { IfOk result (λ line. Takes (WordKind word) line (state tokens.now self.old) (state tokens.now self.new)) }
        ensures misses { IfErr result (OnAt (Misses (IsKind (WordKind word)) (state tokens.now self.old) (state tokens.now self.new))) }
        ensures forward { OnOk result (Advances tokens.now self.old self.new) }
    {
        match self.skip_word(tokens, word) {
            Some(line) => Ok(line),
            None => Err(self.unfit(tokens)),
        }
    }

    /// Reads that sign, and returns its line.
    pub fn take_sign(&mut self, tokens: &[Token], sign: Sign) -> Result<u32, ParseFault>
        ensures takes { IfOk result (λ line. Takes (SignKind sign) line (state tokens.now self.old) (state tokens.now self.new)) }
        ensures misses { IfErr result (OnAt (Misses (IsKind (SignKind sign)) (state tokens.now self.old) (state tokens.now self.new))) }
        ensures forward { OnOk result (Advances tokens.now self.old self.new) }
    {
        match self.skip_sign(tokens, sign) {
            Some(line) => Ok(line),
            None => Err(self.unfit(tokens)),
        }
    }

    /// Reads a name.
    pub fn take_name(&mut self, tokens: &[Token]) -> Result<Named, ParseFault>
        ensures takes { IfOk result (λ named. Takes (NameKind named.name) named.line (state tokens.now self.old) (state tokens.now self.new)) }
        ensures misses { IfErr result (OnAt (Misses IsName (state tokens.now self.old) (state tokens.now self.new))) }
        ensures forward { OnOk result (Advances tokens.now self.old self.new) }
    {
        let Some(token) = tokens.get(self.index) else {
            return Err(self.unfit(tokens));
        };
        match &token.kind {
            TokenKind::Name(name) => {
                let name = name.clone()?;
                self.advance(tokens, token);
                Ok(Named {
                    name,
                    line: token.line,
                })
            }
            _ => Err(self.unfit(tokens)),
        }
    }

    /// Whether the next token is a text.
    pub fn at_text(&self, tokens: &[Token]) -> bool
        ensures { IsTrue result ↔ Begin IsText (state tokens.now self.now).left }
    {
        match tokens.get(self.index) {
            Some(token) => is_text(&token.kind),
            None => false,
        }
    }

    /// Reads a text.
    pub fn take_text(&mut self, tokens: &[Token]) -> Result<Named, ParseFault>
        ensures takes { IfOk result (λ text. Takes (TextKind text.name) text.line (state tokens.now self.old) (state tokens.now self.new)) }
        ensures misses { IfErr result (OnAt (Misses IsText (state tokens.now self.old) (state tokens.now self.new))) }
        ensures forward { OnOk result (Advances tokens.now self.old self.new) }
    {
        let Some(token) = tokens.get(self.index) else {
            return Err(self.unfit(tokens));
        };
        match &token.kind {
            TokenKind::Text(text) => {
                let name = text.clone()?;
                self.advance(tokens, token);
                Ok(Named {
                    name,
                    line: token.line,
                })
            }
            _ => Err(self.unfit(tokens)),
        }
    }

    /// The line of the next token.
    pub fn line_ahead(&self, tokens: &[Token]) -> Result<u32, ParseFault>
        ensures line { IfOk result (λ line. line ≡ first_line (state tokens.now self.now).left) }
        ensures ended { IfErr result (OnAt (Ends (state tokens.now self.now))) }
    {
        match tokens.get(self.index) {
            Some(token) => Ok(self.line_of(tokens, token)),
            None => Err(self.unfit(tokens)),
        }
    }

    /// The line of that token, which is the next.
    fn line_of(&self, tokens: &[Token], token: &Token) -> u32
        requires { slice_get tokens.now self.now.index ≡ Some token.now }
        ensures { result ≡ first_line (state tokens.now self.now).left }
    {
        token.line
    }

    /// The nesting of a construct within one at `at`, as high as it may be.
    pub fn deeper(&self, tokens: &[Token], at: Nesting) -> Result<Nesting, ParseFault>
        ensures { MatchResult result (IsWithin at) (IsTooDeep at (state tokens.now self.now)) }
    {
        if at.depth < DEEPEST {
            return Ok(Nesting {
                depth: at.depth + 1,
                room: at.room,
                vararg: at.vararg,
                in_loop: at.in_loop,
            });
        }
        Err(self.too_deep(tokens))
    }

    /// The nesting of an expression that is a part of one at `at`.
    pub fn part(&self, tokens: &[Token], at: Nesting) -> Result<Nesting, ParseFault>
        ensures { MatchResult result (IsPart at) (HasNoPart at (state tokens.now self.now)) }
    {
        let inner = self.deeper(tokens, at)?;
        if inner.room > 1 {
            return Ok(inner.narrower());
        }
        Err(self.too_deep(tokens))
    }

    /// The fault where one construct more isn't allowed.
    fn too_deep(&self, tokens: &[Token]) -> ParseFault
        ensures { IsDepth (state tokens.now self.now) result }
    {
        match tokens.get(self.index) {
            Some(token) => ParseFault::Depth(token.line),
            None => self.unfit(tokens),
        }
    }
}

/// The line of the last token, 1 of none.
fn last_line(tokens: &[Token]) -> u32
    ensures { result ≡ last_line (lexemes tokens.now) }
{
    match tokens.last() {
        Some(token) => token.line,
        None => 1,
    }
}

/// Whether a token is that keyword.
fn is_word(kind: &TokenKind, word: Word) -> bool
    ensures { IsTrue result ↔ IsKind (WordKind word) kind.now }
{
    matches!(kind, TokenKind::Word(next) if *next == word)
}

/// Whether a token is that sign.
pub(crate) fn is_sign(kind: &TokenKind, sign: Sign) -> bool
    ensures { IsTrue result ↔ IsKind (SignKind sign) kind.now }
{
    matches!(kind, TokenKind::Sign(next) if *next == sign)
}

/// Whether a token is a name.
pub(crate) fn is_name(kind: &TokenKind) -> bool
    ensures { IsTrue result ↔ IsName kind.now }
{
    matches!(kind, TokenKind::Name(_))
}

/// Whether a token is a text.
fn is_text(kind: &TokenKind) -> bool
    ensures { IsTrue result ↔ IsText kind.now }
{
    matches!(kind, TokenKind::Text(_))
}
