//! Where a function begins and ends, lists of names and parameters, and the locals that are declared.
ghost use Rattle.std.specs.Prelude.{◌≡◌, ◌≤◌, ◌<◌, ◌+◌, ◌∷◌, ◌++◌, [], length, slice_set, true, IfErr, IfOk, MatchResult, OnOk, vec_len};
ghost use Rattle.lua_grammar.specs.Grammar.{outside};
ghost use Rattle.lua_grammar.specs.Limits.{Few};
ghost use Rattle.lua_ast.specs.declared.programs.Function.{Function};
ghost use Rattle.lua_grammar.specs.Resolution.{IsFunction, ResolvesName};
ghost use Rattle.lua_grammar.specs.Scopes.{Scope, declare, enter, in_scope, leave, look, slots_from};
ghost use Rattle.lua_parser_base.specs.Frames.{frame_of};
ghost use Rattle.lua_parser_base.specs.States.{state, Advances, AdvancesOrStays, scope_of};
ghost use Rattle.lua_lexer.specs.declared.tokens.TokenKind.TheVariants.{Sign as SignKind};
ghost use Rattle.lua_lexer.specs.declared.signs.Sign.TheVariants.{Comma};
ghost use Rattle.lua_parser_base.specs.Next.{IsLocals, IsMemory, IsNext, MissesName, OnLocals, OnUpvalues};
ghost use Rattle.lua_parser_base.specs.StatementRefusals.{RefusesNames, RefusesParameters};

use crate::ParseFault;
use crate::cursor::{Named, Parser};
use crate::frames::Frame;
use crate::scopes::{MOST_LOCALS, empty_function, look, variable_kind, whole_function};
use lua_ast::{Expr, Function, Stmt};
use lua_lexer::{Sign, Token};
use resty_base::Bytes;
use std::alloc::Global;
use std::mem;

/// The parameters of a function.
#[derive(Drop)]
pub struct Parameters {
    pub names: Vec<Bytes>,
    pub vararg: bool,
    ghost few: { vec_len names ≤ 200 },
}

/// A function that began.
#[derive(Clone, Copy)]
pub struct Begun {
    pub number: u32,
    pub params: u8,
    pub vararg: bool,
    pub line: u32,
}

impl Parser {
    ghost use Rattle.lua_parser_base.specs.declared.functions.Parameters.{Parameters};
    ghost use Rattle.lua_parser_base.specs.Functions.{Enters, Ends};
    ghost use Rattle.lua_parser_base.specs.Standing.{FirstFault};
    ghost use Rattle.lua_parser_base.specs.Standing as Standing;
    ghost use Rattle.lua_parser_base.specs.ReadsNames.{TakesName, ReadsNames, ReadsParameters};

    /// The expression that a name is.
    pub(crate) fn variable(&mut self, named: Named) -> Result<Expr, ParseFault>
        ensures resolves { IfOk result (λ e. ResolvesName named.line named.name (scope_of self.old) e (scope_of self.new)) }
        ensures crowded { IfErr result (OnUpvalues named.line (Few (look named.name (scope_of self.old).enclosing).1 → ⊥)) }
        ensures index { self.new.index ≡ self.old.index }
        ensures line { self.new.line ≡ self.old.line }
    {
        let Named { name, line } = named;
        let found = look(&mut self.frame, &mut self.enclosing, &name, line)?;
        Ok(Expr {
            line,
            kind: variable_kind(name, found),
        })
    }

    /// namelist ::= Name {`,´ Name}
    /// Reads a list of names, of which there may be as many as locals can be declared beside `taken` others.
    pub fn names(
        &mut self,
        alloc: Global,
        tokens: &[Token],
        taken: usize,
    ) -> Result<Vec<Bytes>, ParseFault>
        requires { taken ≤ 200 }
        ensures few { IfOk result (λ names. taken + vec_len names ≤ 200) }
        ensures reads { IfOk result (λ names. ReadsNames [] (state tokens.now self.old) names.items (state tokens.now self.new)) }
        ensures stops { OnOk result (IsNext (SignKind Comma) (state tokens.now self.new) → ⊥) }
        ensures refuses { IfErr result (RefusesNames taken (state tokens.now self.old) (state tokens.now self.new)) }
        ensures order { IfErr result (FirstFault (Standing.names taken) (state tokens.now self.old) (state tokens.now self.new)) }
        ensures forward { OnOk result (Advances tokens.now self.old self.new) }
    {
        let mut names = Vec::new(alloc);
        self.push_name(tokens, taken, &mut names)?;
        while self.at_sign(tokens, Sign::Comma) {
            self.take_sign(tokens, Sign::Comma)?;
            self.push_name(tokens, taken, &mut names)?;
        }
        Ok(names)
    }

    /// Reads a name and puts it after others, of which there may be 200 with `taken` more.
    fn push_name(
        &mut self,
        tokens: &[Token],
        taken: usize,
        names: &mut Vec<Bytes>,
    ) -> Result<(), ParseFault>
        requires { taken + vec_len names.old ≤ 200 }
        ensures few { OnOk result (taken + vec_len names.new ≤ 200) }
        ensures reads { OnOk result (TakesName names.old.items (state tokens.now self.old) names.new.items (state tokens.now self.new)) }
        ensures misses { IfErr result (MissesName (taken + vec_len names.old) (state tokens.now self.old) (state tokens.now self.new)) }
        ensures forward { OnOk result (Advances tokens.now self.old self.new) }
    {
        let Named { name, line } = self.take_name(tokens)?;
        if taken + names.len() >= MOST_LOCALS {
            return Err(ParseFault::Locals(line));
        }
        names.push(name)?;
        Ok(())
    }

    /// parlist ::= namelist [`,´ `...´] | `...´
    /// Reads the parameters of a function from its `(` up to its `)`. `names` are those before them that aren't named there.
    pub fn parameters(
        &mut self,
        tokens: &[Token],
        names: Vec<Bytes>,
    ) -> Result<Parameters, ParseFault>
        requires { vec_len names ≤ 200 }
        ensures reads { IfOk result (λ p. ReadsParameters names.items (state tokens.now self.old) p (state tokens.now self.new)) }
        ensures refuses { IfErr result (RefusesParameters names.items (state tokens.now self.old) (state tokens.now self.new)) }
        ensures order { IfErr result (FirstFault (Standing.parameters names.items) (state tokens.now self.old) (state tokens.now self.new)) }
        ensures forward { OnOk result (AdvancesOrStays tokens.now self.old self.new) }
    {
        let mut names = names;
        let vararg = self.push_parameters(tokens, &mut names)?;
        Ok(Parameters { names, vararg })
    }

    /// Reads parameters up to the `)`, puts their names after others, and returns whether `...` is the last of them.
    fn push_parameters(
        &mut self,
        tokens: &[Token],
        names: &mut Vec<Bytes>,
    ) -> Result<bool, ParseFault>
        requires { vec_len names.old ≤ 200 }
        ensures few { OnOk result (vec_len names.new ≤ 200) }
        ensures reads { IfOk result (λ vararg. (p : Parameters) → p.names.items ≡ names.new.items → p.vararg ≡ vararg
            → ReadsParameters names.old.items (state tokens.now self.old) p (state tokens.now self.new)) }
        ensures refuses { IfErr result (RefusesParameters names.old.items (state tokens.now self.old) (state tokens.now self.new)) }
        ensures order { IfErr result (FirstFault (Standing.parameters names.old.items) (state tokens.now self.old) (state tokens.now self.new)) }
        ensures forward { OnOk result (AdvancesOrStays tokens.now self.old self.new) }
    {
        if self.at_sign(tokens, Sign::CloseParenthesis) {
            return Ok(false);
        }
        if let Some(_) = self.skip_sign(tokens, Sign::Ellipsis) {
            return Ok(true);
        }
        self.push_name(tokens, 0, names)?;
        while let Some(_) = self.skip_sign(tokens, Sign::Comma) {
            if let Some(_) = self.skip_sign(tokens, Sign::Ellipsis) {
                return Ok(true);
            }
            self.push_name(tokens, 0, names)?;
        }
        Ok(false)
    }

    /// How many locals of the innermost function are in scope.
    pub fn in_scope(&self) -> usize
        ensures value { result ≡ in_scope (scope_of self.now) }
        ensures few { result ≤ 200 }
    {
        self.frame.locals.len()
    }

    /// Leaves the scope of all locals but for the first so many.
    pub fn leave(&mut self, count: usize)
        ensures scope { (before : Scope) → in_scope before ≡ count → scope_of self.new ≡ leave before (scope_of self.old) }
        ensures index { self.new.index ≡ self.old.index }
        ensures line { self.new.line ≡ self.old.line }
    {
        self.frame.leave(count);
    }

    /// Declares a local, and returns its slot.
    pub fn local(&mut self, named: Named) -> Result<u8, ParseFault>
        ensures slot { IfOk result (λ slot. slot ≡ in_scope (scope_of self.old)) }
        ensures crowded { IfErr result (OnLocals (200 ≤ in_scope (scope_of self.old))) }
        ensures reported { IfErr result (IsLocals named.line) }
        ensures scope { OnOk result (scope_of self.new ≡ declare (named.name ∷ []) (scope_of self.old)) }
        ensures index { self.new.index ≡ self.old.index }
        ensures line { self.new.line ≡ self.old.line }
    {
        let Named { name, line } = named;
        self.frame.declare(name, line)
    }

    /// Declares locals, and returns their slots.
    pub fn declare(
        &mut self,
        alloc: Global,
        names: Vec<Bytes>,
        line: u32,
    ) -> Result<Vec<u8>, ParseFault>
        ensures slots { IfOk result (λ slots. slots.items ≡ slots_from (in_scope (scope_of self.old)) names.items) }
        ensures crowded { IfErr result (OnLocals (200 < in_scope (scope_of self.old) + length names.items)) }
        ensures reported { IfErr result (IsLocals line) }
        ensures scope { OnOk result (scope_of self.new ≡ declare names.items (scope_of self.old)) }
        ensures index { self.new.index ≡ self.old.index }
        ensures line { self.new.line ≡ self.old.line }
    {
        let mut slots = Vec::new(alloc);
        for name in &names {
            let slot = self.frame.declare_copy(name, line)?;
            slots.push(slot)?;
        }
        Ok(slots)
    }

    /// Before the first token of a chunk.
    pub fn new(alloc: Global) -> Result<Parser, ParseFault>
        ensures index { IfOk result (λ parser. parser.index ≡ 0) }
        ensures scope { IfOk result (λ parser. (kept : Function) × (scope_of parser ≡ enter [] kept outside)) }
        ensures memory { IfErr result IsMemory }
    {
        Ok(Parser {
            index: 0,
            line: 1,
            functions: vec![in alloc; empty_function(alloc, 1)?]?,
            frame: Frame::with_parameters(alloc, Vec::new(alloc)),
            enclosing: Vec::new(alloc),
        })
    }

    /// The functions of the program after the block of the chunk, which is the first of them. Its first token is on that line.
    pub fn into_functions(
        self,
        alloc: Global,
        body: Vec<Stmt>,
        line: u32,
    ) -> Result<Vec<Function>, ParseFault>
        ensures functions { IfOk result (λ functions. (chunk : Function) × IsFunction line [] true (frame_of self.frame) body.items chunk
            × (functions.items ≡ slice_set self.functions.items 0 chunk)) }
        ensures memory { IfErr result IsMemory }
    {
        let chunk = whole_function(alloc, &self.frame, 0, true, body, line)?;
        let Parser { functions, .. } = self;
        with_chunk(functions, chunk)
    }

    /// Begins a function.
    pub fn enter(
        &mut self,
        alloc: Global,
        parameters: Parameters,
        line: u32,
    ) -> Result<Begun, ParseFault>
        ensures enters { IfOk result (λ begun. Enters parameters line begun (scope_of self.old) (scope_of self.new)) }
        ensures memory { IfErr result IsMemory }
        ensures index { self.new.index ≡ self.old.index }
        ensures line { self.new.line ≡ self.old.line }
    {
        let Parameters { names, vararg } = parameters;
        let params = names.len() as u8;
        let number = self.number_function(alloc, line)?;
        let outer = mem::replace(&mut self.frame, Frame::with_parameters(alloc, names));
        self.enclosing.push(outer)?;
        Ok(Begun {
            number,
            params,
            vararg,
            line,
        })
    }

    /// Makes room for a function that is being read, and returns its number.
    fn number_function(&mut self, alloc: Global, line: u32) -> Result<u32, ParseFault>
        ensures number { IfOk result (λ number. number ≡ length self.old.functions.items) }
        ensures functions { OnOk result ((kept : Function) × (self.new.functions.items ≡ self.old.functions.items ++ kept ∷ [])) }
        ensures memory { IfErr result IsMemory }
        ensures frame { self.new.frame ≡ self.old.frame }
        ensures enclosing { self.new.enclosing ≡ self.old.enclosing }
        ensures index { self.new.index ≡ self.old.index }
        ensures line { self.new.line ≡ self.old.line }
    {
        let Ok(number) = u32::try_from(self.functions.len()) else {
            return Err(ParseFault::Memory);
        };
        self.functions.push(empty_function(alloc, line)?)?;
        Ok(number)
    }

    /// Ends a function.
    pub fn end(&mut self, alloc: Global, begun: Begun, body: Vec<Stmt>) -> Result<u32, ParseFault>
        ensures ends { IfOk result (λ number. Ends begun body.items (scope_of self.old) number (scope_of self.new)) }
        ensures memory { IfErr result IsMemory }
        ensures index { self.new.index ≡ self.old.index }
        ensures line { self.new.line ≡ self.old.line }
    {
        let function = whole_function(
            alloc,
            &self.frame,
            begun.params,
            begun.vararg,
            body,
            begun.line,
        )?;
        self.keep(begun.number as usize, function);
        let Some(outer) = self.enclosing.pop() else {
            return Err(ParseFault::Memory);
        };
        self.frame = outer;
        Ok(begun.number)
    }

    /// Puts a function where its number says.
    fn keep(&mut self, index: usize, function: Function)
        ensures functions { self.new.functions.items ≡ slice_set self.old.functions.items index function }
        ensures frame { self.new.frame ≡ self.old.frame }
        ensures enclosing { self.new.enclosing ≡ self.old.enclosing }
        ensures index { self.new.index ≡ self.old.index }
        ensures line { self.new.line ≡ self.old.line }
    {
        if let Some(kept) = self.functions.get_mut(index) {
            *kept = function;
        }
    }
}

/// The functions, with the chunk as the first.
fn with_chunk(functions: Vec<Function>, chunk: Function) -> Result<Vec<Function>, ParseFault>
    ensures { MatchResult result (λ whole. whole.items ≡ slice_set functions.items 0 chunk) IsMemory }
{
    let mut functions = functions;
    let Some(first) = functions.first_mut() else {
        return Err(ParseFault::Memory);
    };
    *first = chunk;
    Ok(functions)
}
