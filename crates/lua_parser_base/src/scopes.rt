//! What a name stands for: a local, a capture or a global.
ghost use Rattle.std.specs.Prelude.{◌≡◌, ℕ, List, ◌≤◌, ◌<◌, ◌∷◌, ◌++◌, [], map, take, length, IfOk, IfErr, IfSome, MatchResult, OnOk, vec_len};
ghost use Rattle.lua_grammar.specs.Limits.{Few};
ghost use Rattle.lua_grammar.specs.Resolution.{variable_kind, IsFunction};
ghost use Rattle.lua_grammar.specs.Scopes.{last_index, own, look, with_locals};
ghost use Rattle.lua_parser_base.specs.Frames.{captured_of, frame_of, frames_of};
ghost use Rattle.lua_parser_base.specs.Next.{IsLocals, IsMemory, OnLocals, OnUpvalues};

use crate::ParseFault;
use crate::frames::{Captured, Frame};
use lua_ast::{Capture, ExprKind, Function, Stmt};
use resty_base::Bytes;
use std::alloc::Global;
use std::rc::Rc;

/// How many locals of a function may be in scope.
pub(crate) const MOST_LOCALS: usize = 200;

/// How many captures a function may have.
const MOST_CAPTURES: usize = 60;

impl Frame {
    /// A function with these parameters.
    pub(crate) fn with_parameters(alloc: Global, names: Vec<Bytes>) -> Frame
        requires { vec_len names ≤ 200 }
        ensures { frame_of result ≡ record { locals = names.items; captures = []; slots = length names.items } }
    {
        let slots = names.len();
        Frame {
            locals: names,
            captures: Vec::new(alloc),
            slots,
        }
    }

    /// The slot of the newest local of that name.
    fn local(&self, name: &[u8]) -> Option<usize>
        ensures value { result ≡ last_index name.now self.now.locals.items }
        ensures within { IfSome result (λ slot. slot < vec_len self.now.locals) }
    {
        let mut found = None;
        for (slot, local) in self.locals.iter().enumerate() {
            if local.as_slice() == name {
                found = Some(slot);
            }
        }
        found
    }

    /// The index of the capture of that name.
    fn capture(&self, name: &[u8]) -> Option<usize>
        ensures value { result ≡ last_index name.now (map (λ c. c.name) self.now.captures.items) }
        ensures within { IfSome result (λ index. index < vec_len self.now.captures) }
    {
        let mut found = None;
        for (index, captured) in self.captures.iter().enumerate() {
            if captured.name.as_slice() == name {
                found = Some(index);
            }
        }
        found
    }

    /// The variable of that name that the function has by itself.
    #[tactic(auto, unfolding(lua_grammar::specs::Scopes::own))]
    fn own(&self, name: &[u8]) -> Option<Capture>
        ensures { result ≡ own name.now (frame_of self.now) }
    {
        if let Some(slot) = self.local(name) {
            return Some(Capture::Slot(slot as u8));
        }
        let index = self.capture(name)?;
        Some(Capture::Outer(index as u8))
    }

    /// Captures a variable of the enclosing function.
    fn hand_in(&mut self, name: &Bytes, variable: Capture, line: u32) -> Result<Capture, ParseFault>
        ensures index { IfOk result (λ found. found ≡ Capture.Outer (length self.old.captures.items)) }
        ensures crowded { IfErr result (OnUpvalues line (60 ≤ length self.old.captures.items)) }
        ensures captures { OnOk result (map captured_of self.new.captures.items
            ≡ map captured_of self.old.captures.items ++ record { name = name.now; variable = variable } ∷ []) }
        ensures locals { OnOk result (self.new.locals ≡ self.old.locals) }
        ensures slots { OnOk result (self.new.slots ≡ self.old.slots) }
    {
        let index = self.captures.len();
        if index >= MOST_CAPTURES {
            return Err(ParseFault::Upvalues(line));
        }
        self.captures.push(Captured {
            name: name.clone()?,
            variable,
        })?;
        Ok(Capture::Outer(index as u8))
    }

    /// Leaves the scope of all locals but for the first so many.
    pub(crate) fn leave(&mut self, count: usize)
        ensures { frame_of self.new ≡ record (frame_of self.old) { locals = take count self.old.locals.items } }
    {
        self.locals.truncate(count);
    }

    /// Declares a local, and returns its slot.
    pub(crate) fn declare(&mut self, name: Bytes, line: u32) -> Result<u8, ParseFault>
        ensures slot { IfOk result (λ slot. slot ≡ length self.old.locals.items) }
        ensures frame { OnOk result (frame_of self.new ≡ with_locals (name ∷ []) (frame_of self.old)) }
        ensures crowded { IfErr result (OnLocals (200 ≤ length self.old.locals.items)) }
        ensures reported { IfErr result (IsLocals line) }
    {
        let slot = self.locals.len();
        if slot >= MOST_LOCALS {
            return Err(ParseFault::Locals(line));
        }
        self.locals.push(name)?;
        self.slots = self.slots.max(slot + 1);
        Ok(slot as u8)
    }

    /// Declares a local by a copy of that name, and returns its slot.
    pub(crate) fn declare_copy(&mut self, name: &Bytes, line: u32) -> Result<u8, ParseFault>
        ensures slot { IfOk result (λ slot. slot ≡ length self.old.locals.items) }
        ensures frame { OnOk result (frame_of self.new ≡ with_locals (name.now ∷ []) (frame_of self.old)) }
        ensures crowded { IfErr result (OnLocals (200 ≤ length self.old.locals.items)) }
        ensures reported { IfErr result (IsLocals line) }
    {
        self.declare(name.clone()?, line)
    }
}

/// The variable of that name that the function `frame` sees, with the functions that enclose it, the innermost last.
/// `line` is that of the name.
pub(crate) fn look(
    frame: &mut Frame,
    enclosing: &mut Vec<Frame>,
    name: &Bytes,
    line: u32,
) -> Result<Option<Capture>, ParseFault>
    ensures { MatchResult result (λ found. look name.now (frame_of frame.old ∷ frames_of enclosing.old) ≡ (found, frame_of frame.new ∷ frames_of enclosing.new))
        (OnUpvalues line (Few (look name.now (frame_of frame.old ∷ frames_of enclosing.old)).1 → ⊥)) }
{
    if let Some(variable) = frame.own(name.as_slice()) {
        return Ok(Some(variable));
    }
    let Some(mut outer) = enclosing.pop() else {
        return Ok(None);
    };
    let found = look(&mut outer, enclosing, name, line)?;
    enclosing.push(outer)?;
    match found {
        Some(variable) => Ok(Some(frame.hand_in(name, variable, line)?)),
        None => Ok(None),
    }
}

/// What a name stands for.
pub(crate) fn variable_kind(name: Bytes, found: Option<Capture>) -> ExprKind
    ensures { result ≡ variable_kind name found }
{
    match found {
        Some(Capture::Slot(slot)) => ExprKind::Slot(slot),
        Some(Capture::Outer(index)) => ExprKind::Captured(index),
        None => ExprKind::Global(name),
    }
}

/// A function without captures and statements.
pub(crate) fn empty_function(alloc: Global, line: u32) -> Result<Function, ParseFault>
    ensures { IfErr result IsMemory }
{
    let none: Vec<Stmt> = Vec::new(alloc);
    Ok(Function {
        file: 0,
        params: 0,
        vararg: false,
        slots: 0,
        captures: Vec::new(alloc),
        body: Rc::new(alloc, none)?,
        line,
    })
}

/// The captured variables in order.
fn variables(alloc: Global, captures: &[Captured]) -> Result<Vec<Capture>, ParseFault>
    ensures { MatchResult result (λ variables. variables.items ≡ map (λ c. c.variable) captures.now) IsMemory }
{
    let mut variables = Vec::new(alloc);
    for captured in captures {
        variables.push(captured.variable)?;
    }
    Ok(variables)
}

/// The function that was read, with its frame as it was at the end.
pub(crate) fn whole_function(
    alloc: Global,
    frame: &Frame,
    params: u8,
    vararg: bool,
    body: Vec<Stmt>,
    line: u32,
) -> Result<Function, ParseFault>
    ensures { MatchResult result (λ f. (names : List (List ℕ)) → length names ≡ params
        → IsFunction line names vararg (frame_of frame.now) body.items f) IsMemory }
{
    Ok(Function {
        file: 0,
        params,
        vararg,
        slots: frame.slots as u8,
        captures: variables(alloc, &frame.captures)?,
        body: Rc::new(alloc, body)?,
        line,
    })
}
