//! What parsing gives for whole texts (`programs`, `lines`), the first faults (UNFIT), each limit with one more (`limits`), how each pair of operators groups
//! (`pairs`), and a hundred thousand arms.
mod limits;
mod lines;
mod pairs;
mod programs;
mod written;

use crate::rows::{Subject, hold, put, put_number};
use crate::tokens::see_fault;
use lua_ast::{Program, StmtKind, height};
use lua_lexer::{Token, TokenKind, Word, lex};
use lua_parser::{ParseFault, parse};
use std::alloc::{AllocError, Global};
use std::process::Abort;
use written::{see_bodies, see_heads};

/// Writes what is seen of the program of a text, or the first fault of its tokens, or else of `parse`.
pub(crate) fn see_program(alloc: Global, all: &mut String, text: &str, subject: Subject) {
    match lex(alloc, text.as_bytes(), 1) {
        Ok(tokens) => see_parsed(all, &parse(alloc, &tokens), subject),
        Err(fault) => see_fault(all, fault),
    }
}

/// Writes what is seen of a program, or a fault.
fn see_parsed(all: &mut String, parsed: &Result<Program, ParseFault>, subject: Subject) {
    match parsed {
        Ok(program) => see_of(all, program, subject),
        Err(fault) => {
            let _ = write!(all, "{fault:?}");
        }
    }
}

/// Writes what is seen of a program.
fn see_of(all: &mut String, program: &Program, subject: Subject) {
    match subject {
        Subject::Lines => see_bodies(all, program, true),
        Subject::Heads => see_heads(all, program),
        Subject::Height => put_number(all, i64::from(height_of(program).unwrap_or(0))),
        Subject::Limit => put(all, "read"),
        _ => see_bodies(all, program, false),
    }
}

/// How high the first value is that a chunk returns.
fn height_of(program: &Program) -> Option<u32> {
    match &program.functions.first()?.body.last()?.kind {
        StmtKind::Return(values) => Some(height(values.first()?)),
        _ => None,
    }
}

/// Faults, and what is told of a text with several.
const UNFIT: &str = "\
f¶(x) => Ambiguous(2)
f:m¶(x) => Ambiguous(2)
f[[¶]](x) => Ambiguous(2)
f'a'¶'b' => g'f'('a')('b');
break => BreakOutside(1)
while x do f = function() break end end => BreakOutside(1)
if x then¶break end => BreakOutside(2)
x = = 1 => At(1)
x¶= 1¶= => At(3)
x =¶ => At(1)
¶¶x => At(3)
; => At(1)
x = 1;; => At(1)
f() = 1 => At(1)
a, f() = 1 => At(1)
(a) = 1 => At(1)
(f()) => At(1)
return 1¶x = 1 => At(2)
while 1 do break¶x = 1 end => At(2)
end => At(1)
do => At(1)
x = [=x => At(1)
return function() return ... end => VarargOutside(1)
function f(...) function g()¶return ... end end => VarargOutside(2)
function f(a, ..., b) end => At(1)
for a, b = 1, 2 do end => At(1)
for a.b in x do end => At(1)
local a.b = 1 => At(1)
local function a.b() end => At(1)
function a:b:c() end => At(1)
x = {1,, 2} => At(1)
x = {a = } => At(1)
x = a b => At(1)
if x then else¶elseif y then end => At(2)
repeat x = 1 end => At(1)
break¶x = = 1 => BreakOutside(1)
x = function() break¶return ... end => BreakOutside(1)
x = = 1¶'a => OpenString(2)
break¶x = ~ 1 => BadByte(2)";

/// Puts words of line 1 after other tokens. So the whole may be longer than a text may be.
fn push_words(tokens: &mut Vec<Token>, words: &[Word]) -> Result<(), AllocError> {
    for word in words {
        tokens.push(Token {
            kind: TokenKind::Word(*word),
            line: 1,
            start: 0,
            end: 0,
        })?;
    }
    Ok(())
}

/// How many arms the chunk's one statement has, where it is one `if` and nothing else.
fn arms_of(program: &Program) -> Option<usize> {
    match program.functions.first()?.body.as_slice() {
        [only] => match &only.kind {
            StmtKind::If(arms, _) => Some(arms.len()),
            _ => None,
        },
        _ => None,
    }
}

/// How many arms are read of an `if` with so many of them.
fn arms_read(alloc: Global, arms: u32) -> Result<Option<usize>, AllocError> {
    let mut tokens = Vec::new(alloc);
    push_words(&mut tokens, &[Word::If, Word::Nil, Word::Then])?;
    for _ in 1..arms {
        push_words(&mut tokens, &[Word::ElseIf, Word::Nil, Word::Then])?;
    }
    push_words(&mut tokens, &[Word::End])?;
    Ok(match parse(alloc, &tokens) {
        Ok(program) => arms_of(&program),
        Err(_) => None,
    })
}

/// Whether a hundred thousand arms are one statement.
fn are_one_statement(alloc: Global) -> bool {
    match arms_read(alloc, 100_000) {
        Ok(arms) => arms == Some(100_000),
        Err(_) => false,
    }
}

/// Faults, limits, lines, statements and expressions.
fn hold_all(rt: &impl Abort, alloc: Global) {
    hold(rt, alloc, Subject::Program, UNFIT);
    hold(rt, alloc, Subject::Limit, limits::LIMITS);
    hold(rt, alloc, Subject::Limit, limits::DEPTHS);
    hold(rt, alloc, Subject::Limit, limits::HEIGHTS);
    hold(rt, alloc, Subject::Limit, limits::LOCALS);
    hold(rt, alloc, Subject::Limit, limits::CAPTURES);
    hold(rt, alloc, Subject::Limit, limits::CONTEXTS);
    hold(rt, alloc, Subject::Limit, limits::BOTH);
    hold(rt, alloc, Subject::Lines, lines::EXPRESSIONS);
    hold(rt, alloc, Subject::Lines, lines::STATEMENTS);
    hold(rt, alloc, Subject::Heads, lines::FUNCTIONS);
    hold(rt, alloc, Subject::Program, programs::GROUPS);
    hold(rt, alloc, Subject::Program, programs::PROGRAMS);
    hold(rt, alloc, Subject::Heads, programs::HEADS);
}

#[test]
fn programs_are_parsed(rt: HostRuntime) {
    hold_all(&rt, rt.alloc());
    pairs::hold_all_pairs(&rt, rt.alloc());
    assert!(rt; are_one_statement(rt.alloc()));
}
