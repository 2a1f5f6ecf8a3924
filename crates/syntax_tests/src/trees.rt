//! Heights of expressions (HIGHEST_CHILD, and parentheses), and programs in which each number names something that is there (WHOLE).
use crate::rows::{Subject, hold, put};
use lua_ast::*;
use resty_base::{ByteLists, Bytes};
use std::alloc::{AllocError, Global};
use std::rc::Rc;

/// An expression in so many parentheses.
fn nested(alloc: Global, parentheses: u32) -> Result<Expr, AllocError> {
    let mut kind = ExprKind::Nil;
    for _ in 0..parentheses {
        kind = ExprKind::Paren(Rc::new(alloc, Expr { line: 1, kind })?);
    }
    Ok(Expr { line: 1, kind })
}

/// How high an expression in so many parentheses is. The expression is given up.
fn height_of_nested(alloc: Global, parentheses: u32) -> Result<u32, AllocError> {
    Ok(height(&nested(alloc, parentheses)?))
}

/// A table whose highest child is a call of which the second argument is the highest.
const HIGHEST_CHILD: &str = "local a return {nil, [true] = a(..., true + -(((((nil))))))} => 10";

/// Whether an expression in parentheses is one higher than they are many.
fn is_one_higher(alloc: Global, parentheses: u32) -> bool {
    match height_of_nested(alloc, parentheses) {
        Ok(height) => height.checked_sub(1) == Some(parentheses),
        Err(_) => false,
    }
}

/// What the chunk returns, the capture of a second function, the number of the chunk's file and that of its parameters, and
/// whether the program is whole: it has one file, and the chunk two slots and no captures.
const WHOLE: &str = "\
s1 s9 0 2 => true
s2 s0 0 2 => false
c0 s0 0 0 => false
f1 s1 0 0 => true
f1 s2 0 0 => false
f1 c0 0 0 => false
f0 s9 0 0 => true
f2 s0 0 0 => false
nil s0 1 0 => false
nil s0 0 3 => false";

/// A slot, a capture, a function or nil.
fn kind_of(word: &str) -> ExprKind {
    match word {
        "s1" => ExprKind::Slot(1),
        "s2" => ExprKind::Slot(2),
        "c0" => ExprKind::Captured(0),
        "f0" => ExprKind::Function(0),
        "f1" => ExprKind::Function(1),
        "f2" => ExprKind::Function(2),
        _ => ExprKind::Nil,
    }
}

/// A variable that is captured.
fn capture_of(word: &str) -> Capture {
    match word {
        "s0" => Capture::Slot(0),
        "s1" => Capture::Slot(1),
        "s2" => Capture::Slot(2),
        "s9" => Capture::Slot(9),
        _ => Capture::Outer(0),
    }
}

/// A body that returns a value.
fn returns(alloc: Global, kind: ExprKind) -> Result<Rc<Vec<Stmt>>, AllocError> {
    let values = Rc::new(alloc, vec![in alloc; Expr { line: 1, kind }]?)?;
    let last = Stmt {
        line: 1,
        kind: StmtKind::Return(values),
    };
    Ok(Rc::new(alloc, vec![in alloc; last]?)?)
}

/// A chunk that returns a value.
fn chunk(alloc: Global, kind: ExprKind, file: u32, params: u8) -> Result<Function, AllocError> {
    let body = returns(alloc, kind)?;
    Ok(Function {
        file,
        params,
        vararg: true,
        slots: 2,
        captures: Vec::new(alloc),
        body,
        line: 1,
    })
}

/// A function that does nothing, with one capture.
fn inner(alloc: Global, capture: Capture) -> Result<Function, AllocError> {
    let captures = vec![in alloc; capture]?;
    Ok(Function {
        file: 0,
        params: 0,
        vararg: false,
        slots: 0,
        captures,
        body: Rc::new(alloc, Vec::new(alloc))?,
        line: 1,
    })
}

/// Whether a program of these functions is whole.
fn is_whole_of(alloc: Global, chunk: Function, inner: Function) -> Result<bool, AllocError> {
    let functions = vec![in alloc; chunk, inner]?;
    let files = ByteLists::of(vec![in alloc; Bytes::new()]?);
    Ok(is_whole(&Program { files, functions }))
}

/// Whether the program of a row is whole.
fn is_row_whole(alloc: Global, text: &str) -> Result<bool, AllocError> {
    let (kind, text) = text.split_once(' ').unwrap_or((text, ""));
    let (capture, text) = text.split_once(' ').unwrap_or((text, ""));
    let (file, params) = text.split_once(' ').unwrap_or((text, ""));
    let (file, params) = (file.parse().unwrap_or(9), params.parse().unwrap_or(9));
    let chunk = chunk(alloc, kind_of(kind), file, params)?;
    is_whole_of(alloc, chunk, inner(alloc, capture_of(capture))?)
}

/// Writes whether the program of a row is whole.
pub(crate) fn see_whole(alloc: Global, all: &mut String, text: &str) {
    put(
        all,
        match is_row_whole(alloc, text) {
            Ok(true) => "true",
            Ok(false) => "false",
            Err(_) => "memory",
        },
    );
}

#[test]
fn trees_have_heights_and_numbers_that_are_there(rt: HostRuntime) {
    hold(&rt, rt.alloc(), Subject::Height, HIGHEST_CHILD);
    hold(&rt, rt.alloc(), Subject::Whole, WHOLE);
    for parentheses in [0, 1, 3_999] {
        assert!(rt; is_one_higher(rt.alloc(), parentheses), "{parentheses}");
    }
}
