//! Programs, their functions, and what these capture.

use crate::Stmt;
use resty_base::ByteLists;
use std::rc::Rc;

/// The functions of one or more chunks. Function 0 is the first chunk.
#[derive(Drop)]
pub struct Program {
    /// The names of the files.
    pub files: ByteLists,
    pub functions: Vec<Function>,
}

/// A function. Its parameters are its first slots.
#[derive(Drop)]
pub struct Function {
    /// The index of its file in `files`.
    pub file: u32,
    /// How many parameters it has, apart from `...`.
    pub params: u8,
    /// Whether it takes more arguments, as `...`.
    pub vararg: bool,
    /// How many slots its parameters and locals take at most at once.
    pub slots: u8,
    /// The variables of the enclosing function that it or a function within it uses.
    pub captures: Vec<Capture>,
    pub body: Rc<Vec<Stmt>>,
    /// The line of its word `function`; of a chunk, that of its first token.
    pub line: u32,
}

/// A variable of the function that encloses a closure's function.
#[derive(Clone, Copy, Debug, PartialEq, Eq)]
pub enum Capture {
    /// In this slot of that function.
    Slot(u8),
    /// At this index among that function's own captures.
    Outer(u8),
}
