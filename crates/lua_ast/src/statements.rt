//! Statements.

use crate::Expr;
use std::rc::Rc;

/// A statement (Lua 5.1 Reference Manual, 2.4), with the line of its first token.
#[derive(Drop)]
#[cycle(stmt)]
pub struct Stmt {
    pub line: u32,
    pub kind: StmtKind,
}

/// What a statement is.
#[derive(Drop)]
#[cycle(stmt)]
pub enum StmtKind {
    /// The slots of new local variables, and the values that they get.
    Local(Rc<Vec<u8>>, Rc<Vec<Expr>>),
    /// The slot of a new local variable, and the number of the function that it gets.
    LocalFunction(u8, u32),
    /// Targets, each a `Slot`, a `Captured`, a `Global` or an `Index`, and the values that they get.
    Assign(Rc<Vec<Expr>>, Rc<Vec<Expr>>),
    /// A `Call` or a `Method`, whose values are dropped.
    Call(Expr),
    Do(Rc<Vec<Stmt>>),
    /// A test, and the block that is run while it holds.
    While(Rc<Expr>, Rc<Vec<Stmt>>),
    /// A block that is run until the test holds, which sees the block's locals.
    Repeat(Rc<Vec<Stmt>>, Rc<Expr>),
    /// The arms of `if` and each `elseif`, and the block of `else`, which is empty where there is none.
    If(Rc<Vec<Arm>>, Rc<Vec<Stmt>>),
    /// `for slot = from, to, step do body end`; the step is 1 where there is none.
    NumericFor {
        slot: u8,
        from: Rc<Expr>,
        to: Rc<Expr>,
        step: Option<Rc<Expr>>,
        body: Rc<Vec<Stmt>>,
    },
    /// `for slots in values do body end`.
    GenericFor {
        slots: Rc<Vec<u8>>,
        values: Rc<Vec<Expr>>,
        body: Rc<Vec<Stmt>>,
    },
    Return(Rc<Vec<Expr>>),
    Break,
}

/// A test of an `if`, and the block that is run where it holds.
#[derive(Drop)]
#[cycle(stmt)]
pub struct Arm {
    pub test: Expr,
    pub body: Rc<Vec<Stmt>>,
}
