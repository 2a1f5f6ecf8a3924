//! Expressions.

use resty_base::{Bytes, Whole};
use std::rc::Rc;

/// An expression (Lua 5.1 Reference Manual, 2.5). `line` is that of the sign of a binary operator, of the `.` or `[`
/// of an index, of the `(`, text or `{` of a call, and of the first token of any other expression.
#[derive(Drop)]
#[cycle(expr)]
pub struct Expr {
    pub line: u32,
    pub kind: ExprKind,
}

/// What an expression is.
#[derive(Drop)]
#[cycle(expr)]
pub enum ExprKind {
    Nil,
    True,
    False,
    Number(Whole),
    Text(Bytes),
    /// The arguments after the parameters, `...`.
    Vararg,
    /// A closure of the function with this number in the program.
    Function(u32),
    /// The local variable in this slot of the running function.
    Slot(u8),
    /// The variable at this index among the captures of the running function.
    Captured(u8),
    Global(Bytes),
    /// A table and a key.
    Index(Rc<Expr>, Rc<Expr>),
    /// A function and its arguments.
    Call(Rc<Expr>, Rc<Vec<Expr>>),
    /// An object, the name of its method, and the arguments after the object.
    Method(Rc<Expr>, Bytes, Rc<Vec<Expr>>),
    Unary(UnOp, Rc<Expr>),
    Binary(BinOp, Rc<Expr>, Rc<Expr>),
    And(Rc<Expr>, Rc<Expr>),
    Or(Rc<Expr>, Rc<Expr>),
    /// An expression in parentheses, which gives one value.
    Paren(Rc<Expr>),
    /// A table constructor with its items in the order of the text.
    Table(Rc<Vec<TableItem>>),
}

/// An item of a table constructor (Lua 5.1 Reference Manual, 2.5.7).
#[derive(Drop)]
#[cycle(expr)]
pub enum TableItem {
    /// A value that gets the next number as its key.
    Item(Expr),
    /// A key and its value.
    Pair(Expr, Expr),
}

/// A unary operator.
#[derive(Clone, Copy, Debug, PartialEq, Eq)]
pub enum UnOp {
    Not,
    /// `#`.
    Length,
    /// `-`.
    Minus,
}

/// A binary operator that evaluates both of its operands.
#[derive(Clone, Copy, Debug, PartialEq, Eq)]
pub enum BinOp {
    Add,
    Sub,
    Mul,
    Div,
    Mod,
    Pow,
    Concat,
    Eq,
    Ne,
    Lt,
    Le,
    Gt,
    Ge,
}
