//! The items of a frame: operations that wait for what the node above them gives.

use crate::{Assignment, Bounds, Constructor, Counter, Iteration, Target};
use lua_ast::{Arm, BinOp, Expr, Stmt, UnOp};
use lua_values::Value;
use resty_base::{Boxed, Bytes};
use std::rc::Rc;

/// An operation that waits for what is evaluated first. A number before the others is a line.
#[derive(Drop)]
pub enum Item {
    /// The call of a value with arguments, which hasn't begun.
    Call(u32, Boxed<Value>, Vec<Value>),
    /// A binary operator, which has its right operand still to evaluate.
    Right(u32, BinOp, Rc<Expr>),
    /// A binary operator with its left operand.
    Operate(u32, BinOp, Value),
    Unary(u32, UnOp),
    AndThen(Rc<Expr>),
    OrElse(Rc<Expr>),
    /// One value of many.
    First,
    /// The truth of one value of many, or its opposite where false is wanted.
    Truth(bool),
    /// A call, which has its arguments still to evaluate.
    Callee(u32, Rc<Vec<Expr>>),
    /// A call of this value.
    Arguments(u32, Value),
    /// An index, which has its key still to evaluate.
    Key(u32, Rc<Expr>),
    /// An index of this value.
    At(u32, Value),
    /// A call of the method of this name, which has its object.
    Method(u32, Bytes, Rc<Vec<Expr>>),
    /// A call of a method of this object, which has its arguments still to evaluate.
    MethodCallee(u32, Boxed<Value>, Rc<Vec<Expr>>),
    /// A call of this value with this object before the arguments.
    MethodArguments(u32, Boxed<Value>, Boxed<Value>),
    /// A list of expressions from an index on, and the values of those before.
    More(Rc<Vec<Expr>>, usize, Vec<Value>),
    /// New local variables in these slots.
    Locals(Rc<Vec<u8>>),
    /// The values of a call statement, which are dropped.
    Discard,
    /// `return` with what a list gives.
    Return,
    /// A tail call, which has its arguments still to evaluate.
    TailCallee(u32, Rc<Vec<Expr>>),
    /// A tail call of this value.
    TailArguments(u32, Value),
    /// A tail call of the method of this name, which has its object.
    TailMethod(u32, Bytes, Rc<Vec<Expr>>),
    /// A tail call of a method of this object, which has its arguments still to evaluate.
    TailMethodCallee(u32, Boxed<Value>, Rc<Vec<Expr>>),
    /// A tail call of this value with this object before the arguments.
    TailMethodArguments(u32, Boxed<Value>, Boxed<Value>),
    /// A tail call that runs, whose values are returned.
    TailReturn,
    /// The statements of a block from an index on.
    Rest(Rc<Vec<Stmt>>, usize),
    /// The test of the arm of `if` at an index, and the last block.
    Arm(Rc<Vec<Arm>>, usize, Rc<Vec<Stmt>>),
    /// The test of `while`.
    While(Rc<Expr>, Rc<Vec<Stmt>>),
    /// A run of the body of `while`.
    Turned(Rc<Expr>, Rc<Vec<Stmt>>),
    /// A run of the body of `repeat`, before its test.
    Repeated(Rc<Vec<Stmt>>, Rc<Expr>),
    /// The test of `repeat`.
    Until(Rc<Vec<Stmt>>, Rc<Expr>),
    /// The first bound of a numeric `for`, which has the others still to evaluate.
    ForFrom(Bounds),
    /// The second bound of one that has the first.
    ForTo(Bounds, Boxed<Value>),
    /// The step of one that has its bounds.
    ForStep(Bounds, Boxed<Value>, Boxed<Value>),
    /// A run of the body of a numeric `for`.
    Counted(Counter),
    /// The values of a generic `for` at this line, with its variables and its body.
    Iterate(u32, Rc<Vec<u8>>, Rc<Vec<Stmt>>),
    /// The call of the function of a generic `for`.
    Iterated(Boxed<Iteration>),
    /// A run of the body of a generic `for`, with the control value.
    Passed(Boxed<Iteration>, Value),
    /// The values of an assignment to these targets.
    Assign(Vec<Target>),
    /// The value of an assignment to one slot.
    AssignSlot(u32, u8),
    /// A target of an assignment, an index which has its key still to evaluate, before the further ones.
    TargetKey(u32, Rc<Expr>, Boxed<Assignment>),
    /// A target of an assignment, an index of this value, before the further ones.
    TargetAt(u32, Boxed<Value>, Boxed<Assignment>),
    /// The assignments to these targets that are left, after that to the target behind them.
    Stores(Vec<Target>, Vec<Value>),
    /// A table constructor, whose next item is still to evaluate.
    Items(Constructor),
    /// The key of the next item of a constructor, which has its value still to evaluate.
    ItemKey(Constructor),
    /// The value at this key in a constructor.
    ItemAtKey(Constructor, Boxed<Value>),
    /// The value at the next number in a constructor.
    ItemAtNumber(Constructor),
    /// The values of the last item of a constructor.
    ItemsAtNumbers(Constructor),
}
