//! The tree of a Lua program: its functions, their statements and their expressions.
#![tactic(auto)]

mod expressions;
mod heights;
mod programs;
mod statements;
mod whole_programs;

pub use expressions::{BinOp, Expr, ExprKind, TableItem, UnOp};
pub use heights::height;
pub use programs::{Capture, Function, Program};
pub use statements::{Arm, Stmt, StmtKind};
pub use whole_programs::is_whole;
