//! Assignments and table constructors that are evaluated.

use lua_ast::{Expr, TableItem};
use lua_values::Value;
use std::rc::Rc;

/// What is assigned to, at a line: a slot, a captured variable, or a value at a key.
#[derive(Drop)]
pub enum Target {
    Slot(u32, u8),
    Captured(u32, u8),
    AtKey(u32, Value, Value),
    /// What is no variable is no target.
    Nowhere,
}

/// An assignment of which some targets are found, and those from an index on are still to be evaluated, and then its values.
#[derive(Drop)]
pub struct Assignment {
    pub found: Vec<Target>,
    pub targets: Rc<Vec<Expr>>,
    pub next: usize,
    pub values: Rc<Vec<Expr>>,
}

/// A constructor at a line, of a table, which has its items from an index on still to evaluate. The next item without a key gets
/// this number.
#[derive(Drop)]
pub struct Constructor {
    pub line: u32,
    pub table: u32,
    pub number: u64,
    pub items: Rc<Vec<TableItem>>,
    pub next: usize,
}
