//! `for` loops that are evaluated (Lua 5.1 Reference Manual, 2.4.5).

use lua_ast::{Expr, Stmt};
use lua_values::Value;
use resty_base::Whole;
use std::rc::Rc;

/// A numeric `for` at a line, with the slot of its variable, which has bounds still to evaluate.
#[derive(Drop)]
pub struct Bounds {
    pub line: u32,
    pub slot: u8,
    pub to: Rc<Expr>,
    pub step: Option<Rc<Expr>>,
    pub body: Rc<Vec<Stmt>>,
}

/// A numeric `for` whose body runs: what its variable began this run with, how far it goes, and what is added.
#[derive(Drop)]
pub struct Counter {
    pub line: u32,
    pub slot: u8,
    pub at: Whole,
    pub limit: Whole,
    pub step: Whole,
    pub body: Rc<Vec<Stmt>>,
}

/// A generic `for` at a line, with the slots of its variables, the function that is called for their values, and the state.
#[derive(Drop)]
pub struct Iteration {
    pub line: u32,
    pub slots: Rc<Vec<u8>>,
    pub function: Value,
    pub state: Value,
    pub body: Rc<Vec<Stmt>>,
}
