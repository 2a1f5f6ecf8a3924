//! A frame: one call that hasn't ended.

use crate::Item;
use lua_meaning::Slot;
use lua_values::Value;
use resty_base::Boxed;

/// What a frame is of: the thread itself, a Lua function, `pcall`, `xpcall` with its handler, or that handler while it runs.
#[derive(Drop)]
pub enum Kind {
    Base,
    Lua,
    Guard,
    Handled(Boxed<Value>),
    Handling,
}

/// One call that hasn't ended. Where it is of a Lua function: the function's number, the line at which it last called, the cells
/// that it captured, the arguments after its parameters, and its local variables. Its items wait for what is above them, the
/// innermost last.
#[derive(Drop)]
pub struct Frame {
    pub kind: Kind,
    pub function: u32,
    pub line: u32,
    pub cells: Vec<u32>,
    pub extras: Vec<Value>,
    pub slots: Vec<Slot>,
    pub items: Vec<Item>,
}
