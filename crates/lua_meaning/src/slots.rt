//! Where a function keeps its local variables.

use lua_values::Value;

/// A local variable: its value alone, or the number of a cell of the store once a closure has captured it
/// (Lua 5.1 Reference Manual, 2.6).
#[derive(Debug, Drop)]
pub enum Slot {
    Plain(Value),
    Shared(u32),
}
