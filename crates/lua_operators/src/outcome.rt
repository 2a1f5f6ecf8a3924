//! What an operator gives.

use lua_numbers::NumFault;
use lua_values::Value;

/// What an operator gives on plain values.
#[derive(Debug, PartialEq, Eq, Drop)]
pub enum Outcome {
    Gives(Value),
    /// The operator isn't defined on these values: a metatable is asked for the event's handler
    /// (Lua 5.1 Reference Manual, 2.8).
    NeedsEvent,
    Faults(NumFault),
}
