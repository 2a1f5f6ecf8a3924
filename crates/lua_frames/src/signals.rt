//! What a node gives to the item that waits for it.

use lua_values::Value;

/// How a node ended: with values, by `return` with values, by `break`, or in a fault. One value alone takes no list.
#[derive(Drop)]
pub enum Signal {
    Nothing,
    One(Value),
    Many(Vec<Value>),
    ReturnedOne(Value),
    Returned(Vec<Value>),
    Broke,
    Raised(Value),
}
