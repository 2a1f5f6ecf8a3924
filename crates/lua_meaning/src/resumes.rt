//! What a thread is resumed with.

use lua_values::Values;
use resty_base::Bytes;

/// What a call of the host's functions whose answer was left to the outside gives in the end.
#[derive(Debug, Drop)]
pub enum Resumed {
    Values(Values),
    /// The call fails with this text, after the call's position.
    Raise(Bytes),
}
