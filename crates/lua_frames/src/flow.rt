//! What a piece of work came to.

use lua_meaning::Position;
use lua_values::Values;

/// It went on, it asks the outside, the steps are spent, or all calls have ended.
#[derive(Clone, Copy, Debug, PartialEq, Eq)]
pub enum Flow {
    Went,
    /// What is asked stands in the frames' `asked`.
    Asked,
    Spent,
    Over,
}

/// A call of the host's functions that is left to the outside, from the position at which it is called.
#[derive(Debug, Drop)]
pub struct Op {
    pub number: u32,
    pub args: Values,
    pub position: Option<Position>,
}
