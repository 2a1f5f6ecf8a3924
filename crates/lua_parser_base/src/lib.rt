//! What the parser of Lua 5.1 stands on: its position among the tokens, scopes, nodes, and the definitions of what is read and refused.
#![tactic(auto)]

mod beginnings;
mod constants;
mod cursor;
mod faults;
mod frames;
mod functions;
mod nesting;
mod nodes;
mod operators;
mod scopes;
mod statement_nodes;
mod suffixes;

pub use beginnings::Begins;
pub use cursor::{Named, Parser};
pub use faults::ParseFault;
pub use frames::{Captured, Frame};
pub use functions::{Begun, Parameters};
pub use nesting::Nesting;
pub use nodes::{
    Built, Form, Item, Items, Prefix, Values, binary, called, indexed, leaf, method_called, paren,
    unary,
};
pub use operators::{Infix, Operand, Prefixed};
pub use statement_nodes::{
    FunctionName, LoopBlock, Range, arm_node, assign_node, define, do_node, generic_for, if_node,
    local_node, numeric_for, repeat_node, returned, while_node,
};
pub use suffixes::Suffix;
