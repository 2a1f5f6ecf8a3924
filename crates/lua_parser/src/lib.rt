//! The parser of Lua 5.1: tokens to the tree of a program.
#![tactic(auto)]

mod expressions;
mod loops;
mod pairs;
mod parser;
mod statements;
mod suffixes;

pub use lua_parser_base::ParseFault;
pub use parser::parse;
