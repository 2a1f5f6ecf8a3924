//! What small texts of plain Lua come to, as Lua 5.1 itself has it, for all of the language where the two agree.
pub(super) mod expressions;
pub(super) mod functions;
pub(super) mod loops;
pub(super) mod metatables;
pub(super) mod protected;
pub(super) mod tables;
pub(super) mod variables;
