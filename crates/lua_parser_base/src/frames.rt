//! A function whose text is being read: its locals and its captures.
ghost use Rattle.std.specs.Prelude.{◌≤◌, vec_len};

use lua_ast::Capture;
use resty_base::Bytes;

/// A variable of the enclosing function, and the name by which it was captured.
#[derive(Drop)]
pub struct Captured {
    pub name: Bytes,
    pub variable: Capture,
}

/// A function whose text is being read.
#[derive(Drop)]
pub struct Frame {
    /// The names of its locals in scope, in the order of their slots.
    pub locals: Vec<Bytes>,
    /// Its captures in the order of their first mention.
    pub captures: Vec<Captured>,
    /// How many locals were in scope at most.
    pub slots: usize,
    ghost few_locals: { vec_len locals ≤ 200 },
    ghost few_captures: { vec_len captures ≤ 60 },
    ghost few_slots: { slots ≤ 200 },
    ghost covered: { vec_len locals ≤ slots },
}
