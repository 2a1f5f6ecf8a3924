//! Positions in the texts of a program.

/// A line of a file of the program, which is the index of its name in the program's `files`.
#[derive(Clone, Copy, Debug, PartialEq, Eq)]
pub struct Position {
    pub file: u32,
    pub line: u32,
}
