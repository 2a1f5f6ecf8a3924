//! The end of a head, found in bytes that come piece by piece (RFC 9112, section 2.1).

ghost use Rattle.std.specs.Prelude.{◌≡◌, ℕ, ◌+◌, ◌++◌, List, [], length, true, None, Some, option_map};
ghost use Rattle.http_in.specs.Ends.{head_end};
ghost use Rattle.http_in.specs.Scanning.{after_byte, after_bytes, scan_of, has_ended};

const LF: u8 = b'\n';

const CR: u8 = b'\r';

/// Finds the end of a head, and keeps none of its bytes: how far the head has come.
#[derive(Clone, Copy, Debug, PartialEq, Eq)]
pub enum HeadScan {
    /// Nothing came but empty lines.
    Empty,
    /// Nothing came but empty lines, and a CR after them.
    EmptyReturn,
    /// A line of the head began.
    Line,
    /// A line of the head ended.
    LineEnd,
    /// A line of the head ended, and a CR came after it.
    LineEndReturn,
    /// The empty line after the head came.
    Whole,
}

impl HeadScan {
    /// A scanner to which no byte was given.
    pub fn new() -> HeadScan
        ensures { result ≡ scan_of [] }
    {
        HeadScan::Empty
    }

    /// Reads a further piece, and returns how many bytes of it belong to the head, where it ends there; 0 once it has ended.
    pub fn read(&mut self, piece: &[u8]) -> Option<usize>
        ensures moved { self.new ≡ after_bytes self.old piece.now }
        ensures found { (taken : List ℕ) → self.old ≡ scan_of taken → head_end taken ≡ None
            → head_end (taken ++ piece.now) ≡ option_map (λ n. length taken + n) result }
        ensures ended { has_ended self.old ≡ true → result ≡ Some 0 }
    {
        for (index, byte) in piece.iter().enumerate() {
            if self.has_ended() {
                return Some(index);
            }
            *self = self.after(*byte);
        }
        self.has_ended().then_some(piece.len())
    }

    fn after(self, byte: u8) -> HeadScan
        ensures { result ≡ after_byte self byte }
    {
        match (self, byte) {
            (HeadScan::Whole, _) | (HeadScan::LineEnd | HeadScan::LineEndReturn, LF) =>
                HeadScan::Whole,
            (HeadScan::Empty | HeadScan::EmptyReturn, LF) => HeadScan::Empty,
            (HeadScan::Empty, CR) => HeadScan::EmptyReturn,
            (HeadScan::LineEnd, CR) => HeadScan::LineEndReturn,
            (HeadScan::Line, LF) => HeadScan::LineEnd,
            _ => HeadScan::Line,
        }
    }

    /// Whether the end of the head came.
    pub fn has_ended(self) -> bool
        ensures { result ≡ has_ended self }
    {
        matches!(self, HeadScan::Whole)
    }
}
