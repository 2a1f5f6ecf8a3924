//! Tokens: words and signs behind layout, and their lines.
ghost use Rattle.std.specs.Prelude.{◌≡◌, ◌≤◌, ◌<◌, ◌+◌, ◌^◌, IfSome, length, option_copied};
ghost use Rattle.conf_text.specs.Fronts.{HasBytes, front_size};
ghost use Rattle.conf_text.specs.Tokens as spec;

use crate::fronts::{Front, front_of, front_size, word_at};
use crate::layout::{layout_size, line_after};
use resty_base::{bytes_after, first_bytes};

/// What stands at the front of a text after its layout, with the line on which it begins and that on which it ends, and
/// how many bytes it has together with the layout.
#[derive(Clone, Copy, Debug)]
pub(crate) struct Token {
    pub(crate) front: Front,
    pub(crate) line: usize,
    pub(crate) last_line: usize,
    pub(crate) size: usize,
}

/// The token at the front of a text that begins on a line.
pub(crate) fn token_at(text: &[u8], line: usize) -> Token
    requires { line + length text.now < 2 ^ 64 }
    ensures value { result ≡ spec.token_at text.now line }
    ensures some { HasBytes result.front }
    ensures bytes { front_size result.front ≤ result.size }
    ensures size { result.size ≤ length text.now }
    ensures lines { result.last_line ≤ line + result.size }
{
    let layout = layout_size(text);
    let rest = bytes_after(text, layout);
    let begin = line_after(line, first_bytes(text, layout));
    let front = front_of(rest);
    let size = front_size(front);
    Token {
        front,
        line: begin,
        last_line: line_after(begin, first_bytes(rest, size)),
        size: layout + size,
    }
}

/// The word that the token at the front of a text is, None where it is none.
pub(crate) fn word_of(text: &[u8], token: Token) -> Option<&[u8]>
    requires some { HasBytes token.front }
    requires bytes { front_size token.front ≤ token.size }
    ensures value { option_copied result ≡ spec.word_of text.now token }
    ensures some { IfSome result (λ _. 0 < token.size) }
{
    word_at(bytes_after(text, layout_size(text)), token.front)
}
