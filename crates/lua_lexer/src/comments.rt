//! Comments, short and long.

ghost use Rattle.std.specs.Prelude.{◌≡◌, ◌≤◌, ◌<◌, ◌+◌, IfSome, IsTrue, length};
ghost use Rattle.lua_lexer.specs.Comments.{is_comment, comment_size};

use crate::brackets::{inside_len, level_of, opens};
use crate::characters::line_len;
use resty_base::{byte_at, bytes_after};

/// A comment begins at the front.
#[tactic(auto, unfolding(crate::specs::Comments::is_comment))]
pub(crate) fn is_comment(text: &[u8]) -> bool
    ensures value { result ≡ is_comment text.now }
    ensures within { IsTrue result → 2 ≤ length text.now }
{
    byte_at(text, 0) == b'-' && byte_at(text, 1) == b'-'
}

/// How many bytes the comment at the front has, where it is closed.
#[tactic(auto, unfolding(crate::specs::Comments::comment_size))]
pub(crate) fn comment_size(text: &[u8]) -> Option<usize>
    requires { 2 ≤ length text.now }
    ensures value { result ≡ comment_size text.now }
    ensures within { IfSome result (λ size. (0 < size) × (size ≤ length text.now)) }
{
    let inside = bytes_after(text, 2);
    if opens(inside) {
        let len = inside_len(inside)?;
        Some(len + 2 * (level_of(inside) + 2) + 2)
    } else {
        Some(line_len(inside) + 2)
    }
}
