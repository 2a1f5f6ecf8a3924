//! Where a block of Lua in braces ends.

ghost use Rattle.std.specs.Prelude.{◌≡◌, ◌≤◌, ◌<◌, ◌+◌, ◌^◌, ◌==◌, ◌&&◌, IfSome, IsTrue, length, slice_index};
ghost use Rattle.resty_base.specs.Ascii.{close_brace};
ghost use Rattle.lua_lexer.specs.Strings.{is_quote};
ghost use Rattle.lua_lexer.specs.Blocks.{short_string_size, stretch, depth_after, closing_after, block_end_of};

use crate::brackets::{inside_len, level_of, opens};
use crate::comments::{comment_size, is_comment};
use crate::strings::{body_len, is_quote};
use resty_base::{byte_at, bytes_after};

/// How many bytes the short string at the front has, where it is closed.
#[tactic(auto, unfolding(crate::specs::Blocks::short_string_size))]
fn short_string_size(text: &[u8]) -> Option<usize>
    requires some { 0 < length text.now }
    requires quote { IsTrue (is_quote (slice_index text.now 0)) }
    ensures value { result ≡ short_string_size text.now }
    ensures within { IfSome result (λ size. (0 < size) × (size ≤ length text.now)) }
{
    let quote = text[0];
    let inside = bytes_after(text, 1);
    let len = body_len(inside, quote);
    if byte_at(inside, len) == quote {
        Some(len + 2)
    } else {
        None
    }
}

/// How many bytes the string or the comment at the front has, where it is closed, and 1 at any other byte.
#[tactic(auto, unfolding(crate::specs::Blocks::stretch))]
fn stretch(text: &[u8]) -> Option<usize>
    requires { 0 < length text.now }
    ensures value { result ≡ stretch text.now }
    ensures within { IfSome result (λ size. (0 < size) × (size ≤ length text.now)) }
{
    if is_quote(text[0]) {
        short_string_size(text)
    } else if is_comment(text) {
        comment_size(text)
    } else if opens(text) {
        let inside = inside_len(text)?;
        Some(inside + 2 * (level_of(text) + 2))
    } else {
        Some(1)
    }
}

/// The byte closes the block where so many more braces are open.
fn closes_block(byte: u8, depth: usize) -> bool
    ensures { result ≡ (byte == close_brace && depth == 0) }
{
    byte == b'}' && depth == 0
}

/// How many braces are open after a byte.
fn depth_after(depth: usize, byte: u8) -> usize
    requires { depth < 2 ^ 63 }
    ensures { result ≡ depth_after depth byte }
{
    match byte {
        b'{' => depth + 1,
        b'}' => depth.saturating_sub(1),
        _ => depth,
    }
}

/// The index of the `}` that closes a block of Lua whose inside begins at `from`, past strings and comments. A wrong
/// escape, byte or number doesn't matter. It takes no memory.
pub fn block_end(text: &[u8], from: usize) -> Option<usize>
    ensures value { result ≡ block_end_of text.now from }
    ensures within { IfSome result (λ index. (from ≤ index) × (index < length text.now)) }
    ensures brace { IfSome result (λ index. slice_index text.now index ≡ close_brace) }
{
    if from > text.len() {
        return None;
    }
    let mut depth: usize = 0;
    let mut index = from;
    let mut rest = bytes_after(text, from);
    while !rest.is_empty() {
        let byte = rest[0];
        if closes_block(byte, depth) {
            return Some(index);
        }
        let size = stretch(rest)?;
        depth = depth_after(depth, byte);
        index += size;
        rest = bytes_after(rest, size);
    }
    None
}
