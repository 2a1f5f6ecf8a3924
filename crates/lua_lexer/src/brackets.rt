//! Long brackets: where one opens, and where it closes.

ghost use Rattle.std.specs.Prelude.{◌≡◌, ◌≤◌, ◌<◌, ◌+◌, ◌==◌, IfSome, IsTrue, length};
ghost use Rattle.std.specs.List.{prefix_len};
ghost use Rattle.resty_base.specs.Ascii.{equals};
ghost use Rattle.lua_lexer.specs.Brackets.{level_of, is_bracket, opens, closes, before_closing, inside_len, long_size};

use resty_base::{byte_at, bytes_after};

/// How many `=` stand at the front.
fn equals_signs(text: &[u8]) -> usize
    ensures value { result ≡ prefix_len (λ c. c == equals) text.now }
    ensures within { result ≤ length text.now }
{
    text.iter().take_while(|byte| **byte == b'=').count()
}

/// How many `=` stand after the first byte.
#[tactic(auto, unfolding(crate::specs::Brackets::level_of))]
pub(crate) fn level_of(text: &[u8]) -> usize
    ensures value { result ≡ level_of text.now }
    ensures within { result ≤ length text.now }
{
    if text.is_empty() {
        return 0;
    }
    equals_signs(bytes_after(text, 1))
}

/// A long bracket of this byte stands at the front.
#[tactic(auto, unfolding(crate::specs::Brackets::is_bracket))]
pub(crate) fn is_bracket(text: &[u8], bracket: u8) -> bool
    requires { 0 < bracket }
    ensures value { result ≡ is_bracket bracket text.now }
    ensures within { IsTrue result → level_of text.now + 2 ≤ length text.now }
{
    byte_at(text, 0) == bracket && byte_at(text, level_of(text) + 1) == bracket
}

/// A long bracket opens at the front.
pub(crate) fn opens(text: &[u8]) -> bool
    ensures value { result ≡ opens text.now }
    ensures within { IsTrue result → level_of text.now + 2 ≤ length text.now }
{
    is_bracket(text, b'[')
}

/// A long bracket of this level closes at the front.
#[tactic(auto, unfolding(crate::specs::Brackets::closes))]
fn closes(text: &[u8], level: usize) -> bool
    ensures value { result ≡ closes level text.now }
    ensures within { IsTrue result → level + 2 ≤ length text.now }
{
    is_bracket(text, b']') && level_of(text) == level
}

/// How many bytes stand before the first closing bracket of the level.
#[tactic(auto, unfolding(crate::specs::Brackets::before_closing))]
fn before_closing(text: &[u8], level: usize) -> Option<usize>
    ensures value { result ≡ before_closing level text.now }
    ensures within { IfSome result (λ len. len + level + 2 ≤ length text.now) }
{
    let mut rest = text;
    while !rest.is_empty() {
        if closes(rest, level) {
            return Some(text.len() - rest.len());
        }
        rest = bytes_after(rest, 1);
    }
    None
}

/// How many bytes stand between the long brackets of which the first opens at the front.
#[tactic(auto, unfolding(crate::specs::Brackets::inside_len))]
pub(crate) fn inside_len(text: &[u8]) -> Option<usize>
    requires { level_of text.now + 2 ≤ length text.now }
    ensures value { result ≡ inside_len text.now }
    ensures within { IfSome result (λ len. long_size text.now len ≤ length text.now) }
{
    let level = level_of(text);
    before_closing(bytes_after(text, level + 2), level)
}
