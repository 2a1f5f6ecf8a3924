//! What ends an item.
ghost use Rattle.std.specs.Prelude.{◌≡◌, ◌≤◌, ◌<◌, ◌+◌, ◌^◌, length, IfOk};
ghost use Rattle.conf_text.specs.Endings as spec;

use crate::fronts::Front;
use crate::layout::line_after;
use crate::tokens::{Token, token_at};
use lua_lexer::block_end;
use resty_base::{Bytes, bytes_after, first_bytes};
use std::alloc::{AllocError, Global};

/// What ends an item.
#[derive(Debug, PartialEq, Eq, Drop)]
pub enum Ending {
    Semicolon,
    Open,
    Close,
    /// A block of Lua, with the text between its braces.
    Lua(Bytes),
    /// A block of Lua that isn't closed.
    Unclosed,
    /// The text's end.
    End,
    /// A quote that isn't closed, or what stands right after one that is.
    Broken,
}

/// An ending with its line, how many bytes it has together with the layout before it, and the line after it.
#[derive(Debug, Drop)]
pub(crate) struct Ended {
    pub(crate) ending: Ending,
    pub(crate) line: usize,
    pub(crate) size: usize,
    pub(crate) last_line: usize,
}

/// The ending that a token is by itself; after a word, which ends no item, there is nothing to say.
fn sign_of(front: Front) -> Ending
    ensures { result ≡ spec.sign_of front }
{
    match front {
        Front::Semicolon => Ending::Semicolon,
        Front::Open => Ending::Open,
        Front::Close => Ending::Close,
        Front::End => Ending::End,
        Front::Word(_) | Front::Quoted(_) | Front::Broken(_) => Ending::Broken,
    }
}

/// The line of an ending: at the text's end that of the last token.
fn ending_line(token: Token, line: usize) -> usize
    ensures { result ≡ spec.ending_line token line }
{
    match token.front {
        Front::End => line,
        _ => token.last_line,
    }
}

/// The ending that a token is by itself, after what ends on a line.
fn plain(token: Token, line: usize) -> Ended
    ensures { result ≡ spec.plain token line }
{
    Ended {
        ending: sign_of(token.front),
        line: ending_line(token, line),
        size: token.size,
        last_line: token.last_line,
    }
}

/// The block of Lua that the token opens before this text.
fn lua(alloc: Global, token: Token, text: &[u8]) -> Result<Ended, AllocError>
    requires size { token.size + length text.now < 2 ^ 63 }
    requires line { token.last_line + length text.now < 2 ^ 64 }
    ensures value { IfOk result (λ ended. ended ≡ spec.lua token text.now) }
    ensures size { IfOk result (λ ended. ended.size ≤ token.size + length text.now) }
    ensures lines { IfOk result (λ ended. ended.last_line + token.size ≤ token.last_line + ended.size) }
{
    let (ending, size) = match block_end(text, 0) {
        Some(end) => (
            Ending::Lua(Bytes::copy_from_slice(alloc, &text[..end])?),
            end + 1,
        ),
        None => (Ending::Unclosed, 0),
    };
    Ok(Ended {
        ending,
        line: token.last_line,
        size: token.size + size,
        last_line: line_after(token.last_line, first_bytes(text, size)),
    })
}

/// What ends an item at the front of a text that begins on a line, and whether a `{` there opens a block of Lua.
pub(crate) fn ended_at(
    alloc: Global,
    is_lua: bool,
    text: &[u8],
    line: usize,
) -> Result<Ended, AllocError>
    requires { line + length text.now < 2 ^ 64 }
    ensures value { IfOk result (λ ended. ended ≡ spec.ended_at is_lua text.now line) }
    ensures size { IfOk result (λ ended. ended.size ≤ length text.now) }
    ensures lines { IfOk result (λ ended. ended.last_line ≤ line + ended.size) }
{
    let token = token_at(text, line);
    match token.front {
        Front::Open if is_lua => lua(alloc, token, bytes_after(text, token.size)),
        _ => Ok(plain(token, line)),
    }
}
