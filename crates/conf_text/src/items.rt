//! Items: words up to what ends them.
ghost use Rattle.std.specs.Prelude.{◌≡◌, ◌≤◌, ◌<◌, ◌+◌, ◌^◌, false, length, drop, IfOk};
ghost use Rattle.conf_text.specs.Items as spec;

use crate::Ending;
use crate::endings::{Ended, ended_at};
use crate::tokens::{token_at, word_of};
use resty_base::{ByteLists, Bytes, bytes_after};
use std::alloc::{AllocError, Global};

/// Words and what ends them, with the line of the first token and that of the ending, from 1. A directive's first word is
/// its name, and a `}` by itself closes a block. At the text's end the ending's line is that of the last token.
#[derive(Debug, Drop)]
pub struct Item {
    pub words: ByteLists,
    pub line: usize,
    pub ending: Ending,
    pub ending_line: usize,
}

/// The words at the front of a text, with how many bytes they have and the line after them.
#[derive(Debug, Drop)]
struct Words {
    words: Vec<Bytes>,
    size: usize,
    last_line: usize,
}

/// The words at the front of a text that begins on a line.
fn words_at(alloc: Global, text: &[u8], line: usize) -> Result<Words, AllocError>
    requires { line + length text.now < 2 ^ 64 }
    ensures words { IfOk result (λ read. spec.WordsStand text.now line read.words.items (drop read.size text.now) read.last_line) }
    ensures end { IfOk result (λ read. spec.NoWordStands (drop read.size text.now) read.last_line) }
    ensures size { IfOk result (λ read. read.size ≤ length text.now) }
    ensures lines { IfOk result (λ read. read.last_line ≤ line + read.size) }
{
    let mut words = Vec::new(alloc);
    let mut rest = text;
    let mut last_line = line;
    loop {
        let token = token_at(rest, last_line);
        let Some(word) = word_of(rest, token) else {
            let size = text.len() - rest.len();
            return Ok(Words {
                words,
                size,
                last_line,
            });
        };
        words.push(Bytes::copy_from_slice(alloc, word)?)?;
        rest = bytes_after(rest, token.size);
        last_line = token.last_line;
    }
}

/// Whether the words begin a block of Lua: the first one ends with `_by_lua_block`.
fn begin_lua(words: &[Bytes]) -> bool
    ensures { result ≡ spec.begin_lua words.now }
{
    match words {
        [] => false,
        [name, ..] => name.ends_with(b"_by_lua_block"),
    }
}

/// An item with how many bytes it has together with the layout, and the line after it.
#[derive(Debug, Drop)]
struct Read {
    item: Item,
    size: usize,
    last_line: usize,
}

/// The item at the front of a text that begins on a line.
fn item_at(alloc: Global, text: &[u8], line: usize) -> Result<Read, AllocError>
    requires { line + length text.now < 2 ^ 64 }
    ensures item { IfOk result (λ read. spec.ItemStands text.now line read.item (drop read.size text.now) read.last_line) }
    ensures size { IfOk result (λ read. read.size ≤ length text.now) }
    ensures some { IfOk result (λ read. spec.is_last read.item ≡ false → 0 < read.size) }
    ensures lines { IfOk result (λ read. read.last_line ≤ line + read.size) }
{
    let begin = token_at(text, line).line;
    let Words {
        words,
        size,
        last_line,
    } = words_at(alloc, text, line)?;
    let is_lua = begin_lua(words.as_slice());
    let ended = ended_at(alloc, is_lua, bytes_after(text, size), last_line)?;
    Ok(Read {
        item: Item {
            words: ByteLists::of(words),
            line: begin,
            ending: ended.ending,
            ending_line: ended.line,
        },
        size: size + ended.size,
        last_line: ended.last_line,
    })
}

/// Whether nothing can be read after the item.
fn is_last(item: &Item) -> bool
    ensures { result ≡ spec.is_last item.now }
{
    matches!(item.ending, Ending::Unclosed | Ending::End | Ending::Broken)
}

/// The items of a text, up to the first after which nothing can be read: at the text's end, at a block of Lua that isn't
/// closed, or at a wrong quote.
pub fn items_of(alloc: Global, text: &[u8]) -> Result<Vec<Item>, AllocError>
    ensures { IfOk result (λ items. spec.IsItems text.now items.items) }
{
    let mut items = Vec::new(alloc);
    let mut rest = text;
    let mut line = 1;
    loop {
        let read = item_at(alloc, rest, line)?;
        let last = is_last(&read.item);
        items.push(read.item)?;
        if last {
            return Ok(items);
        }
        rest = bytes_after(rest, read.size);
        line = read.last_line;
    }
}
