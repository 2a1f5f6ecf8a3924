//! Tests of words and items; the expected ones were worked out by hand from nginx's documentation.
use conf_text::{Ending, Item, items_of};
use std::alloc::{AllocError, Global};

/// A letter for the ending, or the text of a block of Lua.
fn in_words(ending: &Ending) -> &str {
    match ending {
        Ending::Semicolon => ";",
        Ending::Open => "{",
        Ending::Close => "}",
        Ending::Lua(text) => str::from_utf8(text).unwrap_or("?"),
        Ending::Unclosed => "U",
        Ending::End => "$",
        Ending::Broken => "!",
    }
}

/// Writes the words in brackets, the line, the ending and its line.
fn put_item(alloc: Global, out: &mut String, item: &Item) -> Result<(), AllocError> {
    for word in item.words.as_slice() {
        out.push('[')?;
        out.push_str(str::from_utf8(word).unwrap_or("?"))?;
        out.push(']')?;
    }
    let (line, ending, ending_line) = (item.line, in_words(&item.ending), item.ending_line);
    out.push_str(format!(in alloc; "{line}{ending}{ending_line},")?.as_str())
}

/// The items of a text.
pub(crate) fn written(alloc: Global, text: &str) -> Result<String, AllocError> {
    let mut out = String::new(alloc);
    let items = items_of(alloc, text.as_bytes())?;
    for item in &items {
        put_item(alloc, &mut out, item)?;
    }
    Ok(out)
}

/// Texts have items.
pub(super) const ITEMS: &str = "\
items  => 1$1,
items http {|} => [http]1{1,2}2,2$2,
items \"http\"|{ server{}}#x => [http]1{2,[server]2{2,2}2,2}2,2$2,
items a 'b c'|\"d\"; e => [a][b c][d]1;2,[e]2$2,
items a'b#C; => [a'b#C]1;1,1$1,
items a\\;b => [a\\]1;1,[b]1$1,
items a # c ; {|; => [a]1;2,2$2,
items a;\r|b\t;\r| => [a]1;1,[b]2;2,3$2,
items '' => []1$1,
items 'a|' 'b||' => [a|][b||]1$4,
items ; { }} => 1;1,1{1,1}1,1}1,1$1,";

pub(super) const QUOTES: &str = r##"items listen "80| => [listen]1!1,
items a|'b|"c" => [a]1!2,
items "a|"b => 1!2,
items "a"'b' => 1!1,
items "a"#' => [a]1$1,
items "a"{"b"}"c"; => [a]1{1,[b]1}1,[c]1;1,1$1,"##;

pub(super) const LUA: &str =
    r#"items x_by_lua_block { "}" --}| }y => [x_by_lua_block]1 "}" --}| 1,[y]2$2,
items '_by_lua_block' z|{{[[}]]}} } => [_by_lua_block][z]1{[[}]]}2,2}2,2$2,
items x_by_lua_block|{ "} => [x_by_lua_block]1U2,
items x_by_lua_block; => [x_by_lua_block]1;1,1$1,
items by_lua_block {|'} => [by_lua_block]1{1,2!2,"#;
