//! Pattern items, read off the bytes of a pattern.

ghost use Rattle.std.specs.Prelude.{◌≡◌, ◌≤◌, ◌<◌, ◌+◌, IfSome, drop, length};
ghost use Rattle.lua_patterns.specs.Items.{inside_len, opening_size, set_at, class_at, repeat_of, repeat_size, wrong_at, repeated_at, escaped_at, item_at};

use crate::classes::Class;
use resty_base::{byte_at, bytes_after};

/// How often a class is taken: once, `?`, `*`, `+` and `-`.
#[derive(Clone, Copy, Debug)]
pub(crate) enum Repeat {
    Once,
    Optional,
    Longest,
    LongestOfSome,
    Shortest,
}

/// A pattern item (Lua 5.1 manual, 5.4.1). Those that may be wrong have the index of the pattern where they begin.
#[derive(Clone, Copy, Debug)]
pub(crate) enum Item {
    Repeated(Class, Repeat),
    /// `(`
    Open(usize),
    /// `)`
    Close(usize),
    /// `()`
    Position,
    /// `%b` with its opening and its closing byte
    Balanced(u8, u8),
    /// `%` and a digit
    Reference(u8, usize),
    /// `$` at the end
    End,
    /// No item: an open set, a `%` at the end, a `%b` without its bytes, or `%f`.
    Wrong(usize),
}

/// A character class, and how many bytes of the pattern write it.
#[derive(Clone, Copy, Debug)]
pub(crate) struct SizedClass {
    pub class: Class,
    pub size: usize,
}

/// An item, and how many bytes of the pattern write it.
#[derive(Clone, Copy, Debug)]
pub(crate) struct SizedItem {
    pub item: Item,
    pub size: usize,
}

/// How many bytes stand before the `]` that closes a set, which the text is the inside of. The first byte never closes
/// it, nor does one after a `%`.
#[tactic(auto, unfolding(crate::specs::Items::inside_after))]
fn inside_len(text: &[u8]) -> Option<usize>
    ensures value { result ≡ inside_len text.now }
    ensures within { IfSome result (λ n. n < length text.now) }
{
    let mut kept: usize = if byte_at(text, 0) == b'%' { 2 } else { 1 };
    for (index, byte) in text.iter().enumerate() {
        if kept > 0 {
            kept -= 1;
        } else if *byte == b']' {
            return Some(index);
        } else if *byte == b'%' {
            kept = 1;
        }
    }
    None
}

/// How many bytes open a set.
fn opening_size(text: &[u8]) -> usize
    ensures { result ≡ opening_size text.now }
{
    if byte_at(text, 1) == b'^' { 2 } else { 1 }
}

/// The set at an index.
#[tactic(auto, unfolding(crate::specs::Items::set_at))]
fn set_at(pattern: &[u8], at: usize) -> Option<SizedClass>
    requires { at < length pattern.now }
    ensures value { result ≡ set_at at (drop at pattern.now) }
    ensures within { IfSome result (λ found. (0 < found.size) × (at + found.size ≤ length pattern.now)) }
{
    let text = bytes_after(pattern, at);
    let opening = opening_size(text);
    let n = inside_len(bytes_after(text, opening))?;
    let start = at + opening;
    Some(SizedClass {
        class: Class::Set {
            complement: byte_at(text, 1) == b'^',
            start,
            end: start + n,
        },
        size: opening + n + 1,
    })
}

/// The character class at an index, if there is one.
#[tactic(auto, unfolding(crate::specs::Items::class_at))]
fn class_at(pattern: &[u8], at: usize) -> Option<SizedClass>
    requires { at < length pattern.now }
    ensures value { result ≡ class_at at (drop at pattern.now) }
    ensures within { IfSome result (λ found. (0 < found.size) × (at + found.size ≤ length pattern.now)) }
{
    let text = bytes_after(pattern, at);
    let class = match byte_at(text, 0) {
        b'%' if text.len() < 2 => return None,
        b'%' => Class::Letter(byte_at(text, 1)),
        b'[' => return set_at(pattern, at),
        b'.' => Class::Any,
        byte => Class::Byte(byte),
    };
    let size = if let Class::Letter(_) = class { 2 } else { 1 };
    Some(SizedClass { class, size })
}

/// How often a class is taken, by the byte after it.
fn repeat_of(byte: u8) -> Repeat
    ensures { result ≡ repeat_of byte }
{
    match byte {
        b'?' => Repeat::Optional,
        b'*' => Repeat::Longest,
        b'+' => Repeat::LongestOfSome,
        b'-' => Repeat::Shortest,
        _ => Repeat::Once,
    }
}

/// How many bytes say how often a class is taken.
fn repeat_size(repeat: Repeat) -> usize
    ensures { result ≡ repeat_size repeat }
{
    match repeat {
        Repeat::Once => 0,
        Repeat::Optional | Repeat::Longest | Repeat::LongestOfSome | Repeat::Shortest => 1,
    }
}

/// The class at an index, with what says how often it is taken.
fn repeated_at(pattern: &[u8], at: usize) -> SizedItem
    requires { at < length pattern.now }
    ensures value { result ≡ repeated_at at (drop at pattern.now) (class_at at (drop at pattern.now)) }
    ensures within { (0 < result.size) × (at + result.size ≤ length pattern.now) }
{
    let Some(found) = class_at(pattern, at) else {
        return wrong_at(at);
    };
    let repeat = repeat_of(byte_at(pattern, at + found.size));
    SizedItem {
        item: Item::Repeated(found.class, repeat),
        size: found.size + repeat_size(repeat),
    }
}

/// The item at an index that begins with a `%`.
#[tactic(auto, unfolding(crate::specs::Items::escaped_at))]
fn escaped_at(pattern: &[u8], at: usize) -> SizedItem
    requires { at < length pattern.now }
    ensures value { result ≡ escaped_at at (drop at pattern.now) }
    ensures within { (0 < result.size) × (at + result.size ≤ length pattern.now) }
{
    let text = bytes_after(pattern, at);
    match byte_at(text, 1) {
        b'b' if text.len() > 3 => SizedItem {
            item: Item::Balanced(text[2], text[3]),
            size: 4,
        },
        b'b' | b'f' => wrong_at(at),
        digit @ b'0'..=b'9' => SizedItem {
            item: Item::Reference(digit, at),
            size: 2,
        },
        _ => repeated_at(pattern, at),
    }
}

/// The item at an index.
#[tactic(auto, unfolding(crate::specs::Items::item_at))]
pub(crate) fn item_at(pattern: &[u8], at: usize) -> SizedItem
    requires { at < length pattern.now }
    ensures value { result ≡ item_at at (drop at pattern.now) }
    ensures within { (0 < result.size) × (at + result.size ≤ length pattern.now) }
{
    let text = bytes_after(pattern, at);
    let item = match byte_at(text, 0) {
        b'(' if byte_at(text, 1) == b')' => Item::Position,
        b'(' => Item::Open(at),
        b')' => Item::Close(at),
        b'$' if text.len() == 1 => Item::End,
        b'%' => return escaped_at(pattern, at),
        _ => return repeated_at(pattern, at),
    };
    let size = if let Item::Position = item { 2 } else { 1 };
    SizedItem { item, size }
}

/// A wrong item.
fn wrong_at(at: usize) -> SizedItem
    ensures { result ≡ wrong_at at }
{
    SizedItem {
        item: Item::Wrong(at),
        size: 1,
    }
}
