//! Tests of the names that texts require: in calls (CALLS), statements (STATEMENTS), functions within (WITHIN), and what isn't one (UNSEEN).
use crate::rows::{Subject, hold, put};
use lua_ast::Program;
use lua_lexer::lex;
use lua_linking::names_in;
use lua_parser::parse;
use resty_base::ByteLists;
use std::alloc::Global;

/// The program of a text; `None` where it has none.
fn program_of(alloc: Global, text: &str) -> Option<Program> {
    let tokens = lex(alloc, text.as_bytes(), 1).ok()?;
    parse(alloc, &tokens).ok()
}

/// Writes texts with blanks between them.
pub(crate) fn see_texts(all: &mut String, texts: &ByteLists) {
    for text in texts.as_slice() {
        if !all.is_empty() {
            put(all, " ");
        }
        put(all, str::from_utf8(text.as_slice()).unwrap_or("?"));
    }
}

/// Writes the names that a text requires.
pub(crate) fn see_names(alloc: Global, all: &mut String, text: &str) {
    let Some(program) = program_of(alloc, text) else {
        return put(all, "no program");
    };
    match names_in(alloc, &program) {
        Ok(names) => see_texts(all, &names),
        Err(_) => put(all, "memory"),
    }
}

/// Names stand in the order of the text.
const CALLS: &str = "\
x = 1 =>
local m = require \"a.b\" => a.b
require 'x' require [[x]] require('x', 1) => x x x
return {require 'a', [require 'b'] = require 'c', d = require 'e'} => a b c e
t[require 'a'] = require 'b' + -require 'c' .. (require 'd') => a b c d
local a, b = require 'a', x and require 'b' or not require 'c' => a b c
require 'a'.f(require 'b'):g(require 'c', require 'd') => a b c d
require 'A-z_0.9' => A-z_0.9";

const STATEMENTS: &str = "\
if require 'a' then require 'b' elseif require 'c' then require 'd' else require 'e' end => a b c d e
while require 'a' do require 'b' end repeat require 'c' until require 'd' => a b c d
for i = require 'a', require 'b', require 'c' do require 'd' end => a b c d
for k in require 'a', require 'b' do require 'c' end do require 'd' end => a b c d";

/// Functions stand where they are written.
const WITHIN: &str = "\
require 'a' local function f() require 'b' return function() return require 'c' end end require 'd' => a b c d
function f() require 'a' end function g() require 'b' end require 'c' => a b c
require(function() require 'a' end) require 'b' => a b
return function() end, function() return function() require 'a' end end => a";

/// Other calls and other names are left out.
const UNSEEN: &str = "\
local require = require require 'a' =>
local r = require r 'a' =>
require(('a')) require(a) require() require {'a'} require('a' .. 'b') =>
m.require 'a' o:require 'a' (require) 'a' requires 'a' =>
require 'a b' require '' require 'a/b' require 'a\\0' =>";

#[test]
fn names_stand_in_the_order_of_the_text(rt: HostRuntime) {
    hold(&rt, rt.alloc(), Subject::Names, CALLS);
    hold(&rt, rt.alloc(), Subject::Names, STATEMENTS);
    hold(&rt, rt.alloc(), Subject::Names, WITHIN);
    hold(&rt, rt.alloc(), Subject::Names, UNSEEN);
}
