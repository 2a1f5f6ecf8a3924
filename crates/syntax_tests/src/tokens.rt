//! The tokens of texts with their lines and positions, the first faults of texts that have none, the ends of blocks, and the
//! levels of operators.
use crate::rows::{Subject, hold, put, put_number};
use lua_grammar::{left_level, level, operator_of, right_level};
use lua_lexer::{LexFault, Token, TokenKind, block_end, lex};
use std::alloc::Global;

/// Texts and the kinds of their tokens as `Debug` writes them, a numeral as its digits.
const TOKENS: &str = "\
x = 0x10 => b\"x\" Assign 16
 => 
 \t¶\x0b\x0c\r => 
_a1 goto => b\"_a1\" b\"goto\"
and break do else elseif end false => And Break Do Else ElseIf End False
for function if in local nil not => For Function If In Local Nil Not
or repeat return then true until while => Or Repeat Return Then True Until While
ands And ends en => b\"ands\" b\"And\" b\"ends\" b\"en\"
+ - * / % ^ # => Plus Minus Star Slash Percent Caret Hash
== ~= <= >= < > = => Equal NotEqual LessEqual GreaterEqual Less Greater Assign
( ) { } [ ] => OpenParenthesis CloseParenthesis OpenBrace CloseBrace OpenBracket CloseBracket
; : , . .. ... => Semicolon Colon Comma Dot Concat Ellipsis
=== => Equal Assign
<<= => Less LessEqual
a..b => b\"a\" Concat b\"b\"
a..5 => b\"a\" Concat 5
0x1..2 => 1 Concat 2
...5 => Ellipsis 5
a.b.c => b\"a\" Dot b\"b\" Dot b\"c\"
-1 => Minus 1
0 007 99999999999999 => 0 7 99999999999999
0xfF 0x5AF3107A3FFF => 255 99999999999999
0x1e3 => 483
[=x => OpenBracket Assign b\"x\"
[== => OpenBracket Equal
a[b] => b\"a\" OpenBracket b\"b\" CloseBracket
\"\" '' => 'b\"\"' 'b\"\"'
\"a'b\" 'a\"b' => 'b\"a'b\"' 'b\"a\\\"b\"'
\"\\a\\b\\f\\n\\r\\t\\v\\\\\\\"\\'\" => 'b\"\\x07\\x08\\x0c\\n\\r\\t\\x0b\\\\\\\"'\"'
'\\0\\9\\65\\065\\0650\\255' => 'b\"\\0\\tAAA0\\xff\"'
'a\\¶b' => 'b\"a\\nb\"'
'a\\\rb' => 'b\"a\\nb\"'
'a\\\r¶b' => 'b\"a\\nb\"'
'a\\¶\rb' => 'b\"a\\nb\"'
[[]] [==[]==] => 'b\"\"' 'b\"\"'
[[a]] => 'b\"a\"'
[[¶a]] [[\r¶a]] [[¶\ra]] => 'b\"a\"' 'b\"a\"' 'b\"a\"'
[[¶¶a]] [[\r\ra]] => 'b\"\\na\"' 'b\"\\na\"'
[[a\r¶b\rc¶\rd¶e]] => 'b\"a\\nb\\nc\\nd\\ne\"'
[=[a]]b]==]c]=] => 'b\"a]]b]==]c\"'
[==[ [=[ ]=] ]==] => 'b\" [=[ ]=] \"'
[[\\n]] => 'b\"\\\\n\"'
[[a]]] => 'b\"a\"' CloseBracket
--a¶b => b\"b\"
--a\rb => b\"b\"
-- => 
--[[a¶]]b => b\"b\"
--[==[ ]] --[[ ]=] ]==]b => b\"b\"
--[=a¶b => b\"b\"
-- [[a¶b => b\"b\"
---[[a¶b => b\"b\"
a--b => b\"a\"
f'a'[[b]] => b\"f\" 'b\"a\"' 'b\"b\"'";

/// Writes the kind of a token.
fn see_kind(all: &mut String, kind: &TokenKind) {
    let _ = match kind {
        TokenKind::Number(number) => return put_number(all, number.get()),
        TokenKind::Word(word) => write!(all, "{word:?}"),
        TokenKind::Sign(sign) => write!(all, "{sign:?}"),
        TokenKind::Name(name) => write!(all, "{name:?}"),
        TokenKind::Text(text) => write!(all, "'{text:?}'"),
    };
}

/// Writes the kinds of tokens with blanks between them.
fn see_kinds(all: &mut String, tokens: &[Token]) {
    for token in tokens {
        if !all.is_empty() {
            put(all, " ");
        }
        see_kind(all, &token.kind);
    }
}

/// Writes a fault.
pub(crate) fn see_fault(all: &mut String, fault: LexFault) {
    let _ = write!(all, "{fault:?}");
}

/// Writes the kinds of the tokens of a text, or the fault.
pub(crate) fn see_tokens(alloc: Global, all: &mut String, text: &str) {
    match lex(alloc, text.as_bytes(), 1) {
        Ok(tokens) => see_kinds(all, &tokens),
        Err(fault) => see_fault(all, fault),
    }
}

/// Texts with their lines, and the lines and positions of their tokens.
const PLACES: &str = "\
1 x = 0x10 => 1:0-1 1:2-3 1:4-8
1 a¶b\rc\r¶d¶\re => 1:0-1 2:2-3 3:4-5 4:7-8 5:10-11
7 a¶¶b\r\rc¶\r¶\rd => 7:0-1 9:3-4 11:6-7 13:11-12
1 [[¶¶]]a => 1:0-6 3:6-7
1 'a\\\r¶'b => 1:0-6 2:6-7
3 --[[¶]]a --¶b => 4:7-8 5:12-13
4293918719 a => 4293918719:0-1";

/// Texts with their lines, and their first faults.
const FAULTS: &str = "\
1 a¶1.5 => Fraction(2)
1 1e3 => Fraction(1)
1 1E3 => Fraction(1)
1 3..2 => Fraction(1)
1 a.5 => Fraction(1)
1 ....5 => Fraction(1)
1 .5 => Fraction(1)
1 0x10.5 => Fraction(1)
1 100000000000000.5 => Fraction(1)
1 100000000000000 => Range(1)
1 0x5AF3107A4000 => Range(1)
1 18446744073709551616 => Range(1)
1 100000000000000x => BadByte(1)
1 1x => BadByte(1)
1 1_ => BadByte(1)
1 0x => BadByte(1)
1 0xg => BadByte(1)
1 0x1g => BadByte(1)
1 0X1 => BadByte(1)
1 ~ => BadByte(1)
1 a¶$ => BadByte(2)
1 ! => BadByte(1)
1 a\0 => BadByte(1)
1 é => BadByte(1)
3 \"a => OpenString(3)
3 \"a' => OpenString(3)
1 'a¶b' => OpenString(1)
1 'a\rb' => OpenString(1)
1 'a\\¶b => OpenString(1)
1 'a\\ => OpenString(1)
1 'a\\' => OpenString(1)
1 ¶[[a¶ => OpenString(2)
1 [=[a]] => OpenString(1)
1 [[a] => OpenString(1)
5 --[[a¶ => OpenComment(5)
1 --[==[a]=] => OpenComment(1)
1 \"\\q => BadEscape(1)
1 '\\¶\\q' => BadEscape(2)
1 '\\.' => BadEscape(1)
1 '\\x41' => BadEscape(1)
1 '\\z' => BadEscape(1)
1 '\\256' => BadEscape(1)
1 '\\999 => BadEscape(1)
1 $ 1.5 => BadByte(1)
1 1.5 $ => Fraction(1)";

/// Writes the line and position of a token, as `LINE:START-END`.
fn see_place(all: &mut String, token: &Token) {
    let (line, start, end) = (token.line, token.start, token.end);
    let _ = write!(all, "{line}:{start}-{end}");
}

/// Writes the lines and positions of tokens with blanks between them.
fn see_all_places(all: &mut String, tokens: &[Token]) {
    for token in tokens {
        if !all.is_empty() {
            put(all, " ");
        }
        see_place(all, token);
    }
}

/// Writes the lines and positions of the tokens of a text that begins on a line, or the fault.
pub(crate) fn see_places(alloc: Global, all: &mut String, text: &str) {
    let (line, text) = text.split_once(' ').unwrap_or(("", text));
    let line = line.parse::<u32>().unwrap_or(0).min(4_293_918_719);
    match lex(alloc, text.as_bytes(), line) {
        Ok(tokens) => see_all_places(all, &tokens),
        Err(fault) => see_fault(all, fault),
    }
}

/// The fault of a text of one byte again and again, on a line below 100, or of no memory for it.
fn fault_of_many(alloc: Global, byte: u8, many: usize, line: u8) -> Option<LexFault> {
    match vec![in alloc; byte; many] {
        Ok(text) => lex(alloc, &text, u32::from(line)).err(),
        Err(_) => Some(LexFault::Memory),
    }
}

/// Whether a text past the limit is too long, and one at the limit isn't.
fn is_limited(alloc: Global) -> bool {
    fault_of_many(alloc, b' ', 1_048_576, 1) == None
        && fault_of_many(alloc, b'$', 1_048_577, 9) == Some(LexFault::TooLong(9))
}

/// Texts, each after the index at which the inside of a block begins, and the index of its end.
const BLOCKS: &str = "\
1 { \"}\" } => 6
1 { --} => none
0 } => 0
0  => none
1 } => none
2 } => none
0 {}} => 2
0 {{}{}}} => 6
0 {{} => none
0 --}¶} => 4
0 --[[}¶}]]} => 9
0 --[=[}]]}]=]} => 12
0 --[[} => none
0 [[}]]} => 5
0 [==[}]]}]==]} => 12
0 [=} => 2
0 [[} => none
0 '}'} => 3
0 '\\'}'} => 5
0 '\\q\\256'} => 8
0 '\\\r¶}'} => 6
0 '} => none
0 'a¶'} => none
0 1.5 $ 0x ~ 100000000000000 } => 27";

/// Writes where a block ends, or `none`.
pub(crate) fn see_block_end(all: &mut String, text: &str) {
    let (from, text) = text.split_once(' ').unwrap_or(("", text));
    match block_end(text.as_bytes(), from.parse().unwrap_or(0)) {
        Some(end) => put_number(all, i64::try_from(end).unwrap_or(-1)),
        None => put(all, "none"),
    }
}

/// Operators and their levels by the manual, to the left, of themselves and to the right, and what is no operator of two
/// operands.
const LEVELS: &str = "\
or => 1 1 2
and => 2 2 3
<= => 3 3 4
.. => 5 4 4
- => 5 5 6
% => 6 6 7
^ => 9 8 7
not => none
= => none";

/// Writes the levels of a token, or `none` where it is no operator.
fn see_levels(all: &mut String, kind: &TokenKind) {
    match operator_of(kind) {
        Some(op) => {
            let (left, own, right) = (left_level(op), level(op), right_level(op));
            let _ = write!(all, "{left} {own} {right}");
        }
        None => put(all, "none"),
    }
}

/// Writes the levels of the first token of a text.
pub(crate) fn see_level(alloc: Global, all: &mut String, text: &str) {
    match lex(alloc, text.as_bytes(), 1) {
        Ok(tokens) => {
            if let Some(token) = tokens.first() {
                see_levels(all, &token.kind);
            }
        }
        Err(fault) => see_fault(all, fault),
    }
}

#[test]
fn texts_give_their_tokens(rt: HostRuntime) {
    assert!(rt; is_limited(rt.alloc()));
    hold(&rt, rt.alloc(), Subject::Tokens, TOKENS);
    hold(&rt, rt.alloc(), Subject::Places, PLACES);
    hold(&rt, rt.alloc(), Subject::Places, FAULTS);
    hold(&rt, rt.alloc(), Subject::BlockEnd, BLOCKS);
    hold(&rt, rt.alloc(), Subject::Level, LEVELS);
}
