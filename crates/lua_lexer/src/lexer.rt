//! The tokens of a text, one piece after another.

ghost use Rattle.std.specs.Prelude.{◌≡◌, ◌≢◌, ◌≤◌, ◌<◌, ◌+◌, ◌^◌, ◌++◌, OnOk, IfOk, IfErr, length, take, drop};
ghost use Rattle.lua_lexer.specs.Comments.{comment_size};
ghost use Rattle.lua_lexer.specs.Characters.{line_ends};
ghost use Rattle.lua_lexer.specs.Lexical.{HasTokens, HasFault, IsPiece};
ghost use Rattle.lua_lexer.specs.Tokens.{comment, piece, token_of, tokens_of};
ghost use Rattle.lua_lexer.specs.Order.{AreInOrder};
ghost use Rattle.lua_lexer.specs.Pieces.{IsPieceOf, may_end_lines};
ghost use Rattle.lua_lexer.specs.Readings.{Gives};

use crate::brackets::opens;
use crate::characters::{blanks, is_word_start, line_ends};
use crate::comments::{comment_size, is_comment};
use crate::numerals::numeral;
use crate::signs::longest_sign;
use crate::strings::{is_quote, long_string, short_string};
use crate::tokens::{Piece, TokenKind};
use crate::words::name_or_word;
use crate::{LexFault, Token};
use lua_numbers::is_blank;
use resty_base::{Bytes, first_bytes};
use std::alloc::Global;

/// The length of the longest text that is read.
const LONGEST: usize = 1_048_576;

/// Room is made for one token in so many bytes of text; where there are more, the list grows.
const BYTES_A_TOKEN: usize = 3;

/// The comment at the front.
#[tactic(auto, unfolding(crate::specs::Tokens::comment))]
fn comment(text: &[u8], line: u32) -> Result<Piece, LexFault>
    requires { 2 ≤ length text.now }
    ensures value { result ≡ comment line text.now }
    ensures within { IfOk result (IsPieceOf text.now) }
{
    match comment_size(text) {
        Some(size) => Ok(Piece { kind: None, size }),
        None => Err(LexFault::OpenComment(line)),
    }
}

/// The piece at the front of a text, which names and strings may share.
#[tactic(auto, unfolding(crate::specs::Tokens::piece))]
fn piece(alloc: Global, text: &Bytes, line: u32) -> Result<Piece, LexFault>
    requires some { 0 < length text.now }
    requires room { line + length text.now < 2 ^ 32 }
    ensures value { Gives (λ piece. piece) result (piece line text.now) }
    ensures within { IfOk result (IsPieceOf text.now) }
{
    let bytes = text.as_slice();
    let first = bytes[0];
    if is_blank(first) {
        Ok(Piece {
            kind: None,
            size: blanks(bytes),
        })
    } else if is_word_start(first) {
        name_or_word(text)
    } else if first.is_ascii_digit() {
        numeral(bytes, line)
    } else if is_quote(first) {
        short_string(alloc, text, line)
    } else if is_comment(bytes) {
        comment(bytes, line)
    } else if opens(bytes) {
        long_string(alloc, bytes, line)
    } else {
        longest_sign(bytes, line)
    }
}

/// Line ends may stand in a piece of this kind: in blanks, a comment or a string.
fn may_end_lines(kind: &Option<TokenKind>) -> bool
    ensures { result ≡ may_end_lines kind.now }
{
    matches!(kind, None | Some(TokenKind::Text(_)))
}

/// How many line ends stand in the piece of this size and kind at the front.
#[tactic(auto, using(crate::proofs::Lines::no_lines_in))]
fn lines_of_piece(text: &[u8], size: usize, kind: &Option<TokenKind>) -> u32
    requires piece { IsPiece (take size text.now) (drop size text.now) kind.now }
    requires within { size ≤ length text.now }
    requires room { length text.now < 2 ^ 32 }
    ensures value { result ≡ line_ends (take size text.now) }
    ensures within { result ≤ size }
{
    if may_end_lines(kind) {
        line_ends(first_bytes(text, size))
    } else {
        0
    }
}

/// Puts a token at the end, where there is a kind.
fn push_token(
    tokens: &mut Vec<Token>,
    kind: Option<TokenKind>,
    line: u32,
    start: usize,
    end: usize,
) -> Result<(), LexFault>
    ensures ok { OnOk result (tokens.new.items ≡ tokens.old.items ++ token_of line start kind end) }
    ensures err { IfErr result (λ fault. fault ≡ LexFault.Memory) }
{
    if let Some(kind) = kind {
        tokens.push(Token {
            kind,
            line,
            start,
            end,
        })?;
    }
    Ok(())
}

/// The tokens of a text that begins on the line `line`, however long it is, which names and strings may share.
fn tokens_of(alloc: Global, text: Bytes, line: u32) -> Result<Vec<Token>, LexFault>
    requires { line + length text < 2 ^ 32 }
    ensures value { Gives (λ tokens. tokens.items) result (tokens_of line text) }
    ensures order { IfOk result (λ tokens. AreInOrder line 0 tokens.items (length text)) }
{
    let mut tokens = Vec::with_capacity(alloc, text.len() / BYTES_A_TOKEN)?;
    let mut line = line;
    let mut start = 0;
    let mut rest = text;
    while !rest.is_empty() {
        let Piece { kind, size } = piece(alloc, &rest, line)?;
        let lines = lines_of_piece(rest.as_slice(), size, &kind);
        push_token(&mut tokens, kind, line, start, start + size)?;
        line += lines;
        rest.advance(size);
        start += size;
    }
    Ok(tokens)
}

/// The tokens of a text that begins on the line `line`, by the lexical rules (Lua 5.1 manual, 2.1). A fault is the first
/// that is met; `TooLong` comes before all others, with the line that was passed in. `Memory` is out of memory. Names, and
/// strings without a backslash, share one copy of the text.
#[tactic(auto, using(crate::proofs::Lexes::tokens_by_rules, crate::proofs::Lexes::fault_by_rules, crate::proofs::Lexes::too_long))]
pub fn lex(alloc: Global, text: &[u8], line: u32) -> Result<Vec<Token>, LexFault>
    requires { line ≤ 4_293_918_719 }
    ensures tokens { IfOk result (λ tokens. HasTokens line text.now tokens.items) }
    ensures order { IfOk result (λ tokens. AreInOrder line 0 tokens.items (length text.now)) }
    ensures fault { IfErr result (λ fault. fault ≢ LexFault.Memory → HasFault line text.now fault) }
{
    if text.len() > LONGEST {
        return Err(LexFault::TooLong(line));
    }
    let shared = Bytes::copy_from_slice(alloc, text)?;
    tokens_of(alloc, shared, line)
}
