//! The lexer of Lua 5.1 text: bytes to tokens, and where a block of Lua in braces ends.
#![tactic(auto)]

mod blocks;
mod brackets;
mod characters;
mod comments;
mod laws;
mod lexer;
mod numerals;
mod signs;
mod strings;
mod tokens;
mod words;

pub use blocks::block_end;
pub use laws::{blocks_balance, one_reading, reading_is_lexed, written_tokens_are_read};
pub use lexer::lex;
pub use signs::Sign;
pub use tokens::{LexFault, Token, TokenKind};
pub use words::Word;
