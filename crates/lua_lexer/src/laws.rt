//! Laws of the tokens of a text: functions that do nothing, each with its law as its contract.

ghost use Rattle.std.specs.Prelude.{ℕ, List};
ghost use Rattle.lua_lexer.specs.Balance.{Balances};
ghost use Rattle.lua_lexer.specs.Laws.{HasOneReading, IsLexed, ReadsBack};
ghost use Rattle.lua_lexer.specs.Writing.{AreKinds};
ghost use Rattle.lua_lexer.specs.declared.tokens.TokenKind.{TokenKind};

/// By the lexical rules a text has at most one list of tokens and at most one fault, and exactly one of both.
pub fn one_reading()
    ensures { (line : ℕ) (text : List ℕ) → HasOneReading line text }
{}

/// What a text is by the lexical rules is what the definition that computes it gives.
pub fn reading_is_lexed()
    ensures { (line : ℕ) (text : List ℕ) → IsLexed line text }
{}

/// Tokens that are written with single blanks, as a text of any length, are read as tokens of the same kinds.
pub fn written_tokens_are_read()
    ensures { (line : ℕ) (kinds : List TokenKind) → AreKinds kinds → ReadsBack line kinds }
{}

/// Where the inside of a block has tokens, its braces balance.
pub fn blocks_balance()
    ensures { (line : ℕ) (text : List ℕ) (from : ℕ) → Balances line text from }
{}
