//! What was read before, and what is read after it.
ghost use Rattle.std.specs.Prelude.{◌≡◌, ◌⊎◌, ◌++◌, ◌∷◌, [], ℕ, IfErr, IfOk, MatchResult, OnOk, Ok, Err};
ghost use Rattle.lua_lexer.specs.declared.tokens.TokenKind.TheVariants.{Word as WordKind};
ghost use Rattle.lua_parser_base.specs.Next.{IsKind, IsMemory, Misses, OnAt};
ghost use Rattle.lua_parser_base.specs.States.{state, Advances, Takes};

use lua_lexer::{Token, Word};
use lua_parser_base::{ParseFault, Parser};

/// What was read before, beside what is read after it where that can be read.
pub(crate) fn beside<T: Drop, U>(
    before: T,
    after: Result<U, ParseFault>,
) -> Result<(T, U), ParseFault>
    ensures { MatchResult result (λ both. (both.0 ≡ before) × (after ≡ Ok both.1)) (λ fault. after ≡ Err fault) }
{
    match after {
        Ok(after) => Ok((before, after)),
        Err(fault) => Err(fault),
    }
}

/// Puts what was read after others, where it could be read.
pub(crate) fn push_read<T: Drop>(
    list: &mut Vec<T>,
    read: Result<T, ParseFault>,
) -> Result<(), ParseFault>
    ensures { MatchResult result (λ _. (last : T) × (read ≡ Ok last) × (list.new.items ≡ list.old.items ++ last ∷ []))
        (λ fault. (read ≡ Err fault) ⊎ IsMemory fault) }
{
    list.push(read?)?;
    Ok(())
}

/// What was read, where it could be read and that keyword stands after it.
pub(crate) fn before_word<T: Drop>(
    read: Result<T, ParseFault>,
    parser: &mut Parser,
    tokens: &[Token],
    word: Word,
) -> Result<T, ParseFault>
    ensures reads { IfOk result (λ value. read ≡ Ok value) }
    ensures takes { OnOk result ((line : ℕ) × Takes (WordKind word) line (state tokens.now parser.old) (state tokens.now parser.new)) }
    ensures refuses { IfErr result (λ fault. ((read ≡ Err fault) × (parser.new ≡ parser.old))
        ⊎ ((value : T) × (read ≡ Ok value) × OnAt (Misses (IsKind (WordKind word)) (state tokens.now parser.old) (state tokens.now parser.new)) fault)) }
    ensures forward { OnOk result (Advances tokens.now parser.old parser.new) }
{
    let value = read?;
    parser.take_word(tokens, word)?;
    Ok(value)
}
