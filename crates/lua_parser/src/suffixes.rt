//! Prefixes with their indexes and calls, arguments, and table constructors.
ghost use Rattle.std.specs.Prelude.{IfOk, IfErr, OnOk};
ghost use Rattle.lua_lexer.specs.declared.tokens.TokenKind.TheVariants.{Sign as SignKind};
ghost use Rattle.lua_lexer.specs.declared.signs.Sign.TheVariants.{Colon, OpenBrace, OpenBracket};
ghost use Rattle.lua_parser_base.specs.States.{state, Advances, Stops, IfErrWhere};
ghost use Rattle.lua_parser_base.specs.Reads.{ReadsPrefix, Extends, ReadsArgs, ReadsList, ReadsTable, ReadsField};
ghost use Rattle.lua_parser_base.specs.Next.{Begin, IsNext, IsNotNext, IsText, ahead};
ghost use Rattle.lua_parser_base.specs.Kinds.{SuffixBegins, NamedFieldBegins};
ghost use Rattle.lua_grammar.specs.Stopping.{IsNoComma};
ghost use Rattle.lua_parser_base.specs.Refusals.{RefusesArgs, RefusesField, RefusesList, RefusesPrefix, RefusesSuffix, RefusesTable};
ghost use Rattle.lua_parser_base.specs.Standing.{FirstFault, FirstFaultOfPrefix};
ghost use Rattle.lua_parser_base.specs.Standing as Standing;
ghost use Rattle.lua_parser.specs.Parts.{FirstFaultOfItem, PushesField, ReadsGiven, ReadsKey, ReadsMethodName, ReadsNamed, RefusesItem};

use crate::expressions::expression;
use crate::pairs::beside;
use lua_lexer::{Sign, Token};
use lua_parser_base::{
    Built, Item, Items, Named, Nesting, ParseFault, Parser, Prefix, Suffix, Values, called,
    indexed, method_called, paren,
};
use std::alloc::Global;

/// prefixexp ::= var | functioncall | `(´ exp `)´
/// Reads a prefix with all that belongs to it. Expressions in it are parts of one at `at`.
#[cycle(descent)]
pub(crate) fn prefix(
    parser: &mut Parser,
    alloc: Global,
    tokens: &[Token],
    at: Nesting,
) -> Result<Prefix, ParseFault>
    ensures reads { IfOk result (λ p. ReadsPrefix at (state tokens.now parser.old) p (state tokens.now parser.new)) }
    ensures stops { OnOk result (Stops (state tokens.now parser.new)) }
    ensures refuses { IfErr result (RefusesPrefix at (state tokens.now parser.old) (state tokens.now parser.new)) }
    ensures order { IfErr result (FirstFault (Standing.prefix at) (state tokens.now parser.old) (state tokens.now parser.new)) }
    ensures forward { OnOk result (Advances tokens.now parser.old parser.new) }
{
    let mut prefix = primary(parser, alloc, tokens, at)?;
    while let Some(suffix) = parser.suffix_ahead(tokens) {
        let extended = match suffix {
            Suffix::Member => parser.member(alloc, tokens, at, prefix),
            Suffix::Item => item(parser, alloc, tokens, at, prefix),
            Suffix::Method => method(parser, alloc, tokens, at, prefix),
            Suffix::Arguments => call(parser, alloc, tokens, at, prefix),
        };
        prefix = extended?;
    }
    Ok(prefix)
}

/// prefixexp ::= Name | `(´ exp `)´
/// Reads a name or an expression in parentheses.
#[cycle(descent)]
fn primary(
    parser: &mut Parser,
    alloc: Global,
    tokens: &[Token],
    at: Nesting,
) -> Result<Prefix, ParseFault>
    ensures reads { IfOk result (λ p. ReadsPrefix at (state tokens.now parser.old) p (state tokens.now parser.new)) }
    ensures refuses { IfErr result (RefusesPrefix at (state tokens.now parser.old) (state tokens.now parser.new)) }
    ensures order { IfErr result (FirstFault (Standing.prefix at) (state tokens.now parser.old) (state tokens.now parser.new)) }
    ensures forward { OnOk result (Advances tokens.now parser.old parser.new) }
{
    if !parser.at_sign(tokens, Sign::OpenParenthesis) {
        return parser.name(tokens, at);
    }
    let open = parser.take_sign(tokens, Sign::OpenParenthesis)?;
    let inner = parser.part(tokens, at)?;
    let built = expression(parser, alloc, tokens, inner, 1)?;
    let (built, _) = beside(built, parser.take_sign(tokens, Sign::CloseParenthesis))?;
    paren(alloc, built, open)
}

/// var ::= prefixexp `[´ exp `]´
/// Reads `[key]` after a prefix.
#[cycle(descent)]
fn item(
    parser: &mut Parser,
    alloc: Global,
    tokens: &[Token],
    at: Nesting,
    object: Prefix,
) -> Result<Prefix, ParseFault>
    ensures reads { IfOk result (λ p. Extends at object (state tokens.now parser.old) p (state tokens.now parser.new)) }
    ensures refuses { IfErrWhere (IsNext (SignKind OpenBracket)) result (RefusesSuffix at object) tokens.now parser.old parser.new }
    ensures order { IfErr result (FirstFaultOfPrefix at object (state tokens.now parser.old) (state tokens.now parser.new)) }
    ensures forward { OnOk result (Advances tokens.now parser.old parser.new) }
{
    let key = key(parser, alloc, tokens, at, &object);
    let (object, (key, open)) = beside(object, key)?;
    indexed(alloc, object, open, key)
}

/// var ::= prefixexp `[´ exp `]´
/// Reads the key after a prefix, with the line of its `[`.
#[cycle(descent)]
fn key(
    parser: &mut Parser,
    alloc: Global,
    tokens: &[Token],
    at: Nesting,
    object: &Prefix,
) -> Result<(Built, u32), ParseFault>
    ensures reads { IfOk result (λ key. ReadsKey at object.now (state tokens.now parser.old) key.0 key.1 (state tokens.now parser.new)) }
    ensures refuses { IfErrWhere (IsNext (SignKind OpenBracket)) result (RefusesSuffix at object.now) tokens.now parser.old parser.new }
    ensures order { IfErr result (FirstFaultOfPrefix at object.now (state tokens.now parser.old) (state tokens.now parser.new)) }
    ensures forward { OnOk result (Advances tokens.now parser.old parser.new) }
{
    let open = parser.take_sign(tokens, Sign::OpenBracket)?;
    at.above(object.height, open)?;
    let inner = parser.part(tokens, at)?;
    let key = expression(parser, alloc, tokens, inner, 1)?;
    let (key, _) = beside(key, parser.take_sign(tokens, Sign::CloseBracket))?;
    Ok((key, open))
}

/// functioncall ::= prefixexp args
/// Reads arguments after a prefix.
#[cycle(descent)]
fn call(
    parser: &mut Parser,
    alloc: Global,
    tokens: &[Token],
    at: Nesting,
    callee: Prefix,
) -> Result<Prefix, ParseFault>
    ensures reads { IfOk result (λ p. Extends at callee (state tokens.now parser.old) p (state tokens.now parser.new)) }
    ensures refuses { IfErrWhere (SuffixBegins Suffix.Arguments) result (RefusesSuffix at callee) tokens.now parser.old parser.new }
    ensures order { IfErrWhere (SuffixBegins Suffix.Arguments) result (FirstFaultOfPrefix at callee) tokens.now parser.old parser.new }
    ensures forward { OnOk result (Advances tokens.now parser.old parser.new) }
{
    let given = call_arguments(parser, alloc, tokens, at, &callee);
    let (callee, (values, line)) = beside(callee, given)?;
    called(alloc, callee, line, values)
}

/// functioncall ::= prefixexp args
/// Reads the arguments after a prefix, with the line on which they begin.
#[cycle(descent)]
fn call_arguments(
    parser: &mut Parser,
    alloc: Global,
    tokens: &[Token],
    at: Nesting,
    callee: &Prefix,
) -> Result<(Values, u32), ParseFault>
    ensures reads { IfOk result (λ given. ReadsGiven at callee.now (state tokens.now parser.old) given.0 given.1 (state tokens.now parser.new)) }
    ensures refuses { IfErrWhere (SuffixBegins Suffix.Arguments) result (RefusesSuffix at callee.now) tokens.now parser.old parser.new }
    ensures order { IfErrWhere (SuffixBegins Suffix.Arguments) result (FirstFaultOfPrefix at callee.now) tokens.now parser.old parser.new }
    ensures forward { OnOk result (Advances tokens.now parser.old parser.new) }
{
    let line = parser.arguments_line(tokens)?;
    at.above(callee.height, line)?;
    let values = arguments(parser, alloc, tokens, at)?;
    Ok((values, line))
}

/// functioncall ::= prefixexp `:´ Name args
/// Reads `:name` and arguments after a prefix.
#[cycle(descent)]
fn method(
    parser: &mut Parser,
    alloc: Global,
    tokens: &[Token],
    at: Nesting,
    object: Prefix,
) -> Result<Prefix, ParseFault>
    ensures reads { IfOk result (λ p. Extends at object (state tokens.now parser.old) p (state tokens.now parser.new)) }
    ensures refuses { IfErrWhere (IsNext (SignKind Colon)) result (RefusesSuffix at object) tokens.now parser.old parser.new }
    ensures order { IfErr result (FirstFaultOfPrefix at object (state tokens.now parser.old) (state tokens.now parser.new)) }
    ensures forward { OnOk result (Advances tokens.now parser.old parser.new) }
{
    let given = method_arguments(parser, alloc, tokens, at, &object);
    let (object, (named, values, line)) = beside(object, given)?;
    method_called(alloc, object, named.name, line, values)
}

/// functioncall ::= prefixexp `:´ Name args
/// Reads the name and the arguments after a prefix, with the line on which these begin.
#[cycle(descent)]
fn method_arguments(
    parser: &mut Parser,
    alloc: Global,
    tokens: &[Token],
    at: Nesting,
    object: &Prefix,
) -> Result<(Named, Values, u32), ParseFault>
    ensures reads { IfOk result (λ given. ReadsNamed at object.now (state tokens.now parser.old) given.0 given.1 given.2 (state tokens.now parser.new)) }
    ensures refuses { IfErrWhere (IsNext (SignKind Colon)) result (RefusesSuffix at object.now) tokens.now parser.old parser.new }
    ensures order { IfErr result (FirstFaultOfPrefix at object.now (state tokens.now parser.old) (state tokens.now parser.new)) }
    ensures forward { OnOk result (Advances tokens.now parser.old parser.new) }
{
    let named = method_name(parser, tokens, at, object)?;
    let line = parser.arguments_line(tokens)?;
    let values = arguments(parser, alloc, tokens, at)?;
    Ok((named, values, line))
}

/// `:´ Name
/// Reads the name of a method after a prefix.
fn method_name(
    parser: &mut Parser,
    tokens: &[Token],
    at: Nesting,
    object: &Prefix,
) -> Result<Named, ParseFault>
    ensures reads { IfOk result (λ named. ReadsMethodName at object.now (state tokens.now parser.old) named (state tokens.now parser.new)) }
    ensures refuses { IfErrWhere (IsNext (SignKind Colon)) result (RefusesSuffix at object.now) tokens.now parser.old parser.new }
    ensures order { IfErr result (FirstFaultOfPrefix at object.now (state tokens.now parser.old) (state tokens.now parser.new)) }
    ensures forward { OnOk result (Advances tokens.now parser.old parser.new) }
{
    let colon = parser.take_sign(tokens, Sign::Colon)?;
    at.above(object.height, colon)?;
    parser.take_name(tokens)
}

/// args ::= `(´ [explist] `)´ | tableconstructor | String
/// Reads arguments. Expressions among them are parts of one at `at`.
#[cycle(descent)]
fn arguments(
    parser: &mut Parser,
    alloc: Global,
    tokens: &[Token],
    at: Nesting,
) -> Result<Values, ParseFault>
    ensures reads { IfOk result (λ values. ReadsArgs at (state tokens.now parser.old) values (state tokens.now parser.new)) }
    ensures refuses { IfErr result (RefusesArgs at (state tokens.now parser.old) (state tokens.now parser.new)) }
    ensures order { IfErr result (FirstFault (Standing.args at) (state tokens.now parser.old) (state tokens.now parser.new)) }
    ensures forward { OnOk result (Advances tokens.now parser.old parser.new) }
{
    if parser.at_sign(tokens, Sign::OpenBrace) {
        let inner = at.narrower();
        let table = table(parser, alloc, tokens, inner)?;
        return Values::one(alloc, table);
    }
    if parser.at_text(tokens) {
        let text = parser.take_text(tokens)?;
        return Values::text(alloc, text);
    }
    list_arguments(parser, alloc, tokens, at)
}

/// args ::= `(´ [explist] `)´
/// Reads arguments in parentheses. Expressions among them are parts of one at `at`.
#[cycle(descent)]
fn list_arguments(
    parser: &mut Parser,
    alloc: Global,
    tokens: &[Token],
    at: Nesting,
) -> Result<Values, ParseFault>
    ensures reads { IfOk result (λ values. ReadsArgs at (state tokens.now parser.old) values (state tokens.now parser.new)) }
    ensures refuses { (Begin IsText (state tokens.now parser.old).left → ⊥)
        → IfErrWhere (IsNotNext (SignKind OpenBrace)) result (RefusesArgs at) tokens.now parser.old parser.new }
    ensures order { IfErr result (FirstFault (Standing.args at) (state tokens.now parser.old) (state tokens.now parser.new)) }
    ensures forward { OnOk result (Advances tokens.now parser.old parser.new) }
{
    parser.take_sign(tokens, Sign::OpenParenthesis)?;
    if parser.skip_sign(tokens, Sign::CloseParenthesis).is_some() {
        return Ok(Values::none(alloc));
    }
    let inner = parser.part(tokens, at)?;
    let values = expressions(parser, alloc, tokens, inner)?;
    parser.take_sign(tokens, Sign::CloseParenthesis)?;
    Ok(values)
}

/// explist ::= {exp `,´} exp
/// Reads expressions with commas between them, each at `at`.
#[cycle(descent)]
pub(crate) fn expressions(
    parser: &mut Parser,
    alloc: Global,
    tokens: &[Token],
    at: Nesting,
) -> Result<Values, ParseFault>
    ensures reads { IfOk result (λ values. ReadsList at (state tokens.now parser.old) values (state tokens.now parser.new)) }
    ensures ends { OnOk result (IsNoComma (ahead (state tokens.now parser.new))) }
    ensures refuses { IfErr result (RefusesList at (state tokens.now parser.old) (state tokens.now parser.new)) }
    ensures order { IfErr result (FirstFault (Standing.here Standing.list at) (state tokens.now parser.old) (state tokens.now parser.new)) }
    ensures forward { OnOk result (Advances tokens.now parser.old parser.new) }
{
    let first = expression(parser, alloc, tokens, at, 1)?;
    let mut values = Values::one(alloc, first)?;
    while parser.skip_sign(tokens, Sign::Comma).is_some() {
        let next = expression(parser, alloc, tokens, at, 1)?;
        values.push(next)?;
    }
    Ok(values)
}

/// tableconstructor ::= `{´ [fieldlist] `}´, fieldlist ::= field {fieldsep field} [fieldsep]
#[cycle(descent)]
pub(crate) fn table(
    parser: &mut Parser,
    alloc: Global,
    tokens: &[Token],
    at: Nesting,
) -> Result<Built, ParseFault>
    ensures reads { IfOk result (λ b. ReadsTable at (state tokens.now parser.old) b (state tokens.now parser.new)) }
    ensures refuses { IfErrWhere (IsNext (SignKind OpenBrace)) result (RefusesTable at) tokens.now parser.old parser.new }
    ensures order { IfErr result (FirstFault (Standing.table at) (state tokens.now parser.old) (state tokens.now parser.new)) }
    ensures forward { OnOk result (Advances tokens.now parser.old parser.new) }
{
    let open = parser.take_sign(tokens, Sign::OpenBrace)?;
    let mut items = Items::none(alloc);
    while parser.skip_sign(tokens, Sign::CloseBrace).is_none() {
        push_field(parser, alloc, tokens, at, &mut items)?;
        if parser.skip_sign(tokens, Sign::CloseBrace).is_some() {
            return items.into_table(alloc, open);
        }
        parser.take_separator(tokens)?;
    }
    items.into_table(alloc, open)
}

/// Reads a field of a table constructor at `at`, and puts it after others.
#[cycle(descent)]
fn push_field(
    parser: &mut Parser,
    alloc: Global,
    tokens: &[Token],
    at: Nesting,
    items: &mut Items,
) -> Result<(), ParseFault>
    ensures reads { OnOk result (PushesField at items.old (state tokens.now parser.old) items.new (state tokens.now parser.new)) }
    ensures refuses { IfErr result (RefusesItem at items.old (state tokens.now parser.old) (state tokens.now parser.new)) }
    ensures order { IfErr result (FirstFaultOfItem at items.old (state tokens.now parser.old) (state tokens.now parser.new)) }
    ensures forward { OnOk result (Advances tokens.now parser.old parser.new) }
{
    let inner = parser.part(tokens, at)?;
    let item = field(parser, alloc, tokens, inner)?;
    items.push(item)
}

/// field ::= `[´ exp `]´ `=´ exp | Name `=´ exp | exp
/// Reads an item of a table constructor, with expressions at `at`.
#[cycle(descent)]
fn field(
    parser: &mut Parser,
    alloc: Global,
    tokens: &[Token],
    at: Nesting,
) -> Result<Item, ParseFault>
    ensures reads { IfOk result (λ item. ReadsField at (state tokens.now parser.old) item (state tokens.now parser.new)) }
    ensures refuses { IfErr result (RefusesField at (state tokens.now parser.old) (state tokens.now parser.new)) }
    ensures order { IfErr result (FirstFault (Standing.here Standing.field at) (state tokens.now parser.old) (state tokens.now parser.new)) }
    ensures forward { OnOk result (Advances tokens.now parser.old parser.new) }
{
    if parser.at_sign(tokens, Sign::OpenBracket) {
        return keyed_field(parser, alloc, tokens, at);
    }
    if parser.at_named_field(tokens) {
        return named_field(parser, alloc, tokens, at);
    }
    let value = expression(parser, alloc, tokens, at, 1)?;
    Ok(Item::value(value))
}

/// field ::= `[´ exp `]´ `=´ exp
#[cycle(descent)]
fn keyed_field(
    parser: &mut Parser,
    alloc: Global,
    tokens: &[Token],
    at: Nesting,
) -> Result<Item, ParseFault>
    ensures reads { IfOk result (λ item. ReadsField at (state tokens.now parser.old) item (state tokens.now parser.new)) }
    ensures refuses { IfErrWhere (IsNext (SignKind OpenBracket)) result (RefusesField at) tokens.now parser.old parser.new }
    ensures order { IfErr result (FirstFault (Standing.here Standing.field at) (state tokens.now parser.old) (state tokens.now parser.new)) }
    ensures forward { OnOk result (Advances tokens.now parser.old parser.new) }
{
    parser.take_sign(tokens, Sign::OpenBracket)?;
    let key = expression(parser, alloc, tokens, at, 1)?;
    let (key, _) = beside(key, parser.take_sign(tokens, Sign::CloseBracket))?;
    let (key, _) = beside(key, parser.take_sign(tokens, Sign::Assign))?;
    match expression(parser, alloc, tokens, at, 1) {
        Ok(value) => Ok(Item::pair(key, value)),
        Err(fault) => {
            drop(key);
            Err(fault)
        }
    }
}

/// field ::= Name `=´ exp
#[cycle(descent)]
fn named_field(
    parser: &mut Parser,
    alloc: Global,
    tokens: &[Token],
    at: Nesting,
) -> Result<Item, ParseFault>
    ensures reads { IfOk result (λ item. ReadsField at (state tokens.now parser.old) item (state tokens.now parser.new)) }
    ensures refuses { IfErrWhere NamedFieldBegins result (RefusesField at) tokens.now parser.old parser.new }
    ensures order { IfErrWhere NamedFieldBegins result (FirstFault (Standing.here Standing.field at)) tokens.now parser.old parser.new }
    ensures forward { OnOk result (Advances tokens.now parser.old parser.new) }
{
    let named = parser.take_name(tokens)?;
    parser.take_sign(tokens, Sign::Assign)?;
    let value = expression(parser, alloc, tokens, at, 1)?;
    Ok(Item::pair(named.into_text(), value))
}
