//! Blocks, the statements that are no loops, and the bodies of functions.
ghost use Rattle.std.specs.Prelude.{◌≡◌, ◌≤◌, ◌∷◌, [], ℕ, IfErr, IfNone, IfOk, MatchResult, OnOk, vec_len};
ghost use Rattle.lua_grammar.specs.Resolution.{self_name};
ghost use Rattle.lua_parser_base.specs.States.{State, state, Advances, AdvancesOrStays, IfErrWhere};
ghost use Rattle.lua_parser_base.specs.Reads.{ReadsBody};
ghost use Rattle.lua_parser_base.specs.ReadsStatements.{ReadsBlock, ReadsScoped, ReadsStat, ReadsLast, ReadsValue, ReadsValues, ReadsArm, ReadsArms};
ghost use Rattle.lua_parser_base.specs.ReadsStatements.{ReadsFuncName, ReadsVars, ReadsMoreVars, ReadsTarget, ReadsInitial, before_function, before_local};
ghost use Rattle.lua_lexer.specs.declared.tokens.TokenKind.TheVariants.{Sign as SignKind};
ghost use Rattle.lua_lexer.specs.declared.tokens.TokenKind.TheVariants.{Word as WordKind};
ghost use Rattle.lua_lexer.specs.declared.signs.Sign.TheVariants.{Assign, Colon, Comma};
ghost use Rattle.lua_lexer.specs.declared.words.Word.TheVariants.{Do, Else, ElseIf, Function, If, Local};
ghost use Rattle.lua_parser_base.specs.Next.{IsMemory, IsNext, ahead, IsAhead, IsNotNext};
ghost use Rattle.lua_parser_base.specs.Kinds.{IsStatement, begins_of, StatementBegins};
ghost use Rattle.lua_parser_base.specs.Refusals.{RefusesBody};
ghost use Rattle.lua_parser_base.specs.Standing.{FirstFault, FirstFaultOfAssignment, FirstFaultOfTargets};
ghost use Rattle.lua_parser_base.specs.Standing as Standing;
ghost use Rattle.lua_parser_base.specs.declared.nesting.Nesting.{Nesting};
ghost use Rattle.lua_parser.specs.Parts.{AfterArms, FirstFaultOfElse, ReadsHead, ReadsInner, RefusesElse, RefusesInner};
ghost use Rattle.lua_parser_base.specs.StatementRefusals.{RefusesArm, RefusesArms, RefusesAssignment, RefusesBlock, RefusesInitial, RefusesLast, RefusesLocal};
ghost use Rattle.lua_parser_base.specs.StatementRefusals.{RefusesMethod, RefusesScoped, RefusesStat, RefusesTarget, RefusesValue, RefusesValues};

use crate::expressions::expression;
use crate::loops::{for_loop, repeat_loop, while_loop};
use crate::pairs::{beside, push_read};
use crate::suffixes::{expressions, prefix};
use lua_ast::{Arm, Expr, Stmt, StmtKind};
use lua_lexer::{Sign, Token, Word};
use lua_parser_base::{
    Begins, Begun, Form, FunctionName, Nesting, ParseFault, Parser, Prefix, arm_node, assign_node,
    define, do_node, if_node, local_node, returned,
};
use resty_base::Bytes;
use std::alloc::Global;

/// funcbody ::= `(´ [parlist] `)´ block end
/// Reads it and returns the function's number. `first` are the parameters that stand before those. The word `function`
/// is on that line.
#[cycle(descent)]
pub(crate) fn body(
    parser: &mut Parser,
    alloc: Global,
    tokens: &[Token],
    at: Nesting,
    line: u32,
    first: Vec<Bytes>,
) -> Result<u32, ParseFault>
    requires { vec_len first ≤ 200 }
    ensures reads { IfOk result (λ number. ReadsBody at line first.items (state tokens.now parser.old) number (state tokens.now parser.new)) }
    ensures refuses { IfErr result (RefusesBody at line first.items (state tokens.now parser.old) (state tokens.now parser.new)) }
    ensures order { IfErr result (FirstFault (Standing.body at first.items) (state tokens.now parser.old) (state tokens.now parser.new)) }
    ensures forward { OnOk result (Advances tokens.now parser.old parser.new) }
{
    let begun = begin(parser, alloc, tokens, line, first)?;
    let inner = parser.deeper(tokens, at)?.of_function(begun.vararg);
    let block = block(parser, alloc, tokens, inner)?;
    parser.take_word(tokens, Word::End)?;
    parser.end(alloc, begun, block)
}

/// `(´ [parlist] `)´
/// Reads the parameters of a function and begins it. `first` are the parameters that stand before those. The word
/// `function` is on that line.
fn begin(
    parser: &mut Parser,
    alloc: Global,
    tokens: &[Token],
    line: u32,
    first: Vec<Bytes>,
) -> Result<Begun, ParseFault>
    requires { vec_len first ≤ 200 }
    ensures reads { IfOk result (λ begun. ReadsHead line first.items (state tokens.now parser.old) begun (state tokens.now parser.new)) }
    ensures refuses { (at : Nesting) → IfErr result (RefusesBody at line first.items (state tokens.now parser.old) (state tokens.now parser.new)) }
    ensures order { (at : Nesting)
        → IfErr result (FirstFault (Standing.body at first.items) (state tokens.now parser.old) (state tokens.now parser.new)) }
    ensures forward { OnOk result (Advances tokens.now parser.old parser.new) }
{
    parser.take_sign(tokens, Sign::OpenParenthesis)?;
    let parameters = parser.parameters(tokens, first)?;
    parser.take_sign(tokens, Sign::CloseParenthesis)?;
    parser.enter(alloc, parameters, line)
}

/// block ::= chunk
/// Reads a block in one at `at`, and leaves the scope of its locals.
#[cycle(descent)]
pub(crate) fn scoped(
    parser: &mut Parser,
    alloc: Global,
    tokens: &[Token],
    at: Nesting,
) -> Result<Vec<Stmt>, ParseFault>
    ensures reads { IfOk result (λ block. ReadsScoped at (state tokens.now parser.old) block.items (state tokens.now parser.new)) }
    ensures refuses { IfErr result (RefusesScoped at (state tokens.now parser.old) (state tokens.now parser.new)) }
    ensures order { IfErr result (FirstFault (Standing.within Standing.block at) (state tokens.now parser.old) (state tokens.now parser.new)) }
    ensures forward { OnOk result (AdvancesOrStays tokens.now parser.old parser.new) }
{
    let count = parser.in_scope();
    let block = inner_block(parser, alloc, tokens, at)?;
    parser.leave(count);
    Ok(block)
}

/// block ::= chunk
/// Reads a block in one at `at`. Its locals stay in scope.
#[cycle(descent)]
pub(crate) fn inner_block(
    parser: &mut Parser,
    alloc: Global,
    tokens: &[Token],
    at: Nesting,
) -> Result<Vec<Stmt>, ParseFault>
    ensures reads { IfOk result (λ block. ReadsInner at (state tokens.now parser.old) block.items (state tokens.now parser.new)) }
    ensures refuses { IfErr result (RefusesInner at (state tokens.now parser.old) (state tokens.now parser.new)) }
    ensures order { IfErr result (FirstFault (Standing.within Standing.block at) (state tokens.now parser.old) (state tokens.now parser.new)) }
    ensures forward { OnOk result (AdvancesOrStays tokens.now parser.old parser.new) }
{
    let inner = parser.deeper(tokens, at)?;
    block(parser, alloc, tokens, inner)
}

/// chunk ::= {stat [`;´]} [laststat [`;´]]
/// Reads a block. Its locals stay in scope.
#[cycle(descent)]
pub(crate) fn block(
    parser: &mut Parser,
    alloc: Global,
    tokens: &[Token],
    at: Nesting,
) -> Result<Vec<Stmt>, ParseFault>
    ensures reads { IfOk result (λ block. ReadsBlock at (state tokens.now parser.old) block.items (state tokens.now parser.new)) }
    ensures refuses { IfErr result (RefusesBlock at (state tokens.now parser.old) (state tokens.now parser.new)) }
    ensures order { IfErr result (FirstFault (Standing.here Standing.block at) (state tokens.now parser.old) (state tokens.now parser.new)) }
    ensures forward { OnOk result (AdvancesOrStays tokens.now parser.old parser.new) }
{
    let mut statements = Vec::new(alloc);
    loop {
        match parser.begins(tokens) {
            Begins::Nothing => return Ok(statements),
            Begins::Last => {
                push_read(&mut statements, last(parser, alloc, tokens, at))?;
                parser.skip_sign(tokens, Sign::Semicolon);
                return Ok(statements);
            }
            begins => {
                push_read(
                    &mut statements,
                    statement(parser, alloc, tokens, at, begins),
                )?;
                parser.skip_sign(tokens, Sign::Semicolon);
            }
        }
    }
}

/// laststat ::= return [explist] | break
#[cycle(descent)]
fn last(
    parser: &mut Parser,
    alloc: Global,
    tokens: &[Token],
    at: Nesting,
) -> Result<Stmt, ParseFault>
    ensures reads { IfOk result (λ last. ReadsLast at (state tokens.now parser.old) last (state tokens.now parser.new)) }
    ensures refuses { IfErrWhere (StatementBegins Begins.Last) result (RefusesLast at) tokens.now parser.old parser.new }
    ensures order { IfErr result (FirstFault (Standing.statement at) (state tokens.now parser.old) (state tokens.now parser.new)) }
    ensures forward { OnOk result (Advances tokens.now parser.old parser.new) }
{
    if parser.at_word(tokens, Word::Break) {
        return parser.break_statement(tokens, at);
    }
    let line = parser.take_word(tokens, Word::Return)?;
    if parser.begins(tokens) == Begins::Nothing || parser.at_sign(tokens, Sign::Semicolon) {
        return returned(alloc, line, Vec::new(alloc));
    }
    let values = values(parser, alloc, tokens, at)?;
    returned(alloc, line, values)
}

/// stat ::= varlist `=´ explist | functioncall | do block end | while exp do block end | repeat block until exp
///     | if exp then block {elseif exp then block} [else block] end | for Name `=´ exp `,´ exp [`,´ exp] do block end
///     | for namelist in explist do block end | function funcname funcbody | local function Name funcbody | local namelist [`=´ explist]
/// Reads a statement that begins so.
#[cycle(descent)]
fn statement(
    parser: &mut Parser,
    alloc: Global,
    tokens: &[Token],
    at: Nesting,
    begins: Begins,
) -> Result<Stmt, ParseFault>
    ensures reads { IfOk result (λ out. ReadsStat at (state tokens.now parser.old) out (state tokens.now parser.new)) }
    ensures refuses { begins ≡ begins_of (ahead (state tokens.now parser.old)) → IsStatement begins
        → IfErr result (RefusesStat at (state tokens.now parser.old) (state tokens.now parser.new)) }
    ensures order { IfErr result (FirstFault (Standing.statement at) (state tokens.now parser.old) (state tokens.now parser.new)) }
    ensures forward { OnOk result (Advances tokens.now parser.old parser.new) }
{
    match begins {
        Begins::If => if_statement(parser, alloc, tokens, at),
        Begins::While => while_loop(parser, alloc, tokens, at),
        Begins::Do => do_block(parser, alloc, tokens, at),
        Begins::For => for_loop(parser, alloc, tokens, at),
        Begins::Repeat => repeat_loop(parser, alloc, tokens, at),
        Begins::Function => function_statement(parser, alloc, tokens, at),
        Begins::Local => local_statement(parser, alloc, tokens, at),
        _ => prefix_statement(parser, alloc, tokens, at),
    }
}

/// exp
/// Reads an expression of a statement in a block at `at`.
#[cycle(descent)]
pub(crate) fn value(
    parser: &mut Parser,
    alloc: Global,
    tokens: &[Token],
    at: Nesting,
) -> Result<Expr, ParseFault>
    ensures reads { IfOk result (λ e. ReadsValue at (state tokens.now parser.old) e (state tokens.now parser.new)) }
    ensures refuses { IfErr result (RefusesValue at (state tokens.now parser.old) (state tokens.now parser.new)) }
    ensures order { IfErr result (FirstFault (Standing.value at) (state tokens.now parser.old) (state tokens.now parser.new)) }
    ensures forward { OnOk result (Advances tokens.now parser.old parser.new) }
{
    let inner = parser.deeper(tokens, at.fresh())?;
    let built = expression(parser, alloc, tokens, inner, 1)?;
    Ok(built.into_expr())
}

/// explist ::= {exp `,´} exp
/// Reads expressions of a statement in a block at `at`.
#[cycle(descent)]
pub(crate) fn values(
    parser: &mut Parser,
    alloc: Global,
    tokens: &[Token],
    at: Nesting,
) -> Result<Vec<Expr>, ParseFault>
    ensures reads { IfOk result (λ es. ReadsValues at (state tokens.now parser.old) es.items (state tokens.now parser.new)) }
    ensures refuses { IfErr result (RefusesValues at (state tokens.now parser.old) (state tokens.now parser.new)) }
    ensures order { IfErr result (FirstFault (Standing.values at) (state tokens.now parser.old) (state tokens.now parser.new)) }
    ensures forward { OnOk result (Advances tokens.now parser.old parser.new) }
{
    let inner = parser.deeper(tokens, at.fresh())?;
    let values = expressions(parser, alloc, tokens, inner)?;
    Ok(values.into_exprs())
}

/// exp then block
#[cycle(descent)]
fn arm(parser: &mut Parser, alloc: Global, tokens: &[Token], at: Nesting) -> Result<Arm, ParseFault>
    ensures reads { IfOk result (λ arm. ReadsArm at (state tokens.now parser.old) arm (state tokens.now parser.new)) }
    ensures refuses { IfErr result (RefusesArm at (state tokens.now parser.old) (state tokens.now parser.new)) }
    ensures order { IfErr result (FirstFault (Standing.arm at) (state tokens.now parser.old) (state tokens.now parser.new)) }
    ensures forward { OnOk result (Advances tokens.now parser.old parser.new) }
{
    let test = value(parser, alloc, tokens, at)?;
    let (test, _) = beside(test, parser.take_word(tokens, Word::Then))?;
    let (test, body) = beside(test, scoped(parser, alloc, tokens, at))?;
    arm_node(alloc, test, body)
}

/// exp then block {elseif exp then block}
/// Reads the arms of an `if` after its word.
#[cycle(descent)]
fn arms(
    parser: &mut Parser,
    alloc: Global,
    tokens: &[Token],
    at: Nesting,
) -> Result<Vec<Arm>, ParseFault>
    ensures reads { IfOk result (λ arms. (line : ℕ) → ReadsArms at line (state tokens.now parser.old) arms.items (state tokens.now parser.new)) }
    ensures stops { OnOk result (IsNext (WordKind ElseIf) (state tokens.now parser.new) → ⊥) }
    ensures refuses { IfErr result (RefusesArms at (state tokens.now parser.old) (state tokens.now parser.new)) }
    ensures order { IfErr result (FirstFault (Standing.arms at) (state tokens.now parser.old) (state tokens.now parser.new)) }
    ensures forward { OnOk result (Advances tokens.now parser.old parser.new) }
{
    let mut arms = Vec::new(alloc);
    push_read(&mut arms, arm(parser, alloc, tokens, at))?;
    while parser.at_word(tokens, Word::ElseIf) {
        parser.take_word(tokens, Word::ElseIf)?;
        push_read(&mut arms, arm(parser, alloc, tokens, at))?;
    }
    Ok(arms)
}

/// stat ::= if exp then block {elseif exp then block} [else block] end
#[cycle(descent)]
fn if_statement(
    parser: &mut Parser,
    alloc: Global,
    tokens: &[Token],
    at: Nesting,
) -> Result<Stmt, ParseFault>
    ensures reads { IfOk result (λ out. ReadsStat at (state tokens.now parser.old) out (state tokens.now parser.new)) }
    ensures refuses { IfErrWhere (IsAhead (WordKind If)) result (RefusesStat at) tokens.now parser.old parser.new }
    ensures order { IfErr result (FirstFault (Standing.statement at) (state tokens.now parser.old) (state tokens.now parser.new)) }
    ensures forward { OnOk result (Advances tokens.now parser.old parser.new) }
{
    let line = parser.take_word(tokens, Word::If)?;
    let arms = arms(parser, alloc, tokens, at)?;
    if parser.at_word(tokens, Word::Else) {
        return else_statement(parser, alloc, tokens, at, line, arms);
    }
    parser.take_word(tokens, Word::End)?;
    if_node(alloc, line, arms, Vec::new(alloc))
}

/// stat ::= if exp then block {elseif exp then block} else block end
/// Reads it from its `else` on. Its `if` is on that line.
#[cycle(descent)]
fn else_statement(
    parser: &mut Parser,
    alloc: Global,
    tokens: &[Token],
    at: Nesting,
    line: u32,
    arms: Vec<Arm>,
) -> Result<Stmt, ParseFault>
    ensures reads { IfOk result (λ out. (s : State) → AfterArms at line arms.items s (state tokens.now parser.old)
        → ReadsStat at s out (state tokens.now parser.new)) }
    ensures refuses { IfErrWhere (IsNext (WordKind Else)) result (RefusesElse at line arms.items) tokens.now parser.old parser.new }
    ensures order { IfErr result (FirstFaultOfElse at line arms.items (state tokens.now parser.old) (state tokens.now parser.new)) }
    ensures forward { OnOk result (Advances tokens.now parser.old parser.new) }
{
    parser.take_word(tokens, Word::Else)?;
    let otherwise = scoped(parser, alloc, tokens, at)?;
    parser.take_word(tokens, Word::End)?;
    if_node(alloc, line, arms, otherwise)
}

/// stat ::= do block end
#[cycle(descent)]
fn do_block(
    parser: &mut Parser,
    alloc: Global,
    tokens: &[Token],
    at: Nesting,
) -> Result<Stmt, ParseFault>
    ensures reads { IfOk result (λ out. ReadsStat at (state tokens.now parser.old) out (state tokens.now parser.new)) }
    ensures refuses { IfErrWhere (IsAhead (WordKind Do)) result (RefusesStat at) tokens.now parser.old parser.new }
    ensures order { IfErr result (FirstFault (Standing.statement at) (state tokens.now parser.old) (state tokens.now parser.new)) }
    ensures forward { OnOk result (Advances tokens.now parser.old parser.new) }
{
    let line = parser.take_word(tokens, Word::Do)?;
    let body = scoped(parser, alloc, tokens, at)?;
    parser.take_word(tokens, Word::End)?;
    do_node(alloc, line, body)
}

/// stat ::= function funcname funcbody
/// It is an assignment.
#[cycle(descent)]
fn function_statement(
    parser: &mut Parser,
    alloc: Global,
    tokens: &[Token],
    at: Nesting,
) -> Result<Stmt, ParseFault>
    ensures reads { IfOk result (λ out. ReadsStat at (state tokens.now parser.old) out (state tokens.now parser.new)) }
    ensures refuses { IfErrWhere (IsAhead (WordKind Function)) result (RefusesStat at) tokens.now parser.old parser.new }
    ensures order { IfErr result (FirstFault (Standing.statement at) (state tokens.now parser.old) (state tokens.now parser.new)) }
    ensures forward { OnOk result (Advances tokens.now parser.old parser.new) }
{
    let line = parser.take_word(tokens, Word::Function)?;
    let name = parser.function_name(alloc, tokens)?;
    if parser.at_sign(tokens, Sign::Colon) {
        return method_statement(parser, alloc, tokens, at, line, name);
    }
    let number = body(parser, alloc, tokens, at, line, Vec::new(alloc));
    let (name, number) = beside(name, number)?;
    define(alloc, line, name.target, number)
}

/// stat ::= function funcname funcbody, where funcname ends with `:´ Name
/// Reads it from its `:` on. Its `function` is on that line.
#[cycle(descent)]
fn method_statement(
    parser: &mut Parser,
    alloc: Global,
    tokens: &[Token],
    at: Nesting,
    line: u32,
    object: FunctionName,
) -> Result<Stmt, ParseFault>
    ensures reads { IfOk result (λ out. (s : State) → ReadsFuncName s object (state tokens.now parser.old)
        → ReadsStat at (before_function line s) out (state tokens.now parser.new)) }
    ensures refuses { IfErrWhere (IsNext (SignKind Colon)) result (RefusesMethod at line object) tokens.now parser.old parser.new }
    ensures order { IfErr result (FirstFault (Standing.function_tail at object) (state tokens.now parser.old) (state tokens.now parser.new)) }
    ensures forward { OnOk result (Advances tokens.now parser.old parser.new) }
{
    let name = parser.name_member(alloc, tokens, Sign::Colon, object)?;
    let (name, first) = beside(name, self_alone(alloc))?;
    let (name, number) = beside(name, body(parser, alloc, tokens, at, line, first))?;
    define(alloc, line, name.target, number)
}

/// The parameter of a method that isn't named there.
fn self_alone(alloc: Global) -> Result<Vec<Bytes>, ParseFault>
    ensures { MatchResult result (λ names. names.items ≡ self_name ∷ []) IsMemory }
{
    Ok(vec![in alloc; Bytes::from_static(b"self")]?)
}

/// stat ::= local function Name funcbody | local namelist [`=´ explist]
#[cycle(descent)]
fn local_statement(
    parser: &mut Parser,
    alloc: Global,
    tokens: &[Token],
    at: Nesting,
) -> Result<Stmt, ParseFault>
    ensures reads { IfOk result (λ out. ReadsStat at (state tokens.now parser.old) out (state tokens.now parser.new)) }
    ensures refuses { IfErrWhere (IsAhead (WordKind Local)) result (RefusesStat at) tokens.now parser.old parser.new }
    ensures order { IfErr result (FirstFault (Standing.statement at) (state tokens.now parser.old) (state tokens.now parser.new)) }
    ensures forward { OnOk result (Advances tokens.now parser.old parser.new) }
{
    let line = parser.take_word(tokens, Word::Local)?;
    if parser.at_word(tokens, Word::Function) {
        return local_function(parser, alloc, tokens, at, line);
    }
    local_names(parser, alloc, tokens, at, line)
}

/// stat ::= local function Name funcbody
/// Reads it after its `local`, which is on that line. The body sees the name.
#[cycle(descent)]
fn local_function(
    parser: &mut Parser,
    alloc: Global,
    tokens: &[Token],
    at: Nesting,
    line: u32,
) -> Result<Stmt, ParseFault>
    ensures reads { IfOk result (λ out. ReadsStat at (before_local line (state tokens.now parser.old)) out (state tokens.now parser.new)) }
    ensures refuses { IfErrWhere (IsNext (WordKind Function)) result (RefusesLocal at) tokens.now parser.old parser.new }
    ensures order { IfErr result (FirstFault (Standing.local at) (state tokens.now parser.old) (state tokens.now parser.new)) }
    ensures forward { OnOk result (Advances tokens.now parser.old parser.new) }
{
    let begins = parser.take_word(tokens, Word::Function)?;
    let named = parser.take_name(tokens)?;
    let slot = parser.local(named)?;
    let number = body(parser, alloc, tokens, at, begins, Vec::new(alloc))?;
    Ok(Stmt {
        line,
        kind: StmtKind::LocalFunction(slot, number),
    })
}

/// stat ::= local namelist [`=´ explist]
/// Reads it after its `local`, which is on that line.
#[cycle(descent)]
fn local_names(
    parser: &mut Parser,
    alloc: Global,
    tokens: &[Token],
    at: Nesting,
    line: u32,
) -> Result<Stmt, ParseFault>
    ensures reads { IfOk result (λ out. ReadsStat at (before_local line (state tokens.now parser.old)) out (state tokens.now parser.new)) }
    ensures refuses { IfErrWhere (IsNotNext (WordKind Function)) result (RefusesLocal at) tokens.now parser.old parser.new }
    ensures order { IfErr result (FirstFault (Standing.local at) (state tokens.now parser.old) (state tokens.now parser.new)) }
    ensures forward { OnOk result (Advances tokens.now parser.old parser.new) }
{
    let count = parser.in_scope();
    let names = parser.names(alloc, tokens, count)?;
    let values = initial(parser, alloc, tokens, at)?;
    let slots = parser.declare(alloc, names, line)?;
    local_node(alloc, line, slots, values)
}

/// [`=´ explist]
/// Reads them where they stand next.
#[cycle(descent)]
fn initial(
    parser: &mut Parser,
    alloc: Global,
    tokens: &[Token],
    at: Nesting,
) -> Result<Option<Vec<Expr>>, ParseFault>
    ensures reads { IfOk result (λ values. ReadsInitial at (state tokens.now parser.old) values (state tokens.now parser.new)) }
    ensures missing { IfOk result (λ values. IfNone values (IsNext (SignKind Assign) (state tokens.now parser.old) → ⊥)) }
    ensures refuses { IfErr result (RefusesInitial at (state tokens.now parser.old) (state tokens.now parser.new)) }
    ensures order { IfErr result (FirstFault (Standing.initial at) (state tokens.now parser.old) (state tokens.now parser.new)) }
    ensures forward { OnOk result (AdvancesOrStays tokens.now parser.old parser.new) }
{
    if !parser.at_sign(tokens, Sign::Assign) {
        return Ok(None);
    }
    parser.take_sign(tokens, Sign::Assign)?;
    let values = values(parser, alloc, tokens, at)?;
    Ok(Some(values))
}

/// stat ::= varlist `=´ explist | functioncall
#[cycle(descent)]
fn prefix_statement(
    parser: &mut Parser,
    alloc: Global,
    tokens: &[Token],
    at: Nesting,
) -> Result<Stmt, ParseFault>
    ensures reads { IfOk result (λ out. ReadsStat at (state tokens.now parser.old) out (state tokens.now parser.new)) }
    ensures refuses { IfErrWhere (StatementBegins Begins.Prefix) result (RefusesStat at) tokens.now parser.old parser.new }
    ensures order { IfErr result (FirstFault (Standing.statement at) (state tokens.now parser.old) (state tokens.now parser.new)) }
    ensures forward { OnOk result (Advances tokens.now parser.old parser.new) }
{
    let line = parser.line_ahead(tokens)?;
    let Prefix { expr, form, .. } = prefix(parser, alloc, tokens, at.fresh())?;
    match form {
        Form::Call => Ok(Stmt {
            line,
            kind: StmtKind::Call(expr),
        }),
        Form::Variable => assignment(parser, alloc, tokens, at, line, expr),
        Form::Paren => {
            drop(expr);
            Err(parser.unfit(tokens))
        }
    }
}

/// stat ::= varlist `=´ explist
/// Reads it after its first target. It begins on that line.
#[cycle(descent)]
fn assignment(
    parser: &mut Parser,
    alloc: Global,
    tokens: &[Token],
    at: Nesting,
    line: u32,
    first: Expr,
) -> Result<Stmt, ParseFault>
    ensures reads { IfOk result (λ out. (s : State) → ReadsVars at line s (first ∷ []) (state tokens.now parser.old)
        → ReadsStat at s out (state tokens.now parser.new)) }
    ensures refuses { IfErr result (RefusesAssignment at first (state tokens.now parser.old) (state tokens.now parser.new)) }
    ensures order { IfErr result (FirstFaultOfAssignment at line first (state tokens.now parser.old) (state tokens.now parser.new)) }
    ensures forward { OnOk result (Advances tokens.now parser.old parser.new) }
{
    let targets = targets(parser, alloc, tokens, at, first)?;
    parser.take_sign(tokens, Sign::Assign)?;
    let values = values(parser, alloc, tokens, at)?;
    assign_node(alloc, line, targets, values)
}

/// varlist ::= var {`,´ var}
/// Reads it after the first.
#[cycle(descent)]
fn targets(
    parser: &mut Parser,
    alloc: Global,
    tokens: &[Token],
    at: Nesting,
    first: Expr,
) -> Result<Vec<Expr>, ParseFault>
    ensures reads { IfOk result (λ targets. (line : ℕ) (s : State) (read : ReadsVars at line s (first ∷ []) (state tokens.now parser.old))
        → ReadsMoreVars at line s read.tree targets.items (state tokens.now parser.old) (state tokens.now parser.new)) }
    ensures stops { OnOk result (IsNext (SignKind Comma) (state tokens.now parser.new) → ⊥) }
    ensures refuses { IfErr result (RefusesAssignment at first (state tokens.now parser.old) (state tokens.now parser.new)) }
    ensures order { IfErr result (FirstFaultOfTargets at first (state tokens.now parser.old) (state tokens.now parser.new)) }
    ensures forward { OnOk result (AdvancesOrStays tokens.now parser.old parser.new) }
{
    let mut targets = vec![in alloc; first]?;
    while parser.at_sign(tokens, Sign::Comma) {
        parser.take_sign(tokens, Sign::Comma)?;
        let next = target(parser, alloc, tokens, at)?;
        targets.push(next)?;
    }
    Ok(targets)
}

/// var ::= Name | prefixexp `[´ exp `]´ | prefixexp `.´ Name
#[cycle(descent)]
fn target(
    parser: &mut Parser,
    alloc: Global,
    tokens: &[Token],
    at: Nesting,
) -> Result<Expr, ParseFault>
    ensures reads { IfOk result (λ e. ReadsTarget at (state tokens.now parser.old) e (state tokens.now parser.new)) }
    ensures refuses { IfErr result (RefusesTarget at (state tokens.now parser.old) (state tokens.now parser.new)) }
    ensures order { IfErr result (FirstFault (Standing.target at) (state tokens.now parser.old) (state tokens.now parser.new)) }
    ensures forward { OnOk result (Advances tokens.now parser.old parser.new) }
{
    let Prefix { expr, form, .. } = prefix(parser, alloc, tokens, at.fresh())?;
    match form {
        Form::Variable => Ok(expr),
        Form::Call | Form::Paren => {
            drop(expr);
            Err(parser.unfit(tokens))
        }
    }
}
