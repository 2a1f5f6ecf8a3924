//! The nodes of statements.
ghost use Rattle.std.specs.Prelude.{◌≡◌, MatchResult, option_map};
ghost use Rattle.lua_parser_base.specs.StatementNodes.{IsArm, IsIf, IsWhile, IsDo, IsRepeat, IsNumericFor, IsGenericFor, IsLocal, IsAssign, Defines, IsReturn};
ghost use Rattle.lua_parser_base.specs.StatementNodes.{Begins, given_of};
ghost use Rattle.lua_parser_base.specs.Next.{IsMemory};

use crate::ParseFault;
use crate::nodes::both;
use lua_ast::{Arm, Expr, ExprKind, Stmt, StmtKind};
use std::alloc::Global;
use std::rc::Rc;

/// The block of a loop, and the slots of the loop's variables.
#[derive(Drop)]
pub struct LoopBlock {
    pub slots: Vec<u8>,
    pub body: Vec<Stmt>,
}

/// The numbers of a loop: the first, the last, and the step where one is given.
#[derive(Drop)]
pub struct Range {
    pub from: Expr,
    pub to: Expr,
    pub step: Option<Expr>,
}

/// The variable or the field that a function is assigned to, and its height.
#[derive(Drop)]
pub struct FunctionName {
    pub target: Expr,
    pub height: u32,
}

/// A test and its block.
pub fn arm_node(alloc: Global, test: Expr, body: Vec<Stmt>) -> Result<Arm, ParseFault>
    ensures { MatchResult result (IsArm test body.items) IsMemory }
{
    match Rc::new(alloc, body) {
        Ok(body) => Ok(Arm { test, body }),
        Err(_) => {
            drop(test);
            Err(ParseFault::Memory)
        }
    }
}

/// `if`, without statements of `else` where there is none.
pub fn if_node(
    alloc: Global,
    line: u32,
    arms: Vec<Arm>,
    otherwise: Vec<Stmt>,
) -> Result<Stmt, ParseFault>
    ensures { MatchResult result (IsIf line arms.items otherwise.items) IsMemory }
{
    let arms = Rc::new(alloc, arms)?;
    Ok(Stmt {
        line,
        kind: StmtKind::If(arms, Rc::new(alloc, otherwise)?),
    })
}

/// `while`.
pub fn while_node(alloc: Global, line: u32, test: Expr, body: Vec<Stmt>) -> Result<Stmt, ParseFault>
    ensures { MatchResult result (IsWhile line test body.items) IsMemory }
{
    let test = Rc::new(alloc, test)?;
    Ok(Stmt {
        line,
        kind: StmtKind::While(test, Rc::new(alloc, body)?),
    })
}

/// `do`.
pub fn do_node(alloc: Global, line: u32, body: Vec<Stmt>) -> Result<Stmt, ParseFault>
    ensures { MatchResult result (IsDo line body.items) IsMemory }
{
    Ok(Stmt {
        line,
        kind: StmtKind::Do(Rc::new(alloc, body)?),
    })
}

/// `repeat`.
pub fn repeat_node(
    alloc: Global,
    line: u32,
    body: Vec<Stmt>,
    test: Expr,
) -> Result<Stmt, ParseFault>
    ensures { MatchResult result (IsRepeat line body.items test) IsMemory }
{
    let test = Rc::new(alloc, test)?;
    Ok(Stmt {
        line,
        kind: StmtKind::Repeat(Rc::new(alloc, body)?, test),
    })
}

/// A loop over numbers, whose variable has the first of the slots.
pub fn numeric_for(
    alloc: Global,
    line: u32,
    range: Range,
    block: LoopBlock,
) -> Result<Stmt, ParseFault>
    ensures { MatchResult result (IsNumericFor line range block) IsMemory }
{
    let Range { from, to, step } = range;
    let LoopBlock { slots, body } = block;
    let slot = first_slot(&slots);
    let ends = both(alloc, from, to);
    let step = shared(alloc, step);
    match (ends, step, Rc::new(alloc, body)) {
        (Ok((from, to)), Ok(step), Ok(body)) => Ok(Stmt {
            line,
            kind: StmtKind::NumericFor {
                slot,
                from,
                to,
                step,
                body,
            },
        }),
        _ => Err(ParseFault::Memory),
    }
}

/// The first of the slots, 0 of none.
#[tactic(auto, using(crate::proofs::ForLoops::begins_first, crate::proofs::ForLoops::begins_none))]
fn first_slot(slots: &[u8]) -> u8
    ensures { Begins result slots.now }
{
    match slots.get(0) {
        Some(slot) => *slot,
        None => 0,
    }
}

/// The same expression, shared.
fn shared(alloc: Global, expr: Option<Expr>) -> Result<Option<Rc<Expr>>, ParseFault>
    ensures { MatchResult result (λ found. option_map (λ rc. rc.value) found ≡ expr) IsMemory }
{
    match expr {
        Some(expr) => Ok(Some(Rc::new(alloc, expr)?)),
        None => Ok(None),
    }
}

/// A loop over the values of a function.
pub fn generic_for(
    alloc: Global,
    line: u32,
    values: Vec<Expr>,
    block: LoopBlock,
) -> Result<Stmt, ParseFault>
    ensures { MatchResult result (IsGenericFor line values.items block) IsMemory }
{
    let LoopBlock { slots, body } = block;
    let slots = Rc::new(alloc, slots)?;
    let values = Rc::new(alloc, values)?;
    let body = Rc::new(alloc, body)?;
    Ok(Stmt {
        line,
        kind: StmtKind::GenericFor {
            slots,
            values,
            body,
        },
    })
}

/// `local`, without values where none are given.
pub fn local_node(
    alloc: Global,
    line: u32,
    slots: Vec<u8>,
    values: Option<Vec<Expr>>,
) -> Result<Stmt, ParseFault>
    ensures { MatchResult result (IsLocal line slots.items values) IsMemory }
{
    let values = given(alloc, values);
    let slots = Rc::new(alloc, slots)?;
    Ok(Stmt {
        line,
        kind: StmtKind::Local(slots, Rc::new(alloc, values)?),
    })
}

/// The values, none where none are given.
fn given(alloc: Global, values: Option<Vec<Expr>>) -> Vec<Expr>
    ensures { result.items ≡ given_of values }
{
    match values {
        Some(values) => values,
        None => Vec::new(alloc),
    }
}

/// An assignment.
pub fn assign_node(
    alloc: Global,
    line: u32,
    targets: Vec<Expr>,
    values: Vec<Expr>,
) -> Result<Stmt, ParseFault>
    ensures { MatchResult result (IsAssign line targets.items values.items) IsMemory }
{
    let targets = Rc::new(alloc, targets)?;
    Ok(Stmt {
        line,
        kind: StmtKind::Assign(targets, Rc::new(alloc, values)?),
    })
}

/// The assignment of a function.
pub fn define(alloc: Global, line: u32, target: Expr, number: u32) -> Result<Stmt, ParseFault>
    ensures { MatchResult result (Defines line target number) IsMemory }
{
    let targets = vec![in alloc; target]?;
    let function = Expr {
        line,
        kind: ExprKind::Function(number),
    };
    let values = vec![in alloc; function]?;
    assign_node(alloc, line, targets, values)
}

/// `return`.
pub fn returned(alloc: Global, line: u32, values: Vec<Expr>) -> Result<Stmt, ParseFault>
    ensures { MatchResult result (IsReturn line values.items) IsMemory }
{
    Ok(Stmt {
        line,
        kind: StmtKind::Return(Rc::new(alloc, values)?),
    })
}
