//! The operators, each by its kind.

ghost use Rattle.lua_meaning.specs.Positions.{callers_at};
ghost use Rattle.lua_meaning.specs.Operators.{binary_work, unary_work};
ghost use Rattle.lua_frames.specs.Frames.{here, slots_of};
ghost use Rattle.lua_frames.specs.Follows.{Works};

use crate::arithmetic::{arithmetic, negation};
use crate::comparison::{comparison, equal};
use crate::concatenation::concatenation;
use crate::lengths::length_of;
use lua_ast::{BinOp, UnOp};
use lua_frames::{Flow, Frames, Host, give_one};
use lua_operators::{
    ArithmeticOperator as Arithmetic, ComparisonOperator as Comparison, is_truthy,
};
use lua_values::{Store, Value};
use std::alloc::AllocError;

/// `a OPERATOR b`.
pub(crate) fn operate<H: Host>(
    frames: &mut Frames,
    host: &H,
    store: &mut Store,
    line: u32,
    operator: BinOp,
    a: Value,
    b: Value,
) -> Result<Flow, AllocError>
    ensures { Works (H.setting host.now) (binary_work (H.setting host.now) (callers_at (here frames.old) line) operator a b (slots_of frames.old))
        frames.old store.old frames.new store.new result }
{
    match operator {
        BinOp::Add => arithmetic(frames, host, store, line, Arithmetic::Add, a, b),
        BinOp::Sub => arithmetic(frames, host, store, line, Arithmetic::Sub, a, b),
        BinOp::Mul => arithmetic(frames, host, store, line, Arithmetic::Mul, a, b),
        BinOp::Div => arithmetic(frames, host, store, line, Arithmetic::Div, a, b),
        BinOp::Mod => arithmetic(frames, host, store, line, Arithmetic::Mod, a, b),
        BinOp::Pow => arithmetic(frames, host, store, line, Arithmetic::Pow, a, b),
        BinOp::Concat => concatenation(frames, host, store, line, a, b),
        BinOp::Eq => equal(frames, host, store, line, true, a, b),
        BinOp::Ne => equal(frames, host, store, line, false, a, b),
        BinOp::Lt => comparison(frames, host, store, line, Comparison::Less, a, b),
        BinOp::Le => comparison(frames, host, store, line, Comparison::LessOrEqual, a, b),
        BinOp::Gt => comparison(frames, host, store, line, Comparison::Less, b, a),
        BinOp::Ge => comparison(frames, host, store, line, Comparison::LessOrEqual, b, a),
    }
}

/// `not a`, `#a` and `-a`.
pub(crate) fn operate_one<H: Host>(
    frames: &mut Frames,
    host: &H,
    store: &mut Store,
    line: u32,
    operator: UnOp,
    a: Value,
) -> Result<Flow, AllocError>
    ensures { Works (H.setting host.now) (unary_work (H.setting host.now) (callers_at (here frames.old) line) operator a (slots_of frames.old))
        frames.old store.old frames.new store.new result }
{
    match operator {
        UnOp::Not => give_one(frames, Value::Truth(!is_truthy(&a))),
        UnOp::Length => length_of(frames, host.program(), store, line, &a),
        UnOp::Minus => negation(frames, host, store, line, a),
    }
}
