//! The texts of faults.

ghost use Rattle.std.specs.Prelude.{◌≡◌, IfOk};
ghost use Rattle.lua_operators.specs.Faults.{fault_text, number_fault_text};
ghost use Rattle.lua_operators.specs.OperandFaults.{operand_text, compared_text, arithmetic_fault, concatenation_fault, comparison_fault};
ghost use Rattle.lua_operators.specs.OperandFaults.{operand_fault_text};
ghost use Rattle.lua_operators.specs.NamedFaults.{argument_text, module_text, phase_text};

use crate::concatenation::is_text_or_number;
use crate::{LuaType, number_of, type_of};
use itoa::Buffer;
use lua_numbers::NumFault;
use lua_values::Value;
use resty_base::Bytes;
use std::alloc::{AllocError, Global};

/// A fault whose text names no value.
#[derive(Clone, Copy, Debug, PartialEq, Eq)]
pub enum Fault {
    Number(NumFault),
    /// The units of a run would pass their limit.
    StorageLimit,
    StackOverflow,
    TooManyThreads,
    TooManySockets,
    TooManySubrequests,
    /// A table is written at nil.
    NilKey,
    FrozenTable,
    /// A variable that closures share is frozen.
    FrozenVariable,
    /// `table.sort` of what is neither all numbers nor all texts.
    SortMixed,
    ForInitial,
    ForLimit,
    ForStep,
    ForStepZero,
    MalformedPattern,
    TooManyCaptures,
    PatternTooComplex,
    DeadCoroutine,
    RunningCoroutine,
    BadRequest,
}

impl Fault {
    /// Its text, without a position.
    pub fn text(self) -> &'static [u8]
        ensures { result.now ≡ fault_text self }
    {
        match self {
            Fault::Number(fault) => number_fault_text(fault),
            Fault::StorageLimit => b"not enough memory (storage limit)",
            Fault::StackOverflow => b"stack overflow",
            Fault::TooManyThreads => b"too many threads",
            Fault::TooManySockets => b"too many sockets",
            Fault::TooManySubrequests => b"too many nested subrequests",
            Fault::NilKey => b"table index is nil",
            Fault::FrozenTable => b"attempt to modify a frozen table",
            Fault::FrozenVariable => b"attempt to modify a frozen variable",
            Fault::SortMixed => b"table.sort takes all numbers or all strings",
            Fault::ForInitial => b"'for' initial value must be a number",
            Fault::ForLimit => b"'for' limit must be a number",
            Fault::ForStep => b"'for' step must be a number",
            Fault::ForStepZero => b"'for' step is zero",
            Fault::MalformedPattern => b"malformed pattern",
            Fault::TooManyCaptures => b"too many captures",
            Fault::PatternTooComplex => b"pattern too complex",
            Fault::DeadCoroutine => b"cannot resume dead coroutine",
            Fault::RunningCoroutine => b"cannot resume non-suspended coroutine",
            Fault::BadRequest => b"bad request",
        }
    }
}

/// The text of a fault of arithmetic.
fn number_fault_text(fault: NumFault) -> &'static [u8]
    ensures { result.now ≡ number_fault_text fault }
{
    match fault {
        NumFault::Range => b"number out of range",
        NumFault::Inexact => b"number has no whole result",
        NumFault::ByZero => b"attempt to divide by zero",
    }
}

/// An operator isn't defined on values of these types, and no metatable has a handler.
#[derive(Clone, Copy, Debug, PartialEq, Eq)]
pub enum OperandFault {
    Index(LuaType),
    Call(LuaType),
    Arithmetic(LuaType),
    Concatenation(LuaType),
    Length(LuaType),
    Comparison(LuaType, LuaType),
}

impl OperandFault {
    /// Its text, without a position.
    pub fn text(self, alloc: Global) -> Result<Bytes, AllocError>
        ensures { IfOk result (λ text. text ≡ operand_fault_text self) }
    {
        match self {
            OperandFault::Index(found) => operand_text(alloc, b"index", found),
            OperandFault::Call(found) => operand_text(alloc, b"call", found),
            OperandFault::Arithmetic(found) => {
                operand_text(alloc, b"perform arithmetic on", found)
            }
            OperandFault::Concatenation(found) => operand_text(alloc, b"concatenate", found),
            OperandFault::Length(found) => operand_text(alloc, b"get length of", found),
            OperandFault::Comparison(first, second) => compared_text(alloc, first, second),
        }
    }
}

/// `attempt to DO a TYPE value`.
fn operand_text(alloc: Global, deed: &[u8], found: LuaType) -> Result<Bytes, AllocError>
    ensures { IfOk result (λ text. text ≡ operand_text deed.now found) }
{
    let mut text = Vec::new(alloc);
    text.extend_from_slice(b"attempt to ")?;
    text.extend_from_slice(deed)?;
    text.extend_from_slice(b" a ")?;
    text.extend_from_slice(found.name())?;
    text.extend_from_slice(b" value")?;
    Ok(Bytes::from_vec(text)?)
}

/// `attempt to compare two TYPE values`, or `attempt to compare TYPE with TYPE` where they differ.
fn compared_text(alloc: Global, first: LuaType, second: LuaType) -> Result<Bytes, AllocError>
    ensures { IfOk result (λ text. text ≡ compared_text first second) }
{
    let mut text = Vec::new(alloc);
    if first == second {
        text.extend_from_slice(b"attempt to compare two ")?;
        text.extend_from_slice(first.name())?;
        text.extend_from_slice(b" values")?;
    } else {
        text.extend_from_slice(b"attempt to compare ")?;
        text.extend_from_slice(first.name())?;
        text.extend_from_slice(b" with ")?;
        text.extend_from_slice(second.name())?;
    }
    Ok(Bytes::from_vec(text)?)
}

/// The fault of arithmetic on two values without a handler: it names the first that has no number.
pub fn arithmetic_fault(a: &Value, b: &Value) -> OperandFault
    ensures { result ≡ arithmetic_fault a.now b.now }
{
    match number_of(a) {
        None => OperandFault::Arithmetic(type_of(a)),
        Some(_) => OperandFault::Arithmetic(type_of(b)),
    }
}

/// The fault of `..` on two values without a handler: it names the first that is neither a text nor a number.
pub fn concatenation_fault(a: &Value, b: &Value) -> OperandFault
    ensures { result ≡ concatenation_fault a.now b.now }
{
    if is_text_or_number(a) {
        OperandFault::Concatenation(type_of(b))
    } else {
        OperandFault::Concatenation(type_of(a))
    }
}

/// The fault of `<` or `<=` on two values without a handler.
pub fn comparison_fault(a: &Value, b: &Value) -> OperandFault
    ensures { result ≡ comparison_fault a.now b.now }
{
    OperandFault::Comparison(type_of(a), type_of(b))
}

/// `bad argument #N to 'NAME' (EXPECTED expected, got FOUND)`; arguments are numbered from 1.
pub fn argument_fault(
    alloc: Global,
    number: u32,
    name: &[u8],
    expected: &[u8],
    found: &[u8],
) -> Result<Bytes, AllocError>
    ensures { IfOk result (λ text. text ≡ argument_text number name.now expected.now found.now) }
{
    let mut buffer = Buffer::new();
    let mut text = Vec::new(alloc);
    text.extend_from_slice(b"bad argument #")?;
    text.extend_from_slice(buffer.format(number).as_bytes())?;
    text.extend_from_slice(b" to '")?;
    text.extend_from_slice(name)?;
    text.extend_from_slice(b"' (")?;
    text.extend_from_slice(expected)?;
    text.extend_from_slice(b" expected, got ")?;
    text.extend_from_slice(found)?;
    text.extend_from_slice(b")")?;
    Ok(Bytes::from_vec(text)?)
}

/// `module 'NAME' not found`.
pub fn module_fault(alloc: Global, name: &[u8]) -> Result<Bytes, AllocError>
    ensures { IfOk result (λ text. text ≡ module_text name.now) }
{
    let mut text = Vec::new(alloc);
    text.extend_from_slice(b"module '")?;
    text.extend_from_slice(name)?;
    text.extend_from_slice(b"' not found")?;
    Ok(Bytes::from_vec(text)?)
}

/// `API disabled in the context of PHASE`.
pub fn phase_fault(alloc: Global, phase: &[u8]) -> Result<Bytes, AllocError>
    ensures { IfOk result (λ text. text ≡ phase_text phase.now) }
{
    let mut text = Vec::new(alloc);
    text.extend_from_slice(b"API disabled in the context of ")?;
    text.extend_from_slice(phase)?;
    Ok(Bytes::from_vec(text)?)
}
