//! Tests of types and texts (VALUES), conversions (NUMBERS), keys of events (KEYS), and texts of faults (FAULTS, OPERANDS, and those of arguments and names).

use crate::values::{Wrong, value, whether};
use lua_numbers::NumFault;
use lua_operators::*;
use lua_values::Value;
use resty_base::{Bytes, whole};
use std::alloc::{AllocError, Global};
use std::process::Abort;

/// A value, the name of its type, its text, and whether it is true.
const VALUES: &str = "\
nil | nil | nil | false
false | boolean | false | false
true | boolean | true | true
0 | number | 0 | true
-99999999999999 | number | -99999999999999 | true
' | string |  | true
'a\0\u{e9} | string | a\0\u{e9} | true
table:7 | table | table | true
closure:7 | function | function | true
native:7 | function | function | true
thread:7 | thread | thread | true
null | userdata | userdata: NULL | true
socket:7 | userdata | userdata | true
semaphore:7 | userdata | userdata | true
zone:7 | userdata | userdata | true
reader:7 | function | function | true";

/// Writes bytes that are a text.
fn write(all: &mut String, bytes: &[u8]) -> Result<(), AllocError> {
    all.push_str(str::from_utf8(bytes).unwrap_or("?"))
}

/// The name of a value's type, its text, and whether it is true.
fn described(alloc: Global, value: &Value) -> Result<String, AllocError> {
    let mut all = String::new(alloc);
    write(&mut all, type_of(value).name())?;
    all.push_str(" | ")?;
    write(&mut all, &text_of(alloc, value)?)?;
    all.push_str(if is_truthy(value) {
        " | true"
    } else {
        " | false"
    })?;
    Ok(all)
}

/// Whether a line describes its value.
fn is_described(alloc: Global, line: &str) -> Result<bool, Wrong> {
    let (word, wanted) = line.split_once(" | ").unwrap_or((line, ""));
    Ok(described(alloc, &value(alloc, word)?)?.as_str() == wanted)
}

/// Values and their numbers, `none` for those that have none.
const NUMBERS: &str = "\
12 | 12
' 0x1F  | 31
'x | none
true | none
nil | none";

/// Whether a line has its value's number.
fn has_number(alloc: Global, line: &str) -> Result<bool, Wrong> {
    let (word, wanted) = line.split_once(" | ").unwrap_or((line, ""));
    Ok(match number_of(&value(alloc, word)?) {
        Some(number) => wanted.parse::<i64>().ok() == Some(number.get()),
        None => wanted == "none",
    })
}

/// Whether lengths are counts of bytes.
fn are_lengths() -> bool {
    length(b"").ok() == whole(0)
        && length(b"abc").ok() == whole(3)
        && length(b"a\x00\xff\xc3\xa9").ok() == whole(5)
}

/// The keys of all events.
const KEYS: &str =
    "__index __newindex __call __add __sub __mul __div __mod __pow __unm __concat __eq __lt __le \
    __tostring __metatable";

/// The event that has this key.
fn event_of(key: &str) -> Event {
    match key {
        "__index" => Event::Index,
        "__newindex" => Event::NewIndex,
        "__call" => Event::Call,
        "__add" => Event::Add,
        "__sub" => Event::Sub,
        "__mul" => Event::Mul,
        "__div" => Event::Div,
        "__mod" => Event::Mod,
        "__pow" => Event::Pow,
        "__unm" => Event::Unm,
        "__concat" => Event::Concat,
        "__eq" => Event::Eq,
        "__lt" => Event::Lt,
        "__le" => Event::Le,
        "__tostring" => Event::ToString,
        _ => Event::Metatable,
    }
}

/// Whether each event has its key, and operators have their events.
fn have_keys() -> bool {
    for key in KEYS.split_whitespace() {
        if event_of(key).key() != key.as_bytes() {
            return false;
        }
    }
    ArithmeticOperator::Mod.event() == Event::Mod
        && ComparisonOperator::LessOrEqual.event() == Event::Le
}

/// Faults and their texts.
const FAULTS: &str = "\
Range | number out of range
Inexact | number has no whole result
ByZero | attempt to divide by zero
StorageLimit | not enough memory (storage limit)
StackOverflow | stack overflow
TooManyThreads | too many threads
TooManySockets | too many sockets
TooManySubrequests | too many nested subrequests
NilKey | table index is nil
FrozenTable | attempt to modify a frozen table
FrozenVariable | attempt to modify a frozen variable
SortMixed | table.sort takes all numbers or all strings
ForInitial | 'for' initial value must be a number
ForLimit | 'for' limit must be a number
ForStep | 'for' step must be a number
ForStepZero | 'for' step is zero
MalformedPattern | malformed pattern
TooManyCaptures | too many captures
PatternTooComplex | pattern too complex
DeadCoroutine | cannot resume dead coroutine
RunningCoroutine | cannot resume non-suspended coroutine
BadRequest | bad request";

/// The fault that has this name.
fn fault_of(name: &str) -> Fault {
    match name {
        "Range" => Fault::Number(NumFault::Range),
        "Inexact" => Fault::Number(NumFault::Inexact),
        "ByZero" => Fault::Number(NumFault::ByZero),
        "StorageLimit" => Fault::StorageLimit,
        "StackOverflow" => Fault::StackOverflow,
        "TooManyThreads" => Fault::TooManyThreads,
        "TooManySockets" => Fault::TooManySockets,
        "TooManySubrequests" => Fault::TooManySubrequests,
        "NilKey" => Fault::NilKey,
        "FrozenTable" => Fault::FrozenTable,
        "FrozenVariable" => Fault::FrozenVariable,
        "SortMixed" => Fault::SortMixed,
        "ForInitial" => Fault::ForInitial,
        "ForLimit" => Fault::ForLimit,
        "ForStep" => Fault::ForStep,
        "ForStepZero" => Fault::ForStepZero,
        "MalformedPattern" => Fault::MalformedPattern,
        "TooManyCaptures" => Fault::TooManyCaptures,
        "PatternTooComplex" => Fault::PatternTooComplex,
        "DeadCoroutine" => Fault::DeadCoroutine,
        "RunningCoroutine" => Fault::RunningCoroutine,
        _ => Fault::BadRequest,
    }
}

/// Whether a line has the text of its fault.
fn has_fault(line: &str) -> bool {
    let (name, text) = line.split_once(" | ").unwrap_or((line, ""));
    fault_of(name).text() == text.as_bytes()
}

/// The faults of operators on two values of which one or both are named.
const OPERANDS: &str = "\
+ | nil | 1 | attempt to perform arithmetic on a nil value
+ | 1 | nil | attempt to perform arithmetic on a nil value
+ | true | nil | attempt to perform arithmetic on a boolean value
+ | '1 | 'x | attempt to perform arithmetic on a string value
+ | 'x | table:1 | attempt to perform arithmetic on a string value
+ | table:1 | 'x | attempt to perform arithmetic on a table value
.. | nil | 'a | attempt to concatenate a nil value
.. | 'a | nil | attempt to concatenate a nil value
.. | true | nil | attempt to concatenate a boolean value
.. | 1 | thread:1 | attempt to concatenate a thread value
< | 1 | 'x | attempt to compare number with string
< | 'x | 1 | attempt to compare string with number
< | table:1 | table:1 | attempt to compare two table values
< | closure:1 | native:1 | attempt to compare two function values
< | null | socket:1 | attempt to compare two userdata values
< | nil | nil | attempt to compare two nil values
< | true | nil | attempt to compare boolean with nil";

/// The fault of an operator on two values.
fn operand_fault(operator: &str, a: &Value, b: &Value) -> OperandFault {
    match operator {
        "+" => arithmetic_fault(a, b),
        ".." => concatenation_fault(a, b),
        _ => comparison_fault(a, b),
    }
}

/// Whether bytes that were made are this text.
fn are(made: Result<Bytes, AllocError>, text: &str) -> Result<bool, AllocError> {
    Ok(made?.as_slice() == text.as_bytes())
}

/// Whether a line has the text of its fault.
fn has_text(alloc: Global, line: &str) -> Result<bool, Wrong> {
    let (operator, after) = line.split_once(" | ").unwrap_or((line, ""));
    let (a, after) = after.split_once(" | ").unwrap_or((after, ""));
    let (b, text) = after.split_once(" | ").unwrap_or((after, ""));
    let fault = operand_fault(operator, &value(alloc, a)?, &value(alloc, b)?);
    Ok(are(fault.text(alloc), text)?)
}

/// The faults of what is no operator of two values, and their texts.
fn others_have_their_texts(alloc: Global) -> Result<bool, AllocError> {
    let index = OperandFault::Index(LuaType::Nil).text(alloc);
    let call = OperandFault::Call(LuaType::Number).text(alloc);
    let length = OperandFault::Length(LuaType::Userdata).text(alloc);
    Ok(
        are(index, "attempt to index a nil value")?
            && are(call, "attempt to call a number value")?
            && are(length, "attempt to get length of a userdata value")?,
    )
}

/// The faults of an argument have these texts.
fn arguments_have_their_texts(alloc: Global) -> Result<bool, AllocError> {
    let first = argument_fault(alloc, 1, b"pcall", b"value", b"no value");
    let last = argument_fault(alloc, 4_294_967_295, b"print", b"string", b"table");
    let first_text = "bad argument #1 to 'pcall' (value expected, got no value)";
    let last_text = "bad argument #4294967295 to 'print' (string expected, got table)";
    Ok(are(first, first_text)? && are(last, last_text)?)
}

/// The faults of a module and of a phase have these texts.
fn names_have_their_texts(alloc: Global) -> Result<bool, AllocError> {
    let phase_text = "API disabled in the context of log_by_lua*";
    Ok(
        are(module_fault(alloc, b"a.b"), "module 'a.b' not found")?
            && are(phase_fault(alloc, b"log_by_lua*"), phase_text)?,
    )
}

/// A text at a position, and at none.
fn positions_have_their_texts(alloc: Global) -> Result<bool, AllocError> {
    let text = with_position(alloc, b"t.conf", 2, b"attempt to index a nil value");
    Ok(
        are(text, "t.conf:2: attempt to index a nil value")?
            && are(with_position(alloc, b"", 2, b"m"), "m")?,
    )
}

/// Tests each line of a value.
fn hold(rt: &impl Abort, alloc: Global) {
    for line in VALUES.lines() {
        assert!(rt;
            whether(is_described(alloc, line)).unwrap_or(false),
            "{line}"
        );
    }
    for line in NUMBERS.lines() {
        assert!(rt; whether(has_number(alloc, line)).unwrap_or(false), "{line}");
    }
}

/// Tests each line of a fault.
fn hold_faults(rt: &impl Abort, alloc: Global) {
    for line in FAULTS.lines() {
        assert!(rt; has_fault(line), "{line}");
    }
    for line in OPERANDS.lines() {
        assert!(rt; whether(has_text(alloc, line)).unwrap_or(false), "{line}");
    }
}

/// Whether all other faults have their texts.
fn have_their_texts(alloc: Global) -> Result<bool, AllocError> {
    Ok(
        others_have_their_texts(alloc)?
            && arguments_have_their_texts(alloc)?
            && names_have_their_texts(alloc)?
            && positions_have_their_texts(alloc)?,
    )
}

#[test]
fn values_events_and_faults_have_their_texts(rt: HostRuntime) {
    hold(&rt, rt.alloc());
    hold_faults(&rt, rt.alloc());
    assert!(rt; are_lengths() && have_keys());
    assert!(rt; have_their_texts(rt.alloc()).unwrap_or(false));
}
