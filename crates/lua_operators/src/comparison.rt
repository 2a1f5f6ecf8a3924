//! Equality, and the order of numbers and of texts.

ghost use Rattle.std.specs.Prelude.{◌≡◌};
ghost use Rattle.lua_operators.specs.Comparison.{event_of, holds, compared, equality};

use crate::{Event, Outcome};
use lua_values::Value;
use std::cmp::Ordering;

/// `<` or `<=`; `a > b` is `b < a`, and `a >= b` is `b <= a` (Lua 5.1 Reference Manual, 2.5.2).
#[derive(Clone, Copy, Debug, PartialEq, Eq)]
pub enum ComparisonOperator {
    Less,
    LessOrEqual,
}

impl ComparisonOperator {
    /// Its event.
    pub fn event(self) -> Event
        ensures { result ≡ event_of self }
    {
        match self {
            ComparisonOperator::Less => Event::Lt,
            ComparisonOperator::LessOrEqual => Event::Le,
        }
    }

    /// Whether it holds of two things in this order.
    fn holds(self, order: Ordering) -> bool
        ensures { result ≡ holds self order }
    {
        match self {
            ComparisonOperator::Less => order.is_lt(),
            ComparisonOperator::LessOrEqual => order.is_le(),
        }
    }
}

/// `a < b` or `a <= b` (Lua 5.1 Reference Manual, 2.5.2): numbers as numbers, texts byte by byte as unsigned numbers.
pub fn compared(operator: ComparisonOperator, a: &Value, b: &Value) -> Outcome
    ensures { result ≡ compared operator a.now b.now }
{
    let order = match (a, b) {
        (Value::Number(m), Value::Number(n)) => m.get().cmp(&n.get()),
        (Value::Text(s), Value::Text(t)) => s.as_slice().cmp(t.as_slice()),
        _ => return Outcome::NeedsEvent,
    };
    Outcome::Gives(Value::Truth(operator.holds(order)))
}

/// `a == b` (Lua 5.1 Reference Manual, 2.5.2): values that are the same are equal, two other tables ask a metatable,
/// and no others are equal. No text is converted.
pub fn equality(a: &Value, b: &Value) -> Outcome
    ensures { result ≡ equality a.now b.now }
{
    let same = a == b;
    match (a, b) {
        (Value::Table(_), Value::Table(_)) if !same => Outcome::NeedsEvent,
        _ => Outcome::Gives(Value::Truth(same)),
    }
}
