//! Arithmetic on numbers, and on texts that write numbers.

ghost use Rattle.std.specs.Prelude.{◌≡◌};
ghost use Rattle.lua_operators.specs.ArithmeticOperators.{result_of, event_of};
ghost use Rattle.lua_operators.specs.Arithmetic.{computed, negated, outcome_of};

use crate::{Event, Outcome, number_of};
use lua_numbers::{NumFault, add, div, modulo, mul, neg, pow, sub};
use lua_values::Value;
use resty_base::Whole;

/// A binary arithmetic operator (Lua 5.1 Reference Manual, 2.5.1).
#[derive(Clone, Copy, Debug, PartialEq, Eq)]
pub enum ArithmeticOperator {
    Add,
    Sub,
    Mul,
    Div,
    Mod,
    Pow,
}

impl ArithmeticOperator {
    /// Its event.
    pub fn event(self) -> Event
        ensures { result ≡ event_of self }
    {
        match self {
            ArithmeticOperator::Add => Event::Add,
            ArithmeticOperator::Sub => Event::Sub,
            ArithmeticOperator::Mul => Event::Mul,
            ArithmeticOperator::Div => Event::Div,
            ArithmeticOperator::Mod => Event::Mod,
            ArithmeticOperator::Pow => Event::Pow,
        }
    }

    /// Its result on two numbers.
    fn result(self, a: Whole, b: Whole) -> Result<Whole, NumFault>
        ensures { result ≡ result_of self a b }
    {
        match self {
            ArithmeticOperator::Add => add(a, b),
            ArithmeticOperator::Sub => sub(a, b),
            ArithmeticOperator::Mul => mul(a, b),
            ArithmeticOperator::Div => div(a, b),
            ArithmeticOperator::Mod => modulo(a, b),
            ArithmeticOperator::Pow => pow(a, b),
        }
    }
}

/// A result as an outcome.
pub(crate) fn outcome(number: Result<Whole, NumFault>) -> Outcome
    ensures { result ≡ outcome_of number }
{
    match number {
        Ok(n) => Outcome::Gives(Value::Number(n)),
        Err(fault) => Outcome::Faults(fault),
    }
}

/// `a + b`, `a - b`, `a * b`, `a / b`, `a % b`, `a ^ b` (Lua 5.1 Reference Manual, 2.5.1).
pub fn computed(operator: ArithmeticOperator, a: &Value, b: &Value) -> Outcome
    ensures { result ≡ computed operator a.now b.now }
{
    match (number_of(a), number_of(b)) {
        (Some(m), Some(n)) => outcome(operator.result(m, n)),
        _ => Outcome::NeedsEvent,
    }
}

/// `-a` (Lua 5.1 Reference Manual, 2.5.1).
pub fn negated(a: &Value) -> Outcome
    ensures { result ≡ negated a.now }
{
    match number_of(a) {
        Some(n) => Outcome::Gives(Value::Number(neg(n))),
        None => Outcome::NeedsEvent,
    }
}
