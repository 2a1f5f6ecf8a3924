//! How a call ends for the frame below its own.

ghost use Rattle.std.specs.Prelude.{◌≡◌, [], ◌∷◌, true, IfOk};
ghost use Rattle.lua_values.specs.declared.values.Value.TheVariants.{Truth};
ghost use Rattle.lua_meaning.specs.Works.{Values};
ghost use Rattle.lua_meaning.specs.Calls.{function_end};
ghost use Rattle.lua_meaning.specs.ProtectedCalls.{protected, handled_fault};
ghost use Rattle.lua_frames.specs.Signals.{sign_of};
ghost use Rattle.lua_frames.specs.Ending.{Closes};

use crate::taking::first_of;
use crate::{Kind, Lists, Signal};
use lua_values::Value;
use std::alloc::AllocError;

/// How a function ends: with what it returns, or in a fault.
fn function_signal(given: Signal) -> Signal
    ensures { sign_of result ≡ function_end (sign_of given) }
{
    match given {
        Signal::ReturnedOne(value) => Signal::One(value),
        Signal::Returned(values) => Signal::Many(values),
        Signal::Raised(value) => Signal::Raised(value),
        _ => Signal::Nothing,
    }
}

/// A truth and a value.
fn truth_and(lists: &mut Lists, truth: bool, value: Value) -> Result<Signal, AllocError>
    ensures { IfOk result (λ signal. sign_of signal ≡ Values (Truth truth ∷ value ∷ [])) }
{
    let mut values = lists.values.fresh();
    values.push(Value::Truth(truth))?;
    values.push(value)?;
    Ok(Signal::Many(values))
}

/// True, and then these values.
fn true_and(values: Vec<Value>) -> Result<Signal, AllocError>
    ensures { IfOk result (λ signal. sign_of signal ≡ Values (Truth true ∷ values.items)) }
{
    let mut values = values;
    values.insert(0, Value::Truth(true))?;
    Ok(Signal::Many(values))
}

/// What `pcall` gives: true and the values of its call, or false and its fault.
fn protected_signal(lists: &mut Lists, given: Signal) -> Result<Signal, AllocError>
    ensures { IfOk result (λ signal. sign_of signal ≡ Values (protected (sign_of given))) }
{
    match given {
        Signal::Nothing | Signal::Broke => Ok(Signal::One(Value::Truth(true))),
        Signal::One(value) | Signal::ReturnedOne(value) => truth_and(lists, true, value),
        Signal::Many(values) | Signal::Returned(values) => true_and(values),
        Signal::Raised(value) => truth_and(lists, false, value),
    }
}

/// What `xpcall` gives once its handler has ended.
fn handled_signal(lists: &mut Lists, given: Signal) -> Result<Signal, AllocError>
    ensures { IfOk result (λ signal. sign_of signal ≡ Values (handled_fault (sign_of given))) }
{
    match given {
        Signal::Nothing | Signal::Broke => truth_and(lists, false, Value::Nil),
        Signal::One(value) | Signal::ReturnedOne(value) | Signal::Raised(value) => {
            truth_and(lists, false, value)
        }
        Signal::Many(values) | Signal::Returned(values) => {
            truth_and(lists, false, first_of(values))
        }
    }
}

/// How a call ends for the frame below its own.
#[derive(Drop)]
pub(crate) enum Closing {
    Gives(Signal),
    /// This handler is called with a fault.
    Handles(Value, Value),
}

/// How a call of a kind ends whose items gave this.
pub(crate) fn closing_of(
    lists: &mut Lists,
    kind: &Kind,
    given: Signal,
) -> Result<Closing, AllocError>
    ensures { IfOk result (λ closing. Closes kind.now (sign_of given) closing) }
{
    match kind {
        Kind::Base => Ok(Closing::Gives(given)),
        Kind::Lua => Ok(Closing::Gives(function_signal(given))),
        Kind::Guard => Ok(Closing::Gives(protected_signal(lists, given)?)),
        Kind::Handled(by) => handled_closing(lists, by.get(), given),
        Kind::Handling => Ok(Closing::Gives(handled_signal(lists, given)?)),
    }
}

/// How a call under `xpcall` with this handler ends.
fn handled_closing(lists: &mut Lists, by: &Value, given: Signal) -> Result<Closing, AllocError>
    ensures { IfOk result (λ closing. Closes (Kind.Handled by.now) (sign_of given) closing) }
{
    match given {
        Signal::Raised(fault) => Ok(Closing::Handles(by.clone()?, fault)),
        other => Ok(Closing::Gives(protected_signal(lists, other)?)),
    }
}
