//! Texts that the library makes. A text of n bytes takes n + 16 units.

ghost use Rattle.std.specs.Prelude.{◌≡◌, ◌<◌, ◌^◌, None, Some, OnOk, OnErr, IfErr};
ghost use Rattle.lua_lib_base.specs.Results.{IsOutcome};
ghost use Rattle.lua_lib_base.specs.Texts.{text_cause, with_text, made_text};

use crate::{Given, Unanswered, Work};
use lua_values::{Store, StoreFault, TEXT_UNITS, Value, Values};
use resty_base::Bytes;
use std::alloc::Global;

/// Counts the units of a text of so many bytes, before it is made.
pub fn reserve_text(store: &mut Store, bytes: usize) -> Result<(), StoreFault>
    requires { bytes < 2 ^ 63 }
    ensures done { OnOk result (store.new ≡ record { heap = with_text store.old.heap bytes; steps = store.old.steps }) }
    ensures allowed { OnOk result (text_cause store.old.heap bytes ≡ None) }
    ensures cause { IfErr result (λ fault. text_cause store.old.heap bytes ≡ Some fault) }
    ensures kept { OnErr result (store.new ≡ store.old) }
{
    store.add_units(bytes as u64 + TEXT_UNITS)
}

/// Gives a text that the call makes.
pub fn give_made(alloc: Global, store: &mut Store, text: Bytes) -> Result<Given, Unanswered>
    ensures { IsOutcome (made_text store.old.heap text) store.old result store.new }
{
    let made = text.len();
    reserve_text(store, made)?;
    Ok(Given {
        values: Values::of(vec![in alloc; Value::Text(text)]?),
        work: Work::making(made as u64),
    })
}
