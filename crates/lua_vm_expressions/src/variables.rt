//! The values of variables (Lua 5.1 Reference Manual, 2.6).

ghost use Rattle.std.specs.Prelude.{◌≡◌, slice_get, IfOk};
ghost use Rattle.lua_meaning.specs.Variables.{in_slot, in_cell};

use lua_meaning::Slot;
use lua_values::{Store, Value};
use std::alloc::AllocError;

/// What is in a slot, nil where there is none.
pub(crate) fn slot(slots: &[Slot], i: u8, store: &Store) -> Result<Value, AllocError>
    ensures { IfOk result (λ value. value ≡ in_slot (slice_get slots.now i) store.now.heap) }
{
    match slots.get(i as usize) {
        None => Ok(Value::Nil),
        Some(Slot::Plain(value)) => value.clone(),
        Some(Slot::Shared(c)) => store.cell(*c).clone(),
    }
}

/// What is in a captured variable, nil where there is none.
pub(crate) fn captured(cells: &[u32], i: u8, store: &Store) -> Result<Value, AllocError>
    ensures { IfOk result (λ value. value ≡ in_cell (slice_get cells.now i) store.now.heap) }
{
    match cells.get(i as usize) {
        None => Ok(Value::Nil),
        Some(c) => store.cell(*c).clone(),
    }
}
