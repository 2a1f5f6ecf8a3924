//! The variables that closures share (Lua 5.1 Reference Manual, 2.6).

ghost use Rattle.std.specs.Prelude.{◌≡◌, IfOk};
ghost use Rattle.std.specs.Option.{option_map};
ghost use Rattle.lua_meaning.specs.Closures.{captures_of, present_cell, variable_value};
ghost use Rattle.lua_frames.specs.Frames.{here, slots_of};
ghost use Rattle.lua_vm_expressions.specs.Captures.{Makes, Closes, SharesAll, Shares, KeepsCell};
ghost use Rattle.std.specs.Prelude.{slice_get};

use crate::variables::{captured, slot};
use lua_ast::{Capture, Program};
use lua_frames::Frames;
use lua_meaning::Slot;
use lua_values::{Store, StoreFault, Value};
use std::alloc::AllocError;

/// Makes a closure of a function in the frame on top, and gives its number; `None` where the units of the run don't suffice.
pub fn make_closure(
    frames: &mut Frames,
    program: &Program,
    store: &mut Store,
    function: u32,
) -> Result<Option<u32>, AllocError>
    ensures { IfOk result (λ made. Makes program.now function frames.old store.old frames.new store.new made) }
{
    match share_variables(frames, store, captures_of(program, function))? {
        None => Ok(None),
        Some(cells) => close(frames, store, function, cells),
    }
}

/// What a function of the program captures.
fn captures_of(program: &Program, function: u32) -> &[Capture]
    ensures { result.now ≡ captures_of (slice_get program.now.functions.items function) }
{
    match program.functions.get(function as usize) {
        None => &[],
        Some(f) => f.captures.as_slice(),
    }
}

/// A closure of a function over these cells.
fn close(
    frames: &mut Frames,
    store: &mut Store,
    function: u32,
    cells: Vec<u32>,
) -> Result<Option<u32>, AllocError>
    ensures { IfOk result (λ made. Closes function cells.items frames.old store.old frames.new store.new made) }
{
    let made = store.make_closure(function, &cells);
    frames.lists.cells.spare(cells);
    match made {
        Ok(c) => Ok(Some(c)),
        Err(StoreFault::Full) => Ok(None),
        Err(_) => Err(AllocError),
    }
}

/// The cells of some variables, in order.
fn share_variables(
    frames: &mut Frames,
    store: &mut Store,
    captures: &[Capture],
) -> Result<Option<Vec<u32>>, AllocError>
    ensures { IfOk result (λ cells. SharesAll captures.now frames.old store.old frames.new store.new (option_map (λ cells. cells.items) cells)) }
{
    let mut cells = frames.lists.cells.fresh();
    for capture in captures {
        match share_variable(frames, store, *capture)? {
            None => return Ok(None),
            Some(c) => cells.push(c)?,
        }
    }
    Ok(Some(cells))
}

/// The cell of a variable: the one that it has, or a new one with its value.
fn share_variable(
    frames: &mut Frames,
    store: &mut Store,
    capture: Capture,
) -> Result<Option<u32>, AllocError>
    ensures { IfOk result (λ c. Shares capture frames.old store.old frames.new store.new c) }
{
    match present_cell(frames, capture) {
        Some(c) => Ok(Some(c)),
        None => make_cell(frames, store, capture),
    }
}

/// A new cell for a variable that has none.
fn make_cell(
    frames: &mut Frames,
    store: &mut Store,
    capture: Capture,
) -> Result<Option<u32>, AllocError>
    ensures { present_cell capture (here frames.old) (slots_of frames.old) ≡ None → IfOk result (λ c. Shares capture
        frames.old store.old frames.new store.new c) }
{
    let value = variable(frames, store, capture)?;
    match store.make_cell(value) {
        Ok(c) => {
            keep_cell(frames, capture, c);
            Ok(Some(c))
        }
        Err(StoreFault::Full) => Ok(None),
        Err(_) => Err(AllocError),
    }
}

/// The cell that a variable has.
fn present_cell(frames: &Frames, capture: Capture) -> Option<u32>
    ensures { result ≡ present_cell capture (here frames.now) (slots_of frames.now) }
{
    match capture {
        Capture::Slot(i) => match frames.top.slots.get(i as usize) {
            Some(Slot::Shared(c)) => Some(*c),
            _ => None,
        },
        Capture::Outer(i) => frames.top.cells.get(i as usize).copied(),
    }
}

/// The value of a variable.
fn variable(frames: &Frames, store: &Store, capture: Capture) -> Result<Value, AllocError>
    ensures { IfOk result (λ value. value ≡ variable_value capture (here frames.now) (slots_of frames.now) store.now.heap) }
{
    match capture {
        Capture::Slot(i) => slot(&frames.top.slots, i, store),
        Capture::Outer(i) => captured(&frames.top.cells, i, store),
    }
}

/// A variable in a slot is in a cell from now on.
fn keep_cell(frames: &mut Frames, capture: Capture, c: u32)
    ensures { KeepsCell capture c frames.old frames.new }
{
    match capture {
        Capture::Slot(i) => {
            if let Some(slot) = frames.top.slots.get_mut(i as usize) {
                *slot = Slot::Shared(c);
            }
        }
        Capture::Outer(_) => {}
    }
}
