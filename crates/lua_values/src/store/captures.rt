//! The calls of a store on cells and closures.

ghost use Rattle.std.specs.Prelude.{◌≡◌, Some, None, length, slice_get, OnOk, OnErr, IfOk, IfErr, MatchOption};
ghost use Rattle.lua_values.specs.StoreCalls as calls;

use super::{Store, UNIT_LIMIT};
use crate::closures::Closure;
use crate::{StoreFault, Value};

/// The units of a cell.
const CELL_UNITS: u64 = 16;

/// The units of a closure, beside those of each cell that it captured.
const CLOSURE_UNITS: u64 = 32;

/// The units of a cell that a closure captured.
const CAPTURE_UNITS: u64 = 8;

impl Store {
    /// Makes a cell with this value, which takes 16 units, and gives its number.
    pub fn make_cell(&mut self, value: Value) -> Result<u32, StoreFault>
        ensures number { IfOk result (λ c. c ≡ length self.old.heap.cells) }
        ensures done { OnOk result (self.new ≡ record { heap = calls.with_cell self.old.heap value; steps = self.old.steps }) }
        ensures allowed { OnOk result (calls.full_cause self.old.heap 16 ≡ None) }
        ensures cause { IfErr result (calls.IsCause (calls.full_cause self.old.heap 16)) }
        ensures kept { OnErr result (self.new ≡ self.old) }
    {
        if self.units + CELL_UNITS > UNIT_LIMIT {
            return Err(StoreFault::Full);
        }
        let number = self.cells.len() as u32;
        self.cells.push(value)?;
        self.units += CELL_UNITS;
        Ok(number)
    }

    /// The value of a cell; nil where there is none.
    pub fn cell(&self, c: u32) -> &Value
        ensures { result.now ≡ calls.cell_of self.now.heap c }
    {
        match self.cells.get(c as usize) {
            None => &self.nil,
            Some(value) => value,
        }
    }

    /// Sets the value of a cell; takes no memory.
    pub fn set_cell(&mut self, c: u32, value: Value) -> Result<(), StoreFault>
        ensures done { OnOk result (self.new ≡ record { heap = calls.with_cell_value self.old.heap c value; steps = self.old.steps }) }
        ensures allowed { OnOk result (calls.frozen_cause self.old.heap.base.cells c ≡ None) }
        ensures cause { IfErr result (λ fault. calls.frozen_cause self.old.heap.base.cells c ≡ Some fault) }
        ensures kept { OnErr result (self.new ≡ self.old) }
    {
        if (c as usize) < self.cells.frozen() {
            return Err(StoreFault::Frozen);
        }
        if (c as usize) < self.cells.len() {
            *self.cells.item_mut(c as usize) = value;
        }
        Ok(())
    }

    /// Makes a closure of a function over these cells, which takes 32 units and 8 for each of them, and gives its
    /// number.
    pub fn make_closure(&mut self, function: u32, cells: &[u32]) -> Result<u32, StoreFault>
        ensures number { IfOk result (λ c. c ≡ length self.old.heap.closures) }
        ensures done { OnOk result (self.new ≡ record { heap = calls.with_closure self.old.heap function cells.now; steps = self.old.steps }) }
        ensures allowed { OnOk result (calls.full_cause self.old.heap (calls.closure_units cells.now) ≡ None) }
        ensures cause { IfErr result (calls.IsCause (calls.full_cause self.old.heap (calls.closure_units cells.now))) }
        ensures kept { OnErr result (self.new ≡ self.old) }
    {
        let room = UNIT_LIMIT - self.units;
        if room < CLOSURE_UNITS || (room - CLOSURE_UNITS) / CAPTURE_UNITS < cells.len() as u64 {
            return Err(StoreFault::Full);
        }
        let number = self.closures.len() as u32;
        self.closures
            .push(Closure::new(self.alloc, function, cells)?)?;
        self.units += CLOSURE_UNITS + CAPTURE_UNITS * cells.len() as u64;
        Ok(number)
    }

    /// The function of a closure and the cells that it captured; `None` where there is no such closure.
    pub fn closure(&self, c: u32) -> Option<(u32, &[u32])>
        ensures { MatchOption result (slice_get self.now.heap.closures c ≡ None)
            (λ parts. slice_get self.now.heap.closures c ≡ Some (record { function = parts.0; cells = parts.1.now })) }
    {
        match self.closures.get(c as usize) {
            None => None,
            Some(closure) => Some((closure.function(), closure.cells())),
        }
    }
}
