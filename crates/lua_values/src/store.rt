//! The store: its tables, cells and closures, and its counts of steps and units.

ghost use Rattle.std.specs.Prelude.{◌≡◌, ◌+◌, ◌≤◌, nat_lt, min, OnOk, OnErr, IfOk, IfErr};
ghost use Rattle.lua_values.specs.Heap.{step_limit, unit_limit};
ghost use Rattle.lua_values.specs.StoreCalls as calls;

mod captures;
mod copies;
mod table_calls;

use crate::closures::Closure;
use crate::freezable::FreezableList;
use crate::tables::Table;
use crate::{StoreFault, TypeKind, TypeMetatables, Value};
use std::alloc::{AllocError, Global};
use std::marker::Model;

/// The most steps of a run.
pub const STEP_LIMIT: u64 = 1_000_000;

/// How many bytes of text one step pays for.
pub const BYTES_OF_A_STEP: u64 = 64;

/// The units of a text beside its bytes.
pub const TEXT_UNITS: u64 = 16;

/// The most units of a store.
const UNIT_LIMIT: u64 = 1_048_576;

/// The units of a table.
const TABLE_UNITS: u64 = 32;

/// The tables, cells and closures of a run, numbered from 0 and never taken away, with its counts of steps and units.
/// A number that isn't there reads as an empty table, as nil or as nothing, and a write to it changes nothing. The
/// units of texts and threads are counted by whoever makes them, by `add_units`. What was frozen first is shared with the
/// store's copies.
#[derive(Drop)]
pub struct Store {
    alloc: Global,
    nil: Value,
    tables: FreezableList<Table>,
    cells: FreezableList<Value>,
    closures: FreezableList<Closure>,
    globals: u32,
    metatables: TypeMetatables,
    units: u64,
    steps: u64,
}

impl Model for Store {
    ghost use Rattle.std.specs.Prelude.{◌≡◌, ◌≤◌, ◌*◌, length};
    ghost use Rattle.lua_values.specs.declared.values.Value.TheVariants.{Nil};
    ghost use Rattle.lua_values.specs.Heap.{StoreView};
    ghost use Rattle.lua_values.specs.Within.{IsWithin};

    ghost Value = { StoreView };

    ghost view = { λ s. record {
      heap = record {
        tables = s.tables.items;
        cells = s.cells.items;
        closures = s.closures.items;
        base = record { tables = s.tables.frozen; cells = s.cells.frozen; closures = s.closures.frozen };
        globals = s.globals;
        metatables = s.metatables;
        units = s.units;
      };
      steps = s.steps;
    } };

    ghost invariant = { λ s. (s.nil ≡ Nil) × IsWithin (length s.tables.items) (length s.cells.items) (length s.closures.items) s.units s.steps };
}

impl Store {
    /// A store with one empty table, which is the global table.
    pub fn new(alloc: Global) -> Result<Store, AllocError>
        ensures { IfOk result (λ store. store ≡ calls.new_store) }
    {
        Ok(Store {
            closures: FreezableList::new(alloc)?,
            cells: FreezableList::new(alloc)?,
            tables: one_table(alloc)?,
            alloc,
            nil: Value::Nil,
            globals: 0,
            metatables: TypeMetatables::none(),
            units: TABLE_UNITS,
            steps: 0,
        })
    }

    /// The number of the global table.
    pub fn globals(&self) -> u32
        ensures { result ≡ self.now.heap.globals }
    {
        self.globals
    }

    /// Makes a table the global table.
    pub fn set_globals(&mut self, t: u32)
        ensures { self.new ≡ record { heap = record self.old.heap { globals = t }; steps = self.old.steps } }
    {
        self.globals = t;
    }

    /// The metatable of a type whose values share one.
    pub fn type_metatable(&self, kind: TypeKind) -> Option<u32>
        ensures { result ≡ calls.type_metatable_of self.now.heap.metatables kind }
    {
        self.metatables.get(kind)
    }

    /// Gives a type this metatable, or none.
    pub fn set_type_metatable(&mut self, kind: TypeKind, meta: Option<u32>)
        ensures { self.new ≡ record {
          heap = record self.old.heap { metatables = calls.with_type_metatable self.old.heap.metatables kind meta };
          steps = self.old.steps;
        } }
    {
        self.metatables.set(kind, meta);
    }

    /// The steps that were counted.
    pub fn steps(&self) -> u64
        ensures steps { result ≡ self.now.steps }
        ensures within { result ≤ step_limit }
    {
        self.steps
    }

    /// Counts n steps more, to at most 1,000,000.
    pub fn add_steps(&mut self, n: u64)
        ensures { self.new ≡ record { heap = self.old.heap; steps = min step_limit (self.old.steps + n) } }
    {
        if n < STEP_LIMIT - self.steps {
            self.steps += n;
        } else {
            self.steps = STEP_LIMIT;
        }
    }

    /// Counts n steps more, to at most 1,000,000, and says whether they stay below that.
    pub fn count(&mut self, n: u64) -> bool
        ensures counted { self.new ≡ record { heap = self.old.heap; steps = min step_limit (self.old.steps + n) } }
        ensures below { result ≡ nat_lt (self.old.steps + n) step_limit }
    {
        let left = STEP_LIMIT - self.steps;
        if n < left {
            self.steps += n;
            true
        } else {
            self.steps = STEP_LIMIT;
            false
        }
    }

    /// Sets the steps to 0.
    pub fn clear_steps(&mut self)
        ensures { self.new ≡ record { heap = self.old.heap; steps = 0 } }
    {
        self.steps = 0;
    }

    /// The units that were counted.
    pub fn units(&self) -> u64
        ensures units { result ≡ self.now.heap.units }
        ensures within { result ≤ unit_limit }
    {
        self.units
    }

    /// Counts n units more.
    pub fn add_units(&mut self, n: u64) -> Result<(), StoreFault>
        ensures done { OnOk result (self.new ≡ record { heap = record self.old.heap { units = self.old.heap.units + n }; steps = self.old.steps }) }
        ensures allowed { OnOk result (calls.full_cause self.old.heap n ≡ None) }
        ensures cause { IfErr result (λ fault. calls.full_cause self.old.heap n ≡ Some fault) }
        ensures kept { OnErr result (self.new ≡ self.old) }
    {
        if n > UNIT_LIMIT - self.units {
            return Err(StoreFault::Full);
        }
        self.units += n;
        Ok(())
    }

    /// Freezes all tables, cells and closures that are there; takes no memory.
    pub fn freeze(&mut self)
        ensures { self.new ≡ record { heap = calls.frozen self.old.heap; steps = self.old.steps } }
    {
        self.tables.freeze();
        self.cells.freeze();
        self.closures.freeze();
    }
}

/// A list of one table, which is empty.
fn one_table(alloc: Global) -> Result<FreezableList<Table>, AllocError>
    ensures { IfOk result (λ tables. tables ≡ record { items = calls.new_store.heap.tables; frozen = 0 }) }
{
    let mut tables = FreezableList::new(alloc)?;
    tables.push(Table::new(alloc))?;
    Ok(tables)
}
