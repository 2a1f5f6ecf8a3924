//! The copy of a store.

ghost use Rattle.std.specs.Prelude.{◌≡◌, IfOk};

use super::Store;
use crate::Value;
use std::alloc::AllocError;

impl Store {
    /// An equal store, of which nothing shows in this one afterwards, nor of this one in it. The two share what was frozen
    /// first, so that only the rest is copied.
    pub fn copy_store(&self) -> Result<Store, AllocError>
        ensures { IfOk result (λ copy. copy ≡ self.now) }
    {
        Ok(Store {
            closures: self.closures.copy(self.alloc)?,
            cells: self.cells.copy(self.alloc)?,
            tables: self.tables.copy(self.alloc)?,
            alloc: self.alloc,
            nil: Value::Nil,
            globals: self.globals,
            metatables: self.metatables,
            units: self.units,
            steps: self.steps,
        })
    }
}
