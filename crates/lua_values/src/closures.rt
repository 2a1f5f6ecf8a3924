//! A closure, with the cells that it captured.

ghost use Rattle.std.specs.Prelude.{◌≡◌, IfOk};

use std::alloc::{AllocError, Global};
use std::marker::Model;

/// A closure: the number of its function, and the numbers of the cells that it captured.
#[derive(Drop)]
pub struct Closure {
    function: u32,
    cells: Vec<u32>,
}

impl Model for Closure {
    ghost use Rattle.lua_values.specs.Heap.{ClosureView};

    ghost Value = { ClosureView };

    ghost view = { λ closure. record { function = closure.function; cells = closure.cells.items } };
}

impl Closure {
    /// The closure of a function over these cells.
    pub fn new(alloc: Global, function: u32, cells: &[u32]) -> Result<Closure, AllocError>
        ensures { IfOk result (λ closure. closure ≡ record { function = function; cells = cells.now }) }
    {
        Ok(Closure {
            function,
            cells: cells.to_vec(alloc)?,
        })
    }

    /// The function's number.
    pub fn function(&self) -> u32
        ensures { result ≡ self.now.function }
    {
        self.function
    }

    /// The cells' numbers.
    pub fn cells(&self) -> &[u32]
        ensures { result.now ≡ self.now.cells }
    {
        self.cells.as_slice()
    }
}

/// A clone is the same closure.
impl Clone for Closure {
    ghost is_clone = { λ closure copy. copy ≡ closure };

    fn clone(&self) -> Result<Closure, AllocError> {
        Ok(Closure {
            function: self.function,
            cells: self.cells.clone()?,
        })
    }
}
