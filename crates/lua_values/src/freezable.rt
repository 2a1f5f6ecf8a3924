//! A list whose first items may be frozen, and are shared with its copies.

ghost use Rattle.std.specs.Prelude.{◌≡◌, ◌++◌, ◌∷◌, [], ◌^◌, ◌<◌, ◌≤◌, Some, length, slice_get, option_copied, IfOk, OnOk, OnErr};
ghost use Rattle.std.specs.Borrow.{sem};
ghost use Rattle.lua_values.specs.Freezable.{all_frozen};

use std::alloc::{AllocError, Global};
use std::marker::Model;
use std::mem;
use std::rc::Rc;

/// A list whose first items may be frozen, so that nothing writes them any more. Those that were frozen first are shared
/// with the list's copies; the rest is its own.
#[derive(Drop)]
pub struct FreezableList<T> {
    base: Rc<Vec<T>>,
    own: Vec<T>,
    frozen: usize,
}

impl<T> Model for FreezableList<T> {
    ghost use Rattle.std.specs.Prelude.{◌++◌, ◌≤◌, length};
    ghost use Rattle.lua_values.specs.Freezable.{Freezable};
    ghost use Rattle.lua_values.specs.FreezableLaws.{freezable_code};

    ghost Value = { Freezable T };

    ghost coded = { freezable_code T.code };

    ghost view = { λ list. record { items = list.base.value.items ++ list.own.items; frozen = list.frozen } };

    ghost invariant = { λ list. length list.base.value.items ≤ list.frozen };
}

impl<T: Drop> FreezableList<T> {
    ghost use Rattle.lua_values.specs.FreezableLends.{lends_item};

    /// An empty list.
    pub fn new(alloc: Global) -> Result<FreezableList<T>, AllocError>
        ensures { IfOk result (λ list. list ≡ record { items = []; frozen = 0 }) }
    {
        Ok(FreezableList {
            base: Rc::new(alloc, Vec::new(alloc))?,
            own: Vec::new(alloc),
            frozen: 0,
        })
    }

    /// How many items there are.
    pub fn len(&self) -> usize
        requires { length self.now.items < 2 ^ 64 }
        ensures { result ≡ length self.now.items }
    {
        self.base.len() + self.own.len()
    }

    /// How many items are frozen, from the first on.
    pub fn frozen(&self) -> usize
        ensures { result ≡ self.now.frozen }
    {
        self.frozen
    }

    /// The item at an index.
    pub fn get(&self, index: usize) -> Option<&T>
        ensures { option_copied result ≡ slice_get self.now.items index }
    {
        let shared = self.base.len();
        if index < shared {
            self.base.get(index)
        } else {
            self.own.get(index - shared)
        }
    }

    /// The item at an index that isn't frozen, to write to.
    pub fn item_mut(&mut self, index: usize) -> &mut T
        requires there { index < length self.old.items }
        requires unfrozen { self.old.frozen ≤ index }
        ensures* writes_back { sem 𝓛 (lends_item T.row self.entry index result) }
        ensures item { slice_get self.old.items index ≡ Some result.now }
    {
        let shared = self.base.len();
        &mut self.own[index - shared]
    }

    /// Puts an item last.
    pub fn push(&mut self, item: T) -> Result<(), AllocError>
        ensures done { OnOk result (self.new ≡ record self.old { items = self.old.items ++ item ∷ [] }) }
        ensures kept { OnErr result (self.new ≡ self.old) }
    {
        self.own.push(item)?;
        Ok(())
    }

    /// Freezes all items; takes no memory.
    pub fn freeze(&mut self)
        requires { length self.old.items < 2 ^ 64 }
        ensures { self.new ≡ all_frozen self.old }
    {
        self.frozen = self.base.len() + self.own.len();
        share(&mut self.base, &mut self.own);
    }

    /// The same list again, which shares what was frozen first.
    pub fn copy(&self, alloc: Global) -> Result<FreezableList<T>, AllocError>
    where
        T: Clone,
        ensures { ((item copy : T) → T.is_clone item copy → copy ≡ item) → IfOk result (λ copy. copy ≡ self.now) }
    {
        Ok(FreezableList {
            base: base_of_copy(alloc, &self.base)?,
            own: self.own.clone()?,
            frozen: self.frozen,
        })
    }
}

/// The base of a copy: the same one. An empty one isn't shared, so that each list can still move its items into its own.
fn base_of_copy<T: Drop>(alloc: Global, base: &Rc<Vec<T>>) -> Result<Rc<Vec<T>>, AllocError>
    ensures { IfOk result (λ copy. copy.value.items ≡ base.now.value.items) }
{
    if base.is_empty() {
        Ok(Rc::new(alloc, Vec::new(alloc))?)
    } else {
        base.clone()
    }
}

/// Moves all items into a base that is empty and has no other owner.
fn share<T>(base: &mut Rc<Vec<T>>, own: &mut Vec<T>)
    ensures { base.new.value.items ++ own.new.items ≡ base.old.value.items ++ own.old.items }
{
    if let Some(base) = Rc::get_mut(base) {
        if base.is_empty() {
            mem::swap(base, own);
        }
    }
}
