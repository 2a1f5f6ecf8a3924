//! Emptied lists, kept to be used again.

ghost use Rattle.std.specs.Prelude.{◌≡◌, []};

use crate::{Frame, Item};
use lua_meaning::Slot;
use lua_values::Value;
use std::alloc::Global;

/// How many lists of a type are kept at most.
const MOST: usize = 64;

/// Emptied lists of one type.
#[derive(Drop)]
pub struct Kept<T: Drop> {
    alloc: Global,
    lists: Vec<Vec<T>>,
}

impl<T: Drop> Kept<T> {
    /// None yet; takes no memory.
    pub fn new(alloc: Global) -> Kept<T> {
        Kept {
            alloc,
            lists: Vec::new(alloc),
        }
    }

    /// An empty list, one that was kept if there is one; takes no memory.
    pub fn fresh(&mut self) -> Vec<T>
        ensures { result.items ≡ [] }
    {
        match self.lists.pop() {
            None => Vec::new(self.alloc),
            Some(list) => {
                let mut list = list;
                list.clear();
                list
            }
        }
    }

    /// Keeps a list for later, without what is in it, where there is room.
    pub fn spare(&mut self, list: Vec<T>) {
        let mut list = list;
        list.clear();
        if self.lists.len() < MOST {
            let _ = self.lists.push(list);
        }
    }
}

/// The emptied lists of a thread.
#[derive(Drop)]
pub struct Lists {
    pub values: Kept<Value>,
    pub slots: Kept<Slot>,
    pub items: Kept<Item>,
    pub cells: Kept<u32>,
}

impl Lists {
    /// None yet; takes no memory.
    pub fn new(alloc: Global) -> Lists {
        Lists {
            values: Kept::new(alloc),
            slots: Kept::new(alloc),
            items: Kept::new(alloc),
            cells: Kept::new(alloc),
        }
    }

    /// An empty list of items, one that was kept if there is one; takes no memory.
    pub fn no_items(&mut self) -> Vec<Item>
        ensures { result.items ≡ [] }
    {
        self.items.fresh()
    }

    /// Keeps the lists of a frame that isn't needed any more.
    pub fn spare(&mut self, frame: Frame) {
        let Frame {
            cells,
            extras,
            slots,
            items,
            ..
        } = frame;
        self.cells.spare(cells);
        self.values.spare(extras);
        self.slots.spare(slots);
        self.items.spare(items);
    }
}
