//! The calls of a store on tables.

ghost use Rattle.std.specs.Prelude.{◌≡◌, ◌≢◌, ◌<◌, ◌≤◌, ◌*◌, true, false, None, Some, Err, length, OnOk, OnErr, IfOk, IfErr};
ghost use Rattle.lua_values.specs.Values.{is_nil};
ghost use Rattle.lua_values.specs.declared.values.Value.{Value as LuaValue};
ghost use Rattle.lua_values.specs.declared.values.Value.TheVariants.{Number, Text};
ghost use Rattle.lua_values.specs.Pairs.{link_key, value_at, next_pair};
ghost use Rattle.lua_values.specs.Border.{border_of};
ghost use Rattle.lua_values.specs.Shifts.{IsShift, shift_of};
ghost use Rattle.lua_values.specs.StoreCalls as calls;

use super::{Store, TABLE_UNITS, UNIT_LIMIT};
use crate::tables::Table;
use crate::{Shift, StoreFault, Value};
use resty_base::Whole;
use std::alloc::AllocError;

/// The units of a new entry in a table.
const ENTRY_UNITS: u64 = 32;

impl Store {
    /// Makes an empty table without a metatable, which takes 32 units, and gives its number.
    pub fn make_table(&mut self) -> Result<u32, StoreFault>
        ensures number { IfOk result (λ t. t ≡ length self.old.heap.tables) }
        ensures done { OnOk result (self.new ≡ record { heap = calls.with_table self.old.heap; steps = self.old.steps }) }
        ensures allowed { OnOk result (calls.full_cause self.old.heap 32 ≡ None) }
        ensures cause { IfErr result (calls.IsCause (calls.full_cause self.old.heap 32)) }
        ensures kept { OnErr result (self.new ≡ self.old) }
    {
        if self.units + TABLE_UNITS > UNIT_LIMIT {
            return Err(StoreFault::Full);
        }
        let number = self.tables.len() as u32;
        self.tables.push(Table::new(self.alloc))?;
        self.units += TABLE_UNITS;
        Ok(number)
    }

    /// The value at a key of a table, without its metatable; nil where none is.
    pub fn get(&self, t: u32, key: &Value) -> &Value
        ensures { result.now ≡ value_at (calls.pairs_of self.now.heap t) key.now }
    {
        match self.tables.get(t as usize) {
            None => &self.nil,
            Some(table) => match table.get(key) {
                None => &self.nil,
                Some(value) => value,
            },
        }
    }

    /// The value at a text as a key of a table, without its metatable; nil where none is.
    pub fn get_text(&self, t: u32, name: &[u8]) -> &Value
        ensures { result.now ≡ value_at (calls.pairs_of self.now.heap t) (Text name.now) }
    {
        match self.tables.get(t as usize) {
            None => &self.nil,
            Some(table) => match table.get_text(name) {
                None => &self.nil,
                Some(value) => value,
            },
        }
    }

    /// The value at `__index` as a key of a table, without its metatable; nil where none is.
    pub fn get_link(&self, t: u32) -> &Value
        ensures { result.now ≡ value_at (calls.pairs_of self.now.heap t) link_key }
    {
        match self.tables.get(t as usize) {
            None => &self.nil,
            Some(table) => match table.get_link() {
                None => &self.nil,
                Some(value) => value,
            },
        }
    }

    /// Sets a value that isn't nil at a key of a table where something is, if the table isn't frozen; else the value is given back, and nothing is changed.
    /// Takes no memory.
    #[tactic(auto, using(crate::proofs::FreezableLemmas::set_same_item))]
    pub fn renew(&mut self, t: u32, key: &Value, value: Value) -> Result<(), Value>
        ensures there { OnOk result (is_nil (value_at (calls.pairs_of self.old.heap t) key.now) ≡ false) }
        ensures allowed { OnOk result (calls.set_cause self.old.heap t key.now value ≡ None) }
        ensures done { OnOk result (self.new ≡ record { heap = calls.with_pair self.old.heap t key.now value; steps = self.old.steps }) }
        ensures given { IfErr result (λ given. given ≡ value) }
        ensures kept { OnErr result (self.new ≡ self.old) }
    {
        let index = t as usize;
        if key.is_nil() || index < self.tables.frozen() || index >= self.tables.len() {
            return Err(value);
        }
        match self.tables.item_mut(index).renew(key, value) {
            Ok(()) => Ok(()),
            Err(value) => Err(value),
        }
    }

    /// The same at a text as the key.
    #[tactic(auto, using(crate::proofs::FreezableLemmas::set_same_item))]
    pub fn renew_text(&mut self, t: u32, name: &[u8], value: Value) -> Result<(), Value>
        ensures there { OnOk result (is_nil (value_at (calls.pairs_of self.old.heap t) (Text name.now)) ≡ false) }
        ensures allowed { OnOk result (calls.set_cause self.old.heap t (Text name.now) value ≡ None) }
        ensures done { OnOk result (self.new ≡ record { heap = calls.with_pair self.old.heap t (Text name.now) value; steps = self.old.steps }) }
        ensures given { IfErr result (λ given. given ≡ value) }
        ensures kept { OnErr result (self.new ≡ self.old) }
    {
        let index = t as usize;
        if index < self.tables.frozen() || index >= self.tables.len() {
            return Err(value);
        }
        match self.tables.item_mut(index).renew_text(name, value) {
            Ok(()) => Ok(()),
            Err(value) => Err(value),
        }
    }

    /// Writes a number at one of the first keys 1, 2, .. of a table where something is, if the table isn't frozen, and takes no memory; says whether it did.
    #[tactic(auto, using(crate::proofs::FreezableLemmas::set_same_item))]
    pub fn renew_whole(&mut self, t: u32, n: Whole, number: Whole) -> bool
        ensures there { result ≡ true → is_nil (value_at (calls.pairs_of self.old.heap t) (Number n)) ≡ false }
        ensures allowed { result ≡ true → calls.set_cause self.old.heap t (Number n) (Number number) ≡ None }
        ensures done { result ≡ true
            → self.new ≡ record { heap = calls.with_pair self.old.heap t (Number n) (Number number); steps = self.old.steps } }
        ensures kept { result ≡ false → self.new ≡ self.old }
    {
        let index = t as usize;
        if index < self.tables.frozen() || index >= self.tables.len() {
            return false;
        }
        self.tables.item_mut(index).renew_whole(n, number)
    }

    /// Puts a value that isn't nil at the number after those of a table whose keys are 1, 2, .. in this order, if it has no metatable and that isn't
    /// refused; else the value is given back, and nothing is changed.
    #[tactic(auto, using(crate::proofs::FreezableLemmas::set_same_item))]
    pub fn extend(&mut self, t: u32, key: &Value, value: Value) -> Result<(), Value>
        ensures own { OnOk result ((calls.table_of self.old.heap t).meta ≡ None) }
        ensures allowed { OnOk result (calls.set_cause self.old.heap t key.now value ≡ None) }
        ensures done { OnOk result (self.new ≡ record { heap = calls.with_pair self.old.heap t key.now value; steps = self.old.steps }) }
        ensures given { IfErr result (λ given. given ≡ value) }
        ensures kept { OnErr result (self.new ≡ self.old) }
    {
        let index = t as usize;
        if key.is_nil() || index < self.tables.frozen() || index >= self.tables.len() {
            return Err(value);
        }
        if self.units + ENTRY_UNITS > UNIT_LIMIT || self.metatable(t).is_some() {
            return Err(value);
        }
        match self.tables.item_mut(index).extend(key, value) {
            Ok(()) => {
                self.units += ENTRY_UNITS;
                Ok(())
            }
            Err(value) => Err(value),
        }
    }

    /// Sets a value at a key of a table. A key that has an entry keeps it, and that takes no memory; nil at a key
    /// without one changes nothing; else the key's entry is the last, and takes 32 units.
    pub fn set(&mut self, t: u32, key: Value, value: Value) -> Result<(), StoreFault>
        ensures done { OnOk result (self.new ≡ record { heap = calls.with_pair self.old.heap t key value; steps = self.old.steps }) }
        ensures allowed { OnOk result (calls.set_cause self.old.heap t key value ≡ None) }
        ensures cause { IfErr result (calls.IsCause (calls.set_cause self.old.heap t key value)) }
        ensures kept { OnErr result (self.new ≡ self.old) }
        ensures without_memory { calls.takes_entry self.old.heap t key value ≡ false → result ≢ Err StoreFault.Memory }
    {
        self.may_set(t, &key)?;
        let index = t as usize;
        if self.takes_entry(t, &key, &value) {
            self.set_new_entry(index, key, value)
        } else {
            self.set_without_new_entry(index, key, value);
            Ok(())
        }
    }

    /// Refuses a key that is nil, and a table that is frozen.
    fn may_set(&self, t: u32, key: &Value) -> Result<(), StoreFault>
        ensures key { OnOk result (is_nil key.now ≡ false) }
        ensures unfrozen { OnOk result (self.now.heap.base.tables ≤ t) }
        ensures cause { IfErr result (λ fault. (value : LuaValue) → calls.set_cause self.now.heap t key.now value ≡ Some fault) }
    {
        if key.is_nil() {
            return Err(StoreFault::BadKey);
        }
        if (t as usize) < self.tables.frozen() {
            return Err(StoreFault::Frozen);
        }
        Ok(())
    }

    /// Whether a table is there in which a value at the key needs a new entry.
    fn takes_entry(&self, t: u32, key: &Value, value: &Value) -> bool
        ensures { result ≡ calls.takes_entry self.now.heap t key.now value.now }
    {
        match self.tables.get(t as usize) {
            None => false,
            Some(table) => table.needs_entry(key, value),
        }
    }

    /// Sets a value at a key that needs no new entry, if its table is there.
    fn set_without_new_entry(&mut self, index: usize, key: Value, value: Value)
        requires no_entry { calls.takes_entry self.old.heap index key value ≡ false }
        requires unfrozen { self.old.heap.base.tables ≤ index }
        ensures { self.new ≡ record { heap = calls.with_pair self.old.heap index key value; steps = self.old.steps } }
    {
        if index < self.tables.len() {
            match self.tables.item_mut(index).put(key, value) {
                Ok(()) => {}
                Err(_) => unreachable!(),
            }
        }
    }

    /// Sets a value at a key that needs a new entry in its table.
    #[tactic(auto, using(crate::proofs::FreezableLemmas::set_same_item))]
    fn set_new_entry(&mut self, index: usize, key: Value, value: Value) -> Result<(), StoreFault>
        requires new_entry { calls.takes_entry self.old.heap index key value ≡ true }
        requires unfrozen { self.old.heap.base.tables ≤ index }
        ensures done { OnOk result (self.new ≡ record { heap = calls.with_pair self.old.heap index key value; steps = self.old.steps }) }
        ensures allowed { OnOk result (calls.full_cause self.old.heap 32 ≡ None) }
        ensures cause { IfErr result (calls.IsCause (calls.full_cause self.old.heap 32)) }
        ensures kept { OnErr result (self.new ≡ self.old) }
    {
        if self.units + ENTRY_UNITS > UNIT_LIMIT {
            return Err(StoreFault::Full);
        }
        self.tables.item_mut(index).put(key, value)?;
        self.units += ENTRY_UNITS;
        Ok(())
    }

    /// Moves the values at the numbers `from` to `to` of a table, each one number up or down: what `set` of each, one after the
    /// other, would do, the greatest first where they go up, and the least first where they go down. A refusal leaves the store.
    pub fn shift(&mut self, t: u32, from: u64, to: u64, up: bool) -> Result<(), StoreFault>
        requires later { 1 ≤ from }
        requires few { to < 99_999_999_999_999 }
        ensures done { OnOk result (self.new ≡ record { heap = calls.with_shift self.old.heap t (shift_of from to up); steps = self.old.steps }) }
        ensures allowed { OnOk result (calls.shift_cause self.old.heap t (shift_of from to up) ≡ None) }
        ensures cause { IfErr result (calls.IsCause (calls.shift_cause self.old.heap t (shift_of from to up))) }
        ensures kept { OnErr result (self.new ≡ self.old) }
    {
        if to < from {
            return Ok(());
        }
        if (t as usize) < self.tables.frozen() {
            return Err(StoreFault::Frozen);
        }
        if (t as usize) >= self.tables.len() {
            return Ok(());
        }
        self.shift_values(t as usize, Shift { from, to, up })
    }

    /// The same of a table that is there and isn't frozen.
    #[tactic(auto, using(crate::proofs::FreezableLemmas::set_same_item))]
    fn shift_values(&mut self, index: usize, shift: Shift) -> Result<(), StoreFault>
        requires shift { IsShift shift }
        requires there { index < length self.old.heap.tables }
        requires unfrozen { self.old.heap.base.tables ≤ index }
        ensures done { OnOk result (self.new ≡ record { heap = calls.with_shift self.old.heap index shift; steps = self.old.steps }) }
        ensures allowed { OnOk result (calls.full_cause self.old.heap (32 * calls.shift_entries self.old.heap index shift) ≡ None) }
        ensures cause { IfErr result (calls.IsCause (calls.full_cause self.old.heap (32 * calls.shift_entries self.old.heap index shift))) }
        ensures kept { OnErr result (self.new ≡ self.old) }
    {
        let table = self.tables.item_mut(index);
        let entries = table.new_entries(shift) * ENTRY_UNITS;
        if entries > UNIT_LIMIT - self.units {
            return Err(StoreFault::Full);
        }
        table.shift(shift)?;
        self.units += entries;
        Ok(())
    }

    /// Copies of the key and the value that come next after a key of a table (Lua 5.1 Reference Manual, section 5.1, `next`), and
    /// of the first for nil.
    pub fn next(&self, t: u32, key: &Value) -> Result<Option<(Value, Value)>, AllocError>
        ensures { IfOk result (λ next. next ≡ next_pair (calls.pairs_of self.now.heap t) key.now) }
    {
        match self.tables.get(t as usize) {
            None => Ok(None),
            Some(table) => table.next(key),
        }
    }

    /// The least border of a table (section 2.5.5): the least n with nil at n + 1.
    pub fn border(&self, t: u32) -> u64
        ensures least { result ≡ border_of (calls.pairs_of self.now.heap t) }
        ensures few { result ≤ 32_768 }
    {
        match self.tables.get(t as usize) {
            None => 0,
            Some(table) => table.border(),
        }
    }

    /// The metatable of a table.
    pub fn metatable(&self, t: u32) -> Option<u32>
        ensures { result ≡ (calls.table_of self.now.heap t).meta }
    {
        match self.tables.get(t as usize) {
            None => None,
            Some(table) => table.metatable(),
        }
    }

    /// Gives a table this metatable, or none; takes no memory.
    pub fn set_metatable(&mut self, t: u32, meta: Option<u32>) -> Result<(), StoreFault>
        ensures done { OnOk result (self.new ≡ record { heap = calls.with_metatable self.old.heap t meta; steps = self.old.steps }) }
        ensures allowed { OnOk result (calls.frozen_cause self.old.heap.base.tables t ≡ None) }
        ensures cause { IfErr result (λ fault. calls.frozen_cause self.old.heap.base.tables t ≡ Some fault) }
        ensures kept { OnErr result (self.new ≡ self.old) }
    {
        if (t as usize) < self.tables.frozen() {
            return Err(StoreFault::Frozen);
        }
        let index = t as usize;
        if index >= self.tables.len() {
            return Ok(());
        }
        self.tables.item_mut(index).set_metatable(meta);
        Ok(())
    }
}
