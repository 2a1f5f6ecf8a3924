//! A table: its pairs in order, its border and its metatable.

ghost use Rattle.std.specs.Prelude.{◌≡◌, ◌+◌, ◌≤◌, ◌<◌, [], None, Some, true, false, length, drop, position, is_some, IfSome, IfOk, IfErr, OnOk, OnErr, IsOk};
ghost use Rattle.std.specs.Map.{keys_of};
ghost use Rattle.lua_values.specs.declared.values.Value.{Value as LuaValue};
ghost use Rattle.lua_values.specs.declared.values.Value.TheVariants.{Number, Text};
ghost use Rattle.lua_values.specs.Pairs.{link_key, value_at, has_entry, needs_entry, with_value, first_live, next_pair};
ghost use Rattle.lua_values.specs.Values.{same, is_nil, number};
ghost use Rattle.lua_values.specs.Border.{border_of};
ghost use Rattle.lua_values.specs.Shifts.{IsShift, HasSources, moves, place, moved, shifted, entries_first, new_entries};

use crate::flags::Flags;
use crate::outlines::{Outline, append_flagged, flagged, walk_border, walk_from};
use crate::pairs::{Pairs, hole_of};
use crate::{Shift, Value};
use resty_base::Whole;
use std::alloc::{AllocError, Global};
use std::marker::Model;

/// A table: its pairs in the order in which the keys were set first, those of value nil included, and its metatable.
/// Beside the pairs of a table that isn't full stand the flags of those whose value isn't nil, and of the numbers, up to that of
/// pairs, at which nothing is. There are at most 32,768 entries, more than the units of a store allow; one more gives `AllocError`.
#[derive(Drop)]
pub struct Table {
    pairs: Pairs,
    live: Flags,
    holes: Flags,
    outline: Outline,
    meta: Option<u32>,
}

impl Model for Table {
    ghost use Rattle.lua_values.specs.Heap.{TableView};
    ghost use Rattle.lua_values.specs.TableFlags.{IsOutline};

    ghost Value = { TableView };

    ghost view = { λ table. record { pairs = table.pairs; meta = table.meta } };

    ghost invariant = { λ table. IsOutline table.outline table.pairs table.live table.holes };
}

impl Table {
    /// An empty table without a metatable; takes no memory.
    pub fn new(alloc: Global) -> Table
        ensures { result ≡ record { pairs = []; meta = None } }
    {
        Table {
            pairs: Pairs::new(alloc),
            live: Flags::new(alloc),
            holes: Flags::new(alloc),
            outline: Outline::Full,
            meta: None,
        }
    }

    /// The value at a key that has an entry.
    pub fn get(&self, key: &Value) -> Option<&Value>
        ensures entry { is_some result ≡ has_entry self.now.pairs key.now }
        ensures value { IfSome result (λ value. value.now ≡ value_at self.now.pairs key.now) }
    {
        self.value_found(self.pairs.index_of(key))
    }

    /// The value at a text that has an entry.
    pub fn get_text(&self, name: &[u8]) -> Option<&Value>
        ensures entry { is_some result ≡ has_entry self.now.pairs (Text name.now) }
        ensures value { IfSome result (λ value. value.now ≡ value_at self.now.pairs (Text name.now)) }
    {
        self.value_found(self.pairs.index_of_text(name))
    }

    /// The value at `__index` as a key, if that has an entry.
    pub fn get_link(&self) -> Option<&Value>
        ensures entry { is_some result ≡ has_entry self.now.pairs link_key }
        ensures value { IfSome result (λ value. value.now ≡ value_at self.now.pairs link_key) }
    {
        self.value_found(self.pairs.index_of_link())
    }

    /// The value at a key by its index.
    #[inline(always)]
    fn value_found(&self, index: Option<usize>) -> Option<&Value>
        requires { IfSome index (λ index. index < length self.now.pairs) }
        ensures entry { (key : LuaValue) → index ≡ position (same key) (keys_of self.now.pairs) → is_some result ≡ has_entry self.now.pairs key }
        ensures value { (key : LuaValue) → index ≡ position (same key) (keys_of self.now.pairs)
            → IfSome result (λ value. value.now ≡ value_at self.now.pairs key) }
    {
        match index {
            Some(index) => Some(self.pairs.value(index)),
            None => None,
        }
    }

    /// Sets a value that isn't nil at a key where something is, and takes no memory; else it is given back, and nothing is changed.
    pub fn renew(&mut self, key: &Value, value: Value) -> Result<(), Value>
        ensures there { OnOk result (is_nil (value_at self.old.pairs key.now) ≡ false) }
        ensures live { OnOk result (is_nil value ≡ false) }
        ensures done { OnOk result (self.new ≡ record { pairs = with_value self.old.pairs key.now value; meta = self.old.meta }) }
        ensures given { IfErr result (λ given. given ≡ value) }
        ensures kept { OnErr result (self.new ≡ self.old) }
    {
        let index = self.pairs.index_of(key);
        self.renew_found(index, value)
    }

    /// The same at a text.
    pub fn renew_text(&mut self, name: &[u8], value: Value) -> Result<(), Value>
        ensures there { OnOk result (is_nil (value_at self.old.pairs (Text name.now)) ≡ false) }
        ensures live { OnOk result (is_nil value ≡ false) }
        ensures done { OnOk result (self.new ≡ record { pairs = with_value self.old.pairs (Text name.now) value; meta = self.old.meta }) }
        ensures given { IfErr result (λ given. given ≡ value) }
        ensures kept { OnErr result (self.new ≡ self.old) }
    {
        let index = self.pairs.index_of_text(name);
        self.renew_found(index, value)
    }

    /// The same at a key by its index.
    #[inline(always)]
    fn renew_found(&mut self, index: Option<usize>, value: Value) -> Result<(), Value>
        requires { IfSome index (λ index. index < length self.old.pairs) }
        ensures there { (key : LuaValue) → index ≡ position (same key) (keys_of self.old.pairs) → OnOk result (is_nil (value_at self.old.pairs key) ≡ false) }
        ensures live { OnOk result (is_nil value ≡ false) }
        ensures done { (key : LuaValue) → index ≡ position (same key) (keys_of self.old.pairs)
            → OnOk result (self.new ≡ record { pairs = with_value self.old.pairs key value; meta = self.old.meta }) }
        ensures given { IfErr result (λ given. given ≡ value) }
        ensures kept { OnErr result (self.new ≡ self.old) }
    {
        match index {
            Some(index) => {
                if value.is_nil() || self.pairs.value(index).is_nil() {
                    return Err(value);
                }
                let _ = self.pairs.replace(index, value);
                Ok(())
            }
            None => Err(value),
        }
    }

    /// Writes a number at a number where something is, and takes no memory; says whether it did. It does so where that number is among the first keys 1, 2, ..
    pub fn renew_whole(&mut self, n: Whole, number: Whole) -> bool
        ensures there { result ≡ true → is_nil (value_at self.old.pairs (Number n)) ≡ false }
        ensures done { result ≡ true → self.new ≡ record { pairs = with_value self.old.pairs (Number n) (Number number); meta = self.old.meta } }
        ensures kept { result ≡ false → self.new ≡ self.old }
    {
        self.pairs.renew_whole(n, number)
    }

    /// Puts a value that isn't nil at the number after the last, where the keys are 1, 2, .. in this order; else it is given back, and nothing is
    /// changed.
    pub fn extend(&mut self, key: &Value, value: Value) -> Result<(), Value>
        ensures absent { OnOk result (has_entry self.old.pairs key.now ≡ false) }
        ensures live { OnOk result (is_nil value ≡ false) }
        ensures done { OnOk result (self.new ≡ record { pairs = with_value self.old.pairs key.now value; meta = self.old.meta }) }
        ensures given { IfErr result (λ given. given ≡ value) }
        ensures kept { OnErr result (self.new ≡ self.old) }
    {
        match self.outline {
            Outline::Full => {
                if value.is_nil() {
                    return Err(value);
                }
                self.pairs.push_next(key, value)
            }
            _ => Err(value),
        }
    }

    /// Whether a value at the key needs a new entry.
    pub fn needs_entry(&self, key: &Value, value: &Value) -> bool
        ensures { result ≡ needs_entry self.now.pairs key.now value.now }
    {
        !(value.is_nil() || self.has_entry(key))
    }

    /// Whether a key has an entry.
    fn has_entry(&self, key: &Value) -> bool
        ensures { result ≡ has_entry self.now.pairs key.now }
    {
        self.get(key).is_some()
    }

    /// Sets a value at a key; takes no memory where that needs no new entry.
    pub fn put(&mut self, key: Value, value: Value) -> Result<(), AllocError>
        ensures done { OnOk result (self.new ≡ record { pairs = with_value self.old.pairs key value; meta = self.old.meta }) }
        ensures kept { OnErr result (self.new ≡ self.old) }
        ensures without_memory { needs_entry self.old.pairs key value ≡ false → IsOk result }
    {
        match self.pairs.index_of(&key) {
            Some(index) => {
                self.replace(index, &key, value);
                Ok(())
            }
            None => {
                if value.is_nil() {
                    Ok(())
                } else {
                    self.append(key, value)
                }
            }
        }
    }

    /// Sets the value at a key whose index is given, and gives the one that was there; takes no memory.
    fn replace(&mut self, index: usize, key: &Value, value: Value) -> Value
        requires { position (same key.now) (keys_of self.old.pairs) ≡ Some index }
        ensures done { self.new ≡ record { pairs = with_value self.old.pairs key.now value; meta = self.old.meta } }
        ensures before { result ≡ value_at self.old.pairs key.now }
    {
        let hole = hole_of(key, self.pairs.len());
        let nil = value.is_nil();
        let before = self.pairs.replace(index, value);
        match self.outline {
            Outline::Flagged => {
                self.live.set(index, !nil);
                self.holes.set_at(hole, nil);
            }
            Outline::Full => {
                if nil {
                    self.outline = flagged(&mut self.live, &mut self.holes, &self.pairs);
                }
            }
            Outline::Walked => {}
        }
        before
    }

    /// Puts a new key last, with a value that isn't nil.
    fn append(&mut self, key: Value, value: Value) -> Result<(), AllocError>
        requires absent { has_entry self.old.pairs key ≡ false }
        requires live { is_nil value ≡ false }
        ensures done { OnOk result (self.new ≡ record { pairs = with_value self.old.pairs key value; meta = self.old.meta }) }
        ensures kept { OnErr result (self.new ≡ self.old) }
    {
        match self.outline {
            Outline::Full => {
                self.pairs.push(key, value)?;
                if self.pairs.in_order() < self.pairs.len() {
                    self.outline = flagged(&mut self.live, &mut self.holes, &self.pairs);
                }
                Ok(())
            }
            Outline::Flagged => {
                append_flagged(&mut self.pairs, &mut self.live, &mut self.holes, key, value)
            }
            Outline::Walked => self.pairs.push(key, value),
        }
    }

    /// The value at a key, nil where it has no entry.
    fn taken(&self, key: &Value) -> Result<Value, AllocError>
        ensures { IfOk result (λ value. value ≡ value_at self.now.pairs key.now) }
    {
        match self.get(key) {
            Some(value) => value.clone(),
            None => Ok(Value::Nil),
        }
    }

    /// How many new entries a shift takes.
    pub fn new_entries(&self, shift: Shift) -> u64
        requires { IsShift shift }
        ensures entries { result ≡ new_entries self.now.pairs shift }
        ensures few { result ≤ moves shift }
    {
        let mut count = 0;
        for i in 0..self.may_need_entry(shift) {
            if self.needs_entry_at(shift, i) {
                count += 1;
            }
        }
        count
    }

    /// How many of the numbers of a shift, from the first on, may need a new entry; the others have theirs.
    fn may_need_entry(&self, shift: Shift) -> u64
        requires { IsShift shift }
        ensures entries { entries_first self.now.pairs shift result ≡ new_entries self.now.pairs shift }
        ensures few { result ≤ moves shift }
    {
        if self.has_sources(shift) {
            1
        } else {
            shift.moves()
        }
    }

    /// Whether the values that move are known to stand in entries whose indices need no look-up.
    fn has_sources(&self, shift: Shift) -> bool
        requires { IsShift shift }
        ensures { result ≡ true → HasSources self.now.pairs shift }
    {
        shift.to <= self.pairs.in_order() as u64
    }

    /// Whether the i-th number of a shift needs a new entry for the value that it gets.
    fn needs_entry_at(&self, shift: Shift, i: u64) -> bool
        requires shift { IsShift shift }
        requires within { i < moves shift }
        ensures { result ≡ needs_entry self.now.pairs (number (place shift i)) (moved self.now.pairs shift i) }
    {
        match self.get(&shift.key(i + 1)) {
            Some(value) => self.needs_entry(&shift.key(i), value),
            None => false,
        }
    }

    /// Moves the values of a shift.
    pub fn shift(&mut self, shift: Shift) -> Result<(), AllocError>
        requires { IsShift shift }
        ensures done { OnOk result (self.new ≡ record { pairs = shifted self.old.pairs shift; meta = self.old.meta }) }
        ensures kept { OnErr result (self.new ≡ self.old) }
    {
        if self.has_sources(shift) {
            self.shift_in_place(shift)
        } else {
            *self = self.shifted(shift)?;
            Ok(())
        }
    }

    /// The same where all values that move stand in entries. What may need memory comes first: the value at the last number
    /// stays there and needs a copy, and the first number that is written may need an entry. Then each of the others goes
    /// into the entry from which the one before it was taken.
    fn shift_in_place(&mut self, shift: Shift) -> Result<(), AllocError>
        requires shift { IsShift shift }
        requires sources { HasSources self.old.pairs shift }
        ensures done { OnOk result (self.new ≡ record { pairs = shifted self.old.pairs shift; meta = self.old.meta }) }
        ensures kept { OnErr result (self.new ≡ self.old) }
    {
        let moves = shift.moves();
        let mut carried = self.moved(shift, moves - 1)?;
        self.put_first(shift)?;
        for written in 1..moves {
            carried = self.exchange(shift, moves - written, carried);
        }
        Ok(())
    }

    /// The value that the i-th number of a shift gets.
    fn moved(&self, shift: Shift, i: u64) -> Result<Value, AllocError>
        requires shift { IsShift shift }
        requires within { i < moves shift }
        ensures { IfOk result (λ value. value ≡ moved self.now.pairs shift i) }
    {
        self.taken(&shift.key(i + 1))
    }

    /// Sets the first number of a shift to the value that it gets.
    fn put_first(&mut self, shift: Shift) -> Result<(), AllocError>
        requires { IsShift shift }
        ensures done { OnOk result (self.new ≡ record {
          pairs = with_value self.old.pairs (number (place shift 0)) (moved self.old.pairs shift 0);
          meta = self.old.meta;
        }) }
        ensures kept { OnErr result (self.new ≡ self.old) }
    {
        let first = self.moved(shift, 0)?;
        self.put(shift.key(0), first)
    }

    /// Sets the value at the i-th number of a shift, which has an entry, and gives the one that was there; takes no memory.
    fn exchange(&mut self, shift: Shift, i: u64, value: Value) -> Value
        requires shift { IsShift shift }
        requires within { i ≤ moves shift }
        requires there { has_entry self.old.pairs (number (place shift i)) ≡ true }
        ensures done { self.new ≡ record { pairs = with_value self.old.pairs (number (place shift i)) value; meta = self.old.meta } }
        ensures before { result ≡ value_at self.old.pairs (number (place shift i)) }
    {
        let key = shift.key(i);
        match self.pairs.index_of(&key) {
            Some(index) => self.replace(index, &key, value),
            None => unreachable!(),
        }
    }

    /// The table once the values of a shift have moved.
    fn shifted(&self, shift: Shift) -> Result<Table, AllocError>
        requires { IsShift shift }
        ensures { IfOk result (λ table. table ≡ record { pairs = shifted self.now.pairs shift; meta = self.now.meta }) }
    {
        let mut table = self.clone()?;
        for i in 0..shift.moves() {
            table.put_moved(self, shift, i)?;
        }
        Ok(table)
    }

    /// Sets the i-th number of a shift to the value that it gets, which stands in another table.
    fn put_moved(&mut self, from: &Table, shift: Shift, i: u64) -> Result<(), AllocError>
        requires shift { IsShift shift }
        requires within { i < moves shift }
        ensures { OnOk result (self.new ≡ record {
          pairs = with_value self.old.pairs (number (place shift i)) (moved from.now.pairs shift i);
          meta = self.old.meta;
        }) }
    {
        let value = from.moved(shift, i)?;
        self.put(shift.key(i), value)
    }

    /// Copies of the key and the value that come next after a key, and for nil of the first.
    pub fn next(&self, key: &Value) -> Result<Option<(Value, Value)>, AllocError>
        ensures { IfOk result (λ next. next ≡ next_pair self.now.pairs key.now) }
    {
        if key.is_nil() {
            return self.live_from(0);
        }
        match self.pairs.index_of(key) {
            Some(index) => {
                let within = index < self.pairs.len();
                prove!(within);
                self.live_from(index + 1)
            }
            None => Ok(None),
        }
    }

    /// Copies of the first key from an index on whose value isn't nil, and of this value.
    fn live_from(&self, from: usize) -> Result<Option<(Value, Value)>, AllocError>
        ensures { IfOk result (λ next. next ≡ first_live (drop from self.now.pairs)) }
    {
        match self.outline {
            Outline::Full => self.pairs.pair(from),
            Outline::Flagged => match self.live.first_from(from) {
                Some(index) => self.pairs.pair(index),
                None => Ok(None),
            },
            Outline::Walked => walk_from(&self.pairs, from),
        }
    }

    /// The least n with nothing at n + 1.
    pub fn border(&self) -> u64
        ensures least { result ≡ border_of self.now.pairs }
        ensures few { result ≤ 32_768 }
    {
        let entries = self.pairs.len();
        let border = match self.outline {
            Outline::Full => entries,
            Outline::Flagged => self.holes.first_from(0).unwrap_or(entries),
            Outline::Walked => walk_border(&self.pairs),
        };
        border as u64
    }

    /// The metatable.
    pub fn metatable(&self) -> Option<u32>
        ensures { result ≡ self.now.meta }
    {
        self.meta
    }

    /// Gives it this metatable, or none.
    pub fn set_metatable(&mut self, meta: Option<u32>)
        ensures { self.new ≡ record self.old { meta = meta } }
    {
        self.meta = meta;
    }
}

/// A clone is the same table.
impl Clone for Table {
    ghost is_clone = { λ table copy. copy ≡ table };

    fn clone(&self) -> Result<Table, AllocError> {
        Ok(Table {
            live: self.live.clone()?,
            holes: self.holes.clone()?,
            pairs: self.pairs.clone()?,
            outline: self.outline,
            meta: self.meta,
        })
    }
}
