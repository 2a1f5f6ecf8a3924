//! The pairs of a table, in the order in which their keys were set first.

ghost use Rattle.std.specs.Prelude.{◌≡◌, ◌<◌, ◌≤◌, ◌+◌, ◌++◌, ◌∷◌, if◌then◌else◌, [], Some, true, false, not};
ghost use Rattle.std.specs.Prelude.{length, position, slice_get, IfSome, IfOk, IfErr, OnOk, OnErr};
ghost use Rattle.std.specs.Map.{keys_of, values_of};
ghost use Rattle.indexmap.specs.IndexMap.{set_value_at};
ghost use Rattle.lua_values.specs.declared.values.Value.TheVariants.{Number, Text};
ghost use Rattle.lua_values.specs.Pairs.{value_at, has_entry, with_value, link_key};
ghost use Rattle.lua_values.specs.Numbered.{IsRenewed, passes_at};
ghost use Rattle.lua_values.specs.TableFlags.{IsHoleOf, IsInOrder};
ghost use Rattle.lua_values.specs.Values.{same, is_nil, number};

use crate::Value;
use indexmap::{Equivalent, IndexMap};
use resty_base::Whole;
use std::alloc::{AllocError, Global};
use std::hash::{Hash, Hasher};
use std::marker::Model;
use std::mem;

/// How many pairs there may be.
const MOST: usize = 32_768;

/// The key of a metatable at which a table is, or a function, that is asked for what another table lacks.
const LINK: &[u8] = b"__index";

/// How many pairs are looked through for a key; among more it is found by its hash.
const FEW: usize = 8;

/// Pairs in the order in which their keys were set first, up to 32,768. Where the first keys are 1, 2, .. in this order their values stand in a list,
/// in which the index of such a number is known without a look at the keys; the other pairs stand in a map. Beside it stands where the key `__index` is
/// in it, which is asked for most.
#[derive(Drop)]
pub struct Pairs {
    numbered: Vec<Value>,
    others: IndexMap<Value, Value>,
    link: Option<usize>,
}

impl Model for Pairs {
    ghost use Rattle.std.specs.Prelude.{List, ◌≡◌, ◌+◌, ◌≤◌, ◌++◌, length};
    ghost use Rattle.lua_values.specs.declared.values.Value.{Value as LuaValue};
    ghost use Rattle.lua_values.specs.Numbered.{numbered_from};
    ghost use Rattle.lua_values.specs.Pairs.{link_of};

    ghost Value = { List (LuaValue × LuaValue) };

    ghost view = { λ pairs. numbered_from 1 pairs.numbered.items ++ pairs.others.entries };

    ghost invariant = { λ pairs. (length pairs.numbered.items + length pairs.others.entries ≤ 32_768) × (pairs.link ≡ link_of pairs.others.entries) };
}

impl Pairs {
    /// No pairs; takes no memory.
    pub fn new(alloc: Global) -> Pairs
        ensures { result ≡ [] }
    {
        Pairs {
            numbered: Vec::new(alloc),
            others: IndexMap::new(alloc),
            link: None,
        }
    }

    /// How many pairs there are.
    pub fn len(&self) -> usize
        ensures len { result ≡ length self.now }
        ensures few { result ≤ 32_768 }
    {
        self.numbered.len() + self.others.len()
    }

    /// How many of the first keys are known to be 1, 2, .. in this order.
    pub fn in_order(&self) -> usize
        ensures { IsInOrder self.now result }
    {
        self.numbered.len()
    }

    /// The index of a key.
    pub fn index_of(&self, key: &Value) -> Option<usize>
        ensures index { result ≡ position (same key.now) (keys_of self.now) }
        ensures within { IfSome result (λ index. index < length self.now) }
    {
        let count = self.numbered.len();
        match hole_of(key, count) {
            Some(index) => Some(index),
            None => match index_among(&self.others, key) {
                Some(index) => Some(count + index),
                None => None,
            },
        }
    }

    /// The index of a text as a key.
    #[inline(always)]
    pub fn index_of_text(&self, name: &[u8]) -> Option<usize>
        ensures index { result ≡ position (same (Text name.now)) (keys_of self.now) }
        ensures within { IfSome result (λ index. index < length self.now) }
    {
        match text_among(&self.others, name) {
            Some(index) => Some(self.numbered.len() + index),
            None => None,
        }
    }

    /// The index of `__index` as a key.
    #[inline(always)]
    pub fn index_of_link(&self) -> Option<usize>
        ensures index { result ≡ position (same link_key) (keys_of self.now) }
        ensures within { IfSome result (λ index. index < length self.now) }
    {
        match self.link {
            Some(index) => Some(self.numbered.len() + index),
            None => None,
        }
    }

    /// The value at an index.
    pub fn value(&self, index: usize) -> &Value
        requires { index < length self.now }
        ensures { slice_get (values_of self.now) index ≡ Some result.now }
    {
        let count = self.numbered.len();
        if index < count {
            &self.numbered[index]
        } else {
            &self.others[index - count]
        }
    }

    /// Copies of the key and the value at an index.
    pub fn pair(&self, index: usize) -> Result<Option<(Value, Value)>, AllocError>
        ensures { IfOk result (λ pair. pair ≡ slice_get self.now index) }
    {
        let count = self.numbered.len();
        if index < count {
            let value = self.numbered[index].clone()?;
            Ok(Some((numbered(index as u32 + 1), value)))
        } else {
            pair_of(&self.others, index - count)
        }
    }

    /// Writes the value at an index, and gives the one that was there; takes no memory.
    pub fn replace(&mut self, index: usize, value: Value) -> Value
        requires { index < length self.old }
        ensures done { self.new ≡ set_value_at self.old index value }
        ensures before { slice_get (values_of self.old) index ≡ Some result }
    {
        let count = self.numbered.len();
        if index < count {
            mem::replace(&mut self.numbered[index], value)
        } else {
            mem::replace(&mut self.others[index - count], value)
        }
    }

    /// Writes a number at one of the first keys that are 1, 2, .., where something is; says whether it did. Takes no memory.
    pub fn renew_whole(&mut self, n: Whole, number: Whole) -> bool
        ensures there { result ≡ true → is_nil (value_at self.old (Number n)) ≡ false }
        ensures at { result ≡ true → IsRenewed self.old self.new (Number number) }
        ensures done { result ≡ true → self.new ≡ with_value self.old (Number n) (Number number) }
        ensures kept { result ≡ false → self.new ≡ self.old }
    {
        match hole_of(&Value::Number(n), self.numbered.len()) {
            Some(index) => set_whole(&mut self.numbered[index], number),
            None => false,
        }
    }

    /// Puts a new key last. There may be 32,768 pairs; one more gives `AllocError`.
    pub fn push(&mut self, key: Value, value: Value) -> Result<(), AllocError>
        requires { has_entry self.old key ≡ false }
        ensures done { OnOk result (self.new ≡ self.old ++ (key, value) ∷ []) }
        ensures kept { OnErr result (self.new ≡ self.old) }
    {
        if self.len() >= MOST {
            return Err(AllocError);
        }
        if comes_next(&key, self.numbered.len(), &self.others) {
            push_value(&mut self.numbered, value)
        } else {
            self.push_other(key, value)
        }
    }

    /// Puts a new key last in the map.
    fn push_other(&mut self, key: Value, value: Value) -> Result<(), AllocError>
        requires few { length self.old < 32_768 }
        requires absent { has_entry self.old key ≡ false }
        ensures done { OnOk result (self.new ≡ self.old ++ (key, value) ∷ []) }
        ensures kept { OnErr result (self.new ≡ self.old) }
    {
        let link = link_with(self.link, &key, self.others.len());
        match self.others.insert(key, value) {
            Ok(_) => {
                self.link = link;
                Ok(())
            }
            Err(_) => Err(AllocError),
        }
    }

    /// Puts the number after the first keys last, with a value, where these are all; else the value is given back.
    pub fn push_next(&mut self, key: &Value, value: Value) -> Result<(), Value>
        ensures absent { OnOk result (has_entry self.old key.now ≡ false) }
        ensures done { OnOk result (self.new ≡ self.old ++ (key.now, value) ∷ []) }
        ensures ordered { OnOk result (IsInOrder self.new (length self.new)) }
        ensures given { IfErr result (λ given. given ≡ value) }
        ensures kept { OnErr result (self.new ≡ self.old) }
    {
        let count = self.numbered.len();
        if count >= MOST || !comes_next(key, count, &self.others) {
            return Err(value);
        }
        match self.numbered.push(value) {
            Ok(()) => Ok(()),
            Err(failed) => Err(failed.value),
        }
    }
}

/// A clone is the same pairs.
impl Clone for Pairs {
    ghost is_clone = { λ pairs copy. copy ≡ pairs };

    fn clone(&self) -> Result<Pairs, AllocError> {
        Ok(Pairs {
            numbered: self.numbered.clone()?,
            others: self.others.clone()?,
            link: self.link,
        })
    }
}

/// Where `__index` stands once a new key is put after so many others.
fn link_with(link: Option<usize>, key: &Value, count: usize) -> Option<usize>
    ensures { result ≡ (if same link_key key.now then Some count else link) }
{
    if is_text(key, LINK) {
        Some(count)
    } else {
        link
    }
}

/// The index of a key in a map.
fn index_among(pairs: &IndexMap<Value, Value>, key: &Value) -> Option<usize>
    ensures index { result ≡ position (same key.now) (keys_of pairs.now.entries) }
    ensures within { IfSome result (λ index. index < length pairs.now.entries) }
{
    if pairs.len() > FEW {
        return key_by_hash(pairs, key);
    }
    for index in 0..pairs.len() {
        if is_key_at(pairs, index, key) {
            return Some(index);
        }
    }
    None
}

/// The same by its hash.
#[inline(never)]
fn key_by_hash(pairs: &IndexMap<Value, Value>, key: &Value) -> Option<usize>
    ensures index { result ≡ position (same key.now) (keys_of pairs.now.entries) }
    ensures within { IfSome result (λ index. index < length pairs.now.entries) }
{
    pairs.get_index_of(key)
}

/// The index of a text as a key in a map.
#[inline(always)]
fn text_among(pairs: &IndexMap<Value, Value>, name: &[u8]) -> Option<usize>
    ensures index { result ≡ position (same (Text name.now)) (keys_of pairs.now.entries) }
    ensures within { IfSome result (λ index. index < length pairs.now.entries) }
{
    if pairs.len() > FEW {
        return text_by_hash(pairs, name);
    }
    for index in 0..pairs.len() {
        if is_text_at(pairs, index, name) {
            return Some(index);
        }
    }
    None
}

/// The same by its hash.
#[inline(never)]
fn text_by_hash(pairs: &IndexMap<Value, Value>, name: &[u8]) -> Option<usize>
    ensures index { result ≡ position (same (Text name.now)) (keys_of pairs.now.entries) }
    ensures within { IfSome result (λ index. index < length pairs.now.entries) }
{
    pairs.get_index_of(Named { text: name })
}

/// A text that is looked for among values.
#[derive(Clone, Copy, PartialEq, Eq)]
struct Named<'a> {
    text: &'a [u8],
}

/// It is hashed as the value is.
impl Hash for Named<'_> {
    ghost use Rattle.std.specs.Cmp.Rules.{hashing};
    ghost use Rattle.std.proofs.Common.{rules};

    ghost hash_input = { λ name. name.text.now ∷ [] };

    ghost respects_eq = { Prim.search (hashing, rules) };

    fn hash<H: Hasher>(&self, state: &mut H) {
        state.write(self.text);
    }
}

impl Equivalent<Value> for Named<'_> {
    ghost use Rattle.std.specs.Cmp.Rules.{hashing};
    ghost use Rattle.std.proofs.Common.{rules};

    ghost equivalent = { λ name. same (Text name.text.now) };

    ghost respects_hash = { Prim.search (hashing, rules) };

    ghost respects_eq = { Prim.search (hashing, rules) };

    fn equivalent(&self, key: &Value) -> bool {
        is_text(key, self.text)
    }
}

/// Whether a key stands at an index of a map.
#[inline(always)]
fn is_key_at(pairs: &IndexMap<Value, Value>, index: usize, key: &Value) -> bool
    ensures { result ≡ passes_at (same key.now) pairs.now.entries index }
{
    match pairs.get_index(index) {
        Some((other, _)) => *key == *other,
        None => false,
    }
}

/// Whether a text stands as a key at an index of a map.
#[inline(always)]
fn is_text_at(pairs: &IndexMap<Value, Value>, index: usize, name: &[u8]) -> bool
    ensures { result ≡ passes_at (same (Text name.now)) pairs.now.entries index }
{
    match pairs.get_index(index) {
        Some((other, _)) => is_text(other, name),
        None => false,
    }
}

/// Whether a value is this text.
#[inline(always)]
fn is_text(value: &Value, text: &[u8]) -> bool
    ensures { result ≡ same (Text text.now) value.now }
{
    match value {
        Value::Text(other) => other.as_slice() == text,
        _ => false,
    }
}

/// Copies of the key and the value at an index of a map.
fn pair_of(
    pairs: &IndexMap<Value, Value>,
    index: usize,
) -> Result<Option<(Value, Value)>, AllocError>
    ensures { IfOk result (λ pair. pair ≡ slice_get pairs.now.entries index) }
{
    match pairs.get_index(index) {
        Some((key, value)) => Ok(Some((key.clone()?, value.clone()?))),
        None => Ok(None),
    }
}

/// Writes a number where something is; says whether it did.
#[inline(always)]
fn set_whole(value: &mut Value, number: Whole) -> bool
    ensures there { result ≡ not (is_nil value.old) }
    ensures done { result ≡ true → value.new ≡ Number number }
    ensures kept { result ≡ false → value.new ≡ value.old }
{
    match value {
        Value::Nil => false,
        Value::Number(old) => {
            *old = number;
            true
        }
        other => {
            *other = Value::Number(number);
            true
        }
    }
}

/// Whether a key is the number after so many, which are all that there are.
fn comes_next(key: &Value, count: usize, others: &IndexMap<Value, Value>) -> bool
    requires { count ≤ 32_768 }
    ensures all { result ≡ true → others.now.entries ≡ [] }
    ensures next { result ≡ true → key.now ≡ number (count + 1) }
{
    others.is_empty() && is_next(key, count)
}

/// Puts a value last in a list.
fn push_value(values: &mut Vec<Value>, value: Value) -> Result<(), AllocError>
    ensures done { OnOk result (values.new.items ≡ values.old.items ++ value ∷ []) }
    ensures kept { OnErr result (values.new.items ≡ values.old.items) }
    ensures few { length values.new.items ≤ length values.old.items + 1 }
{
    values.push(value)?;
    Ok(())
}

/// Whether a key is the number after so many.
fn is_next(key: &Value, count: usize) -> bool
    requires { count ≤ 32_768 }
    ensures { result ≡ true → key.now ≡ number (count + 1) }
{
    match hole_of(key, count + 1) {
        Some(index) => index == count,
        None => false,
    }
}

/// The index of a key among the first `count` numbers, if it is one of them.
pub(crate) fn hole_of(key: &Value, count: usize) -> Option<usize>
    ensures { IsHoleOf key.now count result }
{
    match key {
        Value::Number(whole) => match usize::try_from(whole.get()) {
            Ok(n) => {
                if 1 <= n && n <= count {
                    Some(n - 1)
                } else {
                    None
                }
            }
            Err(_) => None,
        },
        _ => None,
    }
}

/// The number n as a value.
pub(crate) fn numbered(n: u32) -> Value
    requires { n ≤ 1_000_000_000 }
    ensures { result ≡ number n }
{
    match Whole::new(i64::from(n)) {
        Some(whole) => Value::Number(whole),
        None => unreachable!(),
    }
}
