//! A list of flags, in which the next one that stands is found without a walk.

ghost use Rattle.std.specs.Prelude.{◌≡◌, ◌<◌, ◌≤◌, ◌⊎◌, ◌+◌, ◌*◌, ◌/◌, ◌++◌, ℕ, [], ◌∷◌, true, false, length, slice_set, IfOk, OnOk, OnErr};
ghost use Rattle.std.specs.Option.{ForSome};
ghost use Rattle.lua_values.specs.Flags.{flag_at, IsFirstFrom, IsFirstWithin, IsBlank, IsSummary, with_flag};

use std::alloc::{AllocError, Global};
use std::marker::Model;

/// How many flags stand in a block, and how many blocks in a group.
const WIDTH: usize = 32;

/// How many flags there may be.
const MOST: usize = 32_768;

/// A list of flags, up to 32,768. Where the next one is that stands is known by the flags of blocks of 32 and of groups
/// of 32 blocks, so that no more than 160 flags are read, and none where no flag stands.
#[derive(Drop)]
pub struct Flags {
    flags: Vec<bool>,
    blocks: Vec<bool>,
    groups: Vec<bool>,
    /// How many flags stand.
    standing: usize,
}

impl Model for Flags {
    ghost use Rattle.std.specs.Prelude.{List, Bool, ◌≡◌, ◌≤◌, length};
    ghost use Rattle.lua_values.specs.Flags.{IsSummary, count_standing};

    ghost Value = { List Bool };

    ghost view = { λ all. all.flags.items };

    ghost invariant = { λ all.
        IsSummary all.flags.items all.blocks.items × IsSummary all.blocks.items all.groups.items
        × (length all.flags.items ≤ 32_768) × (all.standing ≡ count_standing all.flags.items) };
}

impl Flags {
    /// No flags; takes no memory.
    pub fn new(alloc: Global) -> Flags
        ensures { result ≡ [] }
    {
        Flags {
            flags: Vec::new(alloc),
            blocks: Vec::new(alloc),
            groups: Vec::new(alloc),
            standing: 0,
        }
    }

    /// How many flags there are.
    pub fn len(&self) -> usize
        ensures len { result ≡ length self.now }
        ensures few { result ≤ 32_768 }
    {
        self.flags.len()
    }

    /// Adds a flag that doesn't stand. There may be 32,768; one more gives `AllocError`.
    pub fn grow(&mut self) -> Result<(), AllocError>
        ensures done { OnOk result (self.new ≡ self.old ++ false ∷ []) }
        ensures few { OnOk result (length self.new ≤ 32_768) }
        ensures kept { OnErr result (self.new ≡ self.old) }
    {
        let index = self.flags.len();
        if index >= MOST {
            return Err(AllocError);
        }
        cover(&mut self.groups, index / WIDTH / WIDTH)?;
        cover(&mut self.blocks, index / WIDTH)?;
        self.flags.push(false)?;
        Ok(())
    }

    /// Has a flag at an index that may be the next.
    pub fn reach(&mut self, index: usize) -> Result<(), AllocError>
        ensures same { (k : ℕ) → flag_at self.new k ≡ flag_at self.old k }
        ensures longer { length self.old ≤ length self.new }
        ensures few { OnOk result (length self.new ≤ 32_768) }
        ensures reached { OnOk result (index ≤ length self.old → index < length self.new) }
    {
        if index >= self.len() {
            self.grow()?;
        }
        Ok(())
    }

    /// Sets a flag; takes no memory.
    pub fn set(&mut self, index: usize, flag: bool)
        requires { index < length self.old }
        ensures { self.new ≡ slice_set self.old index flag }
    {
        if self.flags[index] == flag {
            return;
        }
        self.flags[index] = flag;
        self.standing = count_with(self.standing, flag);
        let block = index / WIDTH;
        self.blocks[block] = any_in(self.flags.as_slice(), block);
        let group = block / WIDTH;
        self.groups[group] = any_in(self.blocks.as_slice(), group);
    }

    /// Sets a flag where an index is given; takes no memory.
    pub fn set_at(&mut self, index: Option<usize>, flag: bool)
        requires { ForSome index (λ index. index < length self.old) }
        ensures { self.new ≡ with_flag self.old index flag }
    {
        match index {
            None => {}
            Some(index) => self.set(index, flag),
        }
    }

    /// The first flag from an index on that stands.
    pub fn first_from(&self, from: usize) -> Option<usize>
        ensures { IsFirstFrom self.now from result }
    {
        if self.standing == 0 {
            return None;
        }
        flag_from(
            self.flags.as_slice(),
            self.blocks.as_slice(),
            self.groups.as_slice(),
            from,
        )
    }
}

/// A clone is the same flags.
impl Clone for Flags {
    ghost is_clone = { λ flags copy. copy ≡ flags };

    fn clone(&self) -> Result<Flags, AllocError> {
        Ok(Flags {
            flags: self.flags.clone()?,
            blocks: self.blocks.clone()?,
            groups: self.groups.clone()?,
            standing: self.standing,
        })
    }
}

/// How many flags stand once one more does, or one less.
fn count_with(standing: usize, flag: bool) -> usize
    requires few { standing ≤ 32_768 }
    requires some { flag ≡ false → 0 < standing }
    ensures more { flag ≡ true → result ≡ standing + 1 }
    ensures less { flag ≡ false → result + 1 ≡ standing }
{
    if flag { standing + 1 } else { standing - 1 }
}

/// The first flag from an index on that stands.
fn flag_from(flags: &[bool], blocks: &[bool], groups: &[bool], from: usize) -> Option<usize>
    requires flags { IsSummary flags.now blocks.now }
    requires blocks { IsSummary blocks.now groups.now }
    requires few { length flags.now ≤ 32_768 }
    ensures from { IsFirstFrom flags.now from result }
{
    if from >= flags.len() {
        return None;
    }
    let block = from / WIDTH;
    match first_within(flags, from, (block + 1) * WIDTH) {
        Some(index) => Some(index),
        None => match block_from(blocks, groups, block + 1) {
            None => None,
            Some(next) => first_within(flags, next * WIDTH, (next + 1) * WIDTH),
        },
    }
}

/// The first block from a block on that has a flag that stands.
fn block_from(blocks: &[bool], groups: &[bool], from: usize) -> Option<usize>
    requires summary { IsSummary blocks.now groups.now }
    requires few { from ≤ 1024 }
    ensures from { IsFirstFrom blocks.now from result }
{
    let group = from / WIDTH;
    match first_within(blocks, from, (group + 1) * WIDTH) {
        Some(block) => Some(block),
        None => match first_within(groups, group + 1, groups.len()) {
            None => None,
            Some(next) => first_within(blocks, next * WIDTH, (next + 1) * WIDTH),
        },
    }
}

/// Whether a flag of the block stands.
fn any_in(flags: &[bool], block: usize) -> bool
    requires { block ≤ 1024 }
    ensures none { result ≡ false → IsBlank flags.now block }
    ensures some { result ≡ true → IsBlank flags.now block → ⊥ }
{
    first_within(flags, block * WIDTH, (block + 1) * WIDTH).is_some()
}

/// The first flag from an index on and before another that stands.
fn first_within(flags: &[bool], from: usize, end: usize) -> Option<usize>
    ensures first { IsFirstWithin flags.now from end result }
{
    for index in from..end.min(flags.len()) {
        if flags[index] {
            return Some(index);
        }
    }
    None
}

/// Makes a flag of a block that may be the next.
fn cover(blocks: &mut Vec<bool>, block: usize) -> Result<(), AllocError>
    ensures same { (k : ℕ) → flag_at blocks.new.items k ≡ flag_at blocks.old.items k }
    ensures longer { length blocks.old.items ≤ length blocks.new.items }
    ensures few { (k : ℕ) → k < length blocks.new.items → (k < length blocks.old.items) ⊎ (k ≤ block) }
    ensures covered { OnOk result (block ≤ length blocks.old.items → block < length blocks.new.items) }
{
    if block >= blocks.len() {
        blocks.push(false)?;
    }
    Ok(())
}
