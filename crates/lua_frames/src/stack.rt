//! The calls that wait below the innermost one.

ghost use Rattle.std.specs.Prelude.{◌≡◌, ◌∷◌, ◌++◌, [], length, if◌then◌else◌, OnOk, MatchOption};
ghost use Rattle.lua_frames.specs.Around.{is_lua, around_of};

use crate::{Frame, Kind};
use std::alloc::{AllocError, Global};

/// The calls that wait below the innermost one, the outermost first. It knows how many of them are of Lua functions.
#[derive(Drop)]
pub struct Stack {
    pub frames: Vec<Frame>,
    pub functions: usize,
    pub ghost counted: { functions ≡ length (around_of [] frames.items) },
}

impl Stack {
    /// No calls; takes no memory.
    pub fn new(alloc: Global) -> Stack
        ensures { result.frames.items ≡ [] }
    {
        Stack {
            frames: Vec::new(alloc),
            functions: 0,
        }
    }

    /// How many of the calls are of Lua functions.
    pub fn functions(&self) -> usize
        ensures { result ≡ length (around_of [] self.now.frames.items) }
    {
        self.functions
    }

    /// The calls, the outermost first.
    pub fn as_slice(&self) -> &[Frame]
        ensures { result.now ≡ self.now.frames.items }
    {
        self.frames.as_slice()
    }

    /// One more call, the innermost of these.
    pub fn push(&mut self, frame: Frame) -> Result<(), AllocError>
        ensures { OnOk result (self.new.frames.items ≡ self.old.frames.items ++ frame ∷ []) }
    {
        let more = count_of(&frame);
        make_room(&mut self.frames)?;
        self.frames.push(frame)?;
        self.functions += more;
        Ok(())
    }

    /// Takes the innermost of these calls.
    pub fn pop(&mut self) -> Option<Frame>
        ensures { MatchOption result (self.old.frames.items ≡ []) (λ frame. self.old.frames.items ≡ self.new.frames.items ++ frame ∷ []) }
    {
        match self.frames.pop() {
            None => None,
            Some(frame) => {
                self.functions -= count_of(&frame);
                Some(frame)
            }
        }
    }
}

/// Makes room for one more call where there is none: for an eighth of those that are there, and eight.
fn make_room(frames: &mut Vec<Frame>) -> Result<(), AllocError>
    ensures { frames.new.items ≡ frames.old.items }
{
    let len = frames.len();
    if len == frames.capacity() {
        frames.reserve_exact(len / 8 + 8)?;
    }
    Ok(())
}

/// 1 of a call of a Lua function, 0 of any other.
fn count_of(frame: &Frame) -> usize
    ensures { result ≡ (if is_lua frame.now.kind then 1 else 0) }
{
    match frame.kind {
        Kind::Lua => 1,
        _ => 0,
    }
}
