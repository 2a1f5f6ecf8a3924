//! Frames that come and go.

ghost use Rattle.std.specs.Prelude.{◌≡◌, [], IfOk, OnOk};
ghost use Rattle.lua_values.specs.Heap.{StoreView};
ghost use Rattle.lua_meaning.specs.Setting.{Setting};
ghost use Rattle.lua_frames.specs.Changes.{IsFrameWith, Pushes, Replaces, GoesBack, Handles, Leaves};
ghost use Rattle.lua_frames.specs.Follows.{Turns};

use crate::ending::{Closing, closing_of};
use crate::{Flow, Frame, Frames, Item, Kind, Lists, Signal};
use lua_values::Value;
use resty_base::Boxed;
use std::alloc::AllocError;
use std::mem;

/// How many calls wait where one that makes another call begins to keep no room.
const MANY_CALLS: usize = 64;

/// How many items wait at most in a call that keeps no room.
const FEW_ITEMS: usize = 8;

/// The frame of a call of no Lua function, in which one item waits.
pub fn frame_with(lists: &mut Lists, kind: Kind, item: Item) -> Result<Frame, AllocError>
    ensures { IfOk result (IsFrameWith kind item) }
{
    let mut items = lists.items.fresh();
    items.push(item)?;
    Ok(Frame {
        kind,
        function: 0,
        line: 0,
        cells: lists.cells.fresh(),
        extras: lists.values.fresh(),
        slots: lists.slots.fresh(),
        items,
    })
}

/// A call begins in this frame. The frame that was on top calls at this line.
pub fn push_frame(frames: &mut Frames, line: u32, frame: Frame) -> Result<(), AllocError>
    ensures { OnOk result (Pushes line frames.old frame frames.new) }
{
    tighten(&mut frames.top.items, frames.below.as_slice().len());
    frames.top.line = line;
    let caller = mem::replace(&mut frames.top, frame);
    frames.below.push(caller)?;
    Ok(())
}

/// Where many calls wait, and few items wait in one that makes another call, these keep no room for more.
fn tighten(items: &mut Vec<Item>, calls: usize)
    ensures { items.new.items ≡ items.old.items }
{
    if calls >= MANY_CALLS && items.len() <= FEW_ITEMS {
        items.shrink_to_fit();
    }
}

/// A call begins in this frame, in place of the frame on top, whose lists are kept for others.
pub fn replace_frame(frames: &mut Frames, frame: Frame)
    ensures { Replaces frames.old frame frames.new }
{
    let old = mem::replace(&mut frames.top, frame);
    frames.lists.spare(old);
}

/// The innermost call, in which nothing waits, ends.
pub fn leave(frames: &mut Frames) -> Result<Flow, AllocError>
    requires { frames.old.top.items.items ≡ [] }
    ensures turns { (S : Setting) → (store : StoreView) → Turns S frames.old store frames.new store result }
    ensures leaves { IfOk result (λ flow. Leaves frames.old frames.new flow) }
{
    let given = mem::replace(&mut frames.given, Signal::Nothing);
    match closing_of(&mut frames.lists, &frames.top.kind, given)? {
        Closing::Gives(signal) => {
            frames.given = signal;
            Ok(go_back(frames))
        }
        Closing::Handles(handler, fault) => {
            handle(frames, handler, fault)?;
            Ok(Flow::Went)
        }
    }
}

/// The frame below goes on with what is given.
fn go_back(frames: &mut Frames) -> Flow
    ensures { GoesBack frames.old frames.new result }
{
    match frames.below.pop() {
        None => Flow::Over,
        Some(caller) => {
            replace_frame(frames, caller);
            Flow::Went
        }
    }
}

/// The handler of `xpcall` is called with a fault, in the frame of its call.
fn handle(frames: &mut Frames, handler: Value, fault: Value) -> Result<(), AllocError>
    ensures { OnOk result (Handles frames.old handler fault frames.new) }
{
    let mut args = frames.lists.values.fresh();
    args.push(fault)?;
    let handler = Boxed::new(frames.alloc, handler)?;
    frames.top.items.push(Item::Call(0, handler, args))?;
    frames.top.kind = Kind::Handling;
    frames.given = Signal::Nothing;
    Ok(())
}
