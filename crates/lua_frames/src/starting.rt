//! Where a thread begins, and where it goes on.

ghost use Rattle.std.specs.Prelude.{◌≡◌, IfOk, OnOk};
ghost use Rattle.lua_frames.specs.Starting.{Begins, Answers};

use crate::{Frame, Frames, Item, Kind, Lists, Signal, Stack, positioned};
use lua_ast::Program;
use lua_meaning::{Position, Resumed};
use lua_values::Value;
use resty_base::Boxed;
use std::alloc::{AllocError, Global};

/// The frames of a thread that calls a value with arguments, which hasn't begun.
pub fn start(alloc: Global, function: Value, args: Vec<Value>) -> Result<Frames, AllocError>
    ensures { IfOk result (λ frames. Begins function args.items frames) }
{
    let mut items = Vec::new(alloc);
    items.push(Item::Call(0, Boxed::new(alloc, function)?, args))?;
    Ok(Frames {
        alloc,
        below: Stack::new(alloc),
        top: Frame {
            kind: Kind::Base,
            function: 0,
            line: 0,
            cells: Vec::new(alloc),
            extras: Vec::new(alloc),
            slots: Vec::new(alloc),
            items,
        },
        given: Signal::Nothing,
        asked: None,
        lists: Lists::new(alloc),
    })
}

/// Gives what a call that was asked at a position is answered.
pub fn answer(
    frames: &mut Frames,
    program: &Program,
    position: Option<Position>,
    answer: Resumed,
) -> Result<(), AllocError>
    ensures { OnOk result (Answers program.now position answer frames.old frames.new) }
{
    frames.given = match answer {
        Resumed::Values(values) => Signal::Many(values.into_vec()),
        Resumed::Raise(text) => {
            Signal::Raised(positioned(frames.alloc, program, position, text.as_slice())?)
        }
    };
    Ok(())
}
