//! The items of calls (Lua 5.1 Reference Manual, 2.5.8).

ghost use Rattle.lua_frames.specs.Follows.{Takes};

use crate::entering::{enter_call, enter_tail_call};
use lua_ast::Expr;
use lua_frames::{Flow, Frames, Host, Item, take_first, take_values};
use lua_values::{Store, Value};
use lua_vm_expressions::list_under;
use std::alloc::AllocError;
use std::rc::Rc;

/// What is called is there, and its arguments are evaluated.
pub fn callee<H: Host>(
    frames: &mut Frames,
    host: &H,
    store: &mut Store,
    line: u32,
    args: Rc<Vec<Expr>>,
) -> Result<Flow, AllocError>
    ensures { Takes (H.setting host.now) (Item.Callee line args) frames.old store.old frames.new store.new result }
{
    match take_first(frames) {
        None => Ok(Flow::Went),
        Some(function) => list_under(frames, host, store, Item::Arguments(line, function), &args),
    }
}

/// What is called as `return` does is there, and its arguments are evaluated.
pub fn tail_callee<H: Host>(
    frames: &mut Frames,
    host: &H,
    store: &mut Store,
    line: u32,
    args: Rc<Vec<Expr>>,
) -> Result<Flow, AllocError>
    ensures { Takes (H.setting host.now) (Item.TailCallee line args) frames.old store.old frames.new store.new result }
{
    match take_first(frames) {
        None => Ok(Flow::Went),
        Some(function) => {
            list_under(
                frames,
                host,
                store,
                Item::TailArguments(line, function),
                &args,
            )
        }
    }
}

/// A call that hasn't begun begins.
pub fn call<H: Host>(
    frames: &mut Frames,
    host: &H,
    store: &mut Store,
    line: u32,
    function: Value,
    args: Vec<Value>,
) -> Result<Flow, AllocError>
    ensures { Takes (H.setting host.now) (Item.Call line function args) frames.old store.old frames.new store.new result }
{
    match take_first(frames) {
        None => Ok(Flow::Went),
        Some(_) => enter_call(frames, host, store, line, function, args),
    }
}

/// The arguments are there, and the call begins.
pub fn arguments<H: Host>(
    frames: &mut Frames,
    host: &H,
    store: &mut Store,
    line: u32,
    function: Value,
) -> Result<Flow, AllocError>
    ensures { Takes (H.setting host.now) (Item.Arguments line function) frames.old store.old frames.new store.new result }
{
    match take_values(frames)? {
        None => Ok(Flow::Went),
        Some(args) => enter_call(frames, host, store, line, function, args),
    }
}

/// The arguments of a tail call are there, and it begins.
pub fn tail_arguments<H: Host>(
    frames: &mut Frames,
    host: &H,
    store: &mut Store,
    line: u32,
    function: Value,
) -> Result<Flow, AllocError>
    ensures { Takes (H.setting host.now) (Item.TailArguments line function) frames.old store.old frames.new store.new result }
{
    match take_values(frames)? {
        None => Ok(Flow::Went),
        Some(args) => enter_tail_call(frames, host, store, line, function, args),
    }
}
