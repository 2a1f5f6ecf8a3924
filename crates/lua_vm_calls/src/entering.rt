//! Calls, plain and tail.

ghost use Rattle.lua_meaning.specs.Positions.{callers_at};
ghost use Rattle.lua_meaning.specs.Calls.{call, tail_call};
ghost use Rattle.lua_frames.specs.Frames.{here, slots_of};
ghost use Rattle.lua_frames.specs.Follows.{Works};

use crate::natives::{call_native, tail_native};
use lua_frames::{Flow, Frames, Host, raise_operand};
use lua_operators::OperandFault;
use lua_values::{Store, Value};
use lua_vm_functions::{Callee, call_closure, find_callee};
use std::alloc::AllocError;

/// Calls a value with arguments at a line (Lua 5.1 Reference Manual, 2.5.8).
pub fn enter_call<H: Host>(
    frames: &mut Frames,
    host: &H,
    store: &mut Store,
    line: u32,
    function: Value,
    args: Vec<Value>,
) -> Result<Flow, AllocError>
    ensures { Works (H.setting host.now) (call (callers_at (here frames.old) line) function args.items (slots_of frames.old))
        frames.old store.old frames.new store.new result }
{
    let mut args = args;
    match find_callee(store, function, &mut args)? {
        Callee::Closure(c) => call_closure(frames, host.program(), store, line, false, c, args),
        Callee::Native(n) => call_native(frames, host, store, line, n, args),
        Callee::Uncallable(found) => {
            raise_operand(frames, host.program(), line, OperandFault::Call(found))
        }
        Callee::Spent => Ok(Flow::Spent),
    }
}

/// Calls a value as `return` does: a Lua function is run in place of its caller (Lua 5.1 Reference Manual, 2.5.8).
pub fn enter_tail_call<H: Host>(
    frames: &mut Frames,
    host: &H,
    store: &mut Store,
    line: u32,
    function: Value,
    args: Vec<Value>,
) -> Result<Flow, AllocError>
    ensures { Works (H.setting host.now) (tail_call (callers_at (here frames.old) line) function args.items (slots_of frames.old))
        frames.old store.old frames.new store.new result }
{
    let mut args = args;
    match find_callee(store, function, &mut args)? {
        Callee::Closure(c) => call_closure(frames, host.program(), store, line, true, c, args),
        Callee::Native(n) => tail_native(frames, host, store, line, n, args),
        Callee::Uncallable(found) => {
            raise_operand(frames, host.program(), line, OperandFault::Call(found))
        }
        Callee::Spent => Ok(Flow::Spent),
    }
}
