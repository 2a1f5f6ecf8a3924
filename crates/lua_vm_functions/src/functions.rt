//! Calls of Lua functions.

ghost use Rattle.std.specs.Prelude.{◌≡◌, ℕ, true, false, slice_get, nat_lt, length, IfOk};
ghost use Rattle.lua_values.specs.Heap.{StoreView};
ghost use Rattle.lua_meaning.specs.Setting.{Setting};
ghost use Rattle.lua_meaning.specs.Positions.{callers_at};
ghost use Rattle.lua_meaning.specs.Calls.{argument, slots_from, extras_of, calling, around_callee, most_callers};
ghost use Rattle.lua_frames.specs.Frames.{here, slots_of};
ghost use Rattle.lua_frames.specs.Follows.{Works};
ghost use Rattle.lua_vm_functions.specs.CallEnds.{closure_called, function_called, body_called};
ghost use Rattle.lua_vm_functions.specs.CallFrames.{IsFrameOf};

use lua_ast::{Function, Program};
use lua_frames::{
    Flow, Frame, Frames, Kind, Lists, begin_block, push_frame, raise_fault, raise_operand,
    replace_frame,
};
use lua_meaning::Slot;
use lua_operators::{Fault, LuaType, OperandFault};
use lua_values::{Store, Value};
use std::alloc::{AllocError, Global};

/// How many Lua functions may be around one.
const MOST_CALLERS: usize = 5_000;

/// The arguments after the parameters, of a function that takes them.
fn extras_of(alloc: Global, f: &Function, args: &[Value]) -> Result<Vec<Value>, AllocError>
    ensures { IfOk result (λ extras. extras.items ≡ extras_of f.now args.now) }
{
    if !f.vararg {
        return Ok(Vec::new(alloc));
    }
    match args.get(f.params as usize..) {
        None => Ok(Vec::new(alloc)),
        Some(rest) => rest.to_vec(alloc),
    }
}

/// The argument of a slot: that of a parameter if it is there, else nil.
fn argument(args: &[Value], i: usize, params: usize) -> Result<Value, AllocError>
    ensures { IfOk result (λ value. value ≡ argument i params args.now) }
{
    if i >= params {
        return Ok(Value::Nil);
    }
    match args.get(i) {
        None => Ok(Value::Nil),
        Some(value) => value.clone(),
    }
}

/// The slots of a call: those of parameters have the arguments, and all others nil.
fn slots_of_call(
    lists: &mut Lists,
    count: usize,
    params: usize,
    args: &[Value],
) -> Result<Vec<Slot>, AllocError>
    ensures { IfOk result (λ slots. slots.items ≡ slots_from count 0 params args.now) }
{
    let mut slots = lists.slots.fresh();
    slots.reserve_exact(count)?;
    for i in 0..count {
        slots.push(Slot::Plain(argument(args, i, params)?))?;
    }
    Ok(slots)
}

/// The frame of a call.
fn frame_of(
    alloc: Global,
    lists: &mut Lists,
    number: u32,
    f: &Function,
    cells: &[u32],
    args: Vec<Value>,
) -> Result<Frame, AllocError>
    ensures { IfOk result (IsFrameOf number f.now cells.now args.items) }
{
    let extras = extras_of(alloc, f, &args)?;
    let slots = slots_of_call(lists, f.slots as usize, f.params as usize, &args)?;
    lists.values.spare(args);
    let mut captured = lists.cells.fresh();
    captured.extend_from_slice(cells)?;
    Ok(Frame {
        kind: Kind::Lua,
        function: number,
        line: 0,
        cells: captured,
        extras,
        slots,
        items: lists.no_items(),
    })
}

/// Whether few enough functions are around one that is called; a tail call gives up its caller.
fn has_room(frames: &Frames, tail: bool) -> bool
    ensures { (line : ℕ) → result ≡ nat_lt (length (around_callee (calling (callers_at (here frames.now) line) tail))) most_callers }
{
    let below = frames.below.functions();
    match frames.top.kind {
        Kind::Lua => if tail {
            below < MOST_CALLERS
        } else {
            below < MOST_CALLERS - 1
        },
        _ => if tail {
            below.saturating_sub(1) < MOST_CALLERS
        } else {
            below < MOST_CALLERS
        },
    }
}

/// Begins a function in a frame of its own.
fn push_function(
    frames: &mut Frames,
    line: u32,
    number: u32,
    f: &Function,
    cells: &[u32],
    args: Vec<Value>,
) -> Result<Flow, AllocError>
    ensures { (S : Setting) → (store : StoreView)
        → Works S (body_called number f.now cells.now args.items (callers_at (here frames.old) line) false (slots_of frames.old))
        frames.old store frames.new store result }
{
    let frame = frame_of(frames.alloc, &mut frames.lists, number, f, cells, args)?;
    push_frame(frames, line, frame)?;
    begin_block(frames, &f.body)
}

/// Begins a function in place of its caller, which is a Lua function.
fn tail_function(
    frames: &mut Frames,
    line: u32,
    number: u32,
    f: &Function,
    cells: &[u32],
    args: Vec<Value>,
) -> Result<Flow, AllocError>
    requires { frames.old.top.kind ≡ Kind.Lua }
    ensures { (S : Setting) → (store : StoreView)
        → Works S (body_called number f.now cells.now args.items (callers_at (here frames.old) line) true (slots_of frames.old))
        frames.old store frames.new store result }
{
    let frame = frame_of(frames.alloc, &mut frames.lists, number, f, cells, args)?;
    replace_frame(frames, frame);
    begin_block(frames, &f.body)
}

/// Begins a function; in a tail call in place of its caller. No program has a tail call outside of a Lua function: frames can't
/// stand for one, and it would end as if memory didn't suffice.
fn begin_function(
    frames: &mut Frames,
    line: u32,
    tail: bool,
    number: u32,
    f: &Function,
    cells: &[u32],
    args: Vec<Value>,
) -> Result<Flow, AllocError>
    ensures { (S : Setting) → (store : StoreView)
        → Works S (body_called number f.now cells.now args.items (callers_at (here frames.old) line) tail (slots_of frames.old))
        frames.old store frames.new store result }
{
    if !tail {
        return push_function(frames, line, number, f, cells, args);
    }
    match frames.top.kind {
        Kind::Lua => tail_function(frames, line, number, f, cells, args),
        _ => Err(AllocError),
    }
}

/// Calls a function of the program by its number.
fn call_function(
    frames: &mut Frames,
    program: &Program,
    line: u32,
    tail: bool,
    number: u32,
    cells: &[u32],
    args: Vec<Value>,
) -> Result<Flow, AllocError>
    ensures { (S : Setting) → (store : StoreView) → S.program ≡ program.now
        → Works S (function_called S number (slice_get S.program.functions.items number) cells.now args.items
        (callers_at (here frames.old) line) tail (slots_of frames.old))
        frames.old store frames.new store result }
{
    match program.functions.get(number as usize) {
        None => raise_operand(frames, program, line, OperandFault::Call(LuaType::Nil)),
        Some(f) => {
            if has_room(frames, tail) {
                begin_function(frames, line, tail, number, f, cells, args)
            } else {
                raise_fault(frames, program, line, Fault::StackOverflow)
            }
        }
    }
}

/// Calls a closure by its number.
pub fn call_closure(
    frames: &mut Frames,
    program: &Program,
    store: &Store,
    line: u32,
    tail: bool,
    closure: u32,
    args: Vec<Value>,
) -> Result<Flow, AllocError>
    ensures { (S : Setting) → S.program ≡ program.now
        → Works S (closure_called S (slice_get store.now.heap.closures closure) args.items (callers_at (here frames.old) line) tail (slots_of frames.old))
        frames.old store.now frames.new store.now result }
{
    match store.closure(closure) {
        None => raise_operand(frames, program, line, OperandFault::Call(LuaType::Nil)),
        Some((number, cells)) => call_function(frames, program, line, tail, number, cells, args),
    }
}
