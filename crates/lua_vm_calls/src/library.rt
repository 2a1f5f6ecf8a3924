//! Calls of the host's own functions.

ghost use Rattle.std.specs.Prelude.{◌≡◌, ◌≢◌, [], false, IfOk, OnOk};
ghost use Rattle.lua_values.specs.declared.natives.NativeOut.TheVariants.{Memory};
ghost use Rattle.lua_meaning.specs.Works.{and_then};
ghost use Rattle.lua_meaning.specs.Positions.{callers_at};
ghost use Rattle.lua_meaning.specs.Natives.{library_work};
ghost use Rattle.lua_frames.specs.declared.flow.Flow.TheVariants.{Spent};
ghost use Rattle.lua_frames.specs.Frames.{here, slots_of};
ghost use Rattle.lua_frames.specs.Follows.{Works};
ghost use Rattle.lua_vm_functions.specs.CallEnds.{back_in};

use lua_frames::{Flow, Frames, Host, Op, give_many, position_at, raise_given, raise_operand};
use lua_operators::{LuaType, OperandFault};
use lua_values::{NativeOut, STEP_LIMIT, Store, Value, Values};
use std::alloc::AllocError;

/// Calls a function of the host by its number among its own.
pub(crate) fn call_library<H: Host>(
    frames: &mut Frames,
    host: &H,
    store: &mut Store,
    line: u32,
    number: u32,
    args: Vec<Value>,
) -> Result<Flow, AllocError>
    ensures { Works (H.setting host.now) (and_then (library_work (H.setting host.now) number args.items (callers_at (here frames.old) line) [])
        (back_in false (slots_of frames.old)))
        frames.old store.old frames.new store.new result }
{
    if number >= host.count() {
        return raise_operand(
            frames,
            host.program(),
            line,
            OperandFault::Call(LuaType::Nil),
        );
    }
    let out = host.call(frames.alloc, number, &args, store);
    if store.steps() >= STEP_LIMIT {
        return spend(&out);
    }
    match out {
        NativeOut::Memory => Err(AllocError),
        NativeOut::Values(values) => give_many(frames, values.into_vec()),
        NativeOut::Fault(value) => raise_given(frames, host.program(), line, 0, value),
        NativeOut::Outside => {
            let position = position_at(frames, host.program(), line, 0);
            frames.asked = Some(Op {
                number,
                args: Values::of(args),
                position,
            });
            Ok(Flow::Asked)
        }
    }
}

/// What a call comes to that reached the limit: its steps are spent, unless memory ran out.
fn spend(out: &NativeOut) -> Result<Flow, AllocError>
    ensures spent { IfOk result (λ flow. flow ≡ Spent) }
    ensures answered { OnOk result (out.now ≢ Memory) }
{
    match out {
        NativeOut::Memory => Err(AllocError),
        _ => Ok(Flow::Spent),
    }
}
