//! What a call comes to: a closure or a native, by way of the handlers of what is no function.

ghost use Rattle.std.specs.Prelude.{IfOk};
ghost use Rattle.lua_vm_functions.specs.Callees.{Reaches};

use lua_frames::handler;
use lua_operators::{Event, LuaType, type_of};
use lua_values::{Store, Value};
use std::alloc::AllocError;

/// What is called in the end.
#[derive(Drop)]
pub enum Callee {
    Closure(u32),
    Native(u32),
    /// A value of this type, which is no function and has no handler.
    Uncallable(LuaType),
    /// The steps are spent.
    Spent,
}

/// Finds what a call of a value comes to (Lua 5.1 Reference Manual, 2.8): a value that is no function is called by its handler, before the
/// arguments. Each call on the way counts a step.
pub fn find_callee(
    store: &mut Store,
    function: Value,
    args: &mut Vec<Value>,
) -> Result<Callee, AllocError>
    ensures { IfOk result (λ callee. Reaches function args.old.items store.old callee args.new.items store.new) }
{
    let mut function = function;
    loop {
        if !store.count(1) {
            return Ok(Callee::Spent);
        }
        match function {
            Value::Closure(c) => return Ok(Callee::Closure(c)),
            Value::Native(n) => return Ok(Callee::Native(n)),
            other => {
                let by = handler(store, &other, Event::Call)?;
                if by.is_nil() {
                    return Ok(Callee::Uncallable(type_of(&other)));
                }
                args.insert(0, other)?;
                function = by;
            }
        }
    }
}
