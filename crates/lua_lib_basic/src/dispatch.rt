//! Calls of the functions of the library: first by their group, then by their place in it.

ghost use Rattle.std.specs.Prelude.{◌≡◌};
ghost use Rattle.lua_lib_base.specs.Results.{IsOutcome};
ghost use Rattle.lua_lib_basic.specs.Meaning.{basic_result, prelude_result, function_result};

use crate::conversions::{tonumber, type_name};
use crate::functions::Function;
use crate::lists::{select, unpack};
use crate::metatables::{getmetatable, setmetatable};
use crate::modules::{globals, module_name, run_modules};
use crate::raw::{rawequal, rawget, rawset};
use crate::traversal::{ipairs, ipairs_step, next, pairs};
use crate::{BasicFunction, PreludeFunction};
use lua_lib_base::{Args, Given, Unanswered};
use lua_values::Store;
use std::alloc::Global;

/// Calls a function.
pub(crate) fn call_function(
    alloc: Global,
    function: Function,
    args: &Args<'_>,
    store: &mut Store,
) -> Result<Given, Unanswered>
    ensures { IsOutcome (function_result function args.now.values.now store.old.heap) store.old result store.new }
{
    match function {
        Function::Basic(function) => call_basic(alloc, function, args, store),
        Function::Prelude(function) => call_prelude(alloc, function, args, store),
    }
}

/// Calls a basic function.
fn call_basic(
    alloc: Global,
    function: BasicFunction,
    args: &Args<'_>,
    store: &mut Store,
) -> Result<Given, Unanswered>
    ensures { IsOutcome (basic_result function args.now.values.now store.old.heap) store.old result store.new }
{
    match function {
        BasicFunction::GetMetatable => getmetatable(alloc, args, store),
        BasicFunction::SetMetatable => setmetatable(alloc, args, store),
        BasicFunction::Ipairs => ipairs(alloc, args),
        BasicFunction::Next => next(alloc, args, store),
        BasicFunction::Pairs => pairs(alloc, args),
        BasicFunction::RawEqual => rawequal(alloc, args),
        BasicFunction::RawGet => rawget(alloc, args, store),
        BasicFunction::RawSet => rawset(alloc, args, store),
        BasicFunction::Select => select(alloc, args),
        BasicFunction::ToNumber => tonumber(alloc, args),
        BasicFunction::TypeName => type_name(alloc, args, store),
        BasicFunction::Unpack => unpack(alloc, args, store),
    }
}

/// Calls a function that the library's own texts alone call.
fn call_prelude(
    alloc: Global,
    function: PreludeFunction,
    args: &Args<'_>,
    store: &mut Store,
) -> Result<Given, Unanswered>
    ensures { IsOutcome (prelude_result function args.now.values.now store.old.heap) store.old result store.new }
{
    match function {
        PreludeFunction::IpairsStep => ipairs_step(alloc, args, store),
        PreludeFunction::Globals => globals(alloc, store),
        PreludeFunction::ModuleName => module_name(alloc, args, store),
        PreludeFunction::RunModules => run_modules(alloc, store),
    }
}
