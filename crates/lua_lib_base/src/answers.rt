//! What a function of the library gives, and how each of its calls is counted and answered.

ghost use Rattle.std.specs.Prelude.{◌≡◌, ◌+◌, ◌-◌, ◌^◌, List, [], ◌∷◌, min, IfOk};
ghost use Rattle.lua_values.specs.declared.values.Value.{Value as LuaValue};
ghost use Rattle.lua_values.specs.Heap.{StoreView, step_limit};
ghost use Rattle.lua_values.specs.NativeCalls.{Answers};
ghost use Rattle.lua_lib_base.specs.Work.{no_work, texts_length};
ghost use Rattle.lua_lib_base.specs.Results.{LibraryResult, IsOutcome, steps_of_gift, steps_of_refusal, counted};

use crate::{Args, Refusal, Work, texts_length};
use lua_operators::Fault;
use lua_values::{BYTES_OF_A_STEP, NativeOut, Store, StoreFault, Value, Values};
use std::alloc::{AllocError, AllocFailed, Global};

/// How many tests of a pattern one step pays for.
const TESTS_OF_A_STEP: u64 = 16;

/// The values that a function gives, and its work.
#[derive(Debug, Drop)]
pub struct Given {
    pub values: Values,
    pub work: Work,
}

impl Given {
    /// These values, without work; takes no memory.
    pub fn of(values: Vec<Value>) -> Given
        ensures values { result.values ≡ values.items }
        ensures work { result.work ≡ no_work }
    {
        Given {
            values: Values::of(values),
            work: Work::none(),
        }
    }

    /// One value, without work.
    pub fn one(alloc: Global, value: Value) -> Result<Given, AllocError>
        ensures values { IfOk result (λ given. given.values ≡ value ∷ []) }
        ensures work { IfOk result (λ given. given.work ≡ no_work) }
    {
        Ok(Given::of(vec![in alloc; value]?))
    }
}

/// Why a function gives no values.
#[derive(Debug, Drop)]
pub enum Unanswered {
    /// It fails, with the work that it did.
    Refused(Refusal, Work),
    /// Its answer is left to the outside.
    Left,
    /// Out of memory.
    Memory,
}

impl From<Refusal> for Unanswered {
    ghost use Rattle.std.specs.Prelude.{◌≡◌};
    ghost use Rattle.lua_lib_base.specs.declared.answers.Unanswered.TheVariants.{Refused};
    ghost use Rattle.lua_lib_base.specs.Work.{no_work};

    ghost from_gives = { λ refusal unanswered. unanswered ≡ Refused refusal no_work };

    fn from(refusal: Refusal) -> Unanswered {
        Unanswered::Refused(refusal, Work::none())
    }
}

impl From<AllocError> for Unanswered {
    ghost use Rattle.std.specs.Prelude.{◌≡◌};
    ghost use Rattle.lua_lib_base.specs.declared.answers.Unanswered.TheVariants.{Memory};

    ghost from_gives = { λ _ unanswered. unanswered ≡ Memory };

    fn from(_error: AllocError) -> Unanswered {
        Unanswered::Memory
    }
}

impl<T: Drop> From<AllocFailed<T>> for Unanswered {
    ghost use Rattle.std.specs.Prelude.{◌≡◌};
    ghost use Rattle.lua_lib_base.specs.declared.answers.Unanswered.TheVariants.{Memory};

    ghost from_gives = { λ _ unanswered. unanswered ≡ Memory };

    fn from(_error: AllocFailed<T>) -> Unanswered {
        Unanswered::Memory
    }
}

impl From<StoreFault> for Unanswered {
    ghost use Rattle.std.specs.Prelude.{◌≡◌};
    ghost use Rattle.lua_lib_base.specs.Results.{unanswered_by};

    ghost from_gives = { λ fault unanswered. unanswered ≡ unanswered_by fault };

    fn from(fault: StoreFault) -> Unanswered {
        match fault {
            StoreFault::Full => Unanswered::from(Refusal::Fault(Fault::StorageLimit)),
            StoreFault::Frozen => Unanswered::from(Refusal::Fault(Fault::FrozenTable)),
            StoreFault::BadKey => Unanswered::from(Refusal::Fault(Fault::NilKey)),
            StoreFault::Memory => Unanswered::Memory,
        }
    }
}

/// Counts the steps of a call, and gives what the machine is told of it. Where these reach the limit, the values don't matter.
pub fn answer(
    alloc: Global,
    args: &Args<'_>,
    outcome: Result<Given, Unanswered>,
    store: &mut Store,
) -> NativeOut
    ensures { (meant : LibraryResult) → (before : StoreView) → IsOutcome meant before outcome store.old
        → Answers (counted args.now.name.now args.now.values.now meant) before result store.new }
{
    let taken = texts_length(args.values);
    match outcome {
        Ok(given) => {
            let Given { values, work } = given;
            count_gift(store, taken, work);
            NativeOut::Values(values)
        }
        Err(Unanswered::Refused(refusal, work)) => {
            count_refusal(store, taken, work);
            match refusal.into_text(alloc, args.name) {
                Ok(text) => NativeOut::Fault(Value::Text(text)),
                Err(_) => NativeOut::Memory,
            }
        }
        Err(Unanswered::Left) => {
            store.add_steps(taken / BYTES_OF_A_STEP);
            NativeOut::Outside
        }
        Err(Unanswered::Memory) => NativeOut::Memory,
    }
}

/// Counts a call that gives values: all texts that it takes and makes, its tests, and the values that are counted one by one.
fn count_gift(store: &mut Store, taken: u64, work: Work)
    ensures { (args : List LuaValue) → taken ≡ min (texts_length args) (2 ^ 64 - 1)
        → store.new ≡ record { heap = store.old.heap; steps = min step_limit (store.old.steps + steps_of_gift args work) } }
{
    let all_taken = taken.saturating_add(work.taken);
    let bytes = all_taken.saturating_add(work.made);
    store.add_steps(bytes / BYTES_OF_A_STEP);
    store.add_steps(work.tests / TESTS_OF_A_STEP);
    store.add_steps(work.given);
}

/// Counts a call that is refused: the texts that it takes and its tests, and nothing that it would have made.
fn count_refusal(store: &mut Store, taken: u64, work: Work)
    ensures { (args : List LuaValue) → taken ≡ min (texts_length args) (2 ^ 64 - 1)
        → store.new ≡ record { heap = store.old.heap; steps = min step_limit (store.old.steps + steps_of_refusal args work) } }
{
    let bytes = taken.saturating_add(work.taken);
    store.add_steps(bytes / BYTES_OF_A_STEP);
    store.add_steps(work.tests / TESTS_OF_A_STEP);
}
