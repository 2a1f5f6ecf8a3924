//! The values of a Lua program, the store in which they live, and the functions of the host that work on both. Whoever
//! stands on this crate speaks of a store as lists (`specs/Heap.antt`), and of each call as one equation between them
//! (`specs/StoreCalls.antt`).
#![tactic(auto)]

mod closures;
mod faults;
mod flags;
mod freezable;
mod kinds;
mod laws;
mod natives;
mod outlines;
mod pairs;
mod shifts;
mod store;
mod tables;
mod values;

pub use faults::StoreFault;
pub use kinds::{TypeKind, TypeMetatables};
pub use laws::{
    border_is_least, both_are_lawful, reads_fit, same_is_equal, still_fits, writes_keep_fitting,
};
pub use natives::{Both, NativeOut, Natives};
pub use shifts::Shift;
pub use store::{BYTES_OF_A_STEP, STEP_LIMIT, Store, TEXT_UNITS};
pub use values::{ObjectKind, Value, Values};
