//! The frames of a thread.

use crate::{Frame, Lists, Op, Signal, Stack};
use std::alloc::Global;

/// The calls of a thread that haven't ended: those that wait below the innermost one, and that one. `given` is what its innermost
/// item takes next; `asked` is what was asked of the outside last.
#[derive(Drop)]
pub struct Frames {
    pub alloc: Global,
    pub below: Stack,
    pub top: Frame,
    pub given: Signal,
    pub asked: Option<Op>,
    pub lists: Lists,
}
