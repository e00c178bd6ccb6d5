//! What a step point is made of.

use crate::{MarksInOrder, RunTable};
use ckr_entry::{Marks, PassedList};
use std::alloc::Global;

/// What a step point is made of, so that its making takes no memory.
#[derive(Drop)]
pub struct Spare {
    /// Where memory comes from for what is made beforehand.
    pub alloc: Global,
    /// Where the marks are put in order.
    pub sorted: MarksInOrder,
    /// The marks of the next point, of which there are none yet.
    pub marks: Marks,
    /// What was passed on at the next point.
    pub passed: PassedList,
    /// A run as it goes on that continues another one, made before it is selected.
    pub next: Option<RunTable>,
}
