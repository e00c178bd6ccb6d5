//! What one unit of a program's work takes and gives (this project's profile).

use crate::{Code, Rec};
use arrayvec::ArrayVec;

/// The next record of each input; `None` where that input is at its end, or the program has no such input.
#[derive(Drop)]
pub struct Heads {
    pub first: Option<Rec>,
    pub second: Option<Rec>,
}

/// Where a record goes.
#[derive(Clone, Copy, Default)]
pub enum Output {
    /// Behind the last record of the program's output.
    #[default]
    Main,
    /// Behind the last record of the rejects.
    Rejects,
    /// Over the record at this place of the updated data set, counted from 0.
    InPlace(u32),
}

/// A record that a program writes.
#[derive(Default, Drop)]
pub struct Write {
    pub output: Output,
    pub image: Rec,
}

/// How a step ends.
#[derive(Clone, Copy, PartialEq, Eq)]
pub enum Finish {
    /// With this return code.
    Returned(u16),
    /// Abnormally, with this completion code.
    Abend(Code),
}

/// What one unit of work took and wrote.
#[derive(Drop)]
pub struct UnitDone {
    /// The input of which one record was taken, 1 or 2; 0 for the closing unit, which takes none.
    pub taken: u8,
    pub writes: ArrayVec<Write, 4>,
    pub finish: Option<Finish>,
}

/// What a step is to do next.
#[derive(Clone, Copy, PartialEq, Eq)]
pub enum NextDue {
    /// One more unit of work.
    Unit,
    /// CHKPT.
    Checkpoint,
    /// CHKPT CANCEL.
    Cancel,
    /// Nothing: the step has ended with this return code.
    Finished(u16),
}
