//! What the tables keep of a run besides its line.
ghost use Rattle.std.specs.Prelude.{◌≡◌, slice_get};
ghost use Rattle.std.specs.Option.{option_copied};
ghost use Rattle.ckr_points_runs.specs.View.{place_of};

use crate::{EffectiveJob, StepPoints};
use ckr_base::{CheckId, Code, DsName, Name8, RoomyList};
use ckr_entry::{Marks, PassedList};
use ckr_library::Kept;
use ckr_meaning::Place;

/// The return code of a step that has ended.
#[derive(Clone, Copy)]
pub struct ReturnCode {
    /// The number of the step, from 1.
    pub step: u8,
    pub rc: u16,
}

/// What was at the start of a step: behind the opening of its data sets for output and before it made any.
#[derive(Drop)]
pub struct StepPoint {
    /// The number of the step, from 1.
    pub step: u8,
    /// How often the run was restarted here.
    pub restarts: u8,
    /// Whether the run rewrote a record in place since.
    pub rewritten: bool,
    /// How many checkpoint entries the job had written.
    pub count: u32,
    /// The marks of the names of the job.
    pub marks: Marks,
    /// What was passed on and not yet received.
    pub passed: PassedList,
}

/// The checkpoint to which an automatic restart would go back.
#[derive(Drop)]
pub struct InEffect {
    /// The name of the data set that keeps its entry.
    pub set: DsName,
    pub kept: Kept,
    /// How often the run was restarted here.
    pub restarts: u8,
    /// Whether the run rewrote a record in place since.
    pub rewritten: bool,
}

/// A checkpoint entry that a run has written, with its point, the state of the program aside.
#[derive(Drop)]
pub struct WrittenEntry {
    /// The name of the data set into which it was written.
    pub set: DsName,
    /// The identifier that names it.
    pub id: CheckId,
    /// The record of the data set at which it begins, counted from 0.
    pub place: u32,
    /// The name of the job.
    pub job: Name8,
    /// The number of the run, from 1.
    pub run: u32,
    /// The number of the run that owns the step, from 1.
    pub owner: u32,
    /// The number of the step, from 1.
    pub step: u8,
    pub step_name: Name8,
    /// How many checkpoint entries the job had written, this one included.
    pub count: u32,
    /// How many records the step had taken.
    pub taken: u32,
    /// How many writes the step had made.
    pub writes: u32,
    /// The marks of the names of the job.
    pub marks: Marks,
    /// What was passed on and not yet received.
    pub passed: PassedList,
}

/// The entries that a run has written, in the order in which it wrote them.
pub type WrittenEntries = RoomyList<WrittenEntry>;

/// The passed names that a run has lost.
pub type LostNames = Vec<DsName>;

/// How far a run has come, and what a restart of it needs.
#[derive(Drop)]
pub struct RunTable {
    /// Its job: the steps that it has taken over from earlier runs, and those of its own deck.
    pub job: EffectiveJob,
    /// Where it is; None before it is selected. It stays once the run has ended.
    pub place: Option<Place>,
    /// The code with which it waits for a restart.
    pub code: Option<Code>,
    /// How many checkpoint entries the job has written.
    pub count: u32,
    /// The return codes of the steps that have ended, in their order.
    pub codes: RoomyList<ReturnCode>,
    /// What was passed on and not yet received.
    pub passed: PassedList,
    /// The names among these that it has lost.
    pub lost: LostNames,
    /// The step points, in ascending order of the steps.
    pub points: StepPoints,
    pub in_effect: Option<InEffect>,
}

/// What the tables keep of the run at a place, from 0. None exactly where there is no such run.
pub fn table_at(tables: &[RunTable], place: usize) -> Option<&RunTable>
    ensures { option_copied result ≡ slice_get tables.now place }
{
    tables.get(place)
}

/// The place of a run by its number, which is from 1 on. None exactly for 0.
pub fn place_of(job: u32) -> Option<usize>
    ensures { result ≡ place_of job }
{
    if job == 0 {
        None
    } else {
        Some(job as usize - 1)
    }
}
