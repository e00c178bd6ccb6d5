//! The entry of the next checkpoint of a running step.
ghost use Rattle.std.specs.Prelude.{◌≡◌, IfOk, IfSome, Some};
ghost use Rattle.std.specs.List.{AllByRecursion};
ghost use Rattle.ckr_entry.specs.Entry.{spelling};
ghost use Rattle.ckr_entry.specs.Parts.{entry_of};
ghost use Rattle.ckr_meaning.specs.EffectiveJob.{OwnedStep};
ghost use Rattle.ckr_points.specs.Rows.{run_of, step_of_run, RunRow};
ghost use Rattle.ckr_desk_plans.specs.Model.StepUnit.{AreCounted};
ghost use Rattle.ckr_desk_turn.specs.Checkpoints.{id_in};
ghost use Rattle.ckr_desk_plans.specs.Entries.{entry_made, next_entry, next_id, step_now};
ghost use Rattle.ckr_desk_plans.specs.EntryTypes.{IsFormedWithState, IsTyped};
ghost use Rattle.ckr_desk_memory.specs.Invariant.{IsAcceptedRow};
ghost use Rattle.ckr_desk_memory.specs.Parts.{step_seen};

use crate::{Jobs, RunningStep};
use ckr_base::{CheckId, NoMemory};
use ckr_desk_plans::{NextEntry, id_of, next_of, place_of};
use ckr_points::step_in;
use ckr_points_tables::step_at;

impl Jobs {
    /// The identifier of the entry that the next checkpoint of a running step writes: `C` and seven digits, or IDS and a number, by the entries
    /// that were written (IBM GC28-6708). `None` where its run or its step isn't there, or where the text isn't in the grammar of identifiers.
    pub fn next_id(&self, on: &RunningStep) -> Option<CheckId>
        requires { AllByRecursion IsAcceptedRow self.now.tables.desk.runs }
        ensures { (row : RunRow) (own : OwnedStep) → run_of self.now.tables.desk on.now.run ≡ Some row → step_of_run row (step_now row) ≡ Some own → result ≡ id_in (next_id row own) }
    {
        let table = self.known(on.run)?;
        let own = step_at(&table.job, on.run, step_in(place_of(table)))?;
        id_of(table, own.step)
    }

    /// The entry that the next checkpoint of a running step writes behind the last record of its data set for checkpoints, with its bytes: its
    /// marks are those of the data sets behind it, and of names that the run's own steps don't use those that it carries over (IBM GC28-6708). `None` where it doesn't fit: the data set isn't there, has records of
    /// another length than 256 bytes or no space for the entry's, or keeps one of its identifier; or a number is out of its range, the
    /// identifier isn't in its grammar, or 65,536 names or more were passed on (this project's profile). Nothing changes. It is an entry that is
    /// read back, where its state has the form of its program's states.
    ///
    /// `NoMemory`: there is none for the entry.
    pub fn next_entry(&self, on: &RunningStep) -> Result<Option<NextEntry>, NoMemory>
        requires rows { AllByRecursion IsAcceptedRow self.now.tables.desk.runs }
        requires counted { AreCounted on.now.step }
        ensures entry { (row : RunRow) (own : OwnedStep) → run_of self.now.tables.desk on.now.run ≡ Some row → step_of_run row (step_now row) ≡ Some own → IfOk result (λ found. entry_made found ≡ next_entry self.now.tables.desk row own (step_seen on.now)) }
        ensures bytes { IfOk result (λ found. IfSome found (λ made. made.bytes.items ≡ spelling (entry_of made.point))) }
        ensures typed { IfOk result (λ found. IfSome found (λ _. IsTyped on.now.step.state)) }
        ensures form { IfOk result (λ found. IfSome found (λ made. IsFormedWithState (entry_of made.point))) }
    {
        let Some(table) = self.known(on.run) else {
            return Ok(None);
        };
        let Some(own) = step_at(&table.job, on.run, step_in(place_of(table))) else {
            return Ok(None);
        };
        let _lines = self.tables.runs();
        next_of(self.alloc, self.tables.library(), table, &own, on)
    }
}
