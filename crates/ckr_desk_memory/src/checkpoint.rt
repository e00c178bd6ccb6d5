//! The next checkpoint of a running step.
ghost use Rattle.std.specs.Prelude.{◌≡◌, true, None, Some, IfOk, IfSome, find};
ghost use Rattle.std.specs.List.{AllByRecursion};
ghost use Rattle.std.specs.Option.{is_some};
ghost use Rattle.ckr_entry.specs.Entry.{spelling};
ghost use Rattle.ckr_entry.specs.Parts.{entry_of};
ghost use Rattle.ckr_meaning.specs.EffectiveJob.{OwnedStep};
ghost use Rattle.ckr_points.specs.Follows.{follows};
ghost use Rattle.ckr_points.specs.Rows.{run_of, step_of_run, RunRow};
ghost use Rattle.ckr_desk_plans.specs.Model.StepUnit.{AreCounted};
ghost use Rattle.ckr_volumes.specs.declared.layout.Layout.{Layout as LayoutOfDisk};
ghost use Rattle.ckr_desk_turn.specs.Queue.{AreNumbered};
ghost use Rattle.ckr_points.specs.declared.reply.Reply.TheVariants.{Checkpointed as CheckpointedReply};
ghost use Rattle.ckr_desk_turn.specs.Spelling.{IsSpelled};
ghost use Rattle.ckr_desk_memory.specs.Checkpoints.{HasEntrySpace, HasLayout, IsCheckpointOf};
ghost use Rattle.ckr_desk_plans.specs.Entries.{next_entry, next_id, step_now};
ghost use Rattle.ckr_desk_turn.specs.Checkpoints.{id_in};
ghost use Rattle.ckr_desk_plans.specs.EntryTypes.{IsFormedWithState, IsTyped};
ghost use Rattle.ckr_desk_memory.specs.EventChanges.{is_of_run};
ghost use Rattle.ckr_desk_memory.specs.Invariant.{AreJobs, IsAcceptedRow};
ghost use Rattle.ckr_desk_memory.specs.OwnSets.{CommitsItsOwn};
ghost use Rattle.ckr_desk_memory.specs.OwnSteps.{HoldTheirOwn};
ghost use Rattle.ckr_desk_memory.specs.Parts.{step_seen};

use crate::{Jobs, RunningStep};
use ckr_base::NoMemory;
use ckr_desk_plans::{Checkpoint, NextEntry, checkpoint_of, id_of, place_of};
use ckr_desk_turn::{Chkpt, Reply};
use ckr_points::step_in;
use ckr_points_tables::{checkpoint_name, step_at};

impl Jobs {
    /// The checkpoint that is due in a running step, where it fits: its entry goes behind the last record of the step's data set for
    /// checkpoints, and its event commits what the step has written (IBM GC28-6708). `None` exactly where `next_entry` has none. Nothing
    /// changes.
    ///
    /// `NoMemory`: there is none for the entry.
    pub fn next_checkpoint(&self, on: &RunningStep) -> Result<Option<Checkpoint>, NoMemory>
        requires jobs { HasLayout self.now }
        requires counted { AreCounted on.now.step }
        ensures fits { (row : RunRow) (own : OwnedStep) → run_of self.now.tables.desk on.now.run ≡ Some row → step_of_run row (step_now row) ≡ Some own
            → IfOk result (λ found. is_some found ≡ is_some (next_entry self.now.tables.desk row own (step_seen on.now))) }
        ensures checkpoint { IfOk result (λ found. IfSome found (IsCheckpointOf self.now.tables.desk (step_seen on.now))) }
        ensures spelled { IfOk result (λ found. IfSome found (λ made. IsSpelled made.event)) }
        ensures set { (layout : LayoutOfDisk) → AreJobs layout self.now → IfOk result (λ found. IfSome found (HasEntrySpace layout)) }

        // Where the jobs hold their own, the event of the step follows, whatever the disk reads, and commits what the step has.
        ensures follows { (layout : LayoutOfDisk) → AreJobs layout self.now → HoldTheirOwn self.now → find (is_of_run on.now.run) self.now.running ≡ Some (step_seen on.now)
            → IfOk result (λ found. IfSome found (λ made. follows layout self.now.tables.desk made.event None ≡ true)) }
        ensures commits { HoldTheirOwn self.now → find (is_of_run on.now.run) self.now.running ≡ Some (step_seen on.now)
            → IfOk result (λ found. IfSome found (λ made. CommitsItsOwn made.event self.now.tables.desk self.now.running)) }
    {
        match self.next_entry(on)? {
            Some(made) => Ok(self.checkpoint_with(on, made)),
            None => Ok(None),
        }
    }

    /// The reply to the checkpoint of a running step, with its code and with the identifier of the entry that it writes or would write
    /// (IBM GC28-6708). Where its run or its step isn't there it is that nothing is to do.
    pub fn checkpoint_reply(&self, on: &RunningStep, code: Chkpt) -> Reply
        requires { AllByRecursion IsAcceptedRow self.now.tables.desk.runs }
        ensures { (row : RunRow) (own : OwnedStep) → run_of self.now.tables.desk on.now.run ≡ Some row → step_of_run row (step_now row) ≡ Some own → result ≡ CheckpointedReply row.number own.step.name code (id_in (next_id row own)) }
    {
        let Some(table) = self.known(on.run) else {
            return Reply::Idle;
        };
        let Some(own) = step_at(&table.job, on.run, step_in(place_of(table))) else {
            return Reply::Idle;
        };
        Reply::Checkpointed {
            job: on.run,
            step: own.step.name.copied(),
            code,
            id: id_of(table, own.step),
        }
    }

    /// The checkpoint of the next entry. `None` where its run or its step isn't there.
    fn checkpoint_with(&self, on: &RunningStep, made: NextEntry) -> Option<Checkpoint>
        requires jobs { HasLayout self.now }
        requires entry { (row : RunRow) (own : OwnedStep) → run_of self.now.tables.desk on.now.run ≡ Some row → step_of_run row (step_now row) ≡ Some own → Some (entry_of made.point) ≡ next_entry self.now.tables.desk row own (step_seen on.now) }
        requires bytes { made.bytes.items ≡ spelling (entry_of made.point) }
        requires typed { IsTyped on.now.step.state }
        requires form { IsFormedWithState (entry_of made.point) }
        ensures some { (row : RunRow) (own : OwnedStep) → run_of self.now.tables.desk on.now.run ≡ Some row → step_of_run row (step_now row) ≡ Some own → is_some result ≡ true }
        ensures checkpoint { IfSome result (IsCheckpointOf self.now.tables.desk (step_seen on.now)) }
        ensures spelled { IfSome result (λ made. IsSpelled made.event) }
        ensures numbered { AreNumbered 1 self.now.tables.desk.runs }
    {
        let table = self.known(on.run)?;
        let own = step_at(&table.job, on.run, step_in(place_of(table)))?;
        let check = checkpoint_name(table.job.root(), &own)?;
        let set = self.tables.library().get(&check)?;
        Some(checkpoint_of(on, table, &check, set, made))
    }
}
