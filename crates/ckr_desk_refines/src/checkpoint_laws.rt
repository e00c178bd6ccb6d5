//! What holds of a checkpoint that is taken, in memory, on the disk and at the desk. A law is the contract of a function that does nothing.
ghost use Rattle.std.specs.Prelude.{◌≡◌, ◌≤◌, ℕ, List, None, Some, false};
ghost use Rattle.ckr_entry.specs.declared.point.State.{State};
ghost use Rattle.ckr_entry.specs.Entry.{IsEntry, spelling};
ghost use Rattle.ckr_events.specs.declared.event.Event.{Event};
ghost use Rattle.ckr_meaning.specs.Program.{ProgramCase};
ghost use Rattle.ckr_meaning.specs.States.{StandsFor};
ghost use Rattle.ckr_meaning.specs.StepRun.{StepStart};
ghost use Rattle.ckr_points.specs.Rows.{RunRow};
ghost use Rattle.ckr_desk_memory.specs.Checkpoints.{IsCheckpointOf};
ghost use Rattle.ckr_desk_memory.specs.Model.Checkpoint.{Checkpoint};
ghost use Rattle.ckr_desk_memory.specs.EntryModels.{IsAsFar};
ghost use Rattle.ckr_desk_memory.specs.EntryTypes.{IsTyped};
ghost use Rattle.ckr_desk_memory.specs.View.{JobsView, RunningStepView};
ghost use Rattle.ckr_desk_refines.specs.Checkpoints.{IsStepOf, IsToTake, IsWrittenBehind};
ghost use Rattle.ckr_desk_refines.specs.Commits.{HasCommitted};
ghost use Rattle.ckr_desk_refines.specs.Entries.{AreWithin, HasEntries};
ghost use Rattle.ckr_desk_refines.specs.Moves.{HasSameRecords, HaveMoved};
ghost use Rattle.ckr_desk_refines.specs.Standing.{StandsForDesk, StandsForStep};
ghost use Rattle.ckr_desk_refines.specs.Unit.{HasPassed};
ghost use Rattle.ckr_steps.specs.EntryRecords.{HasEntry};
ghost use Rattle.ckr_desk_turn.specs.Checkpoints.{checkpoint_fits, next_entry};
ghost use Rattle.ckr_desk_turn.specs.Desk.{DeskModel, DeskStep, progress_of};
ghost use Rattle.ckr_desk_turn.specs.EntryForms.{IsStateForm};
ghost use Rattle.ckr_desk_turn.specs.EntryStates.{at_checkpoint};
ghost use Rattle.ckr_desk_turn.specs.Invariant.{IsDesk, IsGoing};
ghost use Rattle.ckr_desk_turn.specs.Turns.{MountedTurn};
ghost use Rattle.ckr_desk_turn.specs.Taken.{taken_of};
ghost use Rattle.ckr_desk_turn.specs.Units.{StepProgress};
ghost use Rattle.ckr_volumes.specs.declared.layout.Layout.{Layout};

/// A running step in memory is as far as its job says, with the lengths of its outputs and with the state of its program. So the entry of its
/// next checkpoint is that of its job. The state in it has the form of its program's states, where its keys and records are as their types have
/// them.
pub fn steps_that_stand_are_as_far()
    ensures form { (state : State) (case : ProgramCase) (taken entries : ℕ) → StandsFor state case taken → IsTyped state → 1 ≤ taken → 1 ≤ entries → IsStateForm taken (at_checkpoint entries state) }
    ensures far { (desk : DeskModel) (image : List ℕ) (on : RunningStepView) (step : DeskStep) (going : IsGoing desk.office step) → IsDesk desk → StandsForStep desk.layout desk.office image on step → on.code ≡ None → IsAsFar desk.office.tables going.row going.start on step.progress }
{}

/// Where the checkpoint that is due doesn't fit, and the running step of its run goes on with it done, the jobs in memory stand for the desk
/// behind it. Where it fits, they stand for it once the records of the entry are written and the jobs have gone on by its event (IBM GC28-6708).
pub fn desks_behind_checkpoints_stand()
    ensures unwritten { (layout : Layout) (old new : JobsView) (image : List ℕ) (desk : DeskModel) (turn : MountedTurn) (run : ℕ) (on : RunningStepView) → IsToTake layout old image desk turn run on
        → (row : RunRow) (start : StepStart) (progress : StepProgress) → IsStepOf desk.office run row start → progress_of desk run ≡ Some progress → checkpoint_fits desk.office.tables.sets row start progress ≡ false
        → HasPassed run old new → StandsForDesk layout new image (taken_of run desk).desk }
    ensures written { (layout : Layout) (old new : JobsView) (before written after : List ℕ) (desk : DeskModel) (turn : MountedTurn) (run count : ℕ) (on : RunningStepView) → IsToTake layout old before desk turn run on
        → (event : Event) → (taken_of run desk).event ≡ Some event → IsWrittenBehind layout desk.office run count before written → HaveMoved event None old new → HasSameRecords desk.layout written after
        → StandsForDesk layout new after (taken_of run desk).desk }
{}

/// The checkpoint that the jobs in memory make for the running step is that of the desk: its event is that of the turn, and its entry that of the
/// step as its job has it.
pub fn checkpoints_in_memory_are_those_of_the_desk()
    ensures event { (layout : Layout) (jobs : JobsView) (image : List ℕ) (desk : DeskModel) (turn : MountedTurn) (run : ℕ) (on : RunningStepView) → IsToTake layout jobs image desk turn run on
        → (made : Checkpoint) → IsCheckpointOf desk.office.tables on made → (taken_of run desk).event ≡ Some made.event }
    ensures entry { (layout : Layout) (jobs : JobsView) (image : List ℕ) (desk : DeskModel) (turn : MountedTurn) (run : ℕ) (on : RunningStepView) → IsToTake layout jobs image desk turn run on
        → (made : Checkpoint) → IsCheckpointOf desk.office.tables on made → (row : RunRow) (start : StepStart) (progress : StepProgress) → IsStepOf desk.office run row start → progress_of desk run ≡ Some progress
        → made.entry.items ≡ spelling (next_entry desk.office.tables.sets row start progress) }
{}

/// An image with records of the entry, and without its event, has what the events have committed, and the entries that the tables keep. With
/// the event it has what that commits too, and where it has all records of the entry, the entries that the tables keep then.
pub fn entries_are_committed_with_their_event()
    ensures before { (layout : Layout) (jobs : JobsView) (image : List ℕ) (desk : DeskModel) (turn : MountedTurn) (run count : ℕ) (on : RunningStepView) → IsToTake layout jobs image desk turn run on → (event : Event) → (taken_of run desk).event ≡ Some event
        → (from stopped : List ℕ) → HasCommitted desk.layout desk.office from → IsWrittenBehind layout desk.office run count from stopped → HasCommitted desk.layout desk.office stopped }
    ensures entries { (layout : Layout) (jobs : JobsView) (image : List ℕ) (desk : DeskModel) (turn : MountedTurn) (run count : ℕ) (on : RunningStepView) → IsToTake layout jobs image desk turn run on → (event : Event) → (taken_of run desk).event ≡ Some event
        → (from stopped : List ℕ) → AreWithin desk.office.tables.sets → HasEntries desk.layout desk.office from → IsWrittenBehind layout desk.office run count from stopped → HasEntries desk.layout desk.office stopped }
    ensures behind { (layout : Layout) (jobs : JobsView) (before written : List ℕ) (desk : DeskModel) (turn : MountedTurn) (run count : ℕ) (on : RunningStepView) → IsToTake layout jobs before desk turn run on → (event : Event) → (taken_of run desk).event ≡ Some event
        → IsWrittenBehind layout desk.office run count before written → (image : List ℕ) → HasSameRecords desk.layout written image → HasCommitted desk.layout (taken_of run desk).desk.office image }
    ensures kept { (layout : Layout) (jobs : JobsView) (before written : List ℕ) (desk : DeskModel) (turn : MountedTurn) (run count : ℕ) (on : RunningStepView) → IsToTake layout jobs before desk turn run on → (event : Event) → (taken_of run desk).event ≡ Some event
        → (behind : IsWrittenBehind layout desk.office run count before written) → (image : List ℕ) (progress : StepProgress) → progress_of desk run ≡ Some progress → IsEntry (next_entry desk.office.tables.sets behind.row behind.start progress)
        → HasEntry image desk.layout behind.set behind.table.set.length (spelling (next_entry desk.office.tables.sets behind.row behind.start progress)) → HasEntries desk.layout desk.office image → HasEntries desk.layout (taken_of run desk).desk.office image }
{}
