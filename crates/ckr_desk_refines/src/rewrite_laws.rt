//! What holds of a unit that asks for a rewrite in place, of its event and of the record. A law is the contract of a function that does nothing.
ghost use Rattle.std.specs.Prelude.{◌≡◌, ◌<◌, ℕ, List, None, Some, length, slice_get};
ghost use Rattle.ckr_events.specs.declared.event.Event.{Event};
ghost use Rattle.ckr_desk_memory.specs.Plans.{told_by};
ghost use Rattle.ckr_desk_memory.specs.View.{JobsView, RunningStepView, running_of};
ghost use Rattle.ckr_library.specs.declared.sets.DataSet.{DataSet};
ghost use Rattle.ckr_library.specs.Catalog.{set_of};
ghost use Rattle.ckr_library.specs.NameMaps.{Name};
ghost use Rattle.ckr_desk_refines.specs.Commits.{HasCommitted};
ghost use Rattle.ckr_points.specs.Office.{model_records};
ghost use Rattle.ckr_points.specs.Rows.{RunRow, run_of};
ghost use Rattle.ckr_desk_refines.specs.Rewrite.{AsksToRewrite, IsPutBack};
ghost use Rattle.ckr_desk_refines.specs.RewriteRecord.{HasCommittedAgain, RewriteRecord as RewrittenRecord, rewrite_of};
ghost use Rattle.ckr_desk_refines.specs.Moves.{DiffersAt, HasSameRecords, HaveMoved, IsWritten, event_in};
ghost use Rattle.ckr_desk_refines.specs.Standing.{StandsForDesk};
ghost use Rattle.ckr_steps.specs.declared.files.RecordSource.TheVariants.{InSet};
ghost use Rattle.ckr_steps.specs.declared.step_run.Worked.TheVariants.{Rewrite};
ghost use Rattle.ckr_steps.specs.Writes.{Keeps};
ghost use Rattle.ckr_console.specs.declared.question.Answer.{Answer};
ghost use Rattle.ckr_desk_turn.specs.Desk.{DeskModel, work_of};
ghost use Rattle.ckr_desk_turn.specs.Turns.{MountedTurn};
ghost use Rattle.ckr_volumes.specs.declared.layout.Layout.{Layout};
ghost use Rattle.ckr_volumes.specs.Layouts.{StandsIn};

/// A rewrite is that of a place that the data set has which the step updates, with an image of its record length, and the event of the
/// desk's turn tells it, with how far the step in memory has come.
pub fn rewrites_are_told()
    ensures set { (layout : Layout) (old : JobsView) (before after : List ℕ) (desk : DeskModel) (turn : MountedTurn) (run : ℕ) (on moved : RunningStepView) (place : ℕ) (image : List ℕ) (taken : ℕ) → AsksToRewrite layout old before after desk turn run on moved place image taken
        → (name : Name) × (set : DataSet) × (moved.step.files.first ≡ InSet name) × (set_of moved.sets name ≡ Some set) × (place < set.length) × (length image ≡ set.lrecl) × StandsIn layout set }
    ensures event { (layout : Layout) (old : JobsView) (before after : List ℕ) (desk : DeskModel) (turn : MountedTurn) (run : ℕ) (on moved : RunningStepView) (place : ℕ) (image : List ℕ) (taken : ℕ) (answer : Answer) → AsksToRewrite layout old before after desk turn run on moved place image taken
        → (row : RunRow) → run_of desk.office.tables run ≡ Some row → (work_of answer run desk).event ≡ event_in (told_by layout desk.office.tables row (running_of desk.office.tables moved) (Rewrite place image taken)) }
{}

/// Once the event is kept by the jobs in memory, with the step put back among the running ones, and the record is written on the disk, the
/// jobs in memory stand for the desk behind the unit.
pub fn desks_behind_rewrites_stand()
    ensures stand { (layout : Layout) (old : JobsView) (before after : List ℕ) (desk : DeskModel) (turn : MountedTurn) (run : ℕ) (on moved : RunningStepView) (place : ℕ) (image : List ℕ) (taken : ℕ) (answer : Answer) → AsksToRewrite layout old before after desk turn run on moved place image taken
        → (put moved_on : JobsView) → IsPutBack run moved old put → (event : Event) → (work_of answer run desk).event ≡ Some event → HaveMoved event None put moved_on
        → (told written : List ℕ) → HasSameRecords desk.layout after told → (name : Name) (set : DataSet) → moved.step.files.first ≡ InSet name → set_of moved.sets name ≡ Some set
        → IsWritten layout set place image told written → StandsForDesk layout moved_on written (work_of answer run desk).desk }
{}

/// Before the event is kept, an image that keeps what the step's data sets have has what is committed. Once it is kept, an image has what is
/// committed once the record is written again, whether the record is there or not, and the office behind the event has that record.
pub fn rewrites_are_committed_once_they_are_written()
    ensures again { (layout : Layout) (old : JobsView) (before after : List ℕ) (desk : DeskModel) (turn : MountedTurn) (run : ℕ) (on moved : RunningStepView) (place : ℕ) (image : List ℕ) (taken : ℕ) (answer : Answer) → AsksToRewrite layout old before after desk turn run on moved place image taken
        → (event : Event) → (work_of answer run desk).event ≡ Some event → (told stopped : List ℕ) → HasSameRecords desk.layout after told → (name : Name) (set : DataSet) → moved.step.files.first ≡ InSet name
        → set_of moved.sets name ≡ Some set → DiffersAt layout set place told stopped → HasCommittedAgain desk.layout (work_of answer run desk).desk.office (Some event) stopped }
    ensures before { (layout : Layout) (old : JobsView) (before after : List ℕ) (desk : DeskModel) (turn : MountedTurn) (run : ℕ) (on moved : RunningStepView) (place : ℕ) (image : List ℕ) (taken : ℕ) → AsksToRewrite layout old before after desk turn run on moved place image taken
        → (from stopped : List ℕ) → HasCommitted desk.layout desk.office from → Keeps layout on.sets from stopped → HasCommitted desk.layout desk.office stopped }
    ensures stands { (layout : Layout) (old : JobsView) (before after : List ℕ) (desk : DeskModel) (turn : MountedTurn) (run : ℕ) (on moved : RunningStepView) (place : ℕ) (image : List ℕ) (taken : ℕ) (answer : Answer) → AsksToRewrite layout old before after desk turn run on moved place image taken
        → (event : Event) → (work_of answer run desk).event ≡ Some event → (rewrite : RewrittenRecord) → rewrite_of (work_of answer run desk).desk.office.tables event ≡ Some rewrite
        → slice_get (model_records (work_of answer run desk).desk.office rewrite.name) rewrite.place ≡ Some rewrite.image }
{}
