//! What holds of checkpoints and of the cancel of restarts. A law is the contract of a function that does nothing.
ghost use Rattle.std.specs.Prelude.{◌≡◌, ℕ, suc, true, false, ◌&&◌, not, length, None, Some};
ghost use Rattle.std.specs.List.{AllByRecursion};
ghost use Rattle.std.specs.Option.{option_map};
ghost use Rattle.arrayvec.specs.ArrayVec.{ArrayVec};
ghost use Rattle.ckr_console.specs.declared.question.Answer.{Answer as OperatorAnswer};
ghost use Rattle.ckr_base.specs.declared.programs.NextDue.TheVariants.{Checkpoint as CheckpointDue, Cancel as CancelDue};
ghost use Rattle.ckr_entry.specs.declared.point.State.{State};
ghost use Rattle.ckr_entry.specs.Entry.{IsEntry, spelling};
ghost use Rattle.ckr_entry.specs.Parts.{Entry};
ghost use Rattle.ckr_events.specs.declared.event.Event.TheVariants.{Cancelled as CancelledEvent, Checkpointed as CheckpointedEvent};
ghost use Rattle.ckr_library.specs.NameMaps.{Name};
ghost use Rattle.ckr_meaning.specs.declared.place.Place.TheVariants.{Within};
ghost use Rattle.ckr_meaning.specs.LibrarySet.{AreWithinSpace};
ghost use Rattle.ckr_meaning.specs.Program.{ProgramCase};
ghost use Rattle.ckr_meaning.specs.States.{StandsFor};
ghost use Rattle.ckr_meaning.specs.StepRun.{StepStart};
ghost use Rattle.ckr_points.specs.Events.{IsNext};
ghost use Rattle.ckr_points.specs.Office.{Leg, Office, office_after};
ghost use Rattle.ckr_points.specs.Restart.{kept_at, place_of};
ghost use Rattle.ckr_points.specs.RuleCases.{rd_in_effect};
ghost use Rattle.ckr_points.specs.Rows.{EffectPoint, KeptEntry, RunRow, TablesModel, run_of};
ghost use Rattle.ckr_points_invariant.specs.Invariant.{IsKept};
ghost use Rattle.ckr_points_invariant.specs.Points.{ArePointed};
ghost use Rattle.ckr_programs.specs.Due.{is_cancel_count, is_checkpoint_count};
ghost use Rattle.ckr_rules.specs.RuleTables.{suppresses};
ghost use Rattle.ckr_volumes.specs.declared.layout.Layout.{Layout as LayoutOfDisk};
ghost use Rattle.ckr_desk_turn.specs.Checkpoints.{HasRow, MayCheckpoint, check_set, checkpoint_turn, entry_bytes, written_entry, entry_with, written_event, is_in_range, next_id, office_behind};
ghost use Rattle.ckr_desk_turn.specs.Desk.{DeskModel, DeskStep, behind, cancel_done, checkpoint_done, jobs_of, progress_of};
ghost use Rattle.ckr_desk_turn.specs.Due.{next_due};
ghost use Rattle.ckr_desk_turn.specs.EntryForms.{IsEntryForm};
ghost use Rattle.ckr_desk_turn.specs.EntryStates.{at_checkpoint, checkpoint_state};
ghost use Rattle.ckr_desk_turn.specs.Invariant.{HasRuns, IsDesk, IsGoing, Keeps};
ghost use Rattle.ckr_desk_turn.specs.Jobs.{is_failed, step_name_of, waiting_code};
ghost use Rattle.ckr_desk_turn.specs.NextEvents.{EventComes, IsWithinStep};
ghost use Rattle.ckr_desk_turn.specs.Plans.{run_plan, suppressed_plan};
ghost use Rattle.ckr_desk_turn.specs.Taken.{taken_of};
ghost use Rattle.ckr_desk_turn.specs.Turns.{carried_out};
ghost use Rattle.ckr_desk_turn.specs.Units.{StepProgress};

/// At a count of records that is a multiple of CHK a checkpoint is due exactly once, before the next unit, and at no other count: also past
/// CANCEL's count, and where restarts were cancelled at this one.
pub fn checkpoints_are_due_once()
    ensures due { (start : StepStart) (progress : StepProgress) → progress.closed ≡ false → progress.checkpointed ≡ false → is_checkpoint_count start.owned.step.parm progress.taken ≡ true → next_due start progress ≡ CheckpointDue }
    ensures only { (start : StepStart) (progress : StepProgress) → next_due start progress ≡ CheckpointDue → is_checkpoint_count start.owned.step.parm progress.taken ≡ true }
    ensures once { (start : StepStart) (tables : TablesModel) (row : RunRow) (progress : StepProgress) → next_due start (checkpoint_turn tables row start progress).progress ≡ CheckpointDue → ⊥ }
{}

/// A cancel is due once, at CANCEL's count, and behind a checkpoint that is due there.
pub fn cancels_are_due_behind_checkpoints()
    ensures due { (start : StepStart) (progress : StepProgress) → progress.closed ≡ false → progress.cancelled ≡ false → is_cancel_count start.owned.step.parm progress.taken ≡ true
        → (is_checkpoint_count start.owned.step.parm progress.taken && not progress.checkpointed) ≡ false → next_due start progress ≡ CancelDue }
    ensures only { (start : StepStart) (progress : StepProgress) → next_due start progress ≡ CancelDue → (is_cancel_count start.owned.step.parm progress.taken && not (is_checkpoint_count start.owned.step.parm progress.taken && not progress.checkpointed)) ≡ true }
    ensures behind { (start : StepStart) (tables : TablesModel) (row : RunRow) (progress : StepProgress) → next_due start progress ≡ CheckpointDue → is_cancel_count start.owned.step.parm progress.taken ≡ true → progress.cancelled ≡ false
        → next_due start (checkpoint_turn tables row start progress).progress ≡ CancelDue }
    ensures once { (start : StepStart) (progress : StepProgress) → next_due start (cancel_done progress) ≡ CancelDue → ⊥ }
{}

/// The turn of a run in whose step a checkpoint is due, and which waits with no code, is the one by which it is taken, whatever its RD. Where
/// RD suppresses it, the turn that is planned comes to the same: CHKPT 00 SUPPRESSED, no event, and the checkpoint is done. The replies name
/// the step as its job starts it.
pub fn checkpoints_that_are_due_are_taken()
    ensures turn { (desk : DeskModel) (row : RunRow) (number committed : ℕ) (start : StepStart) (progress : StepProgress) (answer : OperatorAnswer) → IsDesk desk → IsWithinStep desk.office row.number row number committed start → is_failed (jobs_of desk) row.number ≡ false
        → waiting_code (jobs_of desk) row.number ≡ None → progress_of desk row.number ≡ Some progress → next_due start progress ≡ CheckpointDue → carried_out answer (run_plan desk.layout (jobs_of desk) None row) desk ≡ taken_of row.number desk }
    ensures planned { (desk : DeskModel) (on : DeskStep) (going : IsGoing desk.office on) (answer : OperatorAnswer) → IsDesk desk → progress_of desk on.run ≡ Some on.progress → suppresses (rd_in_effect going.row going.start.number) ≡ true
        → carried_out answer (suppressed_plan going.row) desk ≡ taken_of on.run desk }
    ensures named { (desk : DeskModel) (on : DeskStep) (going : IsGoing desk.office on) → IsDesk desk → step_name_of going.row ≡ going.start.owned.step.name }
{}

/// The event of a checkpoint that fits may come and carries what its job gives, and so does that of a cancel. So a turn that serves a
/// checkpoint of a step that isn't closed tells such an event, or none.
pub fn events_of_checkpoints_may_come()
    ensures turn { (desk : DeskModel) (run : ℕ) (progress : StepProgress) (going : IsGoing desk.office (record { run = run; progress = progress; code = None })) → IsKept desk.layout desk.office
        → AllByRecursion (λ (leg : Leg). AreWithinSpace leg.start) desk.office.legs → progress.closed ≡ false → EventComes desk (checkpoint_turn desk.office.tables going.row going.start progress).event }
    ensures checkpointed { (layout : LayoutOfDisk) (office : Office) (step : DeskStep) (may : MayCheckpoint layout office step) → IsNext layout office (written_event layout office step may, None) }
    ensures cancelled { (layout : LayoutOfDisk) (office : Office) (row : RunRow) (number committed : ℕ) (start : StepStart) → IsWithinStep office row.number row number committed start → IsNext layout office (CancelledEvent row.number, None) }
{}

/// Behind either event the events stay kept, and each point says what its run's job has at that place.
pub fn checkpoints_leave_kept_events()
    ensures checkpointed { (layout : LayoutOfDisk) (office : Office) (step : DeskStep) (may : MayCheckpoint layout office step) → IsKept layout (office_behind layout office step may) }
    ensures cancelled { (layout : LayoutOfDisk) (office : Office) (row : RunRow) (number committed : ℕ) (start : StepStart) → IsWithinStep office row.number row number committed start → IsKept layout office → IsKept layout (office_after (CancelledEvent row.number, None) office) }
    ensures points { (layout : LayoutOfDisk) (office : Office) (step : DeskStep) (may : MayCheckpoint layout office step) → ArePointed office → ArePointed (office_behind layout office step may) }
    ensures points_left { (layout : LayoutOfDisk) (office : Office) (row : RunRow) (number committed : ℕ) (start : StepStart) → IsWithinStep office row.number row number committed start → IsKept layout office → ArePointed office → ArePointed (office_after (CancelledEvent row.number, None) office) }
{}

/// A checkpoint that is taken in a running step which isn't closed keeps the desk, under any RD: an entry is written, or it doesn't fit, or
/// it is suppressed. It is done then at this count of records. Behind the event of an entry the runs are still such as a desk has, and what
/// the step has written is committed.
pub fn checkpoints_keep_the_desk()
    ensures taken { (desk : DeskModel) (run : ℕ) (progress : StepProgress) → IsDesk desk → progress_of desk run ≡ Some progress → progress.closed ≡ false → Keeps desk (taken_of run desk) }
    ensures done { (desk : DeskModel) (on : DeskStep) (going : IsGoing desk.office on) → IsDesk desk → progress_of desk on.run ≡ Some on.progress → progress_of (taken_of on.run desk).desk on.run ≡ Some (checkpoint_done on.progress) }
    ensures runs { (layout : LayoutOfDisk) (office : Office) (job taken writes place bytes : ℕ) (id : Name) (lengths : ArrayVec ℕ) → IsKept layout office → HasRuns office → IsNext layout office (CheckpointedEvent job id taken writes lengths place bytes, None)
        → HasRuns (office_after (CheckpointedEvent job id taken writes lengths place bytes, None) office) }
    ensures committed { (layout : LayoutOfDisk) (office : Office) (step : DeskStep) (may : MayCheckpoint layout office step)
        → HasRow (office_behind layout office step may) step.run (λ (row : RunRow). place_of row ≡ Within may.going.number step.progress.writes) }
{}

/// A cancel withdraws the checkpoint in effect, and the entries that were written stay. It is done then at its count of records.
pub fn cancels_withdraw_checkpoints()
    ensures withdrawn { (office : Office) (row : RunRow) → run_of office.tables row.number ≡ Some row → HasRow (office_after (CancelledEvent row.number, None) office) row.number (λ (next : RunRow). next.in_effect ≡ None) }
    ensures entries { (office : Office) (job : ℕ) → (office_after (CancelledEvent job, None) office).tables.sets ≡ office.tables.sets }
    ensures done { (desk : DeskModel) (run : ℕ) (progress : StepProgress) → progress_of desk run ≡ Some progress → progress_of (behind (CancelledEvent run) None desk) run ≡ Some (cancel_done progress) }
{}

/// Behind a checkpoint that was written the run has written one entry more, and behind a cancel as many as before. The entry has the number of
/// bytes that its event tells.
pub fn written_entries_count()
    ensures count { (layout : LayoutOfDisk) (office : Office) (step : DeskStep) (may : MayCheckpoint layout office step) → HasRow (office_behind layout office step may) step.run (λ (row : RunRow). row.count ≡ suc may.going.row.count) }
    ensures left { (office : Office) (row : RunRow) → run_of office.tables row.number ≡ Some row → HasRow (office_after (CancelledEvent row.number, None) office) row.number (λ (next : RunRow). next.count ≡ row.count) }
    ensures bytes { (layout : LayoutOfDisk) (office : Office) (step : DeskStep) (may : MayCheckpoint layout office step)
        → length (spelling (written_entry layout office step may)) ≡ entry_bytes office.tables.sets may.going.row may.going.start step.progress }
{}

/// The data set for checkpoints keeps the entry then, with its point, and the entry is in effect.
pub fn written_entries_are_kept()
    ensures kept { (layout : LayoutOfDisk) (office : Office) (step : DeskStep) (may : MayCheckpoint layout office step) (set : Name) → check_set may.going.start ≡ Some set
        → option_map (λ (entry : KeptEntry). entry_with entry.kept.id (written_entry layout office step may).state entry.point) (kept_at (office_behind layout office step may).tables.sets set (next_id may.going.row may.going.start))
        ≡ Some (written_entry layout office step may) }
    ensures in_effect { (layout : LayoutOfDisk) (office : Office) (step : DeskStep) (may : MayCheckpoint layout office step)
        → HasRow (office_behind layout office step may) step.run (λ (row : RunRow). option_map (λ (effect : EffectPoint). effect.kept.id) row.in_effect ≡ Some (next_id may.going.row may.going.start)) }
{}

/// The state in an entry is that of its program behind the records taken, with the checkpoint done and counted, whichever program it is.
pub fn entries_have_the_state_of_the_program()
    ensures { (state : State) (case : ProgramCase) (taken entries : ℕ) → StandsFor state case taken → at_checkpoint entries state ≡ checkpoint_state case taken entries }
{}

/// An entry whose parts are such as their types have them has a spelling exactly where its numbers are in the ranges that a checkpoint asks
/// for: where code 08 comes for one of them, there is no entry of that point.
pub fn entries_in_range_have_a_spelling()
    ensures spelled { (entry : Entry) → IsEntryForm entry → is_in_range entry ≡ true → IsEntry entry }
    ensures ranges { (entry : Entry) → IsEntry entry → is_in_range entry ≡ true }
{}
