//! What the entries of the jobs in memory are to the model of the events. A law is the contract of a function that does nothing.
ghost use Rattle.std.specs.Prelude.{◌≡◌, ◌&&◌, ℕ, if◌then◌else◌, Some, None};
ghost use Rattle.ckr_library.specs.NameMaps.{Name, entry_at};
ghost use Rattle.ckr_meaning.specs.StepRun.{StepStart};
ghost use Rattle.ckr_points.specs.Rows.{RunRow, TableSet, TablesModel};
ghost use Rattle.ckr_points_tables.specs.Checkpoint.{checkpoint_name};
ghost use Rattle.ckr_desk_turn.specs.Checkpoints.{check_set, checkpoint_event, checkpoint_fits, entry_ending, next_entry as next_of_job};
ghost use Rattle.ckr_desk_turn.specs.Units.{StepProgress};
ghost use Rattle.ckr_desk_plans.specs.Checkpoints.{event_in_set};
ghost use Rattle.ckr_desk_plans.specs.Entries.{entry_to, is_written, next_entry};
ghost use Rattle.ckr_desk_plans.specs.EntryModels.{HasCheckRecords, IsAsFar};
ghost use Rattle.ckr_desk_plans.specs.StepView.{RunningStepView};

/// Where a running step is as far as its job says, its next entry is that of its job, wherever it ends, and it goes into the same data set.
pub fn entries_are_those_of_the_job()
    ensures entry { (tables : TablesModel) (row : RunRow) (start : StepStart) (on : RunningStepView) (progress : StepProgress) (most : ℕ) → IsAsFar tables row start on progress
        → entry_to (check_set start) most tables row start.owned on ≡ entry_ending most tables.sets row start progress }

    // It is made where the checkpoint fits, if the passed list is short, the identifier is in its grammar and the data set has records of
    // 256 bytes.
    ensures fits { (tables : TablesModel) (row : RunRow) (start : StepStart) (on : RunningStepView) (progress : StepProgress) → IsAsFar tables row start on progress → HasCheckRecords tables.sets start
        → next_entry tables row start.owned on ≡ (if checkpoint_fits tables.sets row start progress && is_written (next_of_job tables.sets row start progress) then Some (next_of_job tables.sets row start progress) else None) }

    // Its event is that of the job's checkpoint.
    ensures event { (tables : TablesModel) (row : RunRow) (start : StepStart) (on : RunningStepView) (progress : StepProgress) (check : Name) (table : TableSet) → IsAsFar tables row start on progress
        → check_set start ≡ Some check → entry_at tables.sets check ≡ Some table → event_in_set tables row start.owned on check table ≡ checkpoint_event tables.sets row start progress }
    ensures set { (row : RunRow) (start : StepStart) → row.job.root ≡ start.root → checkpoint_name row.job.root start.owned ≡ check_set start }
{}
