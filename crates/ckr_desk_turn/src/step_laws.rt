//! What holds of each turn of a run within a step. A law is the contract of a function that does nothing.
ghost use Rattle.std.specs.Prelude.{◌≡◌, ◌≤◌, ◌<◌, ℕ, false, length, Option, None, Some};
ghost use Rattle.ckr_base.specs.declared.code.Code.{Code};
ghost use Rattle.ckr_console.specs.declared.question.Answer.{Answer as OperatorAnswer};
ghost use Rattle.ckr_base.specs.declared.programs.Finish.TheVariants.{Abend};
ghost use Rattle.ckr_meaning.specs.Program.{records_taken, unit_done as program_unit};
ghost use Rattle.ckr_meaning.specs.StepRun.{StepStart, case_at, work_at};
ghost use Rattle.ckr_points.specs.Rows.{RunRow, run_of};
ghost use Rattle.ckr_desk_turn.specs.Desk.{DeskModel, DeskStep, jobs_of, progress_of, seen_from, unit_done, work_of};
ghost use Rattle.ckr_desk_turn.specs.Due.{next_due};
ghost use Rattle.ckr_desk_turn.specs.Jobs.{is_failed, waiting_code};
ghost use Rattle.ckr_desk_turn.specs.Plans.{due_plan, run_plan};
ghost use Rattle.ckr_desk_turn.specs.Turns.{carried_out};
ghost use Rattle.ckr_desk_turn.specs.Units.{StepProgress, abended, first_rewrite, went};
ghost use Rattle.ckr_desk_turn.specs.NextEvents.{IsWithinStep};
ghost use Rattle.ckr_desk_turn.specs.Invariant.{IsDesk, IsGoing, IsOpen, Keeps, next_writes};

/// A turn of an initiator whose run is within a step tells an event that may come and carries what the job gives: restarts are cancelled,
/// the step ends with its return code, a record is rewritten, an entry is written, or the run has a code, one that is given, that of a
/// system failure, that of its program, or SB37: it ends by the rule that denies a restart, or the operator is asked, and by his answer it is
/// restarted, at the start of its step or at its checkpoint in effect, is held, or ends. The desk behind it is as its events have brought it
/// about, also where the turn tells none: behind a unit that rewrites nothing, behind a checkpoint that is suppressed or doesn't fit, and where
/// the operator doesn't answer.
pub fn turns_within_a_step_keep_the_desk()
    ensures { (desk : DeskModel) (row : RunRow) (number committed : ℕ) (start : StepStart) (fail : Option Code) (answer : OperatorAnswer) → IsDesk desk → IsWithinStep desk.office row.number row number committed start → Keeps desk (carried_out answer (run_plan desk.layout (jobs_of desk) fail row) desk) }
{}

/// A turn of a running step that has no code, and waits with none, does what is due in it by its PARM and by how far it has come: the next
/// unit, a checkpoint, the cancel of restarts, or the end of the step with its return code.
pub fn turns_within_a_step_do_what_is_due()
    ensures { (desk : DeskModel) (row : RunRow) (number committed : ℕ) (start : StepStart) (progress : StepProgress) → IsWithinStep desk.office row.number row number committed start → is_failed (jobs_of desk) row.number ≡ false → waiting_code (jobs_of desk) row.number ≡ None → progress_of desk row.number ≡ Some progress
        → run_plan desk.layout (jobs_of desk) None row ≡ due_plan row number (seen_from desk.office row.number progress start) (next_due start progress) }
{}

/// A unit by which a step goes on without a rewrite, or by which it ends with a code of its program, keeps the desk.
pub fn units_keep_the_desk()
    ensures went_on { (desk : DeskModel) (row : RunRow) (progress : StepProgress) (answer : OperatorAnswer) → IsDesk desk → IsGoing desk.office (record { run = row.number; progress = progress; code = None }) → Keeps desk (unit_done answer row (record { unit = went None; progress = progress }) desk) }
    ensures abended_so { (desk : DeskModel) (row : RunRow) (progress : StepProgress) (code : Code) (answer : OperatorAnswer) → IsDesk desk → run_of desk.office.tables row.number ≡ Some row → IsGoing desk.office (record { run = row.number; progress = progress; code = None }) → Keeps desk (unit_done answer row (record { unit = abended code; progress = progress }) desk) }
{}

/// So does the next unit of a running step whose writes fit: one that takes a record and rewrites nothing, and one by which its program
/// ends with a code.
pub fn next_units_keep_the_desk()
    ensures taking { (answer : OperatorAnswer) (desk : DeskModel) (on : DeskStep) (going : IsGoing desk.office on) → IsDesk desk → progress_of desk on.run ≡ Some on.progress → IsOpen going.start on.progress → on.progress.taken < records_taken (case_at going.start) → next_writes going.start on.progress ≤ length (work_at going.start).writes → first_rewrite (program_unit (case_at going.start) on.progress.taken).writes.items ≡ None → Keeps desk (work_of answer on.run desk) }
    ensures ending { (answer : OperatorAnswer) (desk : DeskModel) (on : DeskStep) (going : IsGoing desk.office on) (code : Code) → IsDesk desk → progress_of desk on.run ≡ Some on.progress → next_writes going.start on.progress ≤ length (work_at going.start).writes → (program_unit (case_at going.start) on.progress.taken).finish ≡ Some (Abend code) → Keeps desk (work_of answer on.run desk) }
{}
