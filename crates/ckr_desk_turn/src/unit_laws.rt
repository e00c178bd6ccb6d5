//! What holds of the next unit of a running step, whichever it is. A law is the contract of a function that does nothing.
ghost use Rattle.std.specs.Prelude.{◌≡◌, ◌≤◌, ◌<◌, ℕ, false, List, length, Some};
ghost use Rattle.ckr_base.specs.declared.code.Code.{Code};
ghost use Rattle.ckr_console.specs.declared.question.Answer.{Answer as OperatorAnswer};
ghost use Rattle.ckr_base.specs.declared.programs.Finish.TheVariants.{Abend, Returned};
ghost use Rattle.ckr_meaning.specs.Program.{records_taken, unit_done as program_unit};
ghost use Rattle.ckr_meaning.specs.StepRun.{StepStart, case_at, work_at};
ghost use Rattle.ckr_desk_turn.specs.Desk.{DeskModel, DeskStep, progress_of, work_of};
ghost use Rattle.ckr_desk_turn.specs.Units.{StepProgress, first_rewrite, no_more_space};
ghost use Rattle.ckr_desk_turn.specs.Invariant.{IsDesk, IsGoing, IsOpen, Keeps, next_writes};

/// The next unit of a running step keeps the desk where its program returns by it, and where a write of it has no space: the run has the
/// code SB37 then, behind the writes that fit.
pub fn last_units_keep_the_desk()
    ensures returning { (answer : OperatorAnswer) (desk : DeskModel) (on : DeskStep) (going : IsGoing desk.office on) (rc : ℕ) → IsDesk desk → progress_of desk on.run ≡ Some on.progress → IsOpen going.start on.progress → next_writes going.start on.progress ≤ length (work_at going.start).writes → (program_unit (case_at going.start) on.progress.taken).finish ≡ Some (Returned rc) → Keeps desk (work_of answer on.run desk) }
    ensures spilling { (answer : OperatorAnswer) (desk : DeskModel) (on : DeskStep) (going : IsGoing desk.office on) → IsDesk desk → progress_of desk on.run ≡ Some on.progress → IsOpen going.start on.progress → length (work_at going.start).writes < next_writes going.start on.progress → Keeps desk (work_of answer on.run desk) }
{}

/// So does one by which UPDATE rewrites a record: the turn tells the rewrite, with the image cut or filled to MASTER's record length.
pub fn rewrites_keep_the_desk()
    ensures { (answer : OperatorAnswer) (desk : DeskModel) (on : DeskStep) (going : IsGoing desk.office on) (at : ℕ × List ℕ) → IsDesk desk → progress_of desk on.run ≡ Some on.progress → IsOpen going.start on.progress → on.progress.taken < records_taken (case_at going.start) → next_writes going.start on.progress ≤ length (work_at going.start).writes → first_rewrite (program_unit (case_at going.start) on.progress.taken).writes.items ≡ Some at → Keeps desk (work_of answer on.run desk) }
{}

/// Whatever the next unit of a running step comes to, it keeps the desk.
pub fn work_keeps_the_desk()
    ensures { (answer : OperatorAnswer) (desk : DeskModel) (run : ℕ) (progress : StepProgress) → IsDesk desk → progress_of desk run ≡ Some progress → progress.closed ≡ false → Keeps desk (work_of answer run desk) }
{}

/// A unit that comes to a code comes to that with which the step's work ends: its program's code, or SB37 where a write of it has no
/// space.
pub fn codes_of_units_are_those_of_the_work()
    ensures abended { (start : StepStart) (progress : StepProgress) (code : Code) → IsOpen start progress → next_writes start progress ≤ length (work_at start).writes → (program_unit (case_at start) progress.taken).finish ≡ Some (Abend code) → (work_at start).finish ≡ Abend code }
    ensures spilled { (start : StepStart) (progress : StepProgress) → IsOpen start progress → length (work_at start).writes < next_writes start progress → (work_at start).finish ≡ Abend no_more_space }
{}
