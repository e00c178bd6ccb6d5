//! What a unit of a running step, or a checkpoint that is suppressed, comes to, in memory and at the desk. A law is the contract of a function that does nothing.
ghost use Rattle.std.specs.Prelude.{◌≡◌, ℕ, List, find, Some, None};
ghost use Rattle.ckr_base.specs.declared.code.Code.{Code};
ghost use Rattle.ckr_console.specs.declared.question.Answer.{Answer};
ghost use Rattle.ckr_base.specs.declared.programs.NextDue.TheVariants.{Unit as OneUnit};
ghost use Rattle.ckr_events.specs.declared.event.Event.{Event};
ghost use Rattle.ckr_desk_memory.specs.EventChanges.{is_of_run};
ghost use Rattle.ckr_desk_memory.specs.Plans.{told_by};
ghost use Rattle.ckr_desk_memory.specs.View.{JobsView, RunningStepView, running_of};
ghost use Rattle.ckr_desk_refines.specs.Commits.{HasCommitted, HasWithinRun};
ghost use Rattle.ckr_meaning.specs.EffectiveJob.{OwnedStep};
ghost use Rattle.ckr_points.specs.Restart.{place_of, step_in};
ghost use Rattle.ckr_points.specs.Rows.{RunRow, run_of, step_of_run};
ghost use Rattle.ckr_desk_refines.specs.Moves.{HasWaited, event_in, reply_in};
ghost use Rattle.ckr_desk_refines.specs.Standing.{StandsForDesk, StandsBut};
ghost use Rattle.ckr_steps.specs.declared.step_run.Worked.{Worked};
ghost use Rattle.ckr_steps.specs.declared.step_run.Worked.TheVariants.{Abend, Went};
ghost use Rattle.ckr_steps.specs.Inputs.{AreThere};
ghost use Rattle.ckr_steps.specs.StepUnit.{HasLooked};
ghost use Rattle.ckr_steps.specs.Units.{due_of};
ghost use Rattle.ckr_steps.specs.Writes.{Keeps};
ghost use Rattle.ckr_desk_turn.specs.Desk.{DeskModel, behind, done_by, jobs_of, work_of};
ghost use Rattle.ckr_desk_turn.specs.Inquiries.{decide, is_ask};
ghost use Rattle.ckr_desk_turn.specs.Turns.{IsMountedTurnOf, MountedTurn, plan_for};
ghost use Rattle.ckr_desk_turn.specs.declared.plan.Plan.TheVariants.{Pass, Wait, Work};
ghost use Rattle.ckr_points.specs.declared.reply.Reply.{Reply};
ghost use Rattle.ckr_volumes.specs.declared.layout.Layout.{Layout};
ghost use Rattle.ckr_desk_refines.specs.Forecast.{IsTold};
ghost use Rattle.ckr_desk_refines.specs.Unit.{HasPassed, IsPutBack, StandsBehindUnit};

/// A turn that works is that of a run within a step of its deck. The step is running in memory, and a unit of it is due.
pub fn running_steps_have_a_unit_due()
    ensures due { (layout : Layout) (jobs : JobsView) (image : List ℕ) (desk : DeskModel) (turn : MountedTurn) (run : ℕ) (on : RunningStepView) → StandsForDesk layout jobs image desk → plan_for desk.layout (jobs_of desk) turn ≡ Work run
        → find (is_of_run run) jobs.running ≡ Some on → due_of on.step.parm on.step.state ≡ OneUnit }
    ensures there { (layout : Layout) (jobs : JobsView) (image : List ℕ) (desk : DeskModel) (turn : MountedTurn) (run : ℕ) → StandsForDesk layout jobs image desk → plan_for desk.layout (jobs_of desk) turn ≡ Work run
        → (on : RunningStepView) × (find (is_of_run run) jobs.running ≡ Some on) }
    ensures within { (layout : Layout) (jobs : JobsView) (image : List ℕ) (desk : DeskModel) (turn : MountedTurn) (run : ℕ) → StandsForDesk layout jobs image desk → plan_for desk.layout (jobs_of desk) turn ≡ Work run
        → (row : RunRow) × (own : OwnedStep) × (run_of desk.office.tables run ≡ Some row) × (step_of_run row (step_in (place_of row)) ≡ Some own) × (row.number ≡ run) }
{}

/// What a turn tells of a unit in memory, with the operator's answer if he is asked, is what the desk tells of the next unit of its job: the step went
/// on, it is to rewrite a record, or it ends with a code. He is asked in memory exactly where the desk asks him.
pub fn turns_that_work_tell_what_the_unit_came_to()
    ensures { (layout : Layout) (old : JobsView) (before after : List ℕ) (desk : DeskModel) (turn : MountedTurn) (run : ℕ) (on moved : RunningStepView) (worked : Worked) (answer : Answer) → StandsBehindUnit layout old before after desk turn run on moved worked
        → (row : RunRow) → run_of desk.office.tables run ≡ Some row
        → let plan = told_by layout desk.office.tables row (running_of desk.office.tables moved) worked in
        (reply_in (decide answer plan) ≡ (work_of answer run desk).reply) × (event_in (decide answer plan) ≡ (work_of answer run desk).event) × (is_ask plan ≡ (work_of answer run desk).asked) }
{}

/// What the answer to a unit foretells before the unit is done, the turn tells behind it: an event of the same kind and run, with as many bytes.
pub fn turns_that_work_tell_what_was_foretold()
    ensures { (layout : Layout) (jobs : JobsView) (image : List ℕ) (desk : DeskModel) (turn : MountedTurn) (run : ℕ) (on : RunningStepView) (worked : Worked) (answer : Answer)
        → StandsForDesk layout jobs image desk → plan_for desk.layout (jobs_of desk) turn ≡ Work run → find (is_of_run run) jobs.running ≡ Some on → AreThere on.step.files on.sets
        → HasLooked (Unit {0}) image layout on.step on.sets worked → (row : RunRow) → run_of desk.office.tables run ≡ Some row
        → (foretold : Event) → event_in (decide answer (told_by layout desk.office.tables row (running_of desk.office.tables on) worked)) ≡ Some foretold → IsTold foretold (work_of answer run desk).event }
{}

/// Where the step goes on and is put back, the jobs in memory stand for the desk behind the unit. Where it ends with a code, they stand for
/// the desk but for that step, the image has what the step has written, and the desk behind the unit is that behind its event, if it tells one;
/// and where the operator doesn't answer and the run waits, they stand for the desk behind the unit. An image that the unit may leave has what
/// the events have committed.
pub fn desks_behind_units_stand()
    ensures went { (layout : Layout) (old : JobsView) (before after : List ℕ) (desk : DeskModel) (turn : MountedTurn) (run : ℕ) (on moved : RunningStepView) (taken : ℕ) (answer : Answer) → StandsBehindUnit layout old before after desk turn run on moved (Went taken)
        → (put : JobsView) → IsPutBack run moved old put → StandsForDesk layout put after (work_of answer run desk).desk }
    ensures ended { (layout : Layout) (old : JobsView) (before after : List ℕ) (desk : DeskModel) (turn : MountedTurn) (run : ℕ) (on moved : RunningStepView) (code : Code) (answer : Answer) → StandsBehindUnit layout old before after desk turn run on moved (Abend code)
        → (put : JobsView) → IsPutBack run moved old put → (event : Event) → (work_of answer run desk).event ≡ Some event
        → StandsBut run layout put after desk × HasWithinRun desk.layout desk.office run moved.step.writes after × ((work_of answer run desk).desk ≡ behind event None desk) }
    ensures waits { (layout : Layout) (old : JobsView) (before after : List ℕ) (desk : DeskModel) (turn : MountedTurn) (run : ℕ) (on moved : RunningStepView) (code : Code) (answer : Answer) → StandsBehindUnit layout old before after desk turn run on moved (Abend code)
        → (put : JobsView) → IsPutBack run moved old put → (row : RunRow) → run_of desk.office.tables run ≡ Some row
        → decide answer (told_by layout desk.office.tables row (running_of desk.office.tables moved) (Abend code)) ≡ Wait run code
        → (waited : JobsView) → HasWaited run code put waited → StandsForDesk layout waited after (work_of answer run desk).desk }
    ensures images { (layout : Layout) (old : JobsView) (before after : List ℕ) (desk : DeskModel) (turn : MountedTurn) (run : ℕ) (on moved : RunningStepView) (worked : Worked) → StandsBehindUnit layout old before after desk turn run on moved worked
        → (from image : List ℕ) → HasCommitted desk.layout desk.office from → Keeps layout on.sets from image → HasCommitted desk.layout desk.office image }
{}

/// Where the checkpoint that is due was suppressed and the running step of its run goes on with it done, the jobs in memory stand for the
/// desk behind it. The disk is as it was (IBM GC28-6708).
pub fn desks_behind_suppressed_checkpoints_stand()
    ensures { (layout : Layout) (old new : JobsView) (image : List ℕ) (desk : DeskModel) (turn : MountedTurn) (run : ℕ) (reply : Reply)
        → StandsForDesk layout old image desk → IsMountedTurnOf desk.layout turn → plan_for desk.layout (jobs_of desk) turn ≡ Pass run reply
        → HasPassed run old new → StandsForDesk layout new image (done_by (Pass run reply) desk).desk }
{}
