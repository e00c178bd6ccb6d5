//! Which turns restart a run, what automatic restarts do to the desk, and the holds of runs that wait for them. A law is the contract of a function that does nothing.
ghost use Rattle.std.specs.Prelude.{◌≡◌, ◌≤◌, ◌⊎◌, ℕ, Bool, true, false, None, Some};
ghost use Rattle.std.specs.Option.{is_some};
ghost use Rattle.arrayvec.specs.ArrayVec.{ArrayVec};
ghost use Rattle.ckr_base.specs.declared.code.Code.{Code};
ghost use Rattle.ckr_console.specs.declared.question.Answer.{Answer as OperatorAnswer};
ghost use Rattle.ckr_console.specs.declared.question.Answer.TheVariants.{Hold, No, Silent, Yes};
ghost use Rattle.ckr_base.specs.declared.programs.NextDue.TheVariants.{Checkpoint as CheckpointDue, Finished as FinishedStep};
ghost use Rattle.ckr_events.specs.declared.event.Event.TheVariants.{Ended as EndedEvent, Held as HeldEvent, Restarted as RestartedEvent};
ghost use Rattle.ckr_events.specs.declared.event.Ending.TheVariants.{Coded as CodedEnding};
ghost use Rattle.ckr_meaning.specs.EffectiveJob.{OwnedStep};
ghost use Rattle.ckr_meaning.specs.StepRun.{StepStart};
ghost use Rattle.ckr_meaning.specs.declared.place.Place.TheVariants.{Opened, Within};
ghost use Rattle.ckr_points.specs.Events.{IsNext};
ghost use Rattle.ckr_points.specs.Follows.{is_free, own_step};
ghost use Rattle.ckr_points.specs.Marks.{point_at};
ghost use Rattle.ckr_points.specs.Office.{Leg, Office, leg_of, office_after};
ghost use Rattle.ckr_points.specs.Rows.{EntryPoint, KeptEntry, RunRow, StartPoint, run_of};
ghost use Rattle.ckr_points_invariant.specs.KeptEvents.{AreKept};
ghost use Rattle.ckr_points_invariant.specs.Restorability.{StandsAt};
ghost use Rattle.ckr_rules.specs.RuleTables.{rule_number};
ghost use Rattle.ckr_rules.specs.declared.cases.Rule.{Rule as RuleOfTable};
ghost use Rattle.ckr_rules.specs.declared.cases.Rule.TheVariants.{A6};
ghost use Rattle.ckr_rules.specs.declared.cases.Verdict.TheVariants.{Checkpoint as AtCheckpoint, Denied as DeniedBy, Step as AtStep};
ghost use Rattle.ckr_volumes.specs.declared.layout.Layout.{Layout as LayoutOfDisk};
ghost use Rattle.ckr_points.specs.declared.reply.Reply.TheVariants.{AwaitingReply};
ghost use Rattle.ckr_desk_turn.specs.declared.taking.Taking.TheVariants.{Awaited};
ghost use Rattle.ckr_desk_turn.specs.Codes.{asked_at_entry, asked_at_start, ended_by, initiator_of, reached_by, running_reached, verdict_for};
ghost use Rattle.ckr_desk_turn.specs.Desk.{DeskModel, answered, at_entry, behind, done_by, jobs_of, progress_of, seen, unit_done, with_progress};
ghost use Rattle.ckr_desk_turn.specs.Due.{next_due};
ghost use Rattle.ckr_desk_turn.specs.Invariant.{IsDesk, IsGoing};
ghost use Rattle.ckr_desk_turn.specs.Jobs.{effect_entry, is_failed};
ghost use Rattle.ckr_desk_turn.specs.Plans.{run_plan, start_plan};
ghost use Rattle.ckr_desk_turn.specs.Restarts.{GoesOnBy, HasCode, IsJudged, IsJudgedOff, restart_of};
ghost use Rattle.ckr_desk_turn.specs.Turns.{MountedTurn, turn_of};
ghost use Rattle.ckr_desk_turn.specs.Units.{StepProgress, abended};

/// The turn of a run that has a code within a step, that of the system failure, the one with which it waits or one that is given, comes to what
/// the rules say: the run ends by the rule that denies its restart, or the operator is asked whether it may be restarted on its initiator, at
/// the start of its step or at its checkpoint in effect, of which there is the entry. So it is, too, where the next unit of its step comes to
/// such a code, however far the step had come.
pub fn codes_come_to_what_the_rules_say()
    ensures asked { (desk : DeskModel) (one : MountedTurn) (row : RunRow) (code : Code) (answer : OperatorAnswer) → HasCode desk one.turn row code → verdict_for desk.layout row code ≡ AtStep
        → turn_of desk one answer ≡ answered answer (asked_at_start row one.turn.initiator true code (reached_by (jobs_of desk) row)) desk }
    ensures asked_at { (desk : DeskModel) (one : MountedTurn) (row : RunRow) (code : Code) (entry : KeptEntry) (answer : OperatorAnswer) → HasCode desk one.turn row code → verdict_for desk.layout row code ≡ AtCheckpoint → effect_entry desk.office.tables row ≡ Some entry
        → turn_of desk one answer ≡ answered answer (asked_at_entry row one.turn.initiator true code (reached_by (jobs_of desk) row) entry) desk }
    ensures denied { (desk : DeskModel) (one : MountedTurn) (row : RunRow) (code : Code) (rule : RuleOfTable) (answer : OperatorAnswer) → HasCode desk one.turn row code → verdict_for desk.layout row code ≡ DeniedBy rule
        → turn_of desk one answer ≡ done_by (ended_by row code rule (reached_by (jobs_of desk) row)) desk }
    ensures unit { (desk : DeskModel) (row : RunRow) (progress : StepProgress) (code : Code) (answer : OperatorAnswer) → verdict_for desk.layout row code ≡ AtStep
        → let moved = with_progress row.number progress desk in unit_done answer row (record { unit = abended code; progress = progress }) desk ≡ answered answer (asked_at_start row (initiator_of row) true code (running_reached (seen moved.office row.number progress))) moved }
    ensures unit_at { (desk : DeskModel) (row : RunRow) (progress : StepProgress) (code : Code) (entry : KeptEntry) (answer : OperatorAnswer) → verdict_for desk.layout row code ≡ AtCheckpoint → effect_entry desk.office.tables row ≡ Some entry
        → let moved = with_progress row.number progress desk in unit_done answer row (record { unit = abended code; progress = progress }) desk ≡ answered answer (asked_at_entry row (initiator_of row) true code (running_reached (seen moved.office row.number progress)) entry) moved }
{}

/// What a turn comes to rests on the operator's answer where he was asked: a run is restarted only where he said yes, is held only where he said
/// hold, ends by the sixth rule only where he said no, and waits only where he was silent, or hasn't answered whether a volume of its step may be
/// mounted. Where he wasn't asked, nothing rests on him. Of a restart that a deck asks for he isn't asked: the deferred rules decide
/// (`deferred_restarts_are_judged`).
pub fn turns_rest_on_the_operators_answer()
    ensures restarted { (desk : DeskModel) (one : MountedTurn) (answer : OperatorAnswer) (job initiator : ℕ) (code : Code) (checkpoint : Bool) → (turn_of desk one answer).event ≡ Some (RestartedEvent job initiator code checkpoint)
        → ((turn_of desk one answer).asked ≡ true) × (answer ≡ Yes) }
    ensures held { (desk : DeskModel) (one : MountedTurn) (answer : OperatorAnswer) (job writes : ℕ) (code : Code) (lengths : ArrayVec ℕ) → (turn_of desk one answer).event ≡ Some (HeldEvent job code writes lengths)
        → ((turn_of desk one answer).asked ≡ true) × (answer ≡ Hold) }
    ensures refused { (desk : DeskModel) (one : MountedTurn) (answer : OperatorAnswer) (job writes : ℕ) (code : Code) (lengths : ArrayVec ℕ) → IsDesk desk → 1 ≤ one.turn.initiator → one.turn.initiator ≤ desk.layout.initiators
        → (turn_of desk one answer).event ≡ Some (EndedEvent job (CodedEnding code (rule_number A6) writes lengths)) → ((turn_of desk one answer).asked ≡ true) × (answer ≡ No) }
    ensures waits { (desk : DeskModel) (one : MountedTurn) (answer : OperatorAnswer) → (turn_of desk one answer).reply ≡ AwaitingReply
        → (one.taking ≡ Awaited) ⊎ (((turn_of desk one answer).asked ≡ true) × (answer ≡ Silent)) }
    ensures unasked { (desk : DeskModel) (one : MountedTurn) (answer other : OperatorAnswer) → (turn_of desk one answer).asked ≡ false → turn_of desk one other ≡ turn_of desk one answer }
{}

/// Where the rules restart a run with a code, the event of its restart may come and carries what the job gives: at the start of its step, or
/// at its checkpoint in effect. The run is on an initiator within its step: its step is running, or it is marked since the system failed. Or it
/// was released, and goes on on an initiator that has no run. This is so over any events that are kept and ready for restarts, whatever the
/// form of the decks.
pub fn events_of_restarts_may_come()
    ensures step { (layout : LayoutOfDisk) (office : Office) (row : RunRow) (initiator : ℕ) (code : Code) → AreKept layout office → IsJudged layout office row initiator code AtStep → IsNext layout office (restart_of row initiator code false, None) }
    ensures checkpoint { (layout : LayoutOfDisk) (office : Office) (row : RunRow) (initiator : ℕ) (code : Code) → AreKept layout office → IsJudged layout office row initiator code AtCheckpoint → IsNext layout office (restart_of row initiator code true, None) }
    ensures step_off { (layout : LayoutOfDisk) (office : Office) (row : RunRow) (initiator : ℕ) (code : Code) → AreKept layout office → IsJudgedOff layout office row code AtStep → is_free layout office.tables initiator ≡ true
        → IsNext layout office (restart_of row initiator code false, None) }
    ensures checkpoint_off { (layout : LayoutOfDisk) (office : Office) (row : RunRow) (initiator : ℕ) (code : Code) → AreKept layout office → IsJudgedOff layout office row code AtCheckpoint → is_free layout office.tables initiator ≡ true
        → IsNext layout office (restart_of row initiator code true, None) }
{}

/// A desk that restarts a run so, at the start of its step or at its checkpoint in effect, is as its events have brought it about.
pub fn restarts_keep_the_desk()
    ensures step { (desk : DeskModel) (row : RunRow) (initiator : ℕ) (code : Code) → IsDesk desk → IsJudged desk.layout desk.office row initiator code AtStep → GoesOnBy desk (restart_of row initiator code false) }
    ensures checkpoint { (desk : DeskModel) (row : RunRow) (initiator : ℕ) (code : Code) → IsDesk desk → IsJudged desk.layout desk.office row initiator code AtCheckpoint → GoesOnBy desk (restart_of row initiator code true) }
{}

/// Behind its restart a run stands at the point. The tables have of the names in its reach, and of its passed list, what its job has
/// there, and the entries are counted from the point on. So no disposition of the step was processed. There is such a point: that of the
/// start of the step, or the entry of the checkpoint in effect, which its data set keeps.
pub fn restarted_runs_stand_at_their_point()
    ensures begun { (layout : LayoutOfDisk) (office : Office) (row : RunRow) (initiator : ℕ) (code : Code) → AreKept layout office → (its : IsJudged layout office row initiator code AtStep) → is_some (point_at row.points its.number) ≡ true }
    ensures step { (layout : LayoutOfDisk) (office : Office) (row : RunRow) (initiator : ℕ) (code : Code) (leg : Leg) (point : StartPoint) → AreKept layout office → (its : IsJudged layout office row initiator code AtStep)
        → leg_of office row.number ≡ Some leg → point_at row.points its.number ≡ Some point → StandsAt (office_after (restart_of row initiator code false, None) office) row.number leg (Opened its.number) point.count }
    ensures entered { (layout : LayoutOfDisk) (office : Office) (row : RunRow) (initiator : ℕ) (code : Code) → AreKept layout office → IsJudged layout office row initiator code AtCheckpoint → is_some (effect_entry office.tables row) ≡ true }
    ensures checkpoint { (layout : LayoutOfDisk) (office : Office) (row : RunRow) (initiator : ℕ) (code : Code) (leg : Leg) (entry : KeptEntry) → AreKept layout office → (its : IsJudged layout office row initiator code AtCheckpoint)
        → leg_of office row.number ≡ Some leg → effect_entry office.tables row ≡ Some entry → StandsAt (office_after (restart_of row initiator code true, None) office) row.number leg (Within its.number entry.point.writes) entry.point.count }
{}

/// A run that is restarted isn't marked any more. At the start of its step it has no running step, and its next turn starts the step again.
/// At its checkpoint its step goes on behind the records taken and the writes that the entry tells: this checkpoint isn't due once more, nor is the
/// end of the step.
pub fn restarted_runs_go_on()
    ensures unmarked { (desk : DeskModel) (job initiator : ℕ) (code : Code) (checkpoint : Bool) → is_failed (jobs_of (behind (RestartedEvent job initiator code checkpoint) None desk)) job ≡ false }
    ensures stopped { (desk : DeskModel) (job initiator : ℕ) (code : Code) → progress_of (behind (RestartedEvent job initiator code false) None desk) job ≡ None }
    ensures starts { (desk : DeskModel) (row : RunRow) (initiator : ℕ) (code : Code) (next : RunRow) (owned : OwnedStep) → AreKept desk.layout desk.office → (its : IsJudged desk.layout desk.office row initiator code AtStep)
        → run_of (behind (restart_of row initiator code false) None desk).office.tables row.number ≡ Some next → own_step row ≡ Some owned
        → run_plan desk.layout (jobs_of (behind (restart_of row initiator code false) None desk)) None next ≡ start_plan desk.layout (jobs_of (behind (restart_of row initiator code false) None desk)) next owned its.number }
    ensures going { (layout : LayoutOfDisk) (office : Office) (row : RunRow) (initiator : ℕ) (code : Code) (entry : KeptEntry) → AreKept layout office → IsJudged layout office row initiator code AtCheckpoint → effect_entry office.tables row ≡ Some entry
        → IsGoing (office_after (restart_of row initiator code true, None) office) (at_entry row.number entry.point) }
    ensures progress { (desk : DeskModel) (row : RunRow) (initiator : ℕ) (code : Code) (entry : KeptEntry) → run_of desk.office.tables row.number ≡ Some row → effect_entry desk.office.tables row ≡ Some entry
        → progress_of (behind (restart_of row initiator code true) None desk) row.number ≡ Some (at_entry row.number entry.point).progress }
    ensures served { (start : StepStart) (job : ℕ) (point : EntryPoint) → next_due start (at_entry job point).progress ≡ CheckpointDue → ⊥ }
    ensures unfinished { (start : StepStart) (job : ℕ) (point : EntryPoint) (rc : ℕ) → next_due start (at_entry job point).progress ≡ FinishedStep rc → ⊥ }
{}

/// A run that is held has no running step any more, and isn't marked.
pub fn held_runs_stop()
    ensures stopped { (desk : DeskModel) (job writes : ℕ) (code : Code) (lengths : ArrayVec ℕ) → progress_of (behind (HeldEvent job code writes lengths) None desk) job ≡ None }
    ensures unmarked { (desk : DeskModel) (job writes : ℕ) (code : Code) (lengths : ArrayVec ℕ) → is_failed (jobs_of (behind (HeldEvent job code writes lengths) None desk)) job ≡ false }
{}
