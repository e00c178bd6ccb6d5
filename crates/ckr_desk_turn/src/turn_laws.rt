//! The desk behind a turn of an initiator whose run isn't within a step, and behind the other calls. A law is the contract of a function
//! that does nothing.
ghost use Rattle.std.specs.Prelude.{◌≡◌, ◌≤◌, ℕ, suc, true, false, List, ◌∷◌, length, Option, None, Some, Ok, Err};
ghost use Rattle.std.specs.List.{AllByRecursion};
ghost use Rattle.ckr_points_library.specs.declared.cause.Refusal.{Refusal as RefusalOfDd};
ghost use Rattle.ckr_base.specs.declared.code.Code.{Code};
ghost use Rattle.ckr_console.specs.declared.question.Answer.{Answer as OperatorAnswer};
ghost use Rattle.ckr_events.specs.declared.event.Event.TheVariants.{Ended as EndedEvent, Selected as SelectedEvent, Submitted as SubmittedEvent};
ghost use Rattle.ckr_events.specs.declared.event.Ending.{Ending as EndingOfRun};
ghost use Rattle.ckr_events.specs.declared.event.Made.{Made as MadePart};
ghost use Rattle.ckr_jcl.specs.declared.deck.Job.{Job as JobOfDeck};
ghost use Rattle.ckr_jcl_decks.specs.Deck.{stored_deck};
ghost use Rattle.ckr_library.specs.NameMaps.{Name as NameOfSet, entry_at};
ghost use Rattle.ckr_meaning.specs.EffectiveJob.{OwnedStep, is_among};
ghost use Rattle.ckr_meaning.specs.JobRun.{job_run};
ghost use Rattle.ckr_points.specs.Office.{Leg, cut_of, leg_of, plain_leg};
ghost use Rattle.ckr_points.specs.declared.run.RunState.TheVariants.{Held, Queued};
ghost use Rattle.ckr_points.specs.Follows.{is_within, own_step};
ghost use Rattle.ckr_points.specs.Payload.{carries};
ghost use Rattle.ckr_points.specs.Restart.{place_of, step_in};
ghost use Rattle.ckr_points.specs.Rows.{RunRow, run_of};
ghost use Rattle.ckr_points_invariant.specs.Invariant.{AreAlike, IsFree, IsKept};
ghost use Rattle.ckr_desk_turn.specs.Cards.{kept_of_stored};
ghost use Rattle.ckr_desk_turn.specs.Allocation.{allocation_of};
ghost use Rattle.ckr_desk_turn.specs.Select.{run_on_initiator};
ghost use Rattle.ckr_desk_turn.specs.Desk.{DeskModel, jobs_of, purged as purged_desk, released as released_desk, submitted as submitted_desk};
ghost use Rattle.ckr_desk_turn.specs.Turns.{AnsweredTurn, BeginsOn, IsAnsweredTurnOf, IsMountedTurnOf, MountedTurn, carried_out, desk_after, turn_of};
ghost use Rattle.ckr_desk_turn.specs.Plans.{between_plan, free_plan, run_plan, start_plan};
ghost use Rattle.ckr_desk_turn.specs.NextEvents.{EventComes};
ghost use Rattle.ckr_desk_turn.specs.Invariant.{IsDesk, Keeps};

/// A turn of an initiator that no run is on keeps the desk: a queued run is selected, a released one goes on, ends, is held again or stays
/// released by the operator's answer, or none may be selected, or there is nothing to fail. So does the turn by which a run ends behind its
/// last step, and the one by which it ends since a DD of its next step isn't allocated.
pub fn desks_behind_turns_between_steps()
    ensures selected { (desk : DeskModel) (i : ℕ) (fail : Option Code) (answer : OperatorAnswer) → IsDesk desk → 1 ≤ i → i ≤ desk.layout.initiators → run_on_initiator desk.office.tables i ≡ None
        → Keeps desk (carried_out answer (free_plan desk.layout (jobs_of desk) i fail) desk) }
    ensures completed { (desk : DeskModel) (i : ℕ) (row : RunRow) (answer : OperatorAnswer) → IsDesk desk → run_on_initiator desk.office.tables i ≡ Some row → is_within (place_of row) ≡ false → own_step row ≡ None
        → Keeps desk (carried_out answer (between_plan desk.layout (jobs_of desk) row (step_in (place_of row))) desk) }
    ensures refused { (desk : DeskModel) (i : ℕ) (row : RunRow) (owned : OwnedStep) (refusal : RefusalOfDd) (answer : OperatorAnswer) → IsDesk desk → run_on_initiator desk.office.tables i ≡ Some row → is_within (place_of row) ≡ false → own_step row ≡ Some owned
        → allocation_of desk.layout row owned (step_in (place_of row)) desk.office.tables ≡ Err refusal
        → Keeps desk (carried_out answer (start_plan desk.layout (jobs_of desk) row owned (step_in (place_of row))) desk) }
{}

/// The event of an accepted deck carries what its job gives. The desk behind it, and the desk behind a queued run that is purged, or behind a
/// held one that is released, are as their events have brought them about. An event keeps at least one card, and the number of its run has at
/// most seven digits.
pub fn desks_behind_calls()
    ensures carried { (desk : DeskModel) (cards kept : List ℕ) (deck : JobOfDeck) → suc (length desk.office.tables.runs) ≤ 9999999 → stored_deck cards ≡ Ok deck → carries desk.layout desk.office (SubmittedEvent (suc (length desk.office.tables.runs)) kept) (Some deck) ≡ true }
    ensures submitted { (desk : DeskModel) (cards : List ℕ) (first : ℕ) (kept : List ℕ) (deck : JobOfDeck) → IsDesk desk → suc (length desk.office.tables.runs) ≤ 9999999 → stored_deck cards ≡ Ok deck
        → IsDesk (submitted_desk (first ∷ kept) deck desk) }
    ensures kept_so { (desk : DeskModel) (cards : List ℕ) (deck : JobOfDeck) → IsDesk desk → suc (length desk.office.tables.runs) ≤ 9999999 → 81 ≤ length cards → stored_deck cards ≡ Ok deck → IsDesk (submitted_desk (kept_of_stored cards) deck desk) }
    ensures purged { (desk : DeskModel) (job : ℕ) (row : RunRow) → IsDesk desk → run_of desk.office.tables job ≡ Some row → row.state ≡ Queued → IsDesk (purged_desk job desk) }
    ensures released { (desk : DeskModel) (job : ℕ) (row : RunRow) → IsDesk desk → run_of desk.office.tables job ≡ Some row → row.state ≡ Held → IsDesk (released_desk job desk) }
{}

/// So does the turn by which a step starts: the parts that its allocation gives are those of the DDs that make their data sets, each
/// data set stands in the layout and lies apart from all others, and no return code bypasses the step. So any turn of an initiator whose
/// run isn't within a step keeps the desk.
pub fn desks_behind_steps_that_start()
    ensures started { (desk : DeskModel) (i : ℕ) (row : RunRow) (owned : OwnedStep) (items : List MadePart) (answer : OperatorAnswer) → IsDesk desk → run_on_initiator desk.office.tables i ≡ Some row → is_within (place_of row) ≡ false → own_step row ≡ Some owned
        → allocation_of desk.layout row owned (step_in (place_of row)) desk.office.tables ≡ Ok items
        → Keeps desk (carried_out answer (start_plan desk.layout (jobs_of desk) row owned (step_in (place_of row))) desk) }
    ensures between { (desk : DeskModel) (i : ℕ) (row : RunRow) (fail : Option Code) (answer : OperatorAnswer) → IsDesk desk → run_on_initiator desk.office.tables i ≡ Some row → is_within (place_of row) ≡ false
        → Keeps desk (carried_out answer (run_plan desk.layout (jobs_of desk) fail row) desk) }
{}

/// Each turn of an initiator of the layout keeps the desk, whatever becomes of the volumes that its step wants, and whatever the operator answers.
pub fn turns_keep_the_desk()
    ensures { (desk : DeskModel) (one : MountedTurn) (answer : OperatorAnswer) → IsDesk desk → IsMountedTurnOf desk.layout one → Keeps desk (turn_of desk one answer) }
{}

/// So do turns one after the other: the desk behind them is as its events have brought it about, its events are kept in the layout that
/// it began with, and the event of the next turn, where it tells one, may come and carries what the job gives.
pub fn desks_behind_turns()
    ensures behind { (turns : List AnsweredTurn) (desk : DeskModel) → IsDesk desk → AllByRecursion (IsAnsweredTurnOf desk.layout) turns → IsDesk (desk_after turns desk) }
    ensures kept { (turns : List AnsweredTurn) (desk : DeskModel) → IsDesk desk → AllByRecursion (IsAnsweredTurnOf desk.layout) turns → IsKept desk.layout (desk_after turns desk).office }
    ensures next { (turns : List AnsweredTurn) (one : MountedTurn) (answer : OperatorAnswer) (desk : DeskModel) → IsDesk desk → AllByRecursion (IsAnsweredTurnOf desk.layout) turns → IsMountedTurnOf desk.layout one
        → EventComes (desk_after turns desk) (turn_of (desk_after turns desk) one answer).event }
    ensures one { (desk : DeskModel) (one : MountedTurn) (answer : OperatorAnswer) → IsDesk desk → IsMountedTurnOf desk.layout one → EventComes desk (turn_of desk one answer).event × IsKept desk.layout (turn_of desk one answer).desk.office }
{}

/// What a run that has ended leaves is what its job leaves that is run once, alone and without interruption from the library on which it was selected, to its
/// end or to where it was given up: however often it was restarted in these turns, at the starts of its steps and at its checkpoints, held and
/// released, whatever codes its steps were given, and whatever the operator answered. So the library of the ended jobs has it, with its records, under
/// each name in the run's reach, and the tables under each such name that no run holds. The job and that library are those of its selection.
/// A plain run begins on the job of its own deck, and on what the ended jobs had left by then. A run that continues an earlier one begins on the job of
/// both: the earlier one's steps up to the one at which it goes on, this one too, and its own later ones. It begins on the library that the earlier one
/// began on, under the names of that one's job, and under all others on what the ended jobs had left by then.
pub fn restarted_jobs_leave_what_they_leave_once()
    ensures selected { (desk : DeskModel) (one : AnsweredTurn) (row : RunRow) (initiator : ℕ) → IsDesk desk → IsAnsweredTurnOf desk.layout one → (turn_of desk one.turn one.answer).event ≡ Some (SelectedEvent row.number initiator 0 0 None)
        → run_of (turn_of desk one.turn one.answer).desk.office.tables row.number ≡ Some row → leg_of (turn_of desk one.turn one.answer).desk.office row.number ≡ Some (plain_leg desk.office row) }
    ensures continued { (desk : DeskModel) (one : AnsweredTurn) (row : RunRow) (initiator earlier step : ℕ) (id : Option NameOfSet) → IsDesk desk → IsAnsweredTurnOf desk.layout one → 1 ≤ earlier
        → (turn_of desk one.turn one.answer).event ≡ Some (SelectedEvent row.number initiator earlier step id) → run_of (turn_of desk one.turn one.answer).desk.office.tables row.number ≡ Some row
        → BeginsOn desk.office (turn_of desk one.turn one.answer).desk.office row earlier step }
    ensures led { (turns : List AnsweredTurn) (desk : DeskModel) (number : ℕ) (leg : Leg) → IsDesk desk → AllByRecursion (IsAnsweredTurnOf desk.layout) turns → leg_of desk.office number ≡ Some leg → leg_of (desk_after turns desk).office number ≡ Some leg }
    ensures library { (turns : List AnsweredTurn) (last : AnsweredTurn) (desk : DeskModel) (row : RunRow) (leg : Leg) (ending : EndingOfRun) (name : NameOfSet) → IsDesk desk → AllByRecursion (IsAnsweredTurnOf desk.layout) turns → IsAnsweredTurnOf desk.layout last
        → leg_of desk.office row.number ≡ Some leg → run_of (desk_after turns desk).office.tables row.number ≡ Some row → (turn_of (desk_after turns desk) last.turn last.answer).event ≡ Some (EndedEvent row.number ending)
        → is_among leg.reach name ≡ true → entry_at (turn_of (desk_after turns desk) last.turn last.answer).desk.office.library name ≡ entry_at (job_run leg.job leg.start (cut_of row ending)) name }
    ensures leaves { (turns : List AnsweredTurn) (last : AnsweredTurn) (desk : DeskModel) (row : RunRow) (leg : Leg) (ending : EndingOfRun) (name : NameOfSet) → IsDesk desk → AllByRecursion (IsAnsweredTurnOf desk.layout) turns → IsAnsweredTurnOf desk.layout last
        → leg_of desk.office row.number ≡ Some leg → run_of (desk_after turns desk).office.tables row.number ≡ Some row → (turn_of (desk_after turns desk) last.turn last.answer).event ≡ Some (EndedEvent row.number ending)
        → is_among leg.reach name ≡ true → IsFree (turn_of (desk_after turns desk) last.turn last.answer).desk.office name
        → AreAlike (turn_of (desk_after turns desk) last.turn last.answer).desk.office.tables.sets (job_run leg.job leg.start (cut_of row ending)) name }
{}
