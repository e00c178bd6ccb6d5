//! The jobs in memory behind an event. A law is the contract of a function that does nothing.
ghost use Rattle.std.specs.Prelude.{◌≡◌, ◌≤◌, ℕ, suc, Bool, List, length, Option, None, Some, Ok};
ghost use Rattle.arrayvec.specs.ArrayVec.{ArrayVec};
ghost use Rattle.ckr_base.specs.declared.code.Code.{Code};
ghost use Rattle.ckr_console.specs.declared.question.Answer.{Answer};
ghost use Rattle.ckr_events.specs.declared.event.Ending.TheVariants.{Coded};
ghost use Rattle.ckr_events.specs.declared.event.Event.{Event};
ghost use Rattle.ckr_events.specs.declared.event.Event.TheVariants.{Denied as DeniedEvent, Ended as EndedEvent, Held as HeldEvent, Purged as PurgedEvent, Released as ReleasedEvent, Restarted as RestartedEvent, Selected as SelectedEvent, Submitted as SubmittedEvent};
ghost use Rattle.ckr_jcl.specs.declared.deck.Job.{Job};
ghost use Rattle.ckr_jcl_decks.specs.Deck.{stored_deck};
ghost use Rattle.ckr_library.specs.NameMaps.{Name};
ghost use Rattle.ckr_desk_memory.specs.View.{JobsView, PointView};
ghost use Rattle.ckr_desk_turn.specs.NextEvents.{Comes};
ghost use Rattle.ckr_desk_turn.specs.Turns.{IsMountedTurnOf, MountedTurn, plan_for, turn_of};
ghost use Rattle.ckr_desk_turn.specs.Invariant.{IsDesk};
ghost use Rattle.ckr_desk_refines.specs.Commits.{HasCommitted, HasWithinRun};
ghost use Rattle.ckr_desk_refines.specs.Entries.{AreOwned, AreWithin, HasEntries, IsWantedRead};
ghost use Rattle.ckr_desk_refines.specs.InEffect.{AreInEffect};
ghost use Rattle.ckr_points.specs.declared.run.RunState.TheVariants.{Held, Queued};
ghost use Rattle.ckr_points.specs.Rows.{RunRow, run_of};
ghost use Rattle.ckr_desk_refines.specs.Moves.{HasSameRecords, HasWaited, HaveMoved, KnowsItsEntry};
ghost use Rattle.ckr_desk_refines.specs.Standing.{StandsForDesk, StandsBut};
ghost use Rattle.ckr_desk_turn.specs.Cards.{kept_of_stored};
ghost use Rattle.ckr_desk_turn.specs.declared.plan.Plan.TheVariants.{Tell, Wait};
ghost use Rattle.ckr_points.specs.declared.reply.Reply.{Reply};
ghost use Rattle.ckr_desk_turn.specs.Desk.{DeskModel, behind, jobs_of, purged as purged_desk, released as released_desk, submitted as submitted_desk};
ghost use Rattle.ckr_desk_turn.specs.Inquiries.{decide};
ghost use Rattle.ckr_volumes.specs.declared.layout.Layout.{Layout};

/// Behind the event of a turn, with the operator's answer if he is asked: where the event selects a run that goes on at a checkpoint of an earlier one, its point
/// in memory is to stand for the entry. And where he is asked and doesn't answer, so that the run waits.
pub fn desks_behind_turns_that_tell_stand()
    ensures told { (layout : Layout) (old new : JobsView) (before after : List ℕ) (desk : DeskModel) (turn : MountedTurn) (answer : Answer) (reply : Reply) (event : Event)
        → StandsForDesk layout old before desk → IsMountedTurnOf desk.layout turn → decide answer (plan_for desk.layout (jobs_of desk) turn) ≡ Tell reply event
        → KnowsItsEntry event desk old.points → HaveMoved event None old new → HasSameRecords desk.layout before after → StandsForDesk layout new after (behind event None desk) }
    ensures waits { (layout : Layout) (old new : JobsView) (image : List ℕ) (desk : DeskModel) (turn : MountedTurn) (answer : Answer) (job : ℕ) (code : Code)
        → StandsForDesk layout old image desk → IsMountedTurnOf desk.layout turn → decide answer (plan_for desk.layout (jobs_of desk) turn) ≡ Wait job code
        → HasWaited job code old new → StandsForDesk layout new image (turn_of desk turn answer).desk }
{}

/// Behind a deck that is submitted, a run that is purged, and one that is released.
pub fn desks_behind_calls_stand()
    ensures submitted { (layout : Layout) (old new : JobsView) (before after : List ℕ) (desk : DeskModel) (cards : List ℕ) (deck : Job)
        → StandsForDesk layout old before desk → suc (length desk.office.tables.runs) ≤ 9999999 → 81 ≤ length cards → stored_deck cards ≡ Ok deck
        → HaveMoved (SubmittedEvent (suc (length desk.office.tables.runs)) (kept_of_stored cards)) (Some deck) old new → HasSameRecords desk.layout before after
        → StandsForDesk layout new after (submitted_desk (kept_of_stored cards) deck desk) }
    ensures purged { (layout : Layout) (old new : JobsView) (before after : List ℕ) (desk : DeskModel) (job : ℕ) (row : RunRow)
        → StandsForDesk layout old before desk → run_of desk.office.tables job ≡ Some row → row.state ≡ Queued
        → HaveMoved (PurgedEvent job) None old new → HasSameRecords desk.layout before after → StandsForDesk layout new after (purged_desk job desk) }
    ensures released { (layout : Layout) (old new : JobsView) (before after : List ℕ) (desk : DeskModel) (job : ℕ) (row : RunRow)
        → StandsForDesk layout old before desk → run_of desk.office.tables job ≡ Some row → row.state ≡ Held
        → HaveMoved (ReleasedEvent job) None old new → HasSameRecords desk.layout before after → StandsForDesk layout new after (released_desk job desk) }
{}

/// Behind the event by which a run ends with a code, whatever its own step has come to.
pub fn desks_behind_codes_stand()
    ensures { (layout : Layout) (old new : JobsView) (before after : List ℕ) (desk : DeskModel) (run rule writes : ℕ) (code : Code) (lengths : ArrayVec ℕ)
        → StandsBut run layout old before desk → Comes desk (EndedEvent run (Coded code rule writes lengths))
        → IsDesk (behind (EndedEvent run (Coded code rule writes lengths)) None desk) → HasWithinRun desk.layout desk.office run writes before
        → HaveMoved (EndedEvent run (Coded code rule writes lengths)) None old new → HasSameRecords desk.layout before after
        → StandsForDesk layout new after (behind (EndedEvent run (Coded code rule writes lengths)) None desk) }
{}

/// Behind the event by which a run is held with a code, whatever its own step has come to.
pub fn desks_behind_holds_stand()
    ensures { (layout : Layout) (old new : JobsView) (before after : List ℕ) (desk : DeskModel) (run writes : ℕ) (code : Code) (lengths : ArrayVec ℕ)
        → StandsBut run layout old before desk → Comes desk (HeldEvent run code writes lengths)
        → IsDesk (behind (HeldEvent run code writes lengths) None desk) → HasWithinRun desk.layout desk.office run writes before
        → HaveMoved (HeldEvent run code writes lengths) None old new → HasSameRecords desk.layout before after
        → StandsForDesk layout new after (behind (HeldEvent run code writes lengths) None desk) }
{}

/// Behind the event by which a run with a code is restarted, whatever its step has come to: at the start of its step, where its running step
/// leaves memory, or at its checkpoint in effect, where the step goes on from the point. The records on the disk stay.
pub fn desks_behind_restarts_stand()
    ensures { (layout : Layout) (old new : JobsView) (before after : List ℕ) (desk : DeskModel) (run initiator : ℕ) (code : Code) (checkpoint : Bool)
        → StandsBut run layout old before desk → Comes desk (RestartedEvent run initiator code checkpoint)
        → IsDesk (behind (RestartedEvent run initiator code checkpoint) None desk)
        → HaveMoved (RestartedEvent run initiator code checkpoint) None old new → HasSameRecords desk.layout before after
        → StandsForDesk layout new after (behind (RestartedEvent run initiator code checkpoint) None desk) }
{}

/// Behind the event by which the restart of a run is denied.
pub fn desks_behind_denials_stand()
    ensures { (layout : Layout) (old new : JobsView) (before after : List ℕ) (desk : DeskModel) (run rule : ℕ) (name : Option Name)
        → StandsForDesk layout old before desk → Comes desk (DeniedEvent run rule name) → IsDesk (behind (DeniedEvent run rule name) None desk)
        → HaveMoved (DeniedEvent run rule name) None old new → HasSameRecords desk.layout before after
        → StandsForDesk layout new after (behind (DeniedEvent run rule name) None desk) }
{}

/// Behind the event by which a run is selected to continue another one: at the start of a step, where it has no running step and no point, or at a
/// checkpoint, where its step goes on from the point in memory that stands for the entry.
pub fn desks_behind_continuations_stand()
    ensures { (layout : Layout) (old new : JobsView) (before after : List ℕ) (desk : DeskModel) (run initiator earlier step : ℕ) (id : Option Name)
        → StandsForDesk layout old before desk → Comes desk (SelectedEvent run initiator (suc earlier) step id)
        → IsDesk (behind (SelectedEvent run initiator (suc earlier) step id) None desk) → KnowsItsEntry (SelectedEvent run initiator (suc earlier) step id) desk old.points
        → HaveMoved (SelectedEvent run initiator (suc earlier) step id) None old new → HasSameRecords desk.layout before after
        → StandsForDesk layout new after (behind (SelectedEvent run initiator (suc earlier) step id) None desk) }
{}

/// The point in memory of a run that goes on at a checkpoint of an earlier one stands for the entry behind the event, if it was read of the entry that its data
/// set for checkpoints keeps, in an image that has the entries of the tables.
pub fn points_of_wanted_entries_stand()
    ensures { (desk : DeskModel) (image : List ℕ) (points : List PointView) (run initiator earlier step : ℕ) (id : Name)
        → IsDesk desk → AreWithin desk.office.tables.sets → AreOwned desk.office → AreInEffect desk.office → Comes desk (SelectedEvent run initiator (suc earlier) step (Some id))
        → HasEntries desk.layout desk.office image → IsWantedRead desk.layout desk.office.tables image points run id → KnowsItsEntry (SelectedEvent run initiator (suc earlier) step (Some id)) desk points }
{}

/// The event is committed on each image that has the records.
pub fn events_are_committed()
    ensures told { (layout : Layout) (jobs : JobsView) (before : List ℕ) (desk : DeskModel) (turn : MountedTurn) (answer : Answer) (reply : Reply) (event : Event)
        → StandsForDesk layout jobs before desk → IsMountedTurnOf desk.layout turn → decide answer (plan_for desk.layout (jobs_of desk) turn) ≡ Tell reply event
        → (image : List ℕ) → HasSameRecords desk.layout before image → HasCommitted desk.layout (behind event None desk).office image }
    ensures submitted { (layout : Layout) (jobs : JobsView) (before : List ℕ) (desk : DeskModel) (cards : List ℕ) (deck : Job)
        → StandsForDesk layout jobs before desk → suc (length desk.office.tables.runs) ≤ 9999999 → 81 ≤ length cards → stored_deck cards ≡ Ok deck
        → (image : List ℕ) → HasSameRecords desk.layout before image → HasCommitted desk.layout (submitted_desk (kept_of_stored cards) deck desk).office image }
    ensures purged { (layout : Layout) (jobs : JobsView) (before : List ℕ) (desk : DeskModel) (job : ℕ) (row : RunRow)
        → StandsForDesk layout jobs before desk → run_of desk.office.tables job ≡ Some row → row.state ≡ Queued
        → (image : List ℕ) → HasSameRecords desk.layout before image → HasCommitted desk.layout (purged_desk job desk).office image }
    ensures released { (layout : Layout) (jobs : JobsView) (before : List ℕ) (desk : DeskModel) (job : ℕ) (row : RunRow)
        → StandsForDesk layout jobs before desk → run_of desk.office.tables job ≡ Some row → row.state ≡ Held
        → (image : List ℕ) → HasSameRecords desk.layout before image → HasCommitted desk.layout (released_desk job desk).office image }
    ensures held { (layout : Layout) (jobs : JobsView) (before : List ℕ) (desk : DeskModel) (run writes : ℕ) (code : Code) (lengths : ArrayVec ℕ)
        → StandsBut run layout jobs before desk → Comes desk (HeldEvent run code writes lengths)
        → IsDesk (behind (HeldEvent run code writes lengths) None desk) → HasWithinRun desk.layout desk.office run writes before
        → (image : List ℕ) → HasSameRecords desk.layout before image
        → HasCommitted desk.layout (behind (HeldEvent run code writes lengths) None desk).office image }
    ensures coded { (layout : Layout) (jobs : JobsView) (before : List ℕ) (desk : DeskModel) (run rule writes : ℕ) (code : Code) (lengths : ArrayVec ℕ)
        → StandsBut run layout jobs before desk → Comes desk (EndedEvent run (Coded code rule writes lengths))
        → IsDesk (behind (EndedEvent run (Coded code rule writes lengths)) None desk) → HasWithinRun desk.layout desk.office run writes before
        → (image : List ℕ) → HasSameRecords desk.layout before image
        → HasCommitted desk.layout (behind (EndedEvent run (Coded code rule writes lengths)) None desk).office image }
    ensures restarted { (layout : Layout) (jobs : JobsView) (before : List ℕ) (desk : DeskModel) (run initiator : ℕ) (code : Code) (checkpoint : Bool)
        → StandsBut run layout jobs before desk → Comes desk (RestartedEvent run initiator code checkpoint)
        → IsDesk (behind (RestartedEvent run initiator code checkpoint) None desk)
        → (image : List ℕ) → HasSameRecords desk.layout before image
        → HasCommitted desk.layout (behind (RestartedEvent run initiator code checkpoint) None desk).office image }
    ensures denied { (layout : Layout) (jobs : JobsView) (before : List ℕ) (desk : DeskModel) (run rule : ℕ) (name : Option Name)
        → StandsForDesk layout jobs before desk → IsDesk (behind (DeniedEvent run rule name) None desk)
        → (image : List ℕ) → HasSameRecords desk.layout before image → HasCommitted desk.layout (behind (DeniedEvent run rule name) None desk).office image }
    ensures continued { (layout : Layout) (jobs : JobsView) (before : List ℕ) (desk : DeskModel) (run initiator earlier step : ℕ) (id : Option Name)
        → StandsForDesk layout jobs before desk → Comes desk (SelectedEvent run initiator (suc earlier) step id)
        → IsDesk (behind (SelectedEvent run initiator (suc earlier) step id) None desk)
        → (image : List ℕ) → HasSameRecords desk.layout before image
        → HasCommitted desk.layout (behind (SelectedEvent run initiator (suc earlier) step id) None desk).office image }
{}
