//! What holds of each turn of a desk. A law is the contract of a function that does nothing.
ghost use Rattle.std.specs.Prelude.{◌≡◌, ◌≤◌, ℕ, suc, true, false, List, ◌∷◌, length, Some, None};
ghost use Rattle.ckr_events.specs.declared.event.Event.TheVariants.{Submitted as SubmittedEvent, Selected as SelectedEvent, Ended as EndedEvent, Purged as PurgedEvent, Released as ReleasedEvent};
ghost use Rattle.ckr_events.specs.declared.event.Ending.TheVariants.{Completed, Allocation};
ghost use Rattle.ckr_jcl.specs.declared.deck.Job.{Job as JobOfDeck};
ghost use Rattle.ckr_meaning.specs.EffectiveJob.{OwnedStep};
ghost use Rattle.ckr_points.specs.declared.run.RunState.TheVariants.{Held, Queued};
ghost use Rattle.ckr_points.specs.Follows.{is_within, own_step};
ghost use Rattle.ckr_points.specs.Restart.{place_of};
ghost use Rattle.ckr_points.specs.Rows.{RunRow, run_of};
ghost use Rattle.ckr_points.specs.Soundness.{may_come};
ghost use Rattle.ckr_desk_turn.specs.Select.{next_run, run_on_initiator};
ghost use Rattle.ckr_desk_turn.specs.Desk.{DeskModel};
ghost use Rattle.ckr_desk_turn.specs.Invariant.{IsDesk};

/// The event of a turn that selects a run without RESTART, ends one behind its last step, or ends one since a DD of its next step isn't allocated,
/// may come.
pub fn events_between_steps_may_come()
    ensures selected { (desk : DeskModel) (i : ℕ) (row : RunRow) → IsDesk desk → 1 ≤ i → i ≤ desk.layout.initiators → run_on_initiator desk.office.tables i ≡ None → next_run desk.office.tables ≡ Some row → row.state ≡ Queued → row.deck.restart ≡ None
        → may_come desk.layout desk.office (SelectedEvent row.number i 0 0 None, None) ≡ true }
    ensures completed { (desk : DeskModel) (i : ℕ) (row : RunRow) → IsDesk desk → run_on_initiator desk.office.tables i ≡ Some row → is_within (place_of row) ≡ false → own_step row ≡ None
        → may_come desk.layout desk.office (EndedEvent row.number Completed, None) ≡ true }
    ensures refused { (desk : DeskModel) (i : ℕ) (row : RunRow) (owned : OwnedStep) (dd cause first second : ℕ) → IsDesk desk → run_on_initiator desk.office.tables i ≡ Some row → own_step row ≡ Some owned → 1 ≤ dd → dd ≤ length owned.step.dds
        → may_come desk.layout desk.office (EndedEvent row.number (Allocation dd cause first second), None) ≡ true }
{}

/// The event of a deck of at least one card, that of a queued run that is purged, and that of a held one that is released, may come.
pub fn events_of_calls_may_come()
    ensures submitted { (desk : DeskModel) (first : ℕ) (cards : List ℕ) (deck : JobOfDeck) → may_come desk.layout desk.office (SubmittedEvent (suc (length desk.office.tables.runs)) (first ∷ cards), Some deck) ≡ true }
    ensures purged { (desk : DeskModel) (job : ℕ) (row : RunRow) → run_of desk.office.tables job ≡ Some row → row.state ≡ Queued → may_come desk.layout desk.office (PurgedEvent job, None) ≡ true }
    ensures released { (desk : DeskModel) (job : ℕ) (row : RunRow) → run_of desk.office.tables job ≡ Some row → row.state ≡ Held → may_come desk.layout desk.office (ReleasedEvent job, None) ≡ true }
{}
