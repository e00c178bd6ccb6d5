//! What an image has of the data sets goes with the events. A law is the contract of a function that does nothing.
ghost use Rattle.std.specs.Prelude.{◌≡◌, ◌≤◌, ℕ, suc, Bool, List, Option, Some, true};
ghost use Rattle.arrayvec.specs.ArrayVec.{ArrayVec};
ghost use Rattle.ckr_base.specs.declared.code.Code.{Code};
ghost use Rattle.ckr_events.specs.declared.event.Event.{Event};
ghost use Rattle.ckr_events.specs.declared.event.Event.TheVariants.{Checkpointed, Ended, Held, Restarted, Rewritten, Selected, Started, StepEnded};
ghost use Rattle.ckr_events.specs.declared.event.Ending.TheVariants.{Allocation, Coded, Completed};
ghost use Rattle.ckr_events.specs.declared.event.Made.{Made};
ghost use Rattle.ckr_jcl.specs.declared.deck.Job.{Job};
ghost use Rattle.ckr_library.specs.declared.sets.DataSet.{DataSet};
ghost use Rattle.ckr_library.specs.Catalog.{Catalog, set_of};
ghost use Rattle.ckr_library.specs.NameMaps.{Name, Named};
ghost use Rattle.ckr_meaning.specs.EffectiveJob.{names_of};
ghost use Rattle.ckr_meaning.specs.LibrarySet.{Library};
ghost use Rattle.ckr_meaning.specs.StepRun.{StepStart};
ghost use Rattle.ckr_points.specs.Payload.{carries};
ghost use Rattle.ckr_points.specs.Office.{Office, office_after};
ghost use Rattle.ckr_points.specs.Rows.{TableSet};
ghost use Rattle.ckr_points.specs.Soundness.{AreLaidOut, may_come};
ghost use Rattle.ckr_points_invariant.specs.Invariant.{IsKept};
ghost use Rattle.ckr_steps.specs.Places.{ShowsWithin};
ghost use Rattle.ckr_steps.specs.Writes.{Keeps, Shows};
ghost use Rattle.ckr_volumes.specs.declared.layout.Layout.{Layout};
ghost use Rattle.ckr_desk_refines.specs.Commits.{HasCommitted, HasWithin, HasWithinRun, keeps_sets};
ghost use Rattle.ckr_desk_refines.specs.StepSets.{HasSets};

/// An image that has what kept events have committed has what they have committed with one more kept event: one that leaves the data sets as they
/// are, a run is selected, also one that continues another one, a step starts, a run is restarted, or it ends behind its last step or since a DD
/// isn't allocated. None of these commits a record.
pub fn events_leave_what_is_committed()
    ensures quiet { (layout : Layout) (now : Office) (image : List ℕ) (event : Event) (deck : Option Job) → keeps_sets event ≡ true → IsKept layout now → IsKept layout (office_after (event, deck) now) → HasCommitted layout now image → HasCommitted layout (office_after (event, deck) now) image }
    ensures selected { (layout : Layout) (now : Office) (image : List ℕ) (job initiator step : ℕ) (id : Option Name) (deck : Option Job) → IsKept layout now → may_come layout now (Selected job initiator 0 step id, deck) ≡ true → IsKept layout (office_after (Selected job initiator 0 step id, deck) now) → HasCommitted layout now image → HasCommitted layout (office_after (Selected job initiator 0 step id, deck) now) image }
    ensures continued { (layout : Layout) (now : Office) (image : List ℕ) (job initiator before step : ℕ) (id : Option Name) (deck : Option Job) → IsKept layout now → may_come layout now (Selected job initiator (suc before) step id, deck) ≡ true → IsKept layout (office_after (Selected job initiator (suc before) step id, deck) now) → HasCommitted layout now image → HasCommitted layout (office_after (Selected job initiator (suc before) step id, deck) now) image }
    ensures started { (layout : Layout) (now : Office) (image : List ℕ) (job step : ℕ) (items : ArrayVec Made) (deck : Option Job) → IsKept layout now → may_come layout now (Started job step items, deck) ≡ true → carries layout now (Started job step items) deck ≡ true → IsKept layout (office_after (Started job step items, deck) now) → HasCommitted layout now image → HasCommitted layout (office_after (Started job step items, deck) now) image }
    ensures restarted { (layout : Layout) (now : Office) (image : List ℕ) (job initiator : ℕ) (code : Code) (checkpoint : Bool) (deck : Option Job) → IsKept layout now → IsKept layout (office_after (Restarted job initiator code checkpoint, deck) now) → HasCommitted layout now image → HasCommitted layout (office_after (Restarted job initiator code checkpoint, deck) now) image }
    ensures completed { (layout : Layout) (now : Office) (image : List ℕ) (job : ℕ) (deck : Option Job) → IsKept layout now → IsKept layout (office_after (Ended job Completed, deck) now) → HasCommitted layout now image → HasCommitted layout (office_after (Ended job Completed, deck) now) image }
    ensures refused { (layout : Layout) (now : Office) (image : List ℕ) (job dd cause first second : ℕ) (deck : Option Job) → IsKept layout now → IsKept layout (office_after (Ended job (Allocation dd cause first second), deck) now) → HasCommitted layout now image → HasCommitted layout (office_after (Ended job (Allocation dd cause first second), deck) now) image }
{}

/// An image that has what kept events have committed, and what a running step has written, has what is committed with the event
/// that tells of it: the step ends, its run ends or is held with a code, the step takes a checkpoint, or it has rewritten a record, which the image
/// has too.
pub fn events_commit_what_a_step_has_written()
    ensures step_ended { (layout : Layout) (now : Office) (image : List ℕ) (job step rc writes : ℕ) (lengths : ArrayVec ℕ) (deck : Option Job) → IsKept layout now → may_come layout now (StepEnded job step rc writes lengths, deck) ≡ true → carries layout now (StepEnded job step rc writes lengths) deck ≡ true → IsKept layout (office_after (StepEnded job step rc writes lengths, deck) now) → HasCommitted layout now image → HasWithinRun layout now job writes image → HasCommitted layout (office_after (StepEnded job step rc writes lengths, deck) now) image }
    ensures ended { (layout : Layout) (now : Office) (image : List ℕ) (job rule writes : ℕ) (code : Code) (lengths : ArrayVec ℕ) (deck : Option Job) → IsKept layout now → may_come layout now (Ended job (Coded code rule writes lengths), deck) ≡ true → carries layout now (Ended job (Coded code rule writes lengths)) deck ≡ true → IsKept layout (office_after (Ended job (Coded code rule writes lengths), deck) now) → HasCommitted layout now image → HasWithinRun layout now job writes image → HasCommitted layout (office_after (Ended job (Coded code rule writes lengths), deck) now) image }
    ensures held { (layout : Layout) (now : Office) (image : List ℕ) (job writes : ℕ) (code : Code) (lengths : ArrayVec ℕ) (deck : Option Job) → IsKept layout now → may_come layout now (Held job code writes lengths, deck) ≡ true → carries layout now (Held job code writes lengths) deck ≡ true → IsKept layout (office_after (Held job code writes lengths, deck) now) → HasCommitted layout now image → HasWithinRun layout now job writes image → HasCommitted layout (office_after (Held job code writes lengths, deck) now) image }
    ensures checkpointed { (layout : Layout) (now : Office) (image : List ℕ) (job taken writes place bytes : ℕ) (id : Name) (lengths : ArrayVec ℕ) (deck : Option Job) → IsKept layout now → may_come layout now (Checkpointed job id taken writes lengths place bytes, deck) ≡ true → carries layout now (Checkpointed job id taken writes lengths place bytes) deck ≡ true → IsKept layout (office_after (Checkpointed job id taken writes lengths place bytes, deck) now) → HasCommitted layout now image → HasWithinRun layout now job writes image → HasCommitted layout (office_after (Checkpointed job id taken writes lengths place bytes, deck) now) image }
    ensures rewritten { (layout : Layout) (now : Office) (image : List ℕ) (job taken writes place : ℕ) (lengths : ArrayVec ℕ) (bytes : List ℕ) (deck : Option Job) → IsKept layout now → may_come layout now (Rewritten job taken writes lengths place bytes, deck) ≡ true → IsKept layout (office_after (Rewritten job taken writes lengths place bytes, deck) now) → HasCommitted layout now image → HasWithinRun layout now job writes image → HasCommitted layout (office_after (Rewritten job taken writes lengths place bytes, deck) now) image }
{}

/// A unit of a running step, whose data sets are those that the tables have under its names, leaves what an image has: what the events
/// have committed, and what another running step has written, where that one's data sets which both have are no longer than this one's.
/// What the step shows of its own writes the image has of them.
pub fn units_leave_what_is_committed()
    ensures committed { (layout : Layout) (tables : Named TableSet) (names : List Name) (sets : Catalog) → AreLaidOut layout tables → HasSets tables names sets → (before after : List ℕ) → Keeps layout sets before after → (now : Office) → now.tables.sets ≡ tables → HasCommitted layout now before → HasCommitted layout now after }
    ensures others { (layout : Layout) (tables : Named TableSet) (names : List Name) (sets : Catalog) → AreLaidOut layout tables → HasSets tables names sets → (before after : List ℕ) → Keeps layout sets before after → (theirs : List Name) (model : Library) (others : Catalog) → HasSets tables theirs others → ((name : Name) (set mine : DataSet) → set_of others name ≡ Some set → set_of sets name ≡ Some mine → set.length ≤ mine.length) → ((name : Name) (set : DataSet) → set_of others name ≡ Some set → set.length ≤ set.space) → Shows (Unit {0}) before layout theirs model others → Shows (Unit {0}) after layout theirs model others }
    ensures within { (image : List ℕ) (layout : Layout) (tables : Named TableSet) (start : StepStart) (writes : ℕ) (sets : Catalog) → HasSets tables (names_of start.root start.owned) sets → ShowsWithin (Unit {0}) image layout start writes sets → HasWithin layout tables start writes image }
{}
