//! What the events of a run leave of the data sets of other runs. A law is the contract of a function that does nothing.
ghost use Rattle.std.specs.Prelude.{◌≡◌, ◌≢◌, ℕ, suc, Bool, List, Option, Some, false, length, true};
ghost use Rattle.arrayvec.specs.ArrayVec.{ArrayVec};
ghost use Rattle.ckr_points_library.specs.Commit.{output_names};
ghost use Rattle.ckr_base.specs.declared.code.Code.{Code};
ghost use Rattle.ckr_events.specs.Jobs.{job_of};
ghost use Rattle.ckr_events.specs.declared.event.Event.{Event};
ghost use Rattle.ckr_events.specs.declared.event.Event.TheVariants.{Checkpointed, Ended, Held, Restarted, Rewritten, Selected, Started, StepEnded};
ghost use Rattle.ckr_events.specs.declared.event.Ending.TheVariants.{Allocation, Coded, Completed};
ghost use Rattle.ckr_events.specs.declared.event.Made.{Made};
ghost use Rattle.ckr_jcl.specs.declared.deck.Job.{Job};
ghost use Rattle.ckr_library.specs.declared.sets.Content.TheVariants.{Plain};
ghost use Rattle.ckr_library.specs.NameMaps.{Name, entry_at};
ghost use Rattle.ckr_meaning.specs.EffectiveJob.{is_among, names_of};
ghost use Rattle.ckr_meaning.specs.LibrarySet.{LibrarySet};
ghost use Rattle.ckr_meaning.specs.StepRun.{StepStart, within_at};
ghost use Rattle.ckr_points.specs.Payload.{carries};
ghost use Rattle.ckr_points.specs.Office.{Leg, Office, office_after};
ghost use Rattle.ckr_points.specs.Rows.{RunRow, TableSet};
ghost use Rattle.ckr_points.specs.Soundness.{may_come};
ghost use Rattle.ckr_points_invariant.specs.Invariant.{IsKept};
ghost use Rattle.ckr_points_invariant.specs.Points.{ArePointed};
ghost use Rattle.ckr_points_invariant.specs.Readiness.{AreReady};
ghost use Rattle.ckr_volumes.specs.declared.layout.Layout.{Layout};
ghost use Rattle.ckr_desk_refines.specs.Commits.{keeps_sets};
ghost use Rattle.ckr_desk_refines.specs.SharedSets.{IsInStep, IsShared, LeavesOthers, LieStill};

/// One more event of kept events leaves each data set that another selected run reaches, and so those of the step that this one is in,
/// as the tables have it: its extents, its length, its stamp and its entries. For what two selected runs have in common, both use with
/// SHR and KEEP at both ends, and a step neither opens for output, makes, rewrites nor deletes what it uses so; and a run that continues another
/// one has nothing in common with other selected runs (this project's profile).
pub fn events_leave_the_data_sets_of_other_steps()
    ensures quiet { (now : Office) (event : Event) (deck : Option Job) → keeps_sets event ≡ true → LeavesOthers now (job_of event) (office_after (event, deck) now) }
    ensures selected { (layout : Layout) (now : Office) (job initiator step : ℕ) (id : Option Name) (deck : Option Job) → IsKept layout now → may_come layout now (Selected job initiator 0 step id, deck) ≡ true → LeavesOthers now job (office_after (Selected job initiator 0 step id, deck) now) }
    ensures continued { (layout : Layout) (now : Office) (job initiator before step : ℕ) (id : Option Name) (deck : Option Job) → IsKept layout now → may_come layout now (Selected job initiator (suc before) step id, deck) ≡ true → IsKept layout (office_after (Selected job initiator (suc before) step id, deck) now) → LeavesOthers now job (office_after (Selected job initiator (suc before) step id, deck) now) }
    ensures started { (layout : Layout) (now : Office) (job step : ℕ) (items : ArrayVec Made) (deck : Option Job) → IsKept layout now → may_come layout now (Started job step items, deck) ≡ true → carries layout now (Started job step items) deck ≡ true → LeavesOthers now job (office_after (Started job step items, deck) now) }
    ensures step_ended { (layout : Layout) (now : Office) (job step rc writes : ℕ) (lengths : ArrayVec ℕ) (deck : Option Job) → IsKept layout now → may_come layout now (StepEnded job step rc writes lengths, deck) ≡ true → carries layout now (StepEnded job step rc writes lengths) deck ≡ true → LeavesOthers now job (office_after (StepEnded job step rc writes lengths, deck) now) }
    ensures restarted { (layout : Layout) (now : Office) (job initiator : ℕ) (code : Code) (checkpoint : Bool) (deck : Option Job) → IsKept layout now → ArePointed now → AreReady now → may_come layout now (Restarted job initiator code checkpoint, deck) ≡ true → carries layout now (Restarted job initiator code checkpoint) deck ≡ true → LeavesOthers now job (office_after (Restarted job initiator code checkpoint, deck) now) }
    ensures held { (layout : Layout) (now : Office) (job writes : ℕ) (code : Code) (lengths : ArrayVec ℕ) (deck : Option Job) → IsKept layout now → may_come layout now (Held job code writes lengths, deck) ≡ true → carries layout now (Held job code writes lengths) deck ≡ true → LeavesOthers now job (office_after (Held job code writes lengths, deck) now) }
    ensures completed { (layout : Layout) (now : Office) (job : ℕ) (deck : Option Job) → IsKept layout now → may_come layout now (Ended job Completed, deck) ≡ true → LeavesOthers now job (office_after (Ended job Completed, deck) now) }
    ensures ended { (layout : Layout) (now : Office) (job rule writes : ℕ) (code : Code) (lengths : ArrayVec ℕ) (deck : Option Job) → IsKept layout now → may_come layout now (Ended job (Coded code rule writes lengths), deck) ≡ true → carries layout now (Ended job (Coded code rule writes lengths)) deck ≡ true → LeavesOthers now job (office_after (Ended job (Coded code rule writes lengths), deck) now) }
    ensures refused { (layout : Layout) (now : Office) (job dd cause first second : ℕ) (deck : Option Job) → IsKept layout now → may_come layout now (Ended job (Allocation dd cause first second), deck) ≡ true → LeavesOthers now job (office_after (Ended job (Allocation dd cause first second), deck) now) }
    ensures rewritten { (layout : Layout) (now : Office) (job taken writes place : ℕ) (lengths : ArrayVec ℕ) (image : List ℕ) (deck : Option Job) → IsKept layout now → may_come layout now (Rewritten job taken writes lengths place image, deck) ≡ true → LeavesOthers now job (office_after (Rewritten job taken writes lengths place image, deck) now) }
    ensures steps { (layout : Layout) (now later : Office) (run number : ℕ) (row : RunRow) (leg : Leg) (start : StepStart) (writes : ℕ) (name : Name) → IsKept layout now → LeavesOthers now run later → IsInStep now number row leg start writes → number ≢ run → is_among (names_of start.root start.owned) name ≡ true → entry_at later.tables.sets name ≡ entry_at now.tables.sets name }
{}

/// What the running steps of two runs have in common neither of them writes: it is no output, it has the same records behind each
/// further write, and so many as the tables tell of it. For both use it with SHR and KEEP at both ends (this project's profile).
pub fn shared_data_sets_do_not_grow()
    ensures read { (layout : Layout) (now : Office) (start : StepStart) (writes : ℕ) (name : Name) → IsKept layout now → IsShared now start writes name → is_among (output_names start.root start.owned) name ≡ false }
    ensures same { (layout : Layout) (now : Office) (start : StepStart) (writes more : ℕ) (name : Name) → IsKept layout now → IsShared now start writes name → entry_at (within_at start more) name ≡ entry_at (within_at start writes) name }
    ensures long { (layout : Layout) (now : Office) (start : StepStart) (writes more : ℕ) (name : Name) (table : TableSet) (set : LibrarySet) → IsKept layout now → IsShared now start writes name → entry_at now.tables.sets name ≡ Some table → table.set.content ≡ Plain → entry_at (within_at start more) name ≡ Some set → length set.records ≡ table.set.length }
{}

/// A record that a step rewrites, and a checkpoint that it takes, leave each data set where it lies: in the same places of its volumes, with
/// the same space, record length and content, and no shorter than it was (this project's profile).
pub fn own_events_keep_where_data_sets_lie()
    ensures checkpointed { (layout : Layout) (now : Office) (job taken writes place bytes : ℕ) (id : Name) (lengths : ArrayVec ℕ) (deck : Option Job) → IsKept layout now → may_come layout now (Checkpointed job id taken writes lengths place bytes, deck) ≡ true → carries layout now (Checkpointed job id taken writes lengths place bytes) deck ≡ true → LieStill now.tables.sets (office_after (Checkpointed job id taken writes lengths place bytes, deck) now).tables.sets }
    ensures rewritten { (layout : Layout) (now : Office) (job taken writes place : ℕ) (lengths : ArrayVec ℕ) (image : List ℕ) (deck : Option Job) → IsKept layout now → may_come layout now (Rewritten job taken writes lengths place image, deck) ≡ true → LieStill now.tables.sets (office_after (Rewritten job taken writes lengths place image, deck) now).tables.sets }
{}
