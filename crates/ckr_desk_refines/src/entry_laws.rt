//! What an image has of the entries that the tables keep. A law is the contract of a function that does nothing.
ghost use Rattle.std.specs.Prelude.{◌≡◌, ◌≤◌, ◌++◌, ℕ, List, [], Option, None, Some, IsTrue, true, false};
ghost use Rattle.std.specs.List.{AllByRecursion};
ghost use Rattle.arrayvec.specs.ArrayVec.{ArrayVec};
ghost use Rattle.ckr_entry.specs.Entry.{IsEntry, spelling};
ghost use Rattle.ckr_events.specs.declared.event.Event.{Event};
ghost use Rattle.ckr_events.specs.declared.event.Event.TheVariants.{Checkpointed};
ghost use Rattle.ckr_events.specs.Jobs.{job_of};
ghost use Rattle.ckr_jcl.specs.declared.deck.Job.{Job};
ghost use Rattle.ckr_library.specs.declared.sets.DataSet.{DataSet};
ghost use Rattle.ckr_library.specs.declared.sets.Kept.{Kept};
ghost use Rattle.ckr_library.specs.Catalog.{Catalog};
ghost use Rattle.ckr_library.specs.NameMaps.{Name, Named, entry_at};
ghost use Rattle.ckr_points.specs.Events.{AreSound, IsNext};
ghost use Rattle.ckr_points.specs.Office.{Office, no_office, office, office_after};
ghost use Rattle.ckr_meaning.specs.EffectiveJob.{OwnedStep};
ghost use Rattle.ckr_meaning.specs.StepRun.{StepStart};
ghost use Rattle.ckr_points.specs.Restart.{Decked, after_event, place_of, step_in};
ghost use Rattle.ckr_points.specs.Rows.{KeptEntry, RunRow, TableSet, no_tables, run_of, step_of_run};
ghost use Rattle.ckr_points.specs.Soundness.{AreLaidOut, may_come};
ghost use Rattle.ckr_points.specs.Tables.{is_checkpoints, name_with_role};
ghost use Rattle.ckr_points_invariant.specs.Invariant.{IsKept};
ghost use Rattle.ckr_points_invariant.specs.KeptEvents.{AreKept};
ghost use Rattle.ckr_points_invariant.specs.Readiness.{AreReady};
ghost use Rattle.ckr_steps.specs.EntryRecords.{HasEntry, SameRecordsOutside};
ghost use Rattle.ckr_steps.specs.Writes.{Keeps};
ghost use Rattle.ckr_volumes.specs.declared.layout.Layout.{Layout};
ghost use Rattle.ckr_volumes.specs.Layouts.{StandsIn, lie_apart};
ghost use Rattle.ckr_volumes.specs.Records.{records_on};
ghost use Rattle.ckr_volumes.specs.SamePlaces.{SamePlaces};
ghost use Rattle.ckr_desk_turn.specs.Checkpoints.{MayCheckpoint, check_set, entry_place, office_behind, written_entry};
ghost use Rattle.ckr_desk_turn.specs.Desk.{DeskStep};
ghost use Rattle.ckr_desk_turn.specs.Jobs.{effect_entry};
ghost use Rattle.ckr_desk_turn.specs.Invariant.{HasRuns};
ghost use Rattle.ckr_desk_turn.specs.DeckEvents.{AreDeckEvents};
ghost use Rattle.ckr_desk_refines.specs.StepSets.{HasSets};
ghost use Rattle.ckr_desk_refines.specs.SharedSets.{LeavesOthers, LeavesReach};
ghost use Rattle.ckr_desk_refines.specs.Entries.{AreOwned, AreWithin, HasCheckDd, HasCheckSet, HasEntries, HasNewEntry, IsReadBack, IsReadInEffect, HasWritten, OnlyCheckSetsKeep, SameKept, entry_taken, jobs_of, takes_checkpoint};
ghost use Rattle.ckr_desk_entries.specs.EntryRefusal.{entry_refusal};
ghost use Rattle.ckr_desk_refines.specs.InEffect.{AreInEffect, HasStepNames};
ghost use Rattle.ckr_points.specs.Payload.{start_in_office};

/// The tables of no events keep no entry, and no run has a checkpoint in effect.
pub fn no_events_keep_no_entry()
    ensures there { (layout : Layout) (image : List ℕ) → HasEntries layout no_office image }
    ensures within { AreWithin no_tables.sets }
    ensures plain { OnlyCheckSetsKeep no_tables.sets }
    ensures owners { AreOwned no_office }
    ensures effect { AreInEffect no_office }
{}

/// An event that may come and takes no checkpoint, a restart too, also one by which a run continues another one, leaves the entries that the
/// tables keep: those of a data set that is emptied or deleted go, and those that end behind the length to which one is cut; the others stand
/// where they stood, within their data sets, which are data sets for checkpoints. Any event leaves them telling the owners of their steps.
pub fn events_leave_entries()
    ensures there { (layout : Layout) (now : Office) (image : List ℕ) (event : Event) (deck : Option Job) → takes_checkpoint event ≡ false → IsKept layout now → may_come layout now (event, deck) ≡ true → HasEntries layout now image → HasEntries layout (office_after (event, deck) now) image }
    ensures within { (layout : Layout) (now : Office) (event : Event) (deck : Option Job) → takes_checkpoint event ≡ false → IsKept layout now → AreWithin now.tables.sets → AreWithin (after_event event deck now.tables).sets }
    ensures plain { (layout : Layout) (now : Office) (event : Event) (deck : Option Job) → takes_checkpoint event ≡ false → IsKept layout now → OnlyCheckSetsKeep now.tables.sets → OnlyCheckSetsKeep (after_event event deck now.tables).sets }
    ensures owners { (layout : Layout) (now : Office) (event : Event) (deck : Option Job) → IsKept layout now → may_come layout now (event, deck) ≡ true → AreOwned now → AreOwned (office_after (event, deck) now) }
{}

/// An entry that a step has written, with the state of its program, is the new one of its checkpoint's event. The event adds the entry
/// that the image has at its place in the data set for checkpoints of the run's step, and leaves the others. The entry ends its data set,
/// and where that is one for checkpoints, only those keep entries.
pub fn checkpoints_add_their_entry()
    ensures written { (layout : Layout) (now : Office) (image : List ℕ) (kept : Kept) (taken writes : ℕ) (lengths : List ℕ) (row : RunRow) (owned : OwnedStep) (table : TableSet) → IsKept layout now → run_of now.tables kept.run ≡ Some row → step_of_run row (step_in (place_of row)) ≡ Some owned → entry_at now.tables.sets (name_with_role row.job.root owned is_checkpoints) ≡ Some table
        → HasWritten layout now.legs image table.set owned (entry_taken now.tables row owned kept taken writes lengths) → HasNewEntry layout now kept taken writes lengths image }
    ensures there { (layout : Layout) (now : Office) (image : List ℕ) (job taken writes place bytes : ℕ) (id : Name) (lengths : ArrayVec ℕ) (deck : Option Job) → IsKept layout now → HasEntries layout now image → HasNewEntry layout now (record { id = id; run = job; place = place; bytes = bytes }) taken writes lengths.items image → HasEntries layout (office_after (Checkpointed job id taken writes lengths place bytes, deck) now) image }
    ensures within { (layout : Layout) (now : Office) (job taken writes place bytes : ℕ) (id : Name) (lengths : ArrayVec ℕ) (deck : Option Job) → IsKept layout now → may_come layout now (Checkpointed job id taken writes lengths place bytes, deck) ≡ true → AreWithin now.tables.sets → AreWithin (after_event (Checkpointed job id taken writes lengths place bytes) deck now.tables).sets }
    ensures plain { (layout : Layout) (now : Office) (job taken writes place bytes : ℕ) (id : Name) (lengths : ArrayVec ℕ) (deck : Option Job) → IsKept layout now → HasCheckSet now.tables job → OnlyCheckSetsKeep now.tables.sets → OnlyCheckSetsKeep (after_event (Checkpointed job id taken writes lengths place bytes) deck now.tables).sets }
{}

/// Another image has the entries too where the records of the data sets that keep any are the same, up to the lengths that are
/// committed: where the records of each data set stay, or those that a running step's data sets have; where only records behind the last
/// one of a data set are written; and where a record of a data set is rewritten that keeps none.
pub fn entries_stay_in_images()
    ensures entries { (layout : Layout) (office : Office) (old new : List ℕ) → AreWithin office.tables.sets → SameKept layout office.tables.sets old new → HasEntries layout office old → HasEntries layout office new }
    ensures moved { (layout : Layout) (sets : Named TableSet) (old new : List ℕ) → AreLaidOut layout sets → ((set : DataSet) (n : ℕ) → StandsIn layout set → n ≤ set.space → records_on new layout set n ≡ records_on old layout set n) → SameKept layout sets old new }
    ensures kept { (layout : Layout) (sets : Named TableSet) (names : List Name) (library : Catalog) (old new : List ℕ) → AreLaidOut layout sets → HasSets sets names library → Keeps layout library old new → SameKept layout sets old new }
    ensures behind { (layout : Layout) (sets : Named TableSet) (name : Name) (table : TableSet) (set : DataSet) (place count : ℕ) (old new : List ℕ) → AreLaidOut layout sets → entry_at sets name ≡ Some table → SamePlaces table.set set → table.set.length ≤ place → table.set.length ≤ set.space
        → SameRecordsOutside layout set place count old new → SameKept layout sets old new }
    ensures rewritten { (layout : Layout) (sets : Named TableSet) (name : Name) (table : TableSet) (set : DataSet) (old new : List ℕ) → AreLaidOut layout sets → entry_at sets name ≡ Some table → table.entries ≡ [] → SamePlaces table.set set
        → ((other : DataSet) (n : ℕ) → StandsIn layout other → IsTrue (lie_apart set other) → n ≤ other.space → records_on new layout other n ≡ records_on old layout other n) → SameKept layout sets old new }
{}

/// The bytes at the place of each entry that the tables keep are read as its point, with the state that the program of its step had there.
pub fn kept_entries_are_read()
    ensures { (layout : Layout) (office : Office) (image : List ℕ) → HasEntries layout office image → (name : Name) (table : TableSet) → entry_at office.tables.sets name ≡ Some table → AllByRecursion (IsReadBack layout office.legs (jobs_of office.tables) image table.set) table.entries }
{}

/// The bytes at the place of the entry of a run's checkpoint in effect are read as its point, with a state that stands for the records taken
/// in the run's own job, also where it continues the run that took the checkpoint: its program isn't closed, the checkpoint is done, and a cancel
/// isn't.
pub fn entries_in_effect_have_the_state_of_their_job()
    ensures { (layout : Layout) (office : Office) (image : List ℕ) (number : ℕ) (row : RunRow) (entry : KeptEntry) (start : StepStart) → IsKept layout office → AreReady office → AreInEffect office → HasEntries layout office image
        → run_of office.tables number ≡ Some row → effect_entry office.tables row ≡ Some entry → start_in_office office row ≡ Some start → IsReadInEffect layout office image row entry start }
{}

/// Where an image has the entries that the tables keep, and each checkpoint in effect is one of the step that its run is in, no entry is
/// refused. So none of sound events is.
pub fn kept_entries_are_not_refused()
    ensures sound { (layout : Layout) (events : List Decked) (image : List ℕ) → AreSound layout events → HasEntries layout (office events) image → entry_refusal layout (office events).tables image ≡ None }
    ensures effect { (layout : Layout) (office : Office) (image : List ℕ) → HasEntries layout office image → AreInEffect office → entry_refusal layout office.tables image ≡ None }
{}

/// An event leaves each checkpoint in effect, also where its run restarts at it, until the step ends or is restarted from its start, its run
/// ends or the restarts are cancelled. A checkpoint that is taken comes into effect, and so does that at which a run continues another one.
pub fn events_leave_checkpoints_in_effect()
    ensures { (layout : Layout) (now : Office) (event : Event) (deck : Option Job) → AreKept layout now → IsNext layout now (event, deck) → AreWithin now.tables.sets → AreOwned now → AreInEffect now → AreInEffect (office_after (event, deck) now) }
{}

/// A checkpoint of kept events leaves each data set that another selected run reaches, and each name of its step is a data set.
pub fn checkpoints_leave_others()
    ensures names { (layout : Layout) (now : Office) (job taken writes place bytes : ℕ) (id : Name) (lengths : ArrayVec ℕ) (deck : Option Job) → IsKept layout now → may_come layout now (Checkpointed job id taken writes lengths place bytes, deck) ≡ true → HasStepNames now.tables job }
    ensures checks { (layout : Layout) (now : Office) (job taken writes place bytes : ℕ) (id : Name) (lengths : ArrayVec ℕ) (deck : Option Job) → IsKept layout now → may_come layout now (Checkpointed job id taken writes lengths place bytes, deck) ≡ true → HasCheckDd now.tables job → HasCheckSet now.tables job }
    ensures others { (layout : Layout) (now : Office) (job taken writes place bytes : ℕ) (id : Name) (lengths : ArrayVec ℕ) (deck : Option Job) → IsKept layout now → may_come layout now (Checkpointed job id taken writes lengths place bytes, deck) ≡ true → LeavesOthers now job (office_after (Checkpointed job id taken writes lengths place bytes, deck) now) }
{}

/// At every prefix of sound events each entry that the tables keep ends within its data set and tells the owner of its step, and each checkpoint
/// in effect is one of the step that its run is in. For one more event, a restart too, leaves what other selected runs reach. Where the decks
/// are those of their cards, which are accepted ones, only data sets for checkpoints keep entries, and the step of a checkpoint has a DD for them.
pub fn sound_events_keep_entries_within()
    ensures within { (layout : Layout) (front more : List Decked) → AreSound layout (front ++ more) → AreWithin (office front).tables.sets }
    ensures owners { (layout : Layout) (front more : List Decked) → AreSound layout (front ++ more) → AreOwned (office front) }
    ensures effect { (layout : Layout) (front more : List Decked) → AreSound layout (front ++ more) → AreInEffect (office front) }
    ensures plain { (layout : Layout) (front more : List Decked) → AreSound layout (front ++ more) → AreDeckEvents (front ++ more) → OnlyCheckSetsKeep (office front).tables.sets }
    ensures checks { (layout : Layout) (now : Office) (job taken writes place bytes : ℕ) (id : Name) (lengths : ArrayVec ℕ) (deck : Option Job) → IsKept layout now → HasRuns now → may_come layout now (Checkpointed job id taken writes lengths place bytes, deck) ≡ true → HasCheckDd now.tables job }
    ensures others { (layout : Layout) (now : Office) (event : Event) (deck : Option Job) → AreKept layout now → IsNext layout now (event, deck) → LeavesReach now (job_of event) (after_event event deck now.tables).sets }
{}

/// Where an image has the records of the entry that the checkpoint of a running step writes, in a data set that lies where the tables have
/// that of the step's DD for checkpoints, it has the entries that the tables keep behind the checkpoint's event.
pub fn checkpoints_write_their_entry()
    ensures { (layout : Layout) (office : Office) (step : DeskStep) (may : MayCheckpoint layout office step) (image : List ℕ) (set : Name) (table : TableSet) (there : DataSet) → check_set may.going.start ≡ Some set → entry_at office.tables.sets set ≡ Some table → SamePlaces table.set there
        → IsEntry (written_entry layout office step may) → HasEntry image layout there (entry_place office.tables.sets may.going.start) (spelling (written_entry layout office step may))
        → HasEntries layout office image → HasEntries layout (office_behind layout office step may) image }
{}
