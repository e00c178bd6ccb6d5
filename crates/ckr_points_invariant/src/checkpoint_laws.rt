//! That the entry of a checkpoint stays. The law is the contract of a function that does nothing.
ghost use Rattle.std.specs.Prelude.{◌≡◌, ℕ, true, List, [], ◌∷◌, ◌++◌, Option, Some};
ghost use Rattle.arrayvec.specs.ArrayVec.{ArrayVec};
ghost use Rattle.ckr_events.specs.declared.event.Event.{Event};
ghost use Rattle.ckr_events.specs.declared.event.Event.TheVariants.{Checkpointed};
ghost use Rattle.ckr_jcl.specs.declared.deck.Job.{Job};
ghost use Rattle.ckr_library.specs.NameMaps.{Name};
ghost use Rattle.ckr_meaning.specs.EffectiveJob.{OwnedStep};
ghost use Rattle.ckr_volumes.specs.declared.layout.Layout.{Layout};
ghost use Rattle.ckr_points.specs.Events.{AreSound, AreSoundFrom, IsNext};
ghost use Rattle.ckr_points.specs.Follows.{own_step};
ghost use Rattle.ckr_points.specs.Office.{Office, office, office_after, office_from};
ghost use Rattle.ckr_points.specs.Restart.{Decked, kept_at};
ghost use Rattle.ckr_points.specs.Rows.{KeptEntry, RunRow, run_of};
ghost use Rattle.ckr_points_invariant.specs.Checkpoints.{HasTaken, IsUncut, reaches_to_end, taken_entry};
ghost use Rattle.ckr_points_invariant.specs.KeptEvents.{AreKept};
ghost use Rattle.ckr_points_invariant.specs.WrittenEntries.{check_set};

/// Behind the event of a checkpoint the data set that the run's step has for checkpoints keeps its entry, under its identifier, with the point
/// at which it was taken. An entry that is kept stays, the very same, behind each event that may come and carries what its job gives and behind
/// which its data set stands and reaches to the entry's end, whichever event it is; and so behind many. So of sound events the tables lose a
/// checkpoint only where one of them deletes its data set, empties it, or puts it back to a length at which the entry isn't whole.
pub fn checkpoints_stay_until_they_are_cut()
    ensures taken { (layout : Layout) (now : Office) (job taken writes place bytes : ℕ) (id : Name) (lengths : ArrayVec ℕ) (deck : Option Job) → AreKept layout now → IsNext layout now (Checkpointed job id taken writes lengths place bytes, deck)
        → HasTaken now (office_after (Checkpointed job id taken writes lengths place bytes, deck) now) (record { id = id; run = job; place = place; bytes = bytes }) taken writes lengths.items }
    ensures stays { (layout : Layout) (now : Office) (event : Event) (deck : Option Job) (set id : Name) (entry : KeptEntry) → AreKept layout now → IsNext layout now (event, deck) → kept_at now.tables.sets set id ≡ Some entry
        → reaches_to_end (office_after (event, deck) now).tables.sets set entry.kept ≡ true → kept_at (office_after (event, deck) now).tables.sets set id ≡ Some entry }
    ensures until { (layout : Layout) (now : Office) (later : List Decked) (set id : Name) (entry : KeptEntry) → AreKept layout now → AreSoundFrom layout now later → kept_at now.tables.sets set id ≡ Some entry
        → IsUncut set entry.kept later now → kept_at (office_from later now).tables.sets set id ≡ Some entry }
    ensures sound { (layout : Layout) (front later : List Decked) (job taken writes place bytes : ℕ) (id : Name) (lengths : ArrayVec ℕ) (deck : Option Job) (row : RunRow) (owned : OwnedStep)
        → AreSound layout (front ++ (Checkpointed job id taken writes lengths place bytes, deck) ∷ later) → run_of (office front).tables job ≡ Some row → own_step row ≡ Some owned
        → IsUncut (check_set row owned) (record { id = id; run = job; place = place; bytes = bytes }) later (office_after (Checkpointed job id taken writes lengths place bytes, deck) (office front))
        → kept_at (office (front ++ (Checkpointed job id taken writes lengths place bytes, deck) ∷ later)).tables.sets (check_set row owned) id ≡ Some (taken_entry (office front) row owned (record { id = id; run = job; place = place; bytes = bytes }) taken writes lengths.items) }
{}
