//! What holds of every queue, and of the units. Each law is the contract of a function that does nothing.
ghost use Rattle.std.specs.Prelude.{◌≡◌, ◌↔◌, ◌≤◌, ℕ, List, IsTrue, false};
ghost use Rattle.std.specs.List.{list_any};
ghost use Rattle.ckr_queue.specs.declared.entry.QueueEntry.{QueueEntry as EntryOfQueue};
ghost use Rattle.ckr_queue.specs.declared.entry.Selection.TheVariants.{Job as JobNext, Idle as NoneNext};
ghost use Rattle.ckr_queue.specs.Mounts.{no_mounts, AreMounts};
ghost use Rattle.ckr_queue.specs.Queue.{may_start, rises, selection_of, IsLowest};
ghost use Rattle.ckr_queue.specs.Units.{after_mounts, is_among, AreAllMounted, AreUnits, ArePinnedAndFit, IsGivenUnit, UnitTable};

/// The run that is selected may start, and no run of a lower number may.
pub fn selections_are_lowest()
    ensures { (entries : List EntryOfQueue) (number : ℕ) → IsTrue (rises entries) → selection_of entries ≡ JobNext number → IsLowest entries number }
{}

/// `Idle` is answered exactly where no run may start.
#[tactic(auto, using(crate::proofs::Select::idle))]
pub fn idle_where_none_may_start()
    ensures { (entries : List EntryOfQueue) → (selection_of entries ≡ NoneNext) ↔ (list_any (may_start entries) entries ≡ false) }
{}

/// Where the volumes that are pinned need no more units than are free, one of them gets a unit, except where it is on one. Mounted
/// there, it takes none of them from its unit, and they need as many units as before and as many are free.
pub fn pinned_volume_gets_unit()
    ensures { (t : UnitTable) (volumes : List ℕ) (volume : ℕ) → AreUnits t → ArePinnedAndFit t volumes → IsTrue (is_among volumes volume) → IsGivenUnit t volumes volume }
{}

/// Where the volumes that are pinned need no more units than are free, all of them can be mounted, one after another.
pub fn pinned_volumes_are_mounted()
    ensures { (t : UnitTable) (volumes : List ℕ) → AreUnits t → ArePinnedAndFit t volumes → AreAllMounted volumes t (after_mounts volumes t) }
{}

/// At first all units are empty, and no volume is in use.
pub fn mounts_begin_empty()
    ensures { (count : ℕ) → count ≤ 16 → AreMounts (no_mounts count) }
{}
