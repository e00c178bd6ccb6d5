//! What the runs that hold their names reach of data sets. A law is the contract of a function that does nothing.
ghost use Rattle.std.specs.Prelude.{◌≡◌, ℕ, List, true, false};
ghost use Rattle.ckr_library.specs.NameMaps.{Name};
ghost use Rattle.ckr_meaning.specs.EffectiveJob.{is_among};
ghost use Rattle.ckr_points.specs.Events.{AreSound};
ghost use Rattle.ckr_points.specs.Office.{Leg, library_for, office};
ghost use Rattle.ckr_points.specs.Restart.{Decked};
ghost use Rattle.ckr_points.specs.Rows.{RunRow};
ghost use Rattle.ckr_points_invariant.specs.Invariant.{IsHolder};
ghost use Rattle.ckr_volumes.specs.declared.layout.Layout.{Layout};
ghost use Rattle.ckr_desk_refines.specs.Holders.{held_names};
ghost use Rattle.ckr_desk_refines.specs.Listing.{is_held};

/// Behind sound events a run that is selected and not ended reaches only names that it holds: those of its submitted deck. So a name that no run
/// holds has what the ended jobs left.
pub fn runs_reach_names_that_they_hold()
    ensures reached { (layout : Layout) (events : List Decked) (number : ℕ) (row : RunRow) (leg : Leg) (name : Name) → AreSound layout events → IsHolder (office events) number row leg → is_among leg.reach name ≡ true → is_among (held_names row) name ≡ true }
    ensures free { (layout : Layout) (events : List Decked) (name : Name) → AreSound layout events → is_held (office events).tables name ≡ false → library_for (office events) name ≡ (office events).library }
{}
