//! How the definitions of this crate and those of the meaning of a step agree. Each law is the contract of a function that does nothing.
ghost use Rattle.std.specs.Prelude.{◌≡◌, ℕ, Bool, List, [], map, Err};
ghost use Rattle.std.specs.Result.{IsOkAnd};
ghost use Rattle.ckr_library.specs.declared.sets.Stamp.{Stamp as StampOfStep};
ghost use Rattle.ckr_library.specs.Catalog.{Holding};
ghost use Rattle.ckr_library.specs.NameMaps.{Name, Named};
ghost use Rattle.ckr_volumes.specs.declared.layout.Layout.{Layout as LayoutOfDisk};
ghost use Rattle.ckr_meaning.specs.Allotments.{DdAllotment, is_made};
ghost use Rattle.ckr_meaning.specs.Dispositions.{Stock};
ghost use Rattle.ckr_meaning.specs.EffectiveJob.{OwnedStep, disposals_of, flaws_in, is_among, placed_in};
ghost use Rattle.ckr_points_library.specs.Allocation.{allocated_all};
ghost use Rattle.ckr_points_library.specs.Disposals.{disposals_in};
ghost use Rattle.ckr_points_library.specs.Holdings.{holding_ways};

/// Where `made` and `earlier` say which data sets the step makes, by what allocation said of its DDs, and which names earlier
/// steps made, the dispositions are those of the meaning of the step.
pub fn dispositions_are_those_of_the_step()
    ensures { (root : ℕ) (own : OwnedStep) (before : Stock Holding) (earlier : List Name) (abnormal : Bool) → let placed = placed_in holding_ways before root own in disposals_in root own (map (λ one. is_made one.allotment) placed) (map (λ one. is_among earlier one.name) placed) abnormal ≡ disposals_of earlier abnormal placed }
{}

/// No DD of a step that is allocated is missing its data set, finds one that it would make, or finds one of the wrong kind.
pub fn allocated_steps_have_no_flaw()
    ensures { (layout : LayoutOfDisk) (stamp : StampOfStep) (placed : List DdAllotment) (sets : Named Holding) → IsOkAnd (allocated_all layout stamp placed sets) (λ _. Unit {0}) → flaws_in placed ≡ [] }
{}
