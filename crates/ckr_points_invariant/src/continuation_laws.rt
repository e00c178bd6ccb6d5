//! What deferred restarts leave. The law is the contract of a function that does nothing.
ghost use Rattle.std.specs.Prelude.{◌≡◌, ℕ, suc, Option, None, Some};
ghost use Rattle.ckr_events.specs.declared.event.Event.TheVariants.{Selected};
ghost use Rattle.ckr_jcl.specs.declared.deck.Job.{Job};
ghost use Rattle.ckr_library.specs.NameMaps.{Name};
ghost use Rattle.ckr_meaning.specs.declared.place.Place.TheVariants.{Opened, Within};
ghost use Rattle.ckr_volumes.specs.declared.layout.Layout.{Layout};
ghost use Rattle.ckr_points.specs.Events.{IsNext};
ghost use Rattle.ckr_points.specs.Marks.{point_at};
ghost use Rattle.ckr_points.specs.Office.{Leg, Office, office_after};
ghost use Rattle.ckr_points.specs.Restart.{kept_at, syschk_name};
ghost use Rattle.ckr_points.specs.Rows.{KeptEntry, RunRow, StartPoint, run_of};
ghost use Rattle.ckr_points_invariant.specs.KeptEvents.{AreKept};
ghost use Rattle.ckr_points_invariant.specs.Restorability.{StandsAt};

/// Behind the event that selects a run to continue another one it stands at the start of the step, or at the checkpoint of the entry: the
/// tables have of the names in its reach, and of its passed list, what its job has there, and its entries are counted from the point on. It
/// is so whatever other jobs did in between, and however many runs continued one another before (IBM GC28-6708, deferred restarts).
pub fn continued_runs_stand_at_their_point()
    ensures step { (layout : Layout) (now : Office) (job initiator before step : ℕ) (deck : Option Job) (other : RunRow) (point : StartPoint) → AreKept layout now → IsNext layout now (Selected job initiator (suc before) step None, deck)
        → run_of now.tables (suc before) ≡ Some other → point_at other.points step ≡ Some point → (leg : Leg) × StandsAt (office_after (Selected job initiator (suc before) step None, deck) now) job leg (Opened step) point.count }
    ensures checkpoint { (layout : Layout) (now : Office) (job initiator before step : ℕ) (deck : Option Job) (row : RunRow) (id : Name) (entry : KeptEntry) → AreKept layout now → IsNext layout now (Selected job initiator (suc before) step (Some id), deck)
        → run_of now.tables job ≡ Some row → kept_at now.tables.sets (syschk_name row.deck) id ≡ Some entry → (leg : Leg) × StandsAt (office_after (Selected job initiator (suc before) step (Some id), deck) now) job leg (Within step entry.point.writes) entry.point.count }
{}
