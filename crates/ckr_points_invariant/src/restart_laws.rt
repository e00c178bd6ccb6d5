//! What automatic restarts leave. Each law is the contract of a function that does nothing.
ghost use Rattle.std.specs.Prelude.{◌≡◌, ℕ, true, false, List, ◌++◌, Option, Some, IsTrue};
ghost use Rattle.ckr_base.specs.declared.code.Code.{Code};
ghost use Rattle.ckr_events.specs.declared.event.Event.{Event};
ghost use Rattle.ckr_events.specs.declared.event.Event.TheVariants.{Restarted};
ghost use Rattle.ckr_jcl.specs.declared.deck.Job.{Job};
ghost use Rattle.ckr_meaning.specs.EffectiveJob.{OwnedStep};
ghost use Rattle.ckr_meaning.specs.declared.place.Place.TheVariants.{Opened, Within};
ghost use Rattle.ckr_volumes.specs.declared.layout.Layout.{Layout};
ghost use Rattle.ckr_points.specs.Events.{AreSound, IsNext};
ghost use Rattle.ckr_points.specs.Follows.{own_step};
ghost use Rattle.ckr_points.specs.Marks.{point_at};
ghost use Rattle.ckr_points.specs.Office.{Leg, Office, no_office, office, office_after};
ghost use Rattle.ckr_points.specs.Payload.{carries};
ghost use Rattle.ckr_points.specs.Restart.{Decked, kept_at};
ghost use Rattle.ckr_points.specs.Rows.{EffectPoint, KeptEntry, RunRow, StartPoint};
ghost use Rattle.ckr_points.specs.Soundness.{IsSoundOffice, may_come};
ghost use Rattle.ckr_points_invariant.specs.Invariant.{IsHolder, IsKept, step_now};
ghost use Rattle.ckr_points_invariant.specs.Points.{ArePointed};
ghost use Rattle.ckr_points_invariant.specs.Readiness.{AreReady};
ghost use Rattle.ckr_points_invariant.specs.Restorability.{AreEntriesRestorable, AreStepsRestorable, LeavesTheRest, StandsAt};

/// The events stay kept where a run goes back to the start of its step, or to its checkpoint in effect.
pub fn restarts_keep_the_events()
    ensures step { (layout : Layout) (now : Office) (job initiator : ℕ) (code : Code) (deck : Option Job) → IsKept layout now → ArePointed now → AreStepsRestorable now → IsTrue (may_come layout now (Restarted job initiator code false, deck)) → IsTrue (carries layout now (Restarted job initiator code false) deck) → IsKept layout (office_after (Restarted job initiator code false, deck) now) }
    ensures checkpoint { (layout : Layout) (now : Office) (job initiator : ℕ) (code : Code) (deck : Option Job) → IsKept layout now → ArePointed now → AreEntriesRestorable now → IsTrue (may_come layout now (Restarted job initiator code true, deck)) → IsTrue (carries layout now (Restarted job initiator code true) deck) → IsKept layout (office_after (Restarted job initiator code true, deck) now) }
{}

/// And each point stays what its run's job has at that place.
pub fn restarts_keep_the_points()
    ensures step { (layout : Layout) (now : Office) (job initiator : ℕ) (code : Code) (deck : Option Job) → IsKept layout now → ArePointed now → AreStepsRestorable now → IsTrue (may_come layout now (Restarted job initiator code false, deck)) → IsTrue (carries layout now (Restarted job initiator code false) deck) → ArePointed (office_after (Restarted job initiator code false, deck) now) }
    ensures checkpoint { (layout : Layout) (now : Office) (job initiator : ℕ) (code : Code) (deck : Option Job) → IsKept layout now → ArePointed now → AreEntriesRestorable now → IsTrue (may_come layout now (Restarted job initiator code true, deck)) → IsTrue (carries layout now (Restarted job initiator code true) deck) → ArePointed (office_after (Restarted job initiator code true, deck) now) }
{}

/// Behind a restart the run stands at the point. The tables have of the names in its reach, and of its passed list, what its job has there,
/// and the entries are counted from the point on.
pub fn restarts_go_back()
    ensures step { (layout : Layout) (now : Office) (job initiator : ℕ) (code : Code) (deck : Option Job) (row : RunRow) (leg : Leg) (owned : OwnedStep) (point : StartPoint) → IsKept layout now → ArePointed now → AreStepsRestorable now → IsTrue (may_come layout now (Restarted job initiator code false, deck)) → IsTrue (carries layout now (Restarted job initiator code false) deck)
        → IsHolder now job row leg → own_step row ≡ Some owned → point_at row.points (step_now row) ≡ Some point → StandsAt (office_after (Restarted job initiator code false, deck) now) job leg (Opened (step_now row)) point.count }
    ensures checkpoint { (layout : Layout) (now : Office) (job initiator : ℕ) (code : Code) (deck : Option Job) (row : RunRow) (leg : Leg) (owned : OwnedStep) (effect : EffectPoint) (entry : KeptEntry) → IsKept layout now → ArePointed now → AreEntriesRestorable now → IsTrue (may_come layout now (Restarted job initiator code true, deck)) → IsTrue (carries layout now (Restarted job initiator code true) deck)
        → IsHolder now job row leg → own_step row ≡ Some owned → row.in_effect ≡ Some effect → kept_at now.tables.sets effect.set effect.kept.id ≡ Some entry → StandsAt (office_after (Restarted job initiator code true, deck) now) job leg (Within (step_now row) entry.point.writes) entry.point.count }
{}

/// A restart leaves each data set that its run doesn't reach, and each that another holder reaches.
pub fn restarts_leave_the_rest()
    ensures step { (layout : Layout) (now : Office) (job initiator : ℕ) (code : Code) (deck : Option Job) → IsKept layout now → ArePointed now → AreStepsRestorable now → IsTrue (may_come layout now (Restarted job initiator code false, deck)) → IsTrue (carries layout now (Restarted job initiator code false) deck) → LeavesTheRest now job (office_after (Restarted job initiator code false, deck) now).tables.sets }
    ensures checkpoint { (layout : Layout) (now : Office) (job initiator : ℕ) (code : Code) (deck : Option Job) → IsKept layout now → ArePointed now → AreEntriesRestorable now → IsTrue (may_come layout now (Restarted job initiator code true, deck)) → IsTrue (carries layout now (Restarted job initiator code true) deck) → LeavesTheRest now job (office_after (Restarted job initiator code true, deck) now).tables.sets }
{}

/// Where all runs are ready, what restarts rest on holds.
pub fn ready_runs_can_restart()
    ensures step { (now : Office) → AreReady now → AreStepsRestorable now }
    ensures checkpoint { (now : Office) → AreReady now → AreEntriesRestorable now }
{}
