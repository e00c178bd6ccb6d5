//! What runs that hold may change stays theirs, whatever the disk reads. Each law is the contract of a function that does nothing.
ghost use Rattle.std.specs.Prelude.{◌≡◌, true, ℕ, List, [], ◌∷◌, Option};
ghost use Rattle.ckr_base.specs.declared.programs.Heads.{Heads as HeadsOfInputs};
ghost use Rattle.std.specs.List.{AllByRecursion};
ghost use Rattle.arrayvec.specs.ArrayVec.{ArrayVec};
ghost use Rattle.ckr_base.specs.declared.code.Code.{Code};
ghost use Rattle.ckr_events.specs.Jobs.{job_of};
ghost use Rattle.ckr_events.specs.declared.event.Ending.TheVariants.{Coded};
ghost use Rattle.ckr_events.specs.declared.event.Event.{Event};
ghost use Rattle.ckr_events.specs.declared.event.Event.TheVariants.{Ended, Held};
ghost use Rattle.ckr_jcl.specs.declared.deck.Job.{Job};
ghost use Rattle.ckr_points.specs.Follows.{follows};
ghost use Rattle.ckr_points.specs.Restart.{after_event};
ghost use Rattle.ckr_points.specs.Rows.{TablesModel, no_tables};
ghost use Rattle.ckr_points.specs.Soundness.{AreLaidOut};
ghost use Rattle.ckr_volumes.specs.declared.layout.Layout.{Layout};
ghost use Rattle.ckr_desk_plans.specs.Model.Inputs.{AreStored, AreThere};
ghost use Rattle.ckr_desk_plans.specs.Model.StepUnit.{HasDone, done_for, worked_for};
ghost use Rattle.ckr_library.specs.Catalog.{Catalog};
ghost use Rattle.ckr_desk_plans.specs.StepTypes.StepRun.{StepRun as RunningProgram};
ghost use Rattle.ckr_desk_plans.specs.StepTypes.Worked.{Worked as WorkedUnit};
ghost use Rattle.ckr_desk_plans.specs.StepTypes.Worked.TheVariants.{Rewrite};
ghost use Rattle.ckr_desk_memory.specs.EventChanges.{served_step};
ghost use Rattle.ckr_desk_memory.specs.Invariant.{IsAcceptedRow, IsAnyAccepted, IsPlacedRow};
ghost use Rattle.ckr_points_tables.specs.Invariant.{MaySubmit};
ghost use Rattle.ckr_desk_memory.specs.RunningSteps.{GoesOn};
ghost use Rattle.ckr_desk_memory.specs.Start.{AllFit};
ghost use Rattle.ckr_desk_memory.specs.View.{JobsView, PointView, RunningStepView};
ghost use Rattle.ckr_desk_turn.specs.Queue.{AreNumbered};
ghost use Rattle.ckr_desk_memory.specs.Holders.{AreHolders};
ghost use Rattle.ckr_desk_memory.specs.OwnEvents.{HasOwnLengths, IsLeftWithin, IsOwnEvent};
ghost use Rattle.ckr_desk_memory.specs.OwnSets.{CommitsItsOwn, IsCommitted, IsRunningOf};
ghost use Rattle.ckr_desk_memory.specs.OwnSteps.{AreLeft, HavePoints, HoldTheirOwn, IsOfOther, KnowsItsPoint};

/// Runs that hold their names stay apart by each event that follows, whether it is sound or not: no two of them hold against each other,
/// each executes steps whose names are of its deck, with kin as their owners, has lost all else that was passed on as made, and what its step may
/// change is there. Runs that continue other ones are among them. So it is where there are no runs yet.
pub fn holders_stay_apart()
    ensures none { AreHolders no_tables }
    ensures kept { (layout : Layout) (tables : TablesModel) (event : Event) (deck : Option Job)
        → AreHolders tables → AllByRecursion IsAcceptedRow tables.runs → AreNumbered 1 tables.runs → AllByRecursion IsPlacedRow tables.runs
        → IsAnyAccepted event deck → MaySubmit event deck → follows layout tables event deck ≡ true → AreHolders (after_event event deck tables) }
{}

/// Where runs that hold stay apart, the running steps stay those of their runs, each with its data sets beside the tables, by each event that
/// follows and that commits at most the lengths that its own step has, also where a step goes on from the point of its run; and so does a step by a unit of its work, whatever records it read.
pub fn running_steps_stay_theirs()
    ensures event { (layout : Layout) (tables : TablesModel) (event : Event) (deck : Option Job) (points : List PointView) (old new : List RunningStepView)
        → AreHolders tables → AllByRecursion IsAcceptedRow tables.runs → AreNumbered 1 tables.runs → AllByRecursion IsPlacedRow tables.runs
        → IsAnyAccepted event deck → MaySubmit event deck → follows layout tables event deck ≡ true
        → AllByRecursion (IsRunningOf tables) old → HavePoints tables points → KnowsItsPoint event tables points
        → CommitsItsOwn event tables old → GoesOn event (after_event event deck tables) points old new
        → AllByRecursion (IsRunningOf (after_event event deck tables)) new }
    ensures unit { (tables : TablesModel) (old new : RunningStepView) (heads : HeadsOfInputs) (worked : WorkedUnit)
        → AllByRecursion IsAcceptedRow tables.runs → AreNumbered 1 tables.runs
        → new.run ≡ old.run → HasDone heads old.step new.step old.sets new.sets worked → IsRunningOf tables old → IsRunningOf tables new }

    // What is due of a step is done.
    ensures served { (tables : TablesModel) (on : RunningStepView) → IsRunningOf tables on → IsRunningOf tables (served_step on) }

    // No data set of a step is longer than its space, also behind a unit.
    ensures stored { (layout : Layout) (catalog : Catalog) → AreStored layout catalog → AllFit catalog.sets }
    ensures fit { (old new : RunningStepView) (heads : HeadsOfInputs) (worked : WorkedUnit) → AreThere old.step.files old.sets
        → AllFit old.sets.sets → HasDone heads old.step new.step old.sets new.sets worked → AllFit new.sets.sets }
{}

/// An event that a running step brings about follows: its end, the end of its run by a code or the hold of it, a rewrite that a unit of it asks for,
/// each with the lengths that the step has, and the cancel of its restarts. What it commits is up to these lengths. So does the end by a code of a run
/// that was within a step, on an initiator or released, and its hold, with the lengths that are committed.
pub fn own_events_follow()
    ensures follows { (layout : Layout) (tables : TablesModel) (event : Event) (deck : Option Job) (on : RunningStepView)
        → AllByRecursion IsAcceptedRow tables.runs → AreNumbered 1 tables.runs
        → IsRunningOf tables on → AllFit on.sets.sets → IsOwnEvent event tables on → follows layout tables event deck ≡ true }
    ensures commits { (tables : TablesModel) (on : RunningStepView) (job : ℕ) (lengths : List ℕ)
        → HasOwnLengths tables on lengths → IsCommitted job lengths tables on }

    // What one running step commits of its own, it commits with others beside it, none of which is of its run.
    ensures others { (tables : TablesModel) (event : Event) (seen moved : RunningStepView) (others : List RunningStepView)
        → moved.run ≡ seen.run → moved.sets.sets ≡ seen.sets.sets → AllByRecursion (IsOfOther (job_of event)) others
        → CommitsItsOwn event tables (seen ∷ []) → CommitsItsOwn event tables (moved ∷ others) }

    // Before a rewrite its unit writes nothing, so the lengths are those that the step has.
    ensures before { (catalog : Catalog) (step : RunningProgram) (heads : HeadsOfInputs) (place : ℕ) (image : List ℕ) (taken : ℕ)
        → worked_for catalog step heads ≡ Rewrite place image taken → done_for catalog step heads ≡ [] }
    ensures left { (layout : Layout) (tables : TablesModel) (job rule writes : ℕ) (code : Code) (lengths : ArrayVec ℕ) (deck : Option Job)
        → AreHolders tables → AreLaidOut layout tables.sets → IsLeftWithin tables job lengths.items
        → follows layout tables (Ended job (Coded code rule writes lengths)) deck ≡ true }
    ensures held { (layout : Layout) (tables : TablesModel) (job writes : ℕ) (code : Code) (lengths : ArrayVec ℕ) (deck : Option Job)
        → AreHolders tables → AreLaidOut layout tables.sets → IsLeftWithin tables job lengths.items → follows layout tables (Held job code writes lengths) deck ≡ true }
{}

/// Jobs hold their own where their runs stay apart, no step is running and they have the points of the checkpoints in effect, as where the
/// desk is opened, and where their tables, their running steps and their points are those of jobs that do. So it is with the runs that were running when the system failed.
pub fn jobs_hold_their_own()
    ensures none { (jobs : JobsView) → AreHolders jobs.tables.desk → jobs.running ≡ [] → HavePoints jobs.tables.desk jobs.points → HoldTheirOwn jobs }
    ensures alike { (old new : JobsView) → new.tables.desk ≡ old.tables.desk → new.running ≡ old.running → new.points ≡ old.points → HoldTheirOwn old → HoldTheirOwn new }
    ensures left { (old new : JobsView) → new.tables.desk ≡ old.tables.desk → new.failed ≡ old.failed → AreLeft old → AreLeft new }
{}
