//! The point of a checkpoint at which a run is to go on.
ghost use Rattle.std.specs.Prelude.{◌≡◌, ◌≢◌, ◌∷◌, ℕ, true, find, Some, OnErr, OnOk};
ghost use Rattle.ckr_desk_memory.specs.EventChanges.{is_point_of, without_point};
ghost use Rattle.ckr_desk_memory.specs.Invariant.{AreJobs};
ghost use Rattle.ckr_desk_memory.specs.OwnSteps.{AreLeft, HoldTheirOwn};
ghost use Rattle.ckr_desk_memory.specs.Parts.{IsPointCounted};
ghost use Rattle.ckr_points.specs.Follows.{is_in_state, of_run};
ghost use Rattle.ckr_points.specs.declared.run.RunState.TheVariants.{Queued};
ghost use Rattle.ckr_volumes.specs.declared.layout.Layout.{Layout as LayoutOfDisk};

use crate::event::{forget_point, put_point};
use crate::{Jobs, StepPoint};
use ckr_base::NoMemory;

impl Jobs {
    /// The point of a checkpoint is known at which a run is to go on, in place of the one that was known of the run. Nothing else of the jobs
    /// changes.
    ///
    /// `NoMemory`: there is none for the point, and nothing has changed.
    pub fn put_point(&mut self, point: StepPoint) -> Result<(), NoMemory>
        requires { IsPointCounted point }
        ensures points { OnOk result (self.new.points ≡ point ∷ without_point point.run self.old.points) }
        ensures found { OnOk result (find (is_point_of point.run) self.new.points ≡ Some point) }
        ensures others { (run : ℕ) → run ≢ point.run → find (is_point_of run) self.new.points ≡ find (is_point_of run) self.old.points }
        ensures points_err { OnErr result (self.new.points ≡ self.old.points) }
        ensures tables { self.new.tables ≡ self.old.tables }
        ensures running { self.new.running ≡ self.old.running }
        ensures failed { self.new.failed ≡ self.old.failed }
        ensures queue_room { self.new.queue_room ≡ self.old.queue_room }
        ensures running_room { self.new.running_room ≡ self.old.running_room }
        ensures jobs { (layout : LayoutOfDisk) → AreJobs layout self.old → AreJobs layout self.new }

        // No checkpoint is in effect of a run that waits in the queue.
        ensures own { of_run self.old.tables.desk point.run (is_in_state Queued) ≡ true → HoldTheirOwn self.old → HoldTheirOwn self.new }
        ensures left { AreLeft self.old → AreLeft self.new }
    {
        self.points.reserve(1)?;
        forget_point(&mut self.points, point.run);
        put_point(&mut self.points, point);
        Ok(())
    }
}
