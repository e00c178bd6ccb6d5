//! The jobs behind the opening of the desk.
ghost use Rattle.std.specs.Prelude.{◌≡◌, Some, IfOk, OnErr, OnOk};
ghost use Rattle.std.specs.List.{AllByRecursion};
ghost use Rattle.ckr_desk_memory.specs.EventChanges.{failed_in};
ghost use Rattle.ckr_desk_memory.specs.Invariant.{AreJobs};
ghost use Rattle.ckr_desk_memory.specs.OwnSteps.{AreLeft};
ghost use Rattle.ckr_desk_memory.specs.Parts.{IsPointCounted};
ghost use Rattle.ckr_points.specs.Restart.{place_of};
ghost use Rattle.ckr_points.specs.Rows.{run_of, RunRow as RowOfRun};
ghost use Rattle.ckr_points_tables.specs.View.{line_of};
ghost use Rattle.ckr_desk_turn.specs.Desk.{is_running};
ghost use Rattle.ckr_desk_turn.specs.Plans.{is_within};
ghost use Rattle.ckr_desk_turn.specs.Queue.{AreNumbered};
ghost use Rattle.ckr_volumes.specs.declared.layout.Layout.{Layout as LayoutOfDisk};

use crate::{Jobs, StepPoint};
use ckr_base::NoMemory;
use ckr_desk_turn::FailedRun;
use ckr_meaning::Place;
use ckr_points::Run;
use ckr_points_tables::Tables;
use std::alloc::Global;

/// Whether a run is within a step.
fn is_within(tables: &Tables, job: u32) -> bool
    ensures { (row : RowOfRun) → run_of tables.now.desk job ≡ Some row → result ≡ is_within (place_of row) }
{
    match tables.run(job) {
        Some(table) => matches!(table.place, Some(Place::Within(_, _))),
        None => false,
    }
}

/// Whether a run on an initiator is within a step.
fn is_running(tables: &Tables, line: &Run) -> bool
    ensures { (row : RowOfRun) → run_of tables.now.desk row.number ≡ Some row → line.now ≡ line_of row → result ≡ is_running row }
{
    line.initiator.is_some() && is_within(tables, line.number)
}

/// The runs that are on an initiator within a step. The operator wasn't asked for any of them.
fn running_runs(alloc: Global, tables: &Tables) -> Result<Vec<FailedRun>, NoMemory>
    requires { AreNumbered 1 tables.now.desk.runs }
    ensures { IfOk result (λ running. running.items ≡ failed_in tables.now.desk) }
{
    let mut running = Vec::new(alloc);
    for line in tables.runs() {
        if is_running(tables, line) {
            running.push(FailedRun {
                run: line.number,
                asked: false,
            })?;
        }
    }
    Ok(running)
}

impl Jobs {
    /// The desk is opened, with no step running: the runs that are within a step were running when the system failed. The points are those
    /// of the checkpoints in effect, as they were read.
    ///
    /// `NoMemory`: nothing has changed.
    pub fn open(&mut self, points: Vec<StepPoint>) -> Result<(), NoMemory>
        requires counted { AllByRecursion IsPointCounted points.items }
        ensures points { OnOk result (self.new.points ≡ points.items) }
        ensures points_err { OnErr result (self.new.points ≡ self.old.points) }
        ensures ok { OnOk result (self.new.failed ≡ failed_in self.old.tables.desk) }
        ensures err { OnErr result (self.new.failed ≡ self.old.failed) }
        ensures tables { self.new.tables ≡ self.old.tables }
        ensures running { self.new.running ≡ self.old.running }

        // Each of these runs is within its step.
        ensures left { (layout : LayoutOfDisk) → AreJobs layout self.old → OnOk result (AreLeft self.new) }
    {
        let failed = running_runs(self.alloc, &self.tables)?;
        self.failed = failed;
        self.points = points;
        Ok(())
    }
}
