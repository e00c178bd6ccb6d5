//! The data set that a step rewrites in place.
ghost use Rattle.std.specs.Prelude.{◌≡◌, Some};
ghost use Rattle.std.specs.List.{AllByRecursion};
ghost use Rattle.ckr_desk_memory.specs.Invariant.{IsAcceptedRow};
ghost use Rattle.ckr_desk_memory.specs.Plans.{row_for};
ghost use Rattle.ckr_desk_memory.specs.Rewrite.{updated_by};
ghost use Rattle.ckr_points.specs.Rows.{run_of, RunRow};
ghost use Rattle.ckr_points_tables.specs.RunJobs.{effective, IsFitting};

use crate::Jobs;
use ckr_base::DsName;
use ckr_desk_plans::place_of;
use ckr_points::step_in;
use ckr_points_tables::{RunTable, master_dd, step_at};
use ckr_uses::library_name;

/// The name of the data set that the step updates that a run is in, if it updates one.
fn updated_name(run: u32, table: &RunTable) -> Option<DsName>
    requires { IsFitting (effective run table.now.job) }
    ensures { result ≡ updated_by (row_for run table.now) }
{
    let own = step_at(&table.job, run, step_in(place_of(table)))?;
    let dd = master_dd(own.step)?;
    library_name(dd, table.job.root(), own.owner, &own.step.name)
}

impl Jobs {
    /// The name of the data set that the step updates that a run is in. None where there is no such run, or it is in no step that
    /// updates one.
    pub fn updated(&self, run: u32) -> Option<DsName>
        requires { AllByRecursion IsAcceptedRow self.now.tables.desk.runs }
        ensures { (row : RunRow) → run_of self.now.tables.desk run ≡ Some row → result ≡ updated_by row }
    {
        let table = self.known(run)?;
        updated_name(run, table)
    }
}
