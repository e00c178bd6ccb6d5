//! The entries of checkpoints in effect, which opening reads: the points of their runs.
ghost use Rattle.std.specs.Prelude.{◌≡◌, ◌≤◌, ◌++◌, ◌∷◌, [], IfErr, IfOk, IsTrue, None, OnOk};
ghost use Rattle.std.specs.List.{AllByRecursion};
ghost use Rattle.ckr_desk.specs.Entries.{bad_entry};
ghost use Rattle.ckr_desk_refines.specs.Memory.Invariant.{AreJobs};
ghost use Rattle.ckr_desk_refines.specs.Memory.Parts.{IsPointCounted};
ghost use Rattle.ckr_desk_turn.specs.Queue.{AreNumbered};
ghost use Rattle.ckr_outside.specs.Disk.{OnlyReads};
ghost use Rattle.ckr_outside.specs.Faults.{Rose};
ghost use Rattle.ckr_volumes.specs.Layouts.{disk_needed, is_laid_out};
ghost use Rattle.ckr_desk.specs.Points.{ArePointsRead, EntriesCause, point_at};

use crate::OpenError;
use ckr_base::NoMemory;
use ckr_desk_refines::{Jobs, StepPoint, StepState, effect_state};
use ckr_outside::Disk;
use ckr_volumes::Layout;
use std::alloc::Global;

/// The point of a run whose step stands so.
pub(crate) fn point_at(run: u32, state: StepState) -> StepPoint
    ensures { result ≡ point_at run state }
{
    StepPoint {
        run,
        state: state.state,
        writes: state.writes,
    }
}

/// Puts the point of a run behind the others.
fn put_point(points: &mut Vec<StepPoint>, run: u32, state: StepState) -> Result<(), NoMemory>
    ensures { OnOk result (points.new.items ≡ points.old.items ++ point_at run state ∷ []) }
{
    points.push(point_at(run, state))?;
    Ok(())
}

/// Reads the entry of each checkpoint in effect, those of ended runs aside: where the steps of their runs stand there.
///
/// `NoMemory`. `Fault`: only where the disk's faults rose in this call. `BadEntry`: exactly by the bytes that the disk reads, for the least
/// run whose entry hasn't its places in its data set, isn't read, or is no point of the step that the run is in (IBM GC28-6708).
pub(crate) fn check_entries<D: Disk>(
    alloc: Global,
    disk: &mut D,
    layout: &Layout,
    jobs: &Jobs,
) -> Result<Vec<StepPoint>, OpenError>
    requires layout { IsTrue (is_laid_out layout.now) }
    requires fits { disk_needed layout.now ≤ D.size disk.old }
    requires jobs { AreJobs layout.now jobs.now }
    requires numbered { AreNumbered 1 jobs.now.tables.desk.runs }
    ensures none { D.told → OnOk result (bad_entry layout.now jobs.now.tables.desk (D.content disk.old) ≡ None) }
    ensures points { IfOk result (λ points. ArePointsRead D.told layout.now jobs.now.tables.desk (D.content disk.old) points.items) }
    ensures counted { IfOk result (λ points. AllByRecursion IsPointCounted points.items) }
    ensures only_reads { OnlyReads D.content D.may_leave D.moment D.left_since disk.old disk.new }
    ensures size { D.size disk.new ≡ D.size disk.old }
    ensures faults { D.faults disk.old ≤ D.faults disk.new }
    ensures cause { IfErr result (EntriesCause (Rose (D.faults disk.old) (D.faults disk.new)) D.told (bad_entry layout.now jobs.now.tables.desk (D.content disk.old))) }
{
    let mut points = Vec::new(alloc);
    for run in jobs.runs() {
        match effect_state(alloc, disk, layout, jobs.tables(), run)? {
            None => {}
            Some(Ok(state)) => put_point(&mut points, run.number, state)?,
            Some(Err(offset)) => {
                return Err(OpenError::BadEntry {
                    job: run.number,
                    offset,
                });
            }
        }
    }
    Ok(points)
}
