//! Whether the rewrite of a record of MASTER follows.
ghost use Rattle.std.specs.Prelude.{◌≡◌, ◌≤◌, ◌==◌, ◌&&◌, nat_lt, length, false, true, []};
ghost use Rattle.std.specs.Option.{option_copied, option_map_or};
ghost use Rattle.ckr_points_library.specs.Holdings.{owned};
ghost use Rattle.ckr_points.specs.Follows.{is_rewrite, is_running, lengths_follow, of_run, of_step};
ghost use Rattle.ckr_points_follows.specs.Rewrite.{is_place_of, is_rewrite_of};
ghost use Rattle.ckr_points_tables.specs.RunJobs.{own_of};
ghost use Rattle.ckr_points_deferred.specs.Runs.{row_now, IsRunNow};

use crate::lengths::lengths_follow;
use crate::runs::is_running;
use crate::steps::own_step;
use ckr_base::DsName;
use ckr_jcl::{Kind, Step};
use ckr_points_deferred::{RunNow, run_now, set_of};
use ckr_points_tables::{OwnStep, Tables, master_name};

/// Whether a data set has a record at this place, and records of this length.
fn is_place_of(tables: &Tables, name: &DsName, place: u32, image: &[u8]) -> bool
    ensures { result ≡ is_place_of tables.now.desk.sets name.now place image.now }
{
    match set_of(tables, name) {
        Some(set) => place < set.length && image.len() == usize::from(set.lrecl),
        None => false,
    }
}

/// Whether a step updates a data set that has a record at this place, and records of this length.
fn is_rewrite(tables: &Tables, root: u32, own: &OwnStep<'_>, place: u32, image: &[u8]) -> bool
    requires root { root ≤ 9999999 }
    requires owner { own.now.owner ≤ 9999999 }
    ensures { result ≡ is_rewrite_of tables.now.desk.sets root (own_of own.now) place image.now }
{
    if !matches!(own.step.program, Kind::Update) {
        return false;
    }
    match master_name(root, own) {
        Some(name) => is_place_of(tables, &name, place, image),
        None => false,
    }
}

/// Whether the step that a run is in rewrites a record at this place.
fn step_rewrites(tables: &Tables, run: &RunNow<'_>, place: u32, image: &[u8]) -> bool
    requires { IsRunNow run.now }
    ensures { result ≡ of_step (row_now run.now) (is_rewrite tables.now.desk place image.now (row_now run.now)) }
{
    match own_step(run) {
        Some(own) => is_rewrite(tables, run.table.job.root(), &own, place, image),
        None => false,
    }
}

/// Whether the selection of a run follows, by its row.
fn run_rewrites(
    tables: &Tables,
    run: &RunNow<'_>,
    lengths: &[u32],
    place: u32,
    image: &[u8],
) -> bool
    requires { IsRunNow run.now }
    ensures { result ≡ (is_running (row_now run.now) && lengths_follow tables.now.desk (row_now run.now) lengths.now && of_step (row_now run.now) (is_rewrite tables.now.desk place image.now (row_now run.now))) }
{
    is_running(run)
        && lengths_follow(tables, run, lengths)
        && step_rewrites(tables, run, place, image)
}

/// Whether the rewrite of a record follows: its run is within a step of UPDATE, the lengths are those of the step's outputs, MASTER
/// has a record at the place, and the image is as long as its records.
pub fn rewritten_follows(
    tables: &Tables,
    job: u32,
    lengths: &[u32],
    place: u32,
    image: &[u8],
) -> bool
    ensures { result ≡ of_run tables.now.desk job (λ row. is_running row && lengths_follow tables.now.desk row lengths.now && of_step row (is_rewrite tables.now.desk place image.now row)) }
{
    match run_now(tables, job) {
        Some(run) => run_rewrites(tables, &run, lengths, place, image),
        None => false,
    }
}
