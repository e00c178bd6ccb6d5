//! Whether the lengths that an event carries follow.
ghost use Rattle.std.specs.Prelude.{◌≡◌, ◌≤◌, []};
ghost use Rattle.ckr_points_library.specs.Holdings.{owned};
ghost use Rattle.ckr_points.specs.Follows.{are_lengths, lengths_follow};
ghost use Rattle.ckr_points_follows.specs.Lengths.{fits, outputs_from};
ghost use Rattle.ckr_points_deferred.specs.Runs.{row_now, IsRunNow};

use crate::steps::own_step;
use ckr_base::DsName;
use ckr_jcl::{Dd, Step};
use ckr_points_deferred::{RunNow, set_of};
use ckr_points_library::output_name;
use ckr_points_tables::Tables;

/// Whether a length is within the space of the data set of a name and not less than what is committed.
fn fits(tables: &Tables, name: &DsName, length: u32) -> bool
    ensures { result ≡ fits tables.now.desk.sets name.now length }
{
    match set_of(tables, name) {
        Some(set) => set.length <= length && length <= set.space,
        None => false,
    }
}

/// Whether the lengths are one for each output among these DDs, in their order.
fn are_lengths(
    tables: &Tables,
    root: u32,
    owner: u32,
    step: &Step,
    dds: &[Dd],
    lengths: &[u32],
) -> bool
    requires root { root ≤ 9999999 }
    requires owner { owner ≤ 9999999 }
    ensures { result ≡ are_lengths tables.now.desk.sets (outputs_from root (owned step.now owner []) dds.now) lengths.now }
{
    match dds {
        [] => lengths.is_empty(),
        [dd, rest @ ..] => match output_name(dd, root, owner, step) {
            None => are_lengths(tables, root, owner, step, rest, lengths),
            Some(name) => match lengths {
                [] => false,
                [length, others @ ..] => {
                    fits(tables, &name, *length)
                        && are_lengths(tables, root, owner, step, rest, others)
                }
            },
        },
    }
}

/// Whether the lengths are those of the step that a run is before or in: one for each of its outputs in the order of the DDs, within
/// its space, and not less than what is committed.
pub(crate) fn lengths_follow(tables: &Tables, run: &RunNow<'_>, lengths: &[u32]) -> bool
    requires { IsRunNow run.now }
    ensures { result ≡ lengths_follow tables.now.desk (row_now run.now) lengths.now }
{
    match own_step(run) {
        Some(own) => are_lengths(
            tables,
            run.table.job.root(),
            own.owner,
            own.step,
            own.step.dds.as_slice(),
            lengths,
        ),
        None => false,
    }
}
