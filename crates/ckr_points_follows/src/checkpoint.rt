//! Whether a checkpoint of a step follows, and its cancel.
ghost use Rattle.std.specs.Prelude.{◌≡◌, ◌≤◌, ◌+◌, ◌&&◌, true, []};
ghost use Rattle.std.specs.List.{list_all, list_any};
ghost use Rattle.ckr_library.specs.Catalog.{records_of};
ghost use Rattle.ckr_library.specs.NameMaps.{same_name};
ghost use Rattle.ckr_library.specs.declared.sets.Kept.{Kept as KeptOfSet};
ghost use Rattle.ckr_points_library.specs.Commit.{is_named};
ghost use Rattle.ckr_points_library.specs.Holdings.{owned};
ghost use Rattle.ckr_points.specs.Follows.{is_checkpoint, is_length_of, is_running, lengths_follow, of_run, of_step};
ghost use Rattle.ckr_points_follows.specs.Checkpoint.{is_checkpoint_of, is_free_at};
ghost use Rattle.ckr_points_follows.specs.Lengths.{outputs_from};
ghost use Rattle.ckr_points_tables.specs.RunJobs.{own_of};
ghost use Rattle.ckr_points_deferred.specs.Runs.{row_now, IsRunNow};

use crate::lengths::lengths_follow;
use crate::runs::is_running;
use crate::steps::own_step;
use ckr_base::{CheckId, DsName};
use ckr_jcl::{Dd, Step};
use ckr_library::Kept;
use ckr_points_deferred::{RunNow, run_now, set_of};
use ckr_points_library::{has_text, output_name};
use ckr_points_tables::{OwnStep, Tables, checkpoint_name};

/// Whether the identifiers are the same.
fn is_same_id(one: &CheckId, other: &CheckId) -> bool
    ensures { result ≡ same_name one.now other.now }
{
    one.text().cmp(other.text()).is_eq()
}

/// Whether one of these entries has this identifier.
fn has_id(entries: &[Kept], id: &CheckId) -> bool
    ensures { result ≡ list_any (λ (kept : KeptOfSet). same_name kept.id id.now) entries.now }
{
    entries.iter().any(|kept| is_same_id(&kept.id, id))
}

/// Whether a data set has this length, and doesn't keep the identifier.
fn is_free_at(tables: &Tables, name: &DsName, id: &CheckId, place: u32) -> bool
    ensures { result ≡ is_free_at tables.now.desk.sets name.now id.now place }
{
    match set_of(tables, name) {
        Some(set) => place == set.length && !has_id(tables.library().entries(name), id),
        None => false,
    }
}

/// Whether the data set of a name is an output among these DDs, which gets this length.
fn is_length_of(
    root: u32,
    owner: u32,
    step: &Step,
    dds: &[Dd],
    name: &DsName,
    most: u64,
    lengths: &[u32],
) -> bool
    requires root { root ≤ 9999999 }
    requires owner { owner ≤ 9999999 }
    ensures { result ≡ is_length_of name.now most (outputs_from root (owned step.now owner []) dds.now) lengths.now }
{
    match dds {
        [] => false,
        [dd, rest @ ..] => match output_name(dd, root, owner, step) {
            None => is_length_of(root, owner, step, rest, name, most, lengths),
            Some(output) => match lengths {
                [] => false,
                [length, others @ ..] => {
                    if output.is_same(name) {
                        u64::from(*length) == most
                    } else {
                        is_length_of(root, owner, step, rest, name, most, others)
                    }
                }
            },
        },
    }
}

/// The outputs among these DDs have names. It does nothing.
fn have_names(root: u32, owner: u32, step: &Step, dds: &[Dd])
    requires root { root ≤ 9999999 }
    requires owner { owner ≤ 9999999 }
    ensures { list_all is_named (outputs_from root (owned step.now owner []) dds.now) ≡ true }
{
    match dds {
        [] => {}
        [dd, rest @ ..] => match output_name(dd, root, owner, step) {
            None => have_names(root, owner, step, rest),
            Some(name) => {
                has_text(&name);
                have_names(root, owner, step, rest);
            }
        },
    }
}

/// Whether a step has a checkpoint data set that ends at this record, doesn't keep the identifier, and gets the length behind the
/// entry.
fn is_checkpoint(
    tables: &Tables,
    root: u32,
    own: &OwnStep<'_>,
    id: &CheckId,
    lengths: &[u32],
    place: u32,
    bytes: u32,
) -> bool
    requires root { root ≤ 9999999 }
    requires owner { own.now.owner ≤ 9999999 }
    ensures { result ≡ is_checkpoint_of tables.now.desk.sets root (own_of own.now) id.now lengths.now place bytes }
{
    match checkpoint_name(root, own) {
        Some(name) => {
            let most = u64::from(place) + (u64::from(bytes) + 255) / 256;
            is_free_at(tables, &name, id, place)
                && is_length_of(
                    root,
                    own.owner,
                    own.step,
                    own.step.dds.as_slice(),
                    &name,
                    most,
                    lengths,
                )
        }
        None => false,
    }
}

/// Whether the step that a run is in takes a checkpoint so.
fn step_checkpoints(
    tables: &Tables,
    run: &RunNow<'_>,
    id: &CheckId,
    lengths: &[u32],
    place: u32,
    bytes: u32,
) -> bool
    requires { IsRunNow run.now }
    ensures { result ≡ of_step (row_now run.now) (is_checkpoint tables.now.desk id.now lengths.now place bytes (row_now run.now)) }
{
    match own_step(run) {
        Some(own) => {
            let root = run.table.job.root();
            have_names(root, own.owner, own.step, own.step.dds.as_slice());
            is_checkpoint(tables, root, &own, id, lengths, place, bytes)
        }
        None => false,
    }
}

/// Whether a checkpoint of a run follows, by its row.
fn run_checkpoints(
    tables: &Tables,
    run: &RunNow<'_>,
    id: &CheckId,
    lengths: &[u32],
    place: u32,
    bytes: u32,
) -> bool
    requires { IsRunNow run.now }
    ensures { result ≡ (is_running (row_now run.now) && lengths_follow tables.now.desk (row_now run.now) lengths.now && of_step (row_now run.now) (is_checkpoint tables.now.desk id.now lengths.now place bytes (row_now run.now))) }
{
    is_running(run)
        && lengths_follow(tables, run, lengths)
        && step_checkpoints(tables, run, id, lengths, place, bytes)
}

/// Whether a checkpoint follows: its run is within a step, the lengths are those of the step's outputs, and the entry begins at the
/// committed length of the checkpoint data set, which gets the length behind it and doesn't keep the identifier (IBM GC28-6708, this
/// project's profile).
pub fn checkpointed_follows(
    tables: &Tables,
    job: u32,
    id: &CheckId,
    lengths: &[u32],
    place: u32,
    bytes: u32,
) -> bool
    ensures { result ≡ of_run tables.now.desk job (λ row. is_running row && lengths_follow tables.now.desk row lengths.now && of_step row (is_checkpoint tables.now.desk id.now lengths.now place bytes row)) }
{
    match run_now(tables, job) {
        Some(run) => run_checkpoints(tables, &run, id, lengths, place, bytes),
        None => false,
    }
}

/// Whether the cancel of a checkpoint follows: its run is within a step.
pub fn cancelled_follows(tables: &Tables, job: u32) -> bool
    ensures { result ≡ of_run tables.now.desk job is_running }
{
    match run_now(tables, job) {
        Some(run) => is_running(&run),
        None => false,
    }
}
