//! A record of MASTER is rewritten in place.
ghost use Rattle.std.specs.Prelude.{◌≡◌, ◌≤◌, ◌<◌, find, Some};
ghost use Rattle.std.specs.Option.{option_copied, option_map_or};
ghost use Rattle.ckr_library.specs.NameMaps.{entry_at, with_changed};
ghost use Rattle.ckr_meaning.specs.EffectiveJob.{step_at};
ghost use Rattle.ckr_meaning.specs.StepRun.{rewritten_stamp};
ghost use Rattle.ckr_points_runs.specs.RunChange.{by_step_of, going, holding_kit, place_now, restamped, rewritten, rewritten_facts};
ghost use Rattle.ckr_points_runs.specs.StepEnd.{AreLengthsOf, MayRewrite, MayRewriteIn};
ghost use Rattle.ckr_points.specs.Tables.{is_updates, name_with_role};
ghost use Rattle.ckr_points.specs.Restart.{step_in};
ghost use Rattle.ckr_points_runs.specs.Rewrite.{master_dd, master_name, MayRestamp};
ghost use Rattle.ckr_points_runs.specs.RunJobs.{effective, own_of, IsFitting};
ghost use Rattle.ckr_points_runs.specs.View.{facts_of};

use crate::effective_job::has_step;
use crate::step_end::{commit, step_now};
use crate::{EffectiveJob, OwnStep, RunTable, step_at};
use ckr_base::DsName;
use ckr_jcl::{Dd, Role, Step};
use ckr_library::{Library, Stamp};
use ckr_meaning::Place;
use ckr_points::Run;
use ckr_uses::library_name;

/// The stamp behind one more rewrite by a step.
fn rewritten_stamp(owner: u32, step: u8, stamp: Stamp) -> Stamp
    requires { stamp.rewrites < 4294967295 }
    ensures { result ≡ rewritten_stamp owner step stamp }
{
    if stamp.run == owner && stamp.step == step {
        Stamp {
            rewrites: stamp.rewrites + 1,
            ..stamp
        }
    } else {
        Stamp {
            run: owner,
            step,
            rewrites: 1,
        }
    }
}

/// Whether the records are rewritten in place.
fn is_updates(role: Role) -> bool
    ensures { result ≡ is_updates role }
{
    matches!(role, Role::Updates)
}

/// The DD that a step updates.
pub fn master_dd(step: &Step) -> Option<&Dd>
    ensures { option_copied result ≡ master_dd step.now }
{
    step.dds.as_slice().iter().find(|dd| is_updates(dd.role))
}

/// The name of the data set that a step updates.
pub fn master_name(root: u32, own: &OwnStep<'_>) -> Option<DsName>
    requires root { root ≤ 9999999 }
    requires owner { own.now.owner ≤ 9999999 }
    ensures { result ≡ master_name root (own_of own.now) }
{
    match master_dd(own.step) {
        Some(dd) => library_name(dd, root, own.owner, &own.step.name),
        None => None,
    }
}

/// A data set gets the stamp of one more rewrite, if it is there.
fn restamp(name: &DsName, owner: u32, step: u8, library: &mut Library)
    requires { MayRestamp (entry_at library.old.sets name.now) }
    ensures { library.new.sets ≡ with_changed name.now (restamped holding_kit owner step) library.old.sets }
{
    let stamp = match library.get(name) {
        Some(set) => rewritten_stamp(owner, step, set.stamp),
        None => return,
    };
    library.set_stamp(name, stamp);
}

/// The data set that a step updates gets the stamp of one more rewrite. A job without such a step changes nothing.
fn restamp_master(run: u32, step: u8, job: &EffectiveJob, library: &mut Library)
    requires fits { IsFitting (effective run job.now) }
    requires master { MayRewriteIn job.now.root library.old.sets (step_at (effective run job.now) step) }
    ensures { library.new.sets ≡ option_map_or (λ own. with_changed (name_with_role job.now.root own is_updates) (restamped holding_kit own.owner step) library.old.sets) (step_at (effective run job.now) step) library.old.sets }
{
    if let Some(own) = step_at(job, run, step) {
        if let Some(name) = master_name(job.root(), &own) {
            restamp(&name, own.owner, step, library);
        }
    }
}

/// A run goes on behind the rewrite of a record: so many writes and lengths are committed. A job without such a step stays as it is.
pub(crate) fn rewrite_run(
    line: &Run,
    writes: u32,
    lengths: &[u32],
    table: &mut RunTable,
    library: &mut Library,
)
    requires fits { IsFitting (effective line.now.number table.old.job) }
    requires may { MayRewrite line.now.number (step_in (place_now (facts_of table.old))) lengths.now table.old library.old }
    ensures { let step = step_in (place_now (facts_of table.old)) in going line.now (facts_of table.new) library.new.sets ≡ by_step_of step (rewritten holding_kit step writes lengths.now (going line.now (facts_of table.old) library.old.sets)) (going line.now (facts_of table.old) library.old.sets) }
{
    let step = step_now(table);
    if !has_step(&table.job, step) {
        return;
    }
    commit(line.number, step, &table.job, lengths, library);
    restamp_master(line.number, step, &table.job, library);
    mark_rewritten(step, writes, table);
}

/// The points of a run know of a rewrite, and the run is behind so many writes.
fn mark_rewritten(step: u8, writes: u32, table: &mut RunTable)
    ensures { facts_of table.new ≡ rewritten_facts step writes (facts_of table.old) }
{
    table.points.rewrite(step);
    if let Some(effect) = &mut table.in_effect {
        effect.rewritten = true;
    }
    table.place = Some(Place::Within(step, writes));
}
