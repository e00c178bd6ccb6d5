//! A checkpoint of a step.
ghost use Rattle.std.specs.Prelude.{◌≡◌, ◌≤◌, ◌<◌, [], ◌∷◌, ◌++◌, find, Some, IsSome};
ghost use Rattle.std.specs.Option.{option_copied, option_map_or};
ghost use Rattle.ckr_library.specs.Catalog.{entry_room, with_kept};
ghost use Rattle.ckr_library.specs.NameMaps.{with_changed};
ghost use Rattle.ckr_meaning.specs.EffectiveJob.{step_at, OwnedStep};
ghost use Rattle.ckr_points.specs.Tables.{is_checkpoints};
ghost use Rattle.ckr_points_runs.specs.Checkpoint.{checkpoint_dd, checkpoint_name, HasCheckpoints, MayCheckpoint};
ghost use Rattle.ckr_points_runs.specs.RunChange.{by_step_of, check_writing, checkpointed, checkpointed_facts, committed_by, going, holding_kit, step_of};
ghost use Rattle.ckr_points_runs.specs.RunJobs.{effective, own_of, IsFitting};
ghost use Rattle.ckr_points_runs.specs.Start.{HasPointRoom};
ghost use Rattle.ckr_points_runs.specs.View.{facts_of, writing_of, written_of};

use crate::effective_job::has_step;
use crate::start::{take_marks, take_passed};
use crate::step_end::commit;
use crate::{InEffect, OwnStep, RunTable, Spare, WrittenEntries, WrittenEntry, step_at};
use ckr_base::DsName;
use ckr_jcl::{Dd, Role, Step};
use ckr_library::{Kept, Library};
use ckr_meaning::Place;
use ckr_points::Run;
use ckr_uses::library_name;

/// How far a step is: its number, and how many records it has taken and written.
#[derive(Clone, Copy)]
pub(crate) struct Progress {
    pub(crate) step: u8,
    pub(crate) taken: u32,
    pub(crate) writes: u32,
}

/// Whether checkpoints are written to it.
fn is_checkpoints(role: Role) -> bool
    ensures { result ≡ is_checkpoints role }
{
    matches!(role, Role::Checkpoints)
}

/// The DD to which a step writes its checkpoints.
pub fn checkpoint_dd(step: &Step) -> Option<&Dd>
    ensures { option_copied result ≡ checkpoint_dd step.now }
{
    step.dds
        .as_slice()
        .iter()
        .find(|dd| is_checkpoints(dd.role))
}

/// The name of the data set to which a step writes its checkpoints.
pub fn checkpoint_name(root: u32, own: &OwnStep<'_>) -> Option<DsName>
    requires root { root ≤ 9999999 }
    requires owner { own.now.owner ≤ 9999999 }
    ensures { result ≡ checkpoint_name root (own_of own.now) }
{
    match checkpoint_dd(own.step) {
        Some(dd) => library_name(dd, root, own.owner, &own.step.name),
        None => None,
    }
}

/// The same entry of a data set.
fn copy_of_kept(kept: &Kept) -> Kept
    ensures { result ≡ kept.now }
{
    Kept {
        id: kept.id.copied(),
        run: kept.run,
        place: kept.place,
        bytes: kept.bytes,
    }
}

/// Keeps an entry of a data set, if it is there. There is room for it.
fn keep_entry(name: &DsName, kept: Kept, library: &mut Library)
    requires { 0 < entry_room library.old name.now }
    ensures { library.new.sets ≡ with_changed name.now (with_kept kept) library.old.sets }
{
    if library.get(name).is_none() {
        return;
    }
    match library.keep(name, kept) {
        Ok(()) => {}
        Err(_) => unreachable!(),
    }
}

/// The entry that a run writes in a step, with its point, by the data sets as they are.
fn take_entry(
    line: &Run,
    far: Progress,
    kept: &Kept,
    table: &RunTable,
    library: &Library,
    spare: &mut Spare,
) -> WrittenEntry
    requires fits { IsFitting (effective line.now.number table.now.job) }
    requires empty { spare.old.marks.items ≡ [] }
    requires room { HasPointRoom line.now.number table.now spare.old }
    requires few { table.now.count < 4294967295 }
    requires named { HasCheckpoints table.now.job.root (step_at (effective line.now.number table.now.job) far.step) }
    ensures entry { (own : OwnedStep) → step_at (effective line.now.number table.now.job) far.step ≡ Some own → writing_of result ≡ check_writing holding_kit far.step kept.now far.taken far.writes library.now.sets (going line.now (facts_of table.now) library.now.sets) own }
    ensures empty { spare.new.marks.items ≡ [] }
{
    let Some(own) = step_at(&table.job, line.number, far.step) else {
        unreachable!()
    };
    let Some(set) = checkpoint_name(table.job.root(), &own) else {
        unreachable!()
    };
    let marks = take_marks(line.number, table, library, spare);
    let passed = take_passed(table.passed.as_slice(), spare);
    WrittenEntry {
        set,
        id: kept.id.copied(),
        place: kept.place,
        job: table.job.deck().name.copied(),
        run: line.number,
        owner: own.owner,
        step: far.step,
        step_name: own.step.name.copied(),
        count: table.count + 1,
        taken: far.taken,
        writes: far.writes,
        marks,
        passed,
    }
}

/// A run is behind a checkpoint of this entry, which is in effect.
fn go_behind(far: Progress, kept: Kept, set: &DsName, table: &mut RunTable)
    requires { table.old.count < 4294967295 }
    ensures { facts_of table.new ≡ checkpointed_facts far.step far.writes set.now kept (facts_of table.old) }
{
    table.place = Some(Place::Within(far.step, far.writes));
    table.count += 1;
    table.in_effect = Some(InEffect {
        set: set.copied(),
        kept,
        restarts: 0,
        rewritten: false,
    });
}

/// Puts an entry behind those that a run has written. There is room for it.
fn enter(entry: WrittenEntry, entries: &mut WrittenEntries)
    requires { 0 < entries.old.room }
    ensures { written_of entries.new ≡ written_of entries.old ++ writing_of entry ∷ [] }
{
    match entries.push(entry) {
        Ok(()) => {}
        Err(_) => unreachable!(),
    }
}

/// A run goes on behind a checkpoint of its step: the lengths are committed, the entry is kept with its point, and it is in effect.
/// A job without such a step stays as it is.
pub(crate) fn checkpoint_run(
    line: &Run,
    far: Progress,
    kept: Kept,
    lengths: &[u32],
    table: &mut RunTable,
    entries: &mut WrittenEntries,
    library: &mut Library,
    spare: &mut Spare,
)
    requires fits { IsFitting (effective line.now.number table.old.job) }
    requires empty { spare.old.marks.items ≡ [] }
    requires may { MayCheckpoint line.now.number far.step kept.place kept.bytes lengths.now table.old entries.old library.old spare.old }
    ensures going { let now = going line.now (facts_of table.old) library.old.sets in going line.now (facts_of table.new) library.new.sets ≡ by_step_of far.step (checkpointed holding_kit far.step kept far.taken far.writes lengths.now now) now }
    ensures entries { let now = going line.now (facts_of table.old) library.old.sets in written_of entries.new ≡ option_map_or (λ own. written_of entries.old ++ check_writing holding_kit far.step kept far.taken far.writes (committed_by holding_kit lengths.now own now).sets now own ∷ []) (step_of now far.step) (written_of entries.old) }
    ensures empty { spare.new.marks.items ≡ [] }
{
    if !has_step(&table.job, far.step) {
        return;
    }
    commit(line.number, far.step, &table.job, lengths, library);
    let entry = take_entry(line, far, &kept, table, library, spare);
    keep_entry(&entry.set, copy_of_kept(&kept), library);
    go_behind(far, kept, &entry.set, table);
    enter(entry, entries);
}
