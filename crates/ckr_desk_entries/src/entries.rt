//! The entries of checkpoints in effect, which opening reads: a run could be restarted there.
ghost use Rattle.std.specs.Prelude.{◌≡◌, ◌≤◌, ℕ, Err, IfErr, IfOk, IsTrue, List, Some, OnOk, false, option_and_then};
ghost use Rattle.std.specs.List.{list_all};
ghost use Rattle.std.specs.Option.{is_some, option_copied};
ghost use Rattle.ckr_entry.specs.Entry.{IsEntry, entry_in};
ghost use Rattle.ckr_entry.specs.Parts.{entry_of};
ghost use Rattle.ckr_library.specs.Catalog.{ends_within, records_of};
ghost use Rattle.ckr_library.specs.NameMaps.{EachEntry};
ghost use Rattle.ckr_outside.specs.Disk.{OnlyReads};
ghost use Rattle.ckr_outside.specs.Faults.{Rose};
ghost use Rattle.ckr_points.specs.Marks.{mark_at, present_at};
ghost use Rattle.ckr_points.specs.Office.{is_holder};
ghost use Rattle.ckr_points.specs.Rows.{RunRow, TableSet, TablesModel, run_of};
ghost use Rattle.ckr_points.specs.Statements.{kind_number};
ghost use Rattle.ckr_points_tables.specs.RunJobs.{effective, own_of, IsFitting};
ghost use Rattle.ckr_points_tables.specs.View.{line_of, row_of};
ghost use Rattle.ckr_steps.specs.EntryRecords.{bytes_on};
ghost use Rattle.ckr_steps.specs.Units.{program_of};
ghost use Rattle.ckr_volumes.specs.Layouts.{StandsIn, disk_needed, is_laid_out};
ghost use Rattle.ckr_volumes.specs.declared.layout.Layout.{Layout as LayoutOfDisk};
ghost use Rattle.ckr_desk_entries.specs.EntryRefusal.{entry_refusal, is_of_run, is_of_step};
ghost use Rattle.ckr_desk_entries.specs.Entries.{ArePlaced, EntryCause, IsFoundAt, IsFoundOf, bad_entry, is_dd_present, refused_at, run_refusal, state_read};

use crate::entry_reads::{ends_within, kind_number, program_of, put, records_of};
use crate::{ReadError, StepState};
use ckr_base::{DsName, NoMemory};
use ckr_entry::{EntryError, Mark, Point, State, decode_entry};
use ckr_jcl::{Dd, Kind};
use ckr_library::{DataSet, Kept};
use ckr_outside::Disk;
use ckr_points::{Run, RunState, step_in};
use ckr_points_tables::{OwnStep, RunTable, Tables, place_now, step_at};
use ckr_uses::library_name;
use ckr_volumes::{Layout, read_record};
use std::alloc::Global;

/// Whether a run in this state holds its names: it is selected and not ended.
fn is_holder(state: RunState) -> bool
    ensures { result ≡ is_holder state }
{
    matches!(state, RunState::On | RunState::Held | RunState::Released)
}

/// The bytes of an entry that has its places in a data set.
#[tactic(auto, using(crate::proofs::EntryReads::pieces))]
fn read_entry<D: Disk>(
    alloc: Global,
    disk: &mut D,
    layout: &Layout,
    set: &DataSet,
    kept: &Kept,
) -> Result<Vec<u8>, ReadError>
    requires layout { IsTrue (is_laid_out layout.now) }
    requires fits { disk_needed layout.now ≤ D.size disk.old }
    requires stands { StandsIn layout.now set.now }
    requires places { IsTrue (ends_within set.now.space kept.now) }
    ensures read { D.told → IfOk result (λ found. found.items ≡ bytes_on (D.content disk.old) layout.now set.now kept.now.place kept.now.bytes) }
    ensures only_reads { OnlyReads D.content D.may_leave D.moment D.left_since disk.old disk.new }
    ensures size { D.size disk.new ≡ D.size disk.old }
    ensures faults { D.faults disk.old ≤ D.faults disk.new }
    ensures cause { IfErr result (EntryCause (Rose (D.faults disk.old) (D.faults disk.new))) }
{
    let mut found = Vec::new(alloc);
    for place in 0..records_of(kept.bytes) {
        let record = read_record(disk, layout, set, kept.place + place)?;
        put(&mut found, record.bytes())?;
    }
    found.truncate(kept.bytes as usize);
    Ok(found)
}

/// The mark of a name.
fn mark_at<'a>(marks: &'a [Mark], name: &DsName) -> Option<&'a Mark>
    ensures { option_copied result ≡ mark_at marks.now name.now }
{
    marks.iter().find(|mark| name.is_same(&mark.name))
}

/// Whether a name was there at a point.
fn is_present(marks: &[Mark], name: &DsName) -> bool
    ensures { result ≡ is_some (present_at marks.now name.now) }
{
    match mark_at(marks, name) {
        Some(mark) => mark.present.is_some(),
        None => false,
    }
}

/// Whether the data set of a DD was there at a point, if the DD has one.
fn is_dd_present(marks: &[Mark], root: u32, own: &OwnStep<'_>, dd: &Dd) -> bool
    requires root { root ≤ 9999999 }
    requires owner { own.now.owner ≤ 9999999 }
    ensures { result ≡ is_dd_present marks.now root (own_of own.now) dd.now }
{
    match library_name(dd, root, own.owner, &own.step.name) {
        Some(name) => is_present(marks, &name),
        None => true,
    }
}

/// Whether each data set of a step was there at a point.
fn are_present(marks: &[Mark], root: u32, own: &OwnStep<'_>) -> bool
    requires root { root ≤ 9999999 }
    requires owner { own.now.owner ≤ 9999999 }
    ensures { result ≡ list_all (is_dd_present marks.now root (own_of own.now)) own.now.step.now.dds }
{
    own.step
        .dds
        .as_slice()
        .iter()
        .all(|dd| is_dd_present(marks, root, own, dd))
}

/// Whether a point is one of this step of a run of this root.
#[tactic(auto, using(crate::proofs::EntryReads::present))]
fn is_of_step(point: &Point, root: u32, step: u8, own: &OwnStep<'_>) -> bool
    requires root { root ≤ 9999999 }
    requires owner { own.now.owner ≤ 9999999 }
    ensures { result ≡ is_of_step root (own_of own.now) step (entry_of point.now) }
{
    point.owner == own.owner
        && point.step == step
        && kind_number(program_of(&point.state)) == kind_number(own.step.program)
        && are_present(point.marks.as_slice(), root, own)
}

/// Whether a point is one of the step that a run is in.
fn is_of_run(point: &Point, run: &Run, table: &RunTable) -> bool
    requires { IsFitting (effective run.now.number table.now.job) }
    ensures { result ≡ is_of_run (row_of run.now table.now) (entry_of point.now) }
{
    let step = step_in(place_now(table));
    match step_at(&table.job, run.number, step) {
        Some(own) => is_of_step(point, table.job.root(), step, &own),
        None => false,
    }
}

/// Where the bytes of an entry have the step that a run is in, or where they are refused: the decoder's offset, or 0 where they are
/// another point.
fn state_of(
    alloc: Global,
    bytes: &[u8],
    run: &Run,
    table: &RunTable,
) -> Result<Result<StepState, u32>, NoMemory>
    requires { IsFitting (effective run.now.number table.now.job) }
    ensures found { IfOk result (λ found. found ≡ state_read (is_of_run (row_of run.now table.now)) (entry_in bytes.now)) }
    ensures form { OnOk result (IfOk (entry_in bytes.now) IsEntry) }
{
    match decode_entry(alloc, bytes) {
        Ok(point) => {
            if is_of_run(&point, run, table) {
                return Ok(Ok(StepState {
                    state: point.state,
                    writes: point.writes,
                }));
            }
            Ok(Err(0))
        }
        Err(EntryError::NoMemory) => Err(NoMemory),
        Err(EntryError::Bad { offset }) => Ok(Err(offset)),
    }
}

/// Where the step of a run stands at its checkpoint in effect, or where its entry is refused, in this data set.
fn state_in<D: Disk>(
    alloc: Global,
    disk: &mut D,
    layout: &Layout,
    set: &DataSet,
    kept: &Kept,
    run: &Run,
    table: &RunTable,
) -> Result<Result<StepState, u32>, ReadError>
    requires layout { IsTrue (is_laid_out layout.now) }
    requires fits { disk_needed layout.now ≤ D.size disk.old }
    requires stands { StandsIn layout.now set.now }
    requires job { IsFitting (effective run.now.number table.now.job) }
    ensures placed { IsTrue (ends_within set.now.space kept.now) → IfOk result (IsFoundAt D.told (is_of_run (row_of run.now table.now))
        (entry_in (bytes_on (D.content disk.old) layout.now set.now kept.now.place kept.now.bytes))) }
    ensures unplaced { ends_within set.now.space kept.now ≡ false → IfOk result (λ found. found ≡ Err 0) }
    ensures only_reads { OnlyReads D.content D.may_leave D.moment D.left_since disk.old disk.new }
    ensures size { D.size disk.new ≡ D.size disk.old }
    ensures faults { D.faults disk.old ≤ D.faults disk.new }
    ensures cause { IfErr result (EntryCause (Rose (D.faults disk.old) (D.faults disk.new))) }
{
    if !ends_within(kept, set.space) {
        return Ok(Err(0));
    }
    let bytes = read_entry(alloc, disk, layout, set, kept)?;
    Ok(state_of(alloc, bytes.as_slice(), run, table)?)
}

/// Where the step of a run stands at its checkpoint in effect, by the entry that the disk has of it, or where that entry is refused: the
/// decoder's offset, or 0 where it hasn't its places in its data set, or is no point of the step that the run is in (IBM GC28-6708). None
/// where the run has no checkpoint in effect, or doesn't hold its names.
///
/// `NoMemory`. `Fault`: only where the disk's faults rose in this call. The disk is only read.
pub fn effect_state<D: Disk>(
    alloc: Global,
    disk: &mut D,
    layout: &Layout,
    tables: &Tables,
    run: &Run,
) -> Result<Option<Result<StepState, u32>>, ReadError>
    requires layout { IsTrue (is_laid_out layout.now) }
    requires fits { disk_needed layout.now ≤ D.size disk.old }
    requires stand { EachEntry (λ (table : TableSet). StandsIn layout.now table.set) tables.now.desk.sets }
    ensures refused { D.told → IfOk result (λ found. (row : RunRow) → run_of tables.now.desk row.number ≡ Some row → run.now ≡ line_of row
        → option_and_then refused_at found ≡ run_refusal layout.now tables.now.desk (D.content disk.old) row) }
    ensures found { IfOk result (λ found. (row : RunRow) → run_of tables.now.desk row.number ≡ Some row → run.now ≡ line_of row
        → IsFoundOf D.told layout.now tables.now.desk (D.content disk.old) row found) }
    ensures only_reads { OnlyReads D.content D.may_leave D.moment D.left_since disk.old disk.new }
    ensures size { D.size disk.new ≡ D.size disk.old }
    ensures faults { D.faults disk.old ≤ D.faults disk.new }
    ensures cause { IfErr result (EntryCause (Rose (D.faults disk.old) (D.faults disk.new))) }
{
    let _lines = tables.runs();
    if !is_holder(run.state) {
        return Ok(None);
    }
    let Some(table) = tables.run(run.number) else {
        return Ok(None);
    };
    let Some(effect) = &table.in_effect else {
        return Ok(None);
    };
    let Some(set) = tables.library().get(&effect.set) else {
        return Ok(Some(Err(0)));
    };
    let found = state_in(alloc, disk, layout, set, &effect.kept, run, table)?;
    Ok(Some(found))
}

/// Where each checkpoint in effect has its places in its data set, an entry is refused exactly by its bytes.
pub fn entries_are_refused_by_their_bytes()
    ensures { (layout : LayoutOfDisk) (tables : TablesModel) (image : List ℕ) → ArePlaced tables → bad_entry layout tables image ≡ entry_refusal layout tables image }
{}
