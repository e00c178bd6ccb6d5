//! Memory for an event, before it is written.
ghost use Rattle.std.specs.Prelude.{◌≡◌, ℕ, suc, Some, None, IfOk, IfSome, ◌+◌, ◌*◌, ◌≤◌, ◌<◌, OnOk, length, map, slice_get, vec_len, vec_capacity};
ghost use Rattle.std.specs.Option.{option_and_then, option_map, option_map_or};
ghost use Rattle.ckr_events.specs.declared.event.Event.{Event as EventOfDesk};
ghost use Rattle.ckr_meaning.specs.EffectiveJob.{step_at, OwnedStep};
ghost use Rattle.ckr_points.specs.Rows.{run_of, RunRow};
ghost use Rattle.ckr_points_tables.specs.Selection.{prepared_for, HasLostRoom};
ghost use Rattle.ckr_points_runs.specs.StepEnd.{HasPassedRoom};
ghost use Rattle.ckr_points_tables.specs.Invariant.{CanEnd, CanKeep, CanRestart, CanSelect, CanStart, HasRoom, HasRunRoom};
ghost use Rattle.ckr_library.specs.Catalog.{KeepsEntryRoom};
ghost use Rattle.ckr_points_runs.specs.Checkpoint.{checkpoint_name};
ghost use Rattle.ckr_points_runs.specs.Needs.{step_now};
ghost use Rattle.ckr_points_tables.specs.Rooms.{dds_of, HasNoPlace, AreRoomier, EndsFit, EntryFits, FitsPoint, HasNoLess, IsRoomier, KeepsFit, StartsFit};
ghost use Rattle.ckr_points_tables.specs.Restart.{passed_at_entry, passed_at_start, passed_for, HasPassedFor};
ghost use Rattle.ckr_points_runs.specs.RunJobs.{effective, IsFitting};
ghost use Rattle.ckr_points_runs.specs.View.{facts_of, written_of};
ghost use Rattle.ckr_points_tables.specs.View.{room_of};
ghost use Rattle.ckr_points_runs.specs.Start.{HasPointRoom};

use crate::Tables;
use crate::continuation::continuation;
use crate::restart::{entry_for, passed_of};
use ckr_base::{CheckId, DsName, NoMemory};
use ckr_entry::Passed;
use ckr_events::Event;
use ckr_library::Library;
use ckr_points::kept_under;
use ckr_points_runs::{
    EffectiveJob, RunTable, Spare, WrittenEntries, checkpoint_name, point_at, step_at, step_now,
};

impl Tables {
    /// Takes the memory that an event needs. The tables stay the same in either case, and the room that is there stays.
    ///
    /// `NoMemory`: there may be no room for the event.
    pub fn make_room(&mut self, event: &Event) -> Result<(), NoMemory>
        ensures desk { self.new.desk ≡ self.old.desk }
        ensures ok { OnOk result (HasRoom self.new event.now) }
        ensures room { IsRoomier self.old.room self.new.room }
    {
        match event {
            Event::Submitted { .. } => self.room_to_submit(),
            Event::Selected {
                job,
                earlier,
                step,
                id,
                ..
            } => self.room_to_select(*job, *earlier, *step, id),
            Event::Started { job, .. } => self.room_to_start(*job),
            Event::Checkpointed { job, .. } => self.room_to_keep(*job),
            Event::StepEnded { job, .. } | Event::Ended { job, .. } => self.room_to_end(*job),
            Event::Restarted {
                job,
                checkpoint,
                ..
            } => self.room_to_restart(*job, *checkpoint),
            _ => Ok(()),
        }
    }

    /// Takes the memory for whatever the operator answers about a run: for its restart, at its checkpoint in effect or at the start of its
    /// step, and for its end. A hold needs none. The tables stay the same in either case, and the room that is there stays.
    ///
    /// `NoMemory`: there may be no room for one of them.
    pub fn room_for_answers(&mut self, job: u32, checkpoint: bool) -> Result<(), NoMemory>
        ensures desk { self.new.desk ≡ self.old.desk }
        ensures restart { OnOk result (CanRestart self.new job checkpoint) }
        ensures end { OnOk result (CanEnd self.new job) }
        ensures room { IsRoomier self.old.room self.new.room }
    {
        match place_in(job, self.tables.as_slice()) {
            Some(place) => reserve_answers(
                job,
                checkpoint,
                &mut self.tables[place],
                &self.library,
                self.writings.as_slice(),
            ),
            None => Ok(()),
        }
    }

    /// Makes room for one more run.
    fn room_to_submit(&mut self) -> Result<(), NoMemory>
        ensures desk { self.new.desk ≡ self.old.desk }
        ensures ok { OnOk result (HasRunRoom self.new.room) }
        ensures room { IsRoomier self.old.room self.new.room }
    {
        self.lines.reserve(1)?;
        self.tables.reserve(1)?;
        self.writings.reserve(1)?;
        Ok(())
    }

    /// Makes a run as it goes on, for its selection, where it is to continue an earlier one and both are there.
    fn room_to_select(
        &mut self,
        job: u32,
        earlier: u32,
        step: u8,
        id: &Option<CheckId>,
    ) -> Result<(), NoMemory>
        ensures desk { self.new.desk ≡ self.old.desk }
        ensures ok { OnOk result (CanSelect self.new job earlier step id.now) }
        ensures room { IsRoomier self.old.room self.new.room }
    {
        if earlier == 0 {
            return Ok(());
        }
        let next = self.continuation_of(job, earlier, step, id)?;
        self.spare.next = next;
        Ok(())
    }

    /// A run as it goes on that is to continue an earlier one, if both are there.
    fn continuation_of(
        &self,
        job: u32,
        earlier: u32,
        step: u8,
        id: &Option<CheckId>,
    ) -> Result<Option<RunTable>, NoMemory>
        ensures facts { IfOk result (λ next. (row : RunRow) → run_of self.now.desk job ≡ Some row → option_map facts_of next ≡ prepared_for self.now.desk row earlier step id.now) }
        ensures room { IfOk result (λ next. IfSome next HasLostRoom) }
    {
        let Some(place) = place_in(job, self.tables.as_slice()) else {
            return Ok(None);
        };
        let Some(other) = place_in(earlier, self.tables.as_slice()) else {
            return Ok(None);
        };
        continuation(
            self.spare.alloc,
            job,
            &self.tables[place].job,
            earlier,
            &self.tables[other],
            step,
            id,
            &self.library,
            self.writings.as_slice(),
        )
    }

    /// Makes room for the start of a step of a run, if there is such a run.
    fn room_to_start(&mut self, job: u32) -> Result<(), NoMemory>
        ensures desk { self.new.desk ≡ self.old.desk }
        ensures ok { OnOk result (CanStart self.new job) }
        ensures room { IsRoomier self.old.room self.new.room }
    {
        match place_in(job, self.tables.as_slice()) {
            Some(place) => reserve_start(
                job,
                &mut self.tables[place],
                &mut self.library,
                &mut self.spare,
            ),
            None => Ok(()),
        }
    }

    /// Makes room for a checkpoint of a run, if there is such a run.
    fn room_to_keep(&mut self, job: u32) -> Result<(), NoMemory>
        ensures desk { self.new.desk ≡ self.old.desk }
        ensures ok { OnOk result (CanKeep self.new job) }
        ensures room { IsRoomier self.old.room self.new.room }
    {
        match place_in(job, self.tables.as_slice()) {
            Some(place) => reserve_checkpoint(
                job,
                &self.tables[place],
                &mut self.writings[place],
                &mut self.library,
                &mut self.spare,
            ),
            None => Ok(()),
        }
    }

    /// Makes room for the end of a step of a run, if there is such a run.
    fn room_to_end(&mut self, job: u32) -> Result<(), NoMemory>
        ensures desk { self.new.desk ≡ self.old.desk }
        ensures ok { OnOk result (CanEnd self.new job) }
        ensures room { IsRoomier self.old.room self.new.room }
    {
        match place_in(job, self.tables.as_slice()) {
            Some(place) => reserve_end(job, &mut self.tables[place]),
            None => Ok(()),
        }
    }

    /// Makes room for a restart of a run, if there is such a run.
    fn room_to_restart(&mut self, job: u32, checkpoint: bool) -> Result<(), NoMemory>
        ensures desk { self.new.desk ≡ self.old.desk }
        ensures ok { OnOk result (CanRestart self.new job checkpoint) }
        ensures room { IsRoomier self.old.room self.new.room }
    {
        match place_in(job, self.tables.as_slice()) {
            Some(place) => reserve_restart(
                checkpoint,
                &mut self.tables[place],
                &self.library,
                self.writings.as_slice(),
            ),
            None => Ok(()),
        }
    }
}

/// The place of a run by its number, if there is such a run.
pub(crate) fn place_in(job: u32, tables: &[RunTable]) -> Option<usize>
    ensures some { (place : ℕ) → result ≡ Some place → (job ≡ suc place) × (place < length tables.now) }
    ensures none { result ≡ None → HasNoPlace job (length tables.now) }
{
    if job == 0 || tables.len() < job as usize {
        None
    } else {
        Some(job as usize - 1)
    }
}

/// How many DDs the steps of a run have.
pub(crate) fn dds_of(run: u32, job: &EffectiveJob) -> u32
    requires { IsFitting (effective run job.now) }
    ensures { result ≡ dds_of (effective run job.now).steps }
{
    let mut count = 0;
    for place in 0..job.count_steps() {
        count += dds_in(run, job, place);
    }
    count
}

/// How many DDs the step at a place has, and none where there is no such step.
fn dds_in(run: u32, job: &EffectiveJob, place: usize) -> u32
    requires { IsFitting (effective run job.now) }
    ensures count { result ≡ option_map_or (λ (own : OwnedStep). length own.step.dds) (slice_get (effective run job.now).steps place) 0 }
    ensures few { result ≤ 16 }
{
    match job.step_in(run, place) {
        Some(own) => own.step.dds.as_slice().len() as u32,
        None => 0,
    }
}

/// Makes room for the marks of a run's names, and for what it passed on.
fn reserve_point(
    run: u32,
    job: &EffectiveJob,
    passed: &[Passed],
    spare: &mut Spare,
) -> Result<(), NoMemory>
    requires fits { IsFitting (effective run job.now) }
    ensures marks { spare.new.marks.items ≡ spare.old.marks.items }
    ensures ok { OnOk result (FitsPoint run job.now passed.now spare.new) }
    ensures sorted { spare.old.sorted.room ≤ spare.new.sorted.room }
    ensures more { spare.old.marks.room ≤ spare.new.marks.room }
    ensures passed { spare.old.passed.room ≤ spare.new.passed.room }
{
    let names = dds_of(run, job);
    let Ok(more) = u32::try_from(passed.len()) else {
        return Err(NoMemory);
    };
    spare.sorted.reserve(names)?;
    spare.marks.reserve(names)?;
    spare.passed.reserve(more)?;
    Ok(())
}

/// Makes room for the start of a step of a run.
fn reserve_start(
    run: u32,
    table: &mut RunTable,
    library: &mut Library,
    spare: &mut Spare,
) -> Result<(), NoMemory>
    requires fits { IsFitting (effective run table.old.job) }
    ensures facts { facts_of table.new ≡ facts_of table.old }
    ensures sets { library.new.sets ≡ library.old.sets }
    ensures marks { spare.new.marks.items ≡ spare.old.marks.items }
    ensures ok { OnOk result (StartsFit run table.new library.new spare.new) }
    ensures run { HasNoLess (room_of table.old) (room_of table.new) }
    ensures more { AreRoomier library.old library.new spare.old spare.new }
{
    reserve_point(run, &table.job, table.passed.as_slice(), spare)?;
    table.points.reserve(1)?;
    library.reserve(16)?;
    Ok(())
}

/// How many DDs the step has that a run is before or in, and none where there is no such step.
fn dds_now(run: u32, table: &RunTable) -> u32
    requires { IsFitting (effective run table.now.job) }
    ensures { result ≡ option_map_or (λ (own : OwnedStep). length own.step.dds) (step_at (effective run table.now.job) (step_now table.now)) 0 }
{
    match step_at(&table.job, run, step_now(table)) {
        Some(own) => own.step.dds.as_slice().len() as u32,
        None => 0,
    }
}

/// Makes room for the end of the step that a run is before or in.
fn reserve_end(run: u32, table: &mut RunTable) -> Result<(), NoMemory>
    requires fits { IsFitting (effective run table.old.job) }
    ensures facts { facts_of table.new ≡ facts_of table.old }
    ensures ok { OnOk result (EndsFit run table.old table.new) }
    ensures run { HasNoLess (room_of table.old) (room_of table.new) }
{
    let more = dds_now(run, table);
    table.passed.reserve(more)?;
    table.codes.reserve(1)?;
    Ok(())
}

/// How many data sets were passed on at the start of the step that a run is before or in, and none without its step point.
fn passed_at_start(table: &RunTable) -> usize
    ensures { result ≡ option_map_or length (passed_at_start (facts_of table.now).points (step_now table.now)) 0 }
{
    match point_at(table.points.as_slice(), step_now(table)) {
        Some(point) => point.passed.as_slice().len(),
        None => 0,
    }
}

/// How many data sets were passed on at the checkpoint in effect, and none where there is none or its entry isn't kept.
fn passed_at_entry(table: &RunTable, library: &Library, writings: &[WrittenEntries]) -> usize
    ensures { result ≡ option_map_or length (passed_at_entry (map written_of writings.now) library.now.sets (facts_of table.now).in_effect) 0 }
{
    let Some(effect) = &table.in_effect else {
        return 0;
    };
    let Some(kept) = kept_under(library, &effect.set, &effect.kept.id) else {
        return 0;
    };
    passed_of(entry_for(writings, &effect.set, kept)).len()
}

/// Makes room for what was passed on at the point to which a run goes back.
fn reserve_restart(
    checkpoint: bool,
    table: &mut RunTable,
    library: &Library,
    writings: &[WrittenEntries],
) -> Result<(), NoMemory>
    ensures facts { facts_of table.new ≡ facts_of table.old }
    ensures ok { OnOk result (HasPassedFor table.new.passed.room (passed_for checkpoint (map written_of writings.now) library.now.sets (facts_of table.old))) }
    ensures run { HasNoLess (room_of table.old) (room_of table.new) }
{
    let count = if checkpoint {
        passed_at_entry(table, library, writings)
    } else {
        passed_at_start(table)
    };
    let Ok(more) = u32::try_from(count) else {
        return Err(NoMemory);
    };
    table.passed.reserve(more)?;
    Ok(())
}

/// Makes room for the end of the step that a run is before or in, and for a restart of the run.
fn reserve_answers(
    run: u32,
    checkpoint: bool,
    table: &mut RunTable,
    library: &Library,
    writings: &[WrittenEntries],
) -> Result<(), NoMemory>
    requires fits { IsFitting (effective run table.old.job) }
    ensures facts { facts_of table.new ≡ facts_of table.old }
    ensures restart { OnOk result (HasPassedFor table.new.passed.room (passed_for checkpoint (map written_of writings.now) library.now.sets (facts_of table.old))) }
    ensures end { OnOk result (EndsFit run table.old table.new) }
    ensures run { HasNoLess (room_of table.old) (room_of table.new) }
{
    reserve_end(run, table)?;
    reserve_restart(checkpoint, table, library, writings)
}

/// The name of the data set to which a run writes its checkpoints in the step that it is in.
fn checkpoint_set(run: u32, table: &RunTable) -> Option<DsName>
    requires { IsFitting (effective run table.now.job) }
    ensures { result ≡ option_and_then (checkpoint_name table.now.job.root) (step_at (effective run table.now.job) (step_now table.now)) }
{
    match step_at(&table.job, run, step_now(table)) {
        Some(own) => checkpoint_name(table.job.root(), &own),
        None => None,
    }
}

/// Makes room for one more entry in the data set of a run's checkpoints.
fn reserve_kept(run: u32, table: &RunTable, library: &mut Library) -> Result<(), NoMemory>
    requires { IsFitting (effective run table.now.job) }
    ensures sets { library.new.sets ≡ library.old.sets }
    ensures ok { OnOk result (KeepsFit library.new table.now.job.root (step_at (effective run table.now.job) (step_now table.now))) }
    ensures room { library.new.room ≡ library.old.room }
    ensures entries { KeepsEntryRoom library.old library.new }
{
    match checkpoint_set(run, table) {
        Some(name) => library.reserve_entry(&name),
        None => Ok(()),
    }
}

/// Makes room for a checkpoint of a run: for its point and its entry. There is none where the entries are counted out.
fn reserve_checkpoint(
    run: u32,
    table: &RunTable,
    entries: &mut WrittenEntries,
    library: &mut Library,
    spare: &mut Spare,
) -> Result<(), NoMemory>
    requires fits { IsFitting (effective run table.now.job) }
    ensures entries { entries.new.items ≡ entries.old.items }
    ensures sets { library.new.sets ≡ library.old.sets }
    ensures marks { spare.new.marks.items ≡ spare.old.marks.items }
    ensures ok { OnOk result (EntryFits run table.now entries.new library.new spare.new) }
    ensures room { entries.old.room ≤ entries.new.room }
    ensures more { AreRoomier library.old library.new spare.old spare.new }
{
    if table.count == u32::MAX {
        return Err(NoMemory);
    }
    reserve_point(run, &table.job, table.passed.as_slice(), spare)?;
    entries.reserve(1)?;
    reserve_kept(run, table, library)
}
