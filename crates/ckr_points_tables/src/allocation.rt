//! The allocation of a step of a run, before it starts.
ghost use Rattle.std.specs.Prelude.{◌≡◌, ◌≤◌, [], ℕ, IfOk, IsTrue, Some, length};
ghost use Rattle.std.specs.List.{list_all, AllByRecursion};
ghost use Rattle.ckr_points_library.specs.Allocation.{allocated_all};
ghost use Rattle.ckr_points_library.specs.Holdings.{holding_ways, standing};
ghost use Rattle.ckr_uses.specs.Uses.{are_distinct};
ghost use Rattle.ckr_events.specs.Format.{all_made, made as made_field, piece as piece_field, piece_list};
ghost use Rattle.ckr_library.specs.Catalog.{Holding};
ghost use Rattle.ckr_library.specs.NameMaps.{EachEntry};
ghost use Rattle.ckr_meaning.specs.EffectiveJob.{HasDistinctNames, OwnedStep, names_of, placed_in, stamp_of, step_at};
ghost use Rattle.ckr_points.specs.Rows.{RunRow, TableSet, run_of, step_of_run};
ghost use Rattle.ckr_points_tables.specs.Allocation.{HasFitting, IsAllocation, IsFromOne, MayAllocate, allocation_in};
ghost use Rattle.ckr_points_runs.specs.RunJobs.{effective, own_of, IsFitting};
ghost use Rattle.ckr_volumes.specs.Layouts.{StandsIn};

use crate::Tables;
use crate::rooms::place_in;
use arrayvec::ArrayVec;
use ckr_base::NoMemory;
use ckr_entry::Passed;
use ckr_events::{Made, MadeSets, Piece};
use ckr_library::Library;
use ckr_points_library::{MadeList, Refusal, allocate_step};
use ckr_points_runs::{OwnStep, RunTable, step_at};
use ckr_volumes::Layout;
use std::alloc::Global;

impl Tables {
    /// The parts of the data sets that a step of a run would make, or the first DD that isn't allocated. The tables are the same
    /// behind it; the new data sets stand in the library meanwhile, and there may be less room for data sets. Steps are numbered
    /// from 1. Where there is no such step, there are no parts (this project's profile).
    ///
    /// `NoMemory`: there is none for so many data sets.
    pub fn allocate(
        &mut self,
        layout: &Layout,
        job: u32,
        number: u8,
    ) -> Result<Result<MadeSets, Refusal>, NoMemory>
        requires few { length layout.now.volumes.items ≤ 32 }
        requires stand { EachEntry (λ (table : TableSet). StandsIn layout.now table.set) self.old.desk.sets }
        requires dds { MayAllocate job number self.old.desk }
        ensures desk { self.new.desk ≡ self.old.desk }
        ensures allocated { IfOk result (λ made. (row : RunRow) (own : OwnedStep) → run_of self.old.desk job ≡ Some row → step_of_run row number ≡ Some own → IsAllocation (allocation_in layout.now row own number self.old.desk) made) }
        ensures fits { IfOk result (λ made. IfOk made (λ items. all_made.fits items.items)) }
    {
        let alloc = *self.tables.allocator();
        match place_in(job, self.tables.as_slice()) {
            Some(place) => allocate_run(
                layout,
                job,
                number,
                &self.tables[place],
                &mut self.library,
                alloc,
            ),
            None => Ok(Ok(MadeSets::new(alloc))),
        }
    }
}

/// The same for a run of the library.
fn allocate_run(
    layout: &Layout,
    run: u32,
    number: u8,
    table: &RunTable,
    library: &mut Library,
    alloc: Global,
) -> Result<Result<MadeSets, Refusal>, NoMemory>
    requires fits { IsFitting (effective run table.now.job) }
    requires distinct { HasDistinctNames (effective run table.now.job) }
    requires few { length layout.now.volumes.items ≤ 32 }
    requires stand { EachEntry (λ (h : Holding). StandsIn layout.now h.set) library.old.sets }
    requires dds { (own : OwnedStep) → step_at (effective run table.now.job) number ≡ Some own → HasFitting table.now.job.root own }
    ensures sets { library.new.sets ≡ library.old.sets }
    ensures allocated { IfOk result (λ made. (own : OwnedStep) → step_at (effective run table.now.job) number ≡ Some own → IsAllocation (allocated_all layout.now (stamp_of own number) (placed_in holding_ways (standing library.old.sets table.now.passed.items) table.now.job.root own) library.old.sets) made) }
    ensures fits { IfOk result (λ made. IfOk made (λ items. all_made.fits items.items)) }
{
    match step_at(&table.job, run, number) {
        Some(own) => allocate_own(
            layout,
            table.job.root(),
            number,
            &own,
            table.passed.as_slice(),
            library,
            alloc,
        ),
        None => Ok(Ok(MadeSets::new(alloc))),
    }
}

/// The same for a step of it.
fn allocate_own(
    layout: &Layout,
    root: u32,
    number: u8,
    own: &OwnStep<'_>,
    passed: &[Passed],
    library: &mut Library,
    alloc: Global,
) -> Result<Result<MadeSets, Refusal>, NoMemory>
    requires root { root ≤ 9999999 }
    requires owner { own.now.owner ≤ 9999999 }
    requires few_dds { length own.now.step.now.dds ≤ 16 }
    requires dds { HasFitting root (own_of own.now) }
    requires names { IsTrue (are_distinct (names_of root (own_of own.now))) }
    requires few { length layout.now.volumes.items ≤ 32 }
    requires stand { EachEntry (λ (h : Holding). StandsIn layout.now h.set) library.old.sets }
    ensures sets { library.new.sets ≡ library.old.sets }
    ensures allocated { IfOk result (λ made. IsAllocation (allocated_all layout.now (stamp_of (own_of own.now) number) (placed_in holding_ways (standing library.old.sets passed.now) root (own_of own.now)) library.old.sets) made) }
    ensures fits { IfOk result (λ made. IfOk made (λ items. all_made.fits items.items)) }
{
    let mut items = MadeList::new(alloc);
    items.reserve(16)?;
    library.reserve(16)?;
    match allocate_step(
        layout, own.step, root, own.owner, number, library, passed, &mut items,
    ) {
        Ok(()) => Ok(Ok(copies_of(alloc, items.as_slice())?)),
        Err(refusal) => Ok(Err(refusal)),
    }
}

/// An extent, whose numbers have 32 bits.
fn piece_of(start: u32, records: u32) -> Piece
    ensures piece { result ≡ record { start = start; records = records } }
    ensures fits { piece_field.fits result }
{
    Piece { start, records }
}

/// The same extents.
fn copies_of_pieces(pieces: &ArrayVec<Piece, 5>) -> ArrayVec<Piece, 5>
    ensures same { result ≡ pieces.now }
    ensures fits { piece_list.fits result.items }
{
    let mut copies = ArrayVec::new();
    for piece in pieces.as_slice() {
        copies.push(piece_of(piece.start, piece.records));
    }
    copies
}

/// A place of a data set, whose numbers have 8 bits.
fn made_of(dd: u8, volume: u8, pieces: ArrayVec<Piece, 5>) -> Made
    requires number { 1 ≤ dd }
    requires pieces { piece_list.fits pieces.items }
    ensures made { result ≡ record { dd = dd; volume = volume; pieces = pieces } }
    ensures fits { made_field.fits result }
{
    Made { dd, volume, pieces }
}

/// The same place of a data set.
fn copy_of(made: &Made) -> Made
    requires { IsFromOne made.now }
    ensures same { result ≡ made.now }
    ensures fits { made_field.fits result }
{
    made_of(made.dd, made.volume, copies_of_pieces(&made.pieces))
}

/// The same places of data sets, as an event has them.
fn copies_of(alloc: Global, items: &[Made]) -> Result<MadeSets, NoMemory>
    requires few { length items.now ≤ 80 }
    requires numbers { AllByRecursion IsFromOne items.now }
    ensures items { IfOk result (λ copies. copies.items ≡ items.now) }
    ensures fits { IfOk result (λ copies. all_made.fits copies.items) }
{
    let mut copies = MadeSets::new(alloc);
    for made in items {
        copies.push(copy_of(made))?;
    }
    Ok(copies)
}
