//! Steps on a small disk.
ghost use Rattle.std.specs.Prelude.{◌≡◌, ◌≤◌, ◌+◌, ◌*◌, ◌∷◌, [], IsTrue, IfOk, OnOk, length};
ghost use Rattle.ckr_volumes.specs.Places.{bytes_of, stretches_of};
ghost use Rattle.ckr_volumes.specs.Layouts.{is_laid_out, disk_needed, StandsIn};
ghost use Rattle.ckr_steps.specs.Inputs.{AreStored, AreThere, IsSourceThere, IsSetThere, AreSameSet};
ghost use Rattle.ckr_base.specs.declared.programs.NextDue.TheVariants.{Unit as OneUnit};
ghost use Rattle.ckr_model_tests.specs.Placed.{EndsBy};
ghost use Rattle.ckr_steps.specs.StepUnit.{AreCounted};
ghost use Rattle.ckr_steps.specs.Units.{due_of};

use self::cases::CASES;
use crate::inputs::parm_of;
use arrayvec::ArrayVec;
use ckr_base::{Code, DsName, Name8, NextDue, NoMemory, Rec, Volser};
use ckr_cards::{Card, stored_line};
use ckr_jcl::{CardImage, Cards, Conds, Dd, Dds, Disp, Kind, Origin, Role, Status, Step};
use ckr_library::{Content, DataSet, Extent, Library, Part, Stamp};
use ckr_outside::{Disk, MemDisk};
use ckr_steps::{Files, RecordSource, StepRun, Worked};
use ckr_volumes::{Layout, Volume, read_record, write_record};
use std::alloc::Global;
use std::process::Abort;
use std::test::Fail;

mod cases;
mod points;

/// How a step ended, and how many writes it made.
#[derive(Clone, Copy, PartialEq, Eq)]
enum End {
    Returned(u16, u32),
    Abend(Code, u32),
}

/// A book of 512 bytes and one volume of 2048.
fn small() -> Layout
    ensures laid { IsTrue (is_laid_out result) }
    ensures needed { disk_needed result ≡ 3072 }
    ensures volumes { length result.volumes.items ≡ 1 }
    ensures bytes { bytes_of result.volumes.items 0 ≡ 2048 }
{
    let mut volumes = ArrayVec::new();
    volumes.push(Volume {
        serial: Volser::default(),
        start: 1024,
        bytes: 2048,
    });
    Layout {
        version: 1,
        initiators: 1,
        units: 1,
        volumes,
        eligible: ArrayVec::new(),
        book: 512,
        image: 0,
    }
}

/// A data set of so many records of 80 bytes, from a byte of the volume on.
fn set_from(layout: &Layout, start: u32, space: u32) -> DataSet
    requires volumes { length layout.now.volumes.items ≡ 1 }
    requires bytes { bytes_of layout.now.volumes.items 0 ≡ 2048 }
    requires inside { start + space * 80 ≤ 2048 }
    requires some { 1 ≤ space }
    ensures stands { StandsIn layout.now result }
    ensures lies { stretches_of result ≡ record { volume = 0; start = start; records = space } ∷ [] }
    ensures lrecl { result.lrecl ≡ 80 }
    ensures fits { result.length ≤ result.space }
{
    let mut extents = ArrayVec::new();
    extents.push(Extent {
        start,
        records: space,
    });
    let mut parts = ArrayVec::new();
    parts.push(Part {
        volume: 0,
        extents,
        records: space,
    });
    DataSet {
        parts,
        cataloged: true,
        lrecl: 80,
        space,
        length: 0,
        stamp: Stamp {
            run: 1,
            step: 1,
            rewrites: 0,
        },
        content: Content::Plain,
    }
}

/// Puts a data set behind all others.
fn add<R: Abort>(
    rt: &R,
    library: &mut Library,
    layout: &Layout,
    name: DsName,
    start: u32,
    space: u32,
) -> Result<(), Fail>
    requires volumes { length layout.now.volumes.items ≡ 1 }
    requires bytes { bytes_of layout.now.volumes.items 0 ≡ 2048 }
    requires inside { start + space * 80 ≤ 2048 }
    requires some { 1 ≤ space }
    requires stored { AreStored layout.now library.old }
    requires ends { EndsBy start library.old }
    ensures stored { OnOk result (AreStored layout.now library.new) }
    ensures ends { OnOk result (EndsBy (start + space * 80) library.new) }
{
    assert!(rt; library.get(&name).is_none());
    library.insert(name, set_from(layout, start, space))?;
    Ok(())
}

fn name<R: Abort>(rt: &R, text: &[u8]) -> DsName {
    DsName::read(text).expect(rt, "a name")
}

/// `A` with space for three records, `B` and `C` with space for four, and `D` with space for one, in a library that has nothing.
fn add_all<R: Abort>(rt: &R, library: &mut Library, layout: &Layout) -> Result<(), Fail>
    requires volumes { length layout.now.volumes.items ≡ 1 }
    requires bytes { bytes_of layout.now.volumes.items 0 ≡ 2048 }
    requires stored { AreStored layout.now library.old }
    requires ends { EndsBy 0 library.old }
    ensures { OnOk result (AreStored layout.now library.new) }
{
    add(rt, library, layout, name(rt, b"A"), 0, 3)?;
    add(rt, library, layout, name(rt, b"B"), 240, 4)?;
    add(rt, library, layout, name(rt, b"C"), 560, 4)?;
    add(rt, library, layout, name(rt, b"D"), 880, 1)
}

/// These data sets.
fn library_of<R: Abort>(rt: &R, alloc: Global, layout: &Layout) -> Result<Library, Fail>
    requires volumes { length layout.now.volumes.items ≡ 1 }
    requires bytes { bytes_of layout.now.volumes.items 0 ≡ 2048 }
    ensures { IfOk result (AreStored layout.now) }
{
    let mut library = Library::new(alloc);
    add_all(rt, &mut library, layout)?;
    Ok(library)
}

/// Whether the records of an input are there.
fn is_source_there(library: &Library, source: &RecordSource) -> bool
    ensures { IsTrue result → IsSourceThere library.now source.now }
{
    match source {
        RecordSource::Nowhere => true,
        RecordSource::InDeck(cards) => cards.as_slice().len() <= 1_000_000,
        RecordSource::InSet(name) => library.get(name).is_some(),
    }
}

/// Whether the data set of an output is there.
fn is_set_there(library: &Library, name: &Option<DsName>) -> bool
    ensures { IsTrue result → IsSetThere library.now name.now }
{
    match name {
        Some(name) => library.get(name).is_some(),
        None => true,
    }
}

/// Whether two outputs are one data set.
fn are_same_set(one: &Option<DsName>, other: &Option<DsName>) -> bool
    ensures { AreSameSet one.now other.now → IsTrue result }
{
    match (one, other) {
        (Some(one), Some(other)) => one.cmp(other).is_eq(),
        _ => false,
    }
}

/// Whether the data sets of a program are there.
fn are_there(library: &Library, files: &Files) -> bool
    ensures { IsTrue result → AreThere files.now library.now }
{
    is_source_there(library, &files.first)
        && is_source_there(library, &files.second)
        && is_set_there(library, &files.main)
        && is_set_there(library, &files.rejects)
        && !are_same_set(&files.rejects, &files.main)
}

/// Where the records of a DD are.
enum Source {
    /// In the data set of this name.
    Set(&'static [u8]),
    /// In the deck.
    Deck(&'static [&'static [u8]]),
}

/// A program, its PARM, the names and sources of its DDs, and how the step ends by its program's rules and by the space of its
/// data sets.
type Case = (Kind, &'static [u8], &'static [(&'static [u8], Source)], End);

/// These records as cards of the deck.
fn cards_of(alloc: Global, records: &[&[u8]]) -> Result<Cards, NoMemory> {
    let mut cards = Cards::new(alloc);
    for record in records {
        let card = Card::stored(1, &stored_line(*record));
        cards.push(CardImage::of(&card.bytes))?;
    }
    Ok(cards)
}

/// A DD of this name and source.
fn dd_of<R: Abort>(rt: &R, alloc: Global, text: &[u8], source: &Source) -> Result<Dd, NoMemory> {
    let origin = match source {
        Source::Set(set) => Origin::Named(name(rt, *set)),
        Source::Deck(records) => Origin::InStream(cards_of(alloc, *records)?),
    };
    Ok(Dd {
        name: Name8::read(text).expect(rt, "a name"),
        role: Role::Unused,
        origin,
        disp: Disp {
            status: Status::Old,
            normal: None,
            abnormal: None,
        },
        volumes: ArrayVec::new(),
        space: None,
        lrecl: 80,
    })
}

/// DDs of these names and sources.
fn dds_of<R: Abort>(
    rt: &R,
    alloc: Global,
    sources: &[(&'static [u8], Source)],
) -> Result<Dds, NoMemory> {
    let mut dds = Dds::new(alloc);
    for (text, source) in sources {
        dds.push(dd_of(rt, alloc, *text, source)?)?;
    }
    Ok(dds)
}

/// A step of a program with this PARM and these DDs.
fn step_with<R: Abort>(rt: &R, alloc: Global, program: Kind, parm: &[u8], dds: Dds) -> Step {
    Step {
        name: Name8::read(b"S1").expect(rt, "a name"),
        program,
        parm: parm_of(program, parm).expect(rt, "a PARM"),
        rd: None,
        cond: Conds::new(alloc),
        dds,
    }
}

fn step_of<R: Abort>(rt: &R, alloc: Global, case: &Case) -> Result<Step, NoMemory> {
    let dds = dds_of(rt, alloc, case.2)?;
    Ok(step_with(rt, alloc, case.0, case.1, dds))
}

/// Rewrites a record.
fn rewrite<R: Abort, D: Disk>(
    rt: &R,
    disk: &mut D,
    layout: &Layout,
    library: &Library,
    name: &DsName,
    place: u32,
    image: &Rec,
) -> Result<(), Fail>
    requires layout { IsTrue (is_laid_out layout.now) }
    requires fits { disk_needed layout.now ≤ D.size disk.old }
    requires stored { AreStored layout.now library.now }
    ensures { D.size disk.new ≡ D.size disk.old }
{
    let set = match library.get(name) {
        Some(set) => set,
        None => return Ok(()),
    };
    assert!(rt; place < set.space);
    assert!(rt; image.bytes().len() == usize::from(set.lrecl));
    write_record(disk, layout, set, place, image)?;
    Ok(())
}

/// Does a unit, and its rewrite in the data set `A`. An end where it ends the step abnormally.
fn unit<R: Abort, D: Disk>(
    rt: &R,
    disk: &mut D,
    layout: &Layout,
    library: &mut Library,
    step: &mut StepRun,
) -> Result<Option<End>, Fail>
    requires due { due_of step.old.parm step.old.state ≡ OneUnit }
    requires counted { AreCounted step.old }
    requires layout { IsTrue (is_laid_out layout.now) }
    requires fits { disk_needed layout.now ≤ D.size disk.old }
    requires stored { AreStored layout.now library.old }
    requires there { AreThere step.old.files library.old }
    ensures counted { IfOk result (λ _. AreCounted step.new) }
    ensures stored { AreStored layout.now library.new }
    ensures there { AreThere step.new.files library.new }
    ensures size { D.size disk.new ≡ D.size disk.old }
{
    let ahead = step.ahead(disk, layout, library)?;
    match step.work(disk, layout, library, ahead)? {
        Worked::Went { taken } => {
            assert!(rt; taken == step.progress().taken);
            Ok(None)
        }
        Worked::Rewrite { place, image, .. } => {
            rewrite(rt, disk, layout, library, &name(rt, b"A"), place, &image)?;
            Ok(None)
        }
        Worked::Abend(code) => Ok(Some(End::Abend(code, step.progress().writes))),
    }
}

/// Does what is due.
fn next<R: Abort, D: Disk>(
    rt: &R,
    disk: &mut D,
    layout: &Layout,
    library: &mut Library,
    step: &mut StepRun,
) -> Result<Option<End>, Fail>
    requires counted { AreCounted step.old }
    requires layout { IsTrue (is_laid_out layout.now) }
    requires fits { disk_needed layout.now ≤ D.size disk.old }
    requires stored { AreStored layout.now library.old }
    requires there { AreThere step.old.files library.old }
    ensures counted { IfOk result (λ _. AreCounted step.new) }
    ensures stored { AreStored layout.now library.new }
    ensures there { AreThere step.new.files library.new }
    ensures size { D.size disk.new ≡ D.size disk.old }
{
    match step.due() {
        NextDue::Finished(rc) => Ok(Some(End::Returned(rc, step.progress().writes))),
        NextDue::Checkpoint | NextDue::Cancel => {
            step.served(false);
            Ok(None)
        }
        NextDue::Unit => unit(rt, disk, layout, library, step),
    }
}

/// Runs a step to its end.
fn run<R: Abort, D: Disk>(
    rt: &R,
    alloc: Global,
    disk: &mut D,
    layout: &Layout,
    library: &mut Library,
    step: &Step,
) -> Result<Option<End>, Fail>
    requires layout { IsTrue (is_laid_out layout.now) }
    requires fits { disk_needed layout.now ≤ D.size disk.old }
    requires stored { AreStored layout.now library.old }
    ensures size { D.size disk.new ≡ D.size disk.old }
    ensures stored { AreStored layout.now library.new }
{
    assert!(rt; step.parm.sum.1 <= 15);
    assert!(rt; step.parm.key.1 <= 32);
    let mut step = StepRun::begin(alloc, step, 1, 1)?;
    assert!(rt; are_there(library, &step.files));
    for _ in 0..20 {
        if let Some(end) = next(rt, disk, layout, library, &mut step)? {
            return Ok(Some(end));
        }
    }
    Ok(None)
}

/// Runs the steps one after another.
fn run_all<R: Abort, D: Disk>(
    rt: &R,
    alloc: Global,
    disk: &mut D,
    layout: &Layout,
    library: &mut Library,
) -> Result<(), Fail>
    requires layout { IsTrue (is_laid_out layout.now) }
    requires fits { disk_needed layout.now ≤ D.size disk.old }
    requires stored { AreStored layout.now library.old }
    ensures size { D.size disk.new ≡ D.size disk.old }
    ensures stored { AreStored layout.now library.new }
{
    for case in &CASES {
        let step = step_of(rt, alloc, case)?;
        let end = run(rt, alloc, disk, layout, library, &step)?;
        assert!(rt; end == Some(case.3));
    }
    Ok(())
}

/// The first byte of a record of the data set `A`.
fn byte_at<R: Abort, D: Disk>(
    rt: &R,
    disk: &mut D,
    layout: &Layout,
    library: &Library,
    place: u32,
) -> Result<Option<u8>, Fail>
    requires layout { IsTrue (is_laid_out layout.now) }
    requires fits { disk_needed layout.now ≤ D.size disk.old }
    requires stored { AreStored layout.now library.now }
    ensures { D.size disk.new ≡ D.size disk.old }
{
    let name = name(rt, b"A");
    let set = match library.get(&name) {
        Some(set) => set,
        None => return Ok(None),
    };
    assert!(rt; place < set.space);
    let found = read_record(disk, layout, set, place)?;
    Ok(found.bytes().first().copied())
}

/// The steps end as their rows have it, and leave these records.
fn end_as_their_programs_say<R: Abort, D: Disk>(
    rt: &R,
    alloc: Global,
    disk: &mut D,
    layout: &Layout,
    library: &mut Library,
) -> Result<(), Fail>
    requires layout { IsTrue (is_laid_out layout.now) }
    requires fits { disk_needed layout.now ≤ D.size disk.old }
    requires stored { AreStored layout.now library.old }
{
    run_all(rt, alloc, disk, layout, library)?;
    assert!(rt; byte_at(rt, disk, layout, library, 0)? == Some(b'X'));
    assert!(rt; byte_at(rt, disk, layout, library, 1)? == Some(b'Y'));
    Ok(())
}

#[test]
fn steps_end_as_their_programs_say(rt: HostRuntime) -> Result<(), Fail> {
    let alloc = rt.alloc();
    let layout = small();
    let mut library = library_of(&rt, alloc, &layout)?;
    let mut disk = MemDisk::new(alloc, 3072, Vec::new(alloc), None)?;
    end_as_their_programs_say(&rt, alloc, &mut disk, &layout, &mut library)
}
