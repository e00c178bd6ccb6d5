//! What no clause says: how DDs come to their data sets as the rules have it, and a step from its allocation to the end of its job.
ghost use Rattle.std.specs.Prelude.{◌≡◌, ◌≤◌, ℕ, [], ◌∷◌, length, IfOk, IsTrue, OnOk};
ghost use Rattle.std.specs.List.{list_all};
ghost use Rattle.ckr_library.specs.NameMaps.{entry_at};
ghost use Rattle.ckr_meaning.specs.EffectiveJob.{name_of, names_of};
ghost use Rattle.ckr_points_library.specs.Allocation.{fits_dd};
ghost use Rattle.ckr_points_library.specs.Commit.{IsWithinSpace, output_names};
ghost use Rattle.ckr_points_library.specs.Holdings.{owned};
ghost use Rattle.ckr_points_library.specs.AllocationSteps.{fits_named};

use crate::installation::one_volume;
use arrayvec::ArrayVec;
use ckr_base::{DsName, Name8, Volser};
use ckr_entry::PassedList;
use ckr_events::Made;
use ckr_jcl::{After, Conds, Dd, Dds, Disp, Kind, Origin, Role, Status, Step, read_parm};
use ckr_library::{Content, DataSet, Library, Stamp};
use ckr_points_library::{
    Allotment, Flaw, MadeList, allocate_step, allotment_of, commit_lengths, end_passed, end_step,
    is_passed, open_outputs,
};
use std::alloc::Global;
use std::process::Abort;
use std::test::Fail;

/// A DD that names a data set, of ten records of 80 bytes where it makes it.
fn dd_of<R: Abort>(rt: &R, text: &[u8], role: Role, status: Status) -> Dd
    ensures fits { IsTrue (fits_dd result) }
    ensures origin { result.origin ≡ Origin.Named text.now }
    ensures role { result.role ≡ role }
{
    Dd {
        name: Name8::read(b"OUT").expect(rt, "a name"),
        role,
        origin: Origin::Named(DsName::read(text).expect(rt, "a name")),
        disp: Disp {
            status,
            normal: Some(After::Pass),
            abnormal: None,
        },
        volumes: ArrayVec::new(),
        space: Some(10),
        lrecl: 80,
    }
}

/// A data set of no records, with space for ten.
fn set_of(cataloged: bool) -> DataSet
    ensures length { result.length ≡ 0 }
    ensures space { result.space ≡ 10 }
{
    DataSet {
        parts: ArrayVec::new(),
        cataloged,
        lrecl: 80,
        space: 10,
        length: 0,
        stamp: Stamp {
            run: 1,
            step: 1,
            rewrites: 0,
        },
        content: Content::Plain,
    }
}

/// A status, whether the library has the name and in its catalog, whether it was passed, whether VOL and SPACE are given, and
/// how the DD comes to its data set.
type Row = (Status, Option<bool>, bool, bool, bool, Allotment);

const EXISTS: Allotment = Allotment::Refused(Flaw::Exists);

const MISSING: Allotment = Allotment::Refused(Flaw::Missing);

const IS_FOUND: Allotment = Allotment::Found;

const IS_MADE: Allotment = Allotment::Made;

static ROWS: [Row; 11] = [
    (Status::New, None, false, false, true, IS_MADE),
    (Status::New, Some(true), false, false, true, EXISTS),
    (Status::Old, None, true, true, true, MISSING),
    (Status::Old, Some(false), false, false, true, MISSING),
    (Status::Old, Some(false), false, true, true, IS_FOUND),
    (Status::Shr, Some(false), true, false, true, IS_FOUND),
    (Status::Shr, Some(true), false, false, true, IS_FOUND),
    (Status::Mod, None, false, false, true, IS_MADE),
    (Status::Mod, None, false, false, false, MISSING),
    (Status::Mod, Some(false), false, false, true, EXISTS),
    (Status::Mod, Some(true), false, false, false, IS_FOUND),
];

/// A DD of this status, with VOL and SPACE or without.
fn asked<R: Abort>(rt: &R, status: Status, volume: bool, space: bool) -> Dd {
    let mut dd = dd_of(rt, b"OUT.A", Role::Writes, status);
    if volume {
        dd.volumes
            .push(Volser::read(b"VOL001").expect(rt, "a serial"));
    }
    if !space {
        dd.space = None;
    }
    dd
}

fn is_allotted<R: Abort>(rt: &R, row: &Row) -> bool {
    let (status, there, passed, volume, space, expected) = *row;
    let dd = asked(rt, status, volume, space);
    match there {
        Some(cataloged) => allotment_of(&dd, passed, Some(&set_of(cataloged))) == expected,
        None => allotment_of(&dd, passed, None) == expected,
    }
}

#[test]
fn dds_come_to_their_data_sets(rt: HostRuntime) {
    for (place, row) in ROWS.iter().enumerate() {
        assert!(rt; is_allotted(&rt, row), "row {place}");
    }
}

/// A step of one DD of this status, which writes a data set.
fn step_of<R: Abort>(rt: &R, alloc: Global, text: &[u8], status: Status) -> Result<Step, Fail>
    ensures names { IfOk result (λ step. (root owner : ℕ) → names_of root (owned step owner []) ≡ text.now ∷ []) }
    ensures outputs { IfOk result (λ step. (root owner : ℕ) → output_names root (owned step owner []) ≡ text.now ∷ []) }
    ensures fits { IfOk result (λ step. (root owner : ℕ) → IsTrue (list_all (fits_named (name_of root (owned step owner []))) step.dds)) }
    ensures count { IfOk result (λ step. length step.dds ≡ 1) }
{
    let mut dds = Dds::new(alloc);
    dds.push(dd_of(rt, text, Role::Writes, status))?;
    Ok(Step {
        name: Name8::read(b"S1").expect(rt, "a name"),
        program: Kind::Br14,
        parm: read_parm(Kind::Br14, b"").expect(rt, "a PARM"),
        rd: None,
        cond: Conds::new(alloc),
        dds,
    })
}

/// What a step that makes a data set is given on an empty volume; nothing where it is refused, or a name is entered.
fn allocated<R: Abort>(rt: &R, alloc: Global) -> Result<MadeList, Fail> {
    let step = step_of(rt, alloc, b"OUT.A", Status::New)?;
    let layout = one_volume();
    let mut library = Library::new(alloc);
    library.reserve(1)?;
    let mut items = MadeList::new(alloc);
    items.reserve(1)?;
    let answer = allocate_step(&layout, &step, 7, 7, 1, &mut library, &[], &mut items);
    if answer.is_err() || library.name_at(0).is_some() {
        return Ok(MadeList::new(alloc));
    }
    Ok(items)
}

/// It is the data set of the first DD, at the front of the first volume.
fn is_at_the_front(made: &Made) -> bool {
    match made.pieces.as_slice() {
        [piece] => (made.dd, made.volume, piece.start, piece.records) == (1, 0, 0, 10),
        _ => false,
    }
}

/// A new data set begins at the front of the volume, and the library is as before.
#[test]
fn a_step_is_allocated(rt: HostRuntime) -> Result<(), Fail> {
    match allocated(&rt, rt.alloc())?.as_slice() {
        [made] => assert!(rt; is_at_the_front(made)),
        _ => assert!(rt; false),
    }
    Ok(())
}

/// A library with one data set of ten records.
fn library_of<R: Abort>(rt: &R, alloc: Global, text: &[u8]) -> Result<Library, Fail>
    ensures { IfOk result (λ library. IsWithinSpace 3 (entry_at library.sets text.now)) }
{
    let mut library = Library::new(alloc);
    let name = DsName::read(text).expect(rt, "a name");
    library.insert(name, set_of(true))?;
    Ok(library)
}

/// The library behind a step that wrote three records.
fn committed<R: Abort>(rt: &R, alloc: Global) -> Result<Library, Fail> {
    let step = step_of(rt, alloc, b"OUT.A", Status::New)?;
    let mut library = library_of(rt, alloc, b"OUT.A")?;
    commit_lengths(&step, 7, 7, &[3], &mut library);
    Ok(library)
}

/// Step 4 of run 7 opens its output, which is OLD.
fn open<R: Abort>(rt: &R, alloc: Global, library: &mut Library) -> Result<(), Fail> {
    let step = step_of(rt, alloc, b"OUT.A", Status::Old)?;
    open_outputs(&step, 7, 7, 4, library, &[]);
    Ok(())
}

/// The data set has this length and is in the catalog, with the stamp of this step.
fn is_left(library: &Library, length: u32, run: u32, step: u8) -> bool {
    let stamp = Stamp {
        run,
        step,
        rewrites: 0,
    };
    match output_in(library) {
        Some(set) => set.length == length && set.stamp == stamp && set.cataloged,
        None => false,
    }
}

/// The data set of the tests, if it is there.
fn output_in(library: &Library) -> Option<&DataSet> {
    library.get(&DsName::read(b"OUT.A")?)
}

/// Three records are committed; an output with OLD is emptied and stamped, and stays in the catalog.
#[test]
fn an_output_is_opened_and_committed(rt: HostRuntime) -> Result<(), Fail> {
    let mut library = committed(&rt, rt.alloc())?;
    assert!(rt; is_left(&library, 3, 1, 1));
    open(&rt, rt.alloc(), &mut library)?;
    assert!(rt; is_left(&library, 0, 7, 4));
    Ok(())
}

/// The library behind a step that made a data set and passed it on, and what is passed.
fn passed_on<R: Abort>(rt: &R, alloc: Global) -> Result<(Library, PassedList), Fail> {
    let step = step_of(rt, alloc, b"OUT.A", Status::New)?;
    let mut library = library_of(rt, alloc, b"OUT.A")?;
    let mut passed = PassedList::new(alloc);
    passed.reserve(1)?;
    let (made, earlier) = ([true], [false]);
    end_step(
        &step,
        7,
        7,
        &made,
        &earlier,
        false,
        &mut library,
        &mut passed,
    );
    Ok((library, passed))
}

/// Whether the data set of the tests is passed on.
fn is_listed(passed: &PassedList) -> bool {
    DsName::read(b"OUT.A").is_some_and(|name| is_passed(passed.as_slice(), &name))
}

fn end_job(library: &mut Library, passed: &mut PassedList) {
    end_passed(passed, library);
}

/// A data set that was made and passed on is deleted where no step receives it.
#[test]
fn a_passed_data_set_goes_with_the_job(rt: HostRuntime) -> Result<(), Fail> {
    let (mut library, mut passed) = passed_on(&rt, rt.alloc())?;
    assert!(rt; is_listed(&passed));
    assert!(rt; output_in(&library).is_some());
    end_job(&mut library, &mut passed);
    assert!(rt; passed.as_slice().is_empty());
    assert!(rt; output_in(&library).is_none());
    Ok(())
}
