//! A step that goes on from a point, on a small disk.
ghost use Rattle.std.specs.Prelude.{◌≡◌, ◌≤◌, IsTrue, IfOk};
ghost use Rattle.ckr_volumes.specs.Layouts.{is_laid_out, disk_needed};
ghost use Rattle.ckr_steps.specs.Inputs.{AreStored, AreThere};
ghost use Rattle.ckr_steps.specs.StepUnit.{AreCounted};

use super::{Case, End, Source, are_there, library_of, next, run, small, step_of};
use ckr_jcl::{Kind, Step};
use ckr_library::Library;
use ckr_outside::{CallKind, Disk, MemDisk};
use ckr_steps::StepRun;
use ckr_volumes::Layout;
use std::alloc::Global;
use std::process::Abort;
use std::test::Fail;

/// COPY of three cards into `B`.
static FILL: Case = (
    Kind::Copy,
    b"",
    &[
        (b"SYSUT1", Source::Deck(&[b"1A", b"2B", b"3C"])),
        (b"SYSUT2", Source::Set(b"B")),
    ],
    End::Returned(0, 3),
);

/// COPY of `B` into `A`, with a checkpoint after two records.
static COPY: Case = (
    Kind::Copy,
    b"CHK=2",
    &[
        (b"SYSUT1", Source::Set(b"B")),
        (b"SYSUT2", Source::Set(b"A")),
    ],
    End::Returned(0, 3),
);

/// The step before its first record.
fn begun<R: Abort>(rt: &R, alloc: Global, step: &Step, library: &Library) -> Result<StepRun, Fail>
    ensures counted { IfOk result AreCounted }
    ensures there { IfOk result (λ run. AreThere run.files library.now) }
{
    assert!(rt; step.parm.sum.1 <= 15);
    assert!(rt; step.parm.key.1 <= 32);
    let run = StepRun::begin(alloc, step, 1, 1)?;
    assert!(rt; are_there(library, &run.files));
    Ok(run)
}

/// The step again, from where its run stands.
fn again<R: Abort>(
    rt: &R,
    alloc: Global,
    step: &Step,
    run: &StepRun,
    library: &Library,
) -> Result<StepRun, Fail>
    requires { AreCounted run.now }
    ensures counted { IfOk result AreCounted }
    ensures there { IfOk result (λ run. AreThere run.files library.now) }
{
    assert!(rt; step.parm.sum.1 <= 15);
    assert!(rt; step.parm.key.1 <= 32);
    let progress = run.progress();
    let again = StepRun::at_point(alloc, step, 1, 1, progress.state, progress.writes)?;
    assert!(rt; are_there(library, &again.files));
    Ok(again)
}

/// Does what is due three times.
fn three<R: Abort, D: Disk>(
    rt: &R,
    disk: &mut D,
    layout: &Layout,
    library: &mut Library,
    step: &mut StepRun,
) -> Result<Option<End>, Fail>
    requires counted { AreCounted step.old }
    requires layout { IsTrue (is_laid_out layout.now) }
    requires fits { disk_needed layout.now ≤ D.size disk.old }
    requires stored { AreStored layout.now library.old }
    requires there { AreThere step.old.files library.old }
    ensures counted { IfOk result (λ _. AreCounted step.new) }
    ensures stored { AreStored layout.now library.new }
    ensures there { AreThere step.new.files library.new }
    ensures size { D.size disk.new ≡ D.size disk.old }
{
    next(rt, disk, layout, library, step)?;
    next(rt, disk, layout, library, step)?;
    next(rt, disk, layout, library, step)
}

/// `B` gets three records.
fn fill<R: Abort, D: Disk>(
    rt: &R,
    alloc: Global,
    disk: &mut D,
    layout: &Layout,
    library: &mut Library,
) -> Result<(), Fail>
    requires layout { IsTrue (is_laid_out layout.now) }
    requires fits { disk_needed layout.now ≤ D.size disk.old }
    requires stored { AreStored layout.now library.old }
    ensures stored { AreStored layout.now library.new }
    ensures size { D.size disk.new ≡ D.size disk.old }
{
    let step = step_of(rt, alloc, &FILL)?;
    run(rt, alloc, disk, layout, library, &step)?;
    Ok(())
}

/// The step behind its checkpoint: two records are taken.
fn stopped<R: Abort, D: Disk>(
    rt: &R,
    alloc: Global,
    disk: &mut D,
    layout: &Layout,
    library: &mut Library,
    step: &Step,
) -> Result<StepRun, Fail>
    requires layout { IsTrue (is_laid_out layout.now) }
    requires fits { disk_needed layout.now ≤ D.size disk.old }
    requires stored { AreStored layout.now library.old }
    ensures counted { IfOk result AreCounted }
    ensures stored { AreStored layout.now library.new }
    ensures size { D.size disk.new ≡ D.size disk.old }
{
    let mut run = begun(rt, alloc, step, library)?;
    three(rt, disk, layout, library, &mut run)?;
    Ok(run)
}

/// The step goes on from there to its end: the third record is copied.
fn gone_on<R: Abort, D: Disk>(
    rt: &R,
    alloc: Global,
    disk: &mut D,
    layout: &Layout,
    library: &mut Library,
    step: &Step,
    run: &StepRun,
) -> Result<Option<End>, Fail>
    requires counted { AreCounted run.now }
    requires layout { IsTrue (is_laid_out layout.now) }
    requires fits { disk_needed layout.now ≤ D.size disk.old }
    requires stored { AreStored layout.now library.old }
    ensures stored { AreStored layout.now library.new }
    ensures size { D.size disk.new ≡ D.size disk.old }
{
    let mut again = again(rt, alloc, step, run, library)?;
    three(rt, disk, layout, library, &mut again)
}

/// The step in two runs. How the second one ends.
fn in_two_runs<R: Abort, D: Disk>(
    rt: &R,
    alloc: Global,
    disk: &mut D,
    layout: &Layout,
    library: &mut Library,
) -> Result<Option<End>, Fail>
    requires layout { IsTrue (is_laid_out layout.now) }
    requires fits { disk_needed layout.now ≤ D.size disk.old }
    requires stored { AreStored layout.now library.old }
{
    fill(rt, alloc, disk, layout, library)?;
    let step = step_of(rt, alloc, &COPY)?;
    let first = stopped(rt, alloc, disk, layout, library, &step)?;
    gone_on(rt, alloc, disk, layout, library, &step, &first)
}

/// Whether a disk was read at these bytes, in this order, and nowhere else.
fn reads_are(disk: &MemDisk, places: &[u64]) -> bool {
    let mut left = places;
    for call in disk.calls() {
        if call.kind == CallKind::Read {
            match left.split_first() {
                Some((place, rest)) if *place == call.at => left = rest,
                _ => return false,
            }
        }
    }
    left.is_empty()
}

#[test]
fn a_step_goes_on_behind_its_point(rt: HostRuntime) -> Result<(), Fail> {
    let alloc = rt.alloc();
    let layout = small();
    let mut library = library_of(&rt, alloc, &layout)?;
    let mut disk = MemDisk::new(alloc, 3072, Vec::new(alloc), None)?;
    let end = in_two_runs(&rt, alloc, &mut disk, &layout, &mut library)?;
    assert!(rt; end == Some(COPY.3));
    assert!(rt; reads_are(&disk, &[1264, 1344, 1424]));
    Ok(())
}
