//! The end of a step, and of a job.
ghost use Rattle.std.specs.Prelude.{◌≡◌, ◌+◌, ◌≤◌, ◌<◌, [], List, length};
ghost use Rattle.ckr_jcl.specs.declared.deck.Cond.{Cond as Test};
ghost use Rattle.ckr_library.specs.Catalog.{with_catalog};
ghost use Rattle.ckr_library.specs.NameMaps.{with_changed, without_entry};
ghost use Rattle.ckr_meaning.specs.Dispositions.{disposed_all, disposed_one, passed_after, passed_ended, sets_after};
ghost use Rattle.ckr_meaning.specs.EffectiveJob.{names_of};
ghost use Rattle.ckr_points_library.specs.Disposals.{disposal_by, disposals_in};
ghost use Rattle.ckr_points_library.specs.Holdings.{holding_ways, owned, standing};

use ckr_base::DsName;
use ckr_entry::{Passed, PassedList};
use ckr_jcl::{After, Dd, Step};
use ckr_library::Library;
use ckr_meaning::{dispose, is_temporary, library_name};

/// Takes a data set out of the library, if it is there.
fn delete(name: &DsName, library: &mut Library)
    ensures sets { library.new.sets ≡ without_entry name.now library.old.sets }
    ensures room { library.old.room ≤ library.new.room }
{
    if library.get(name).is_some() {
        library.remove(name);
    }
}

/// Sets the catalog mark of a data set, if it is there.
fn mark(name: &DsName, on: bool, library: &mut Library)
    ensures sets { library.new.sets ≡ with_changed name.now (with_catalog on) library.old.sets }
    ensures room { library.old.room ≤ library.new.room }
{
    if library.get(name).is_some() {
        library.set_catalog(name, on);
    }
}

/// Does to a data set of the library what becomes of it.
fn dispose_set(name: &DsName, after: After, library: &mut Library)
    ensures sets { library.new.sets ≡ sets_after holding_ways after name.now library.old.sets }
    ensures room { library.old.room ≤ library.new.room }
{
    match after {
        After::Delete => delete(name, library),
        After::Keep | After::Pass => {}
        After::Catlg => mark(name, true, library),
        After::Uncatlg => mark(name, false, library),
    }
}

/// Takes a name out of the passed list, and enters it again where it is passed on.
fn pass_on(name: DsName, after: After, made: bool, passed: &mut PassedList)
    requires { 0 < passed.old.room }
    ensures items { passed.new.items ≡ passed_after after name made passed.old.items }
    ensures room { passed.old.room ≤ passed.new.room + 1 }
{
    passed.take_out(&name);
    if matches!(after, After::Pass) {
        match passed.push(Passed { name, made }) {
            Ok(()) => {}
            Err(_) => unreachable!(),
        }
    }
}

/// The disposition of a DD that has a data set.
fn end_dd(
    dd: &Dd,
    name: DsName,
    made: bool,
    earlier: bool,
    abnormal: bool,
    library: &mut Library,
    passed: &mut PassedList,
)
    requires { 0 < passed.old.room }
    ensures both { standing library.new.sets passed.new.items ≡ disposed_one holding_ways (disposal_by abnormal (dd.now, name) made earlier) (standing library.old.sets passed.old.items) }
    ensures spare { passed.old.room ≤ passed.new.room + 1 }
    ensures room { library.old.room ≤ library.new.room }
{
    let after = dispose(is_temporary(&dd.origin), &dd.disp, made, abnormal);
    dispose_set(&name, after, library);
    pass_on(name, after, made || earlier, passed);
}

/// The dispositions of a step, in the order of its DDs (IBM GC28-6704). `made` and `earlier` have one item for each DD that has
/// a data set, in-stream records and DUMMY left out: whether this step made it, and whether an effective earlier step of the run
/// did. DELETE takes it out of the library; KEEP and PASS leave it, CATLG and UNCATLG set its catalog mark. Each leaves the
/// passed list, and PASS enters it again. The list has a spare place for each of them. A name that isn't in the library changes
/// nothing there. It takes no memory.
pub fn end_step(
    step: &Step,
    root: u32,
    owner: u32,
    made: &[bool],
    earlier: &[bool],
    abnormal: bool,
    library: &mut Library,
    passed: &mut PassedList,
)
    requires root { root ≤ 9999999 }
    requires owner { owner ≤ 9999999 }
    requires made { length made.now ≡ length (names_of root (owned step.now owner [])) }
    requires earlier { length earlier.now ≡ length (names_of root (owned step.now owner [])) }
    requires spare { length (names_of root (owned step.now owner [])) ≤ passed.old.room }
    ensures both { (tests : List Test) → standing library.new.sets passed.new.items ≡ disposed_all holding_ways (disposals_in root (owned step.now owner tests) made.now earlier.now abnormal) (standing library.old.sets passed.old.items) }
    ensures room { library.old.room ≤ library.new.room }
{
    let mut place = 0;
    for dd in step.dds.as_slice() {
        if let Some(name) = library_name(dd, root, owner, &step.name) {
            end_dd(
                dd,
                name,
                made[place],
                earlier[place],
                abnormal,
                library,
                passed,
            );
            place += 1;
        }
    }
}

/// The end of a job: what it passed on and no step received is deleted where the run made it, and kept elsewhere
/// (IBM GC28-6704). The passed list is empty behind it. It takes no memory.
pub fn end_passed(passed: &mut PassedList, library: &mut Library)
    ensures sets { library.new.sets ≡ passed_ended passed.old.items library.old.sets }
    ensures passed { passed.new.items ≡ [] }
    ensures spare { passed.old.room ≤ passed.new.room }
    ensures room { library.old.room ≤ library.new.room }
{
    delete_made(passed.as_slice(), library);
    passed.clear();
}

/// Deletes the data sets that the run made, of those that it passed on.
fn delete_made(passed: &[Passed], library: &mut Library)
    ensures sets { library.new.sets ≡ passed_ended passed.now library.old.sets }
    ensures room { library.old.room ≤ library.new.room }
{
    for one in passed {
        if one.made {
            delete(&one.name, library);
        }
    }
}
