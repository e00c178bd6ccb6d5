//! A step opens its outputs.
ghost use Rattle.std.specs.Prelude.{◌≡◌, ◌≤◌, List};
ghost use Rattle.ckr_jcl.specs.declared.deck.Cond.{Cond as Test};
ghost use Rattle.ckr_library.specs.Catalog.{HasSet};
ghost use Rattle.ckr_library.specs.NameMaps.{with_changed};
ghost use Rattle.ckr_meaning.specs.Allotments.{opened_all, opened_by};
ghost use Rattle.ckr_meaning.specs.EffectiveJob.{placed_in, stamp_of};
ghost use Rattle.ckr_points_library.specs.Holdings.{holding_ways, owned, standing};
ghost use Rattle.ckr_points_library.specs.Outputs.{opened_dd};

use crate::allotment::{Allotment, allotment_of, is_output, is_passed};
use ckr_base::DsName;
use ckr_entry::Passed;
use ckr_jcl::{Dd, Status, Step};
use ckr_library::{Library, Stamp};
use ckr_meaning::library_name;

/// Opens a data set for output: with OLD it is emptied, with each other status it stays, and it gets the stamp.
fn open_set(name: &DsName, status: Status, stamp: Stamp, library: &mut Library)
    requires { HasSet library.old name.now (λ _. Unit {0}) }
    ensures sets { library.new.sets ≡ with_changed name.now (opened_by holding_ways stamp status) library.old.sets }
    ensures room { library.new.room ≡ library.old.room }
{
    match status {
        Status::Old => {
            library.set_length(name, 0);
            library.set_stamp(name, stamp);
        }
        _ => library.set_stamp(name, stamp),
    }
}

/// Opens the data set of a DD, if it is an output and found.
fn open_dd(dd: &Dd, name: &DsName, stamp: Stamp, library: &mut Library, passed: &[Passed])
    ensures sets { library.new.sets ≡ opened_dd passed.now stamp dd.now name.now library.old.sets }
    ensures room { library.new.room ≡ library.old.room }
{
    if !is_output(dd.role) {
        return;
    }
    match allotment_of(dd, is_passed(passed, name), library.get(name)) {
        Allotment::Found => open_set(name, dd.disp.status, stamp, library),
        Allotment::Made | Allotment::Refused(_) => {}
    }
}

/// Opens the outputs of a step that are found: with OLD the data set is emptied, with MOD it stays, and each gets the stamp of
/// the step, which is its number and the run that owns it. Catalog marks, and what the step makes, stay as they are. It takes
/// no memory (IBM GC28-6704; the stamp is this project's profile).
pub fn open_outputs(
    step: &Step,
    root: u32,
    owner: u32,
    number: u8,
    library: &mut Library,
    passed: &[Passed],
)
    requires root { root ≤ 9999999 }
    requires owner { owner ≤ 9999999 }
    ensures sets { (tests : List Test) → let own = owned step.now owner tests in library.new.sets ≡ opened_all holding_ways (stamp_of own number) (placed_in holding_ways (standing library.old.sets passed.now) root own) library.old.sets }
    ensures room { library.new.room ≡ library.old.room }
{
    let stamp = Stamp {
        run: owner,
        step: number,
        rewrites: 0,
    };
    for dd in step.dds.as_slice() {
        if let Some(name) = library_name(dd, root, owner, &step.name) {
            open_dd(dd, &name, stamp, library, passed);
        }
    }
}
