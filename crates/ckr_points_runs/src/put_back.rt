//! What a restart puts back: the data sets as a point marks them, and its passed list.
ghost use Rattle.std.specs.Prelude.{◌≡◌, ◌≤◌, false, length, IsTrue, nat_le};
ghost use Rattle.std.specs.Option.{option_map_or};
ghost use Rattle.ckr_library.specs.Catalog.{with_catalog, Holding};
ghost use Rattle.ckr_library.specs.NameMaps.{are_named_in_order, entry_at, with_changed, without_entry, EachEntry};
ghost use Rattle.ckr_meaning.specs.EffectiveJob.{names_of};
ghost use Rattle.ckr_points.specs.Marks.{sysout_names};
ghost use Rattle.ckr_points_library.specs.Commit.{output_names};
ghost use Rattle.ckr_points_runs.specs.RunJobs.{own_of};
ghost use Rattle.ckr_points_runs.specs.PutBack.{all_made_gone, catalog_back, catalogs_back, cut_back, length_back, lengths_back, made_gone, sets_back};
ghost use Rattle.ckr_points_runs.specs.PutBack.{IsFilled};

use crate::OwnStep;
use crate::start::put_passed;
use ckr_base::DsName;
use ckr_entry::{Mark, Passed, PassedList, Present};
use ckr_library::Library;
use ckr_points::{is_marked_absent, is_sysout, present_at};
use ckr_points_library::output_name;
use ckr_uses::library_name;

/// Takes a data set out of the library, if it is there.
pub(crate) fn delete(name: &DsName, library: &mut Library)
    ensures { library.new.sets ≡ without_entry name.now library.old.sets }
{
    if library.get(name).is_some() {
        library.remove(name);
    }
}

/// A data set goes that a point marks absent. One that it marks otherwise, or not at all, stays.
fn delete_made(marks: &[Mark], name: &DsName, library: &mut Library)
    ensures { library.new.sets ≡ made_gone marks.now name.now library.old.sets }
{
    if is_marked_absent(marks, name) {
        delete(name, library);
    }
}

/// The data sets go that a step made: those of its names that the point at its start marks absent.
pub fn delete_all_made(root: u32, own: &OwnStep<'_>, marks: &[Mark], library: &mut Library)
    requires root { root ≤ 9999999 }
    requires owner { own.now.owner ≤ 9999999 }
    ensures { library.new.sets ≡ all_made_gone marks.now (names_of root (own_of own.now)) library.old.sets }
{
    for dd in own.step.dds.as_slice() {
        if let Some(name) = library_name(dd, root, own.owner, &own.step.name) {
            delete_made(marks, &name, library);
        }
    }
}

/// The data sets go that a step made for the printer: those of its names for it that the point at its start marks absent.
pub fn delete_printed(root: u32, own: &OwnStep<'_>, marks: &[Mark], library: &mut Library)
    requires root { root ≤ 9999999 }
    requires owner { own.now.owner ≤ 9999999 }
    ensures { library.new.sets ≡ all_made_gone marks.now (sysout_names root (own_of own.now)) library.old.sets }
{
    for dd in own.step.dds.as_slice() {
        if is_sysout(&dd.origin)
            && let Some(name) = library_name(dd, root, own.owner, &own.step.name)
        {
            delete_made(marks, &name, library);
        }
    }
}

/// Whether a data set is there that has so many records, or more.
fn is_as_long(name: &DsName, most: u32, library: &Library) -> bool
    ensures order { IsTrue (are_named_in_order library.now.sets) }
    ensures value { result ≡ option_map_or (λ (holding : Holding). nat_le most holding.set.length) (entry_at library.now.sets name.now) false }
{
    let _ = library.name_at(0);
    match library.get(name) {
        Some(set) => most <= set.length,
        None => false,
    }
}

/// A data set is cut to a length, if it is there and not shorter: the entries that end beyond it go.
fn cut_back(name: &DsName, most: u32, library: &mut Library)
    requires filled { EachEntry IsFilled library.old.sets }
    ensures { library.new.sets ≡ with_changed name.now (cut_back most) library.old.sets }
{
    if is_as_long(name, most, library) {
        library.set_length(name, most);
    }
}

/// A data set gets the length of its mark, if it has one.
fn put_back_length(marks: &[Mark], name: &DsName, library: &mut Library)
    requires filled { EachEntry IsFilled library.old.sets }
    ensures sets { library.new.sets ≡ length_back marks.now name.now library.old.sets }
    ensures filled { EachEntry IsFilled library.new.sets }
{
    if let Some(present) = present_at(marks, name) {
        cut_back(name, present.length, library);
    }
}

/// The outputs of a step get the lengths of their marks.
pub fn put_back_lengths(root: u32, own: &OwnStep<'_>, marks: &[Mark], library: &mut Library)
    requires root { root ≤ 9999999 }
    requires owner { own.now.owner ≤ 9999999 }
    requires filled { EachEntry IsFilled library.old.sets }
    ensures { library.new.sets ≡ lengths_back marks.now (output_names root (own_of own.now)) library.old.sets }
{
    for dd in own.step.dds.as_slice() {
        if let Some(name) = output_name(dd, root, own.owner, own.step) {
            put_back_length(marks, &name, library);
        }
    }
}

/// Sets the catalog mark of a data set, if it is there.
fn set_catalog(name: &DsName, on: bool, library: &mut Library)
    ensures { library.new.sets ≡ with_changed name.now (with_catalog on) library.old.sets }
{
    if library.get(name).is_some() {
        library.set_catalog(name, on);
    }
}

/// A data set gets the catalog mark of its mark, if it has one.
pub fn put_back_catalog(marks: &[Mark], name: &DsName, library: &mut Library)
    ensures { library.new.sets ≡ catalog_back marks.now name.now library.old.sets }
{
    if let Some(present) = present_at(marks, name) {
        set_catalog(name, present.cataloged, library);
    }
}

/// The names of a step get the catalog marks of their marks.
fn put_back_catalogs(root: u32, own: &OwnStep<'_>, marks: &[Mark], library: &mut Library)
    requires root { root ≤ 9999999 }
    requires owner { own.now.owner ≤ 9999999 }
    ensures { library.new.sets ≡ catalogs_back marks.now (names_of root (own_of own.now)) library.old.sets }
{
    for dd in own.step.dds.as_slice() {
        if let Some(name) = library_name(dd, root, own.owner, &own.step.name) {
            put_back_catalog(marks, &name, library);
        }
    }
}

/// The data sets of a step as a point marks them: the lengths of its outputs, and the catalog marks of all its names.
pub fn put_back_sets(root: u32, own: &OwnStep<'_>, marks: &[Mark], library: &mut Library)
    requires root { root ≤ 9999999 }
    requires owner { own.now.owner ≤ 9999999 }
    requires filled { EachEntry IsFilled library.old.sets }
    ensures { library.new.sets ≡ sets_back marks.now (output_names root (own_of own.now)) (names_of root (own_of own.now)) library.old.sets }
{
    put_back_lengths(root, own, marks, library);
    put_back_catalogs(root, own, marks, library);
}

/// The passed list of a run becomes that of a point. There is a spare place for each of its entries.
pub fn put_back_passed(items: &[Passed], passed: &mut PassedList)
    requires { length items.now ≤ passed.old.room }
    ensures { passed.new.items ≡ items.now }
{
    passed.clear();
    put_passed(items, passed);
}
