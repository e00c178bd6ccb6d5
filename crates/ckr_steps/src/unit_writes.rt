//! The writes of a unit, each behind the last record of its data set.
ghost use Rattle.std.specs.Prelude.{◌≡◌, ◌≤◌, ◌<◌, ◌+◌, ◌∷◌, [], ◌++◌, ℕ, List, IsTrue, length, filter, take, nat_lt, if◌then◌else◌, OnOk, IfOk, Some};
ghost use Rattle.std.specs.Option.{is_some};
ghost use Rattle.ckr_base.specs.Columns.{fitted};
ghost use Rattle.ckr_outside.specs.Disk.{ChangesWithin, HasCause};
ghost use Rattle.ckr_library.specs.declared.sets.DataSet.{DataSet as OneSet};
ghost use Rattle.ckr_library.specs.Catalog.{set_of, HasSet};
ghost use Rattle.ckr_library.specs.NameMaps.{Name, with_changed};
ghost use Rattle.ckr_volumes.specs.Places.{address_of};
ghost use Rattle.ckr_volumes.specs.Records.{records_on};
ghost use Rattle.ckr_volumes.specs.Layouts.{is_laid_out, disk_needed, lie_apart, StandsIn};
ghost use Rattle.ckr_meaning.specs.LibrarySet.{Library as Model};
ghost use Rattle.ckr_meaning.specs.Program.{room_behind, room_after, fitting};
ghost use Rattle.ckr_meaning.specs.StepRun.{extended, changed_in};
ghost use Rattle.ckr_steps.specs.Files.{set_of_source};
ghost use Rattle.ckr_steps.specs.Inputs.{AreStored, AreThere, IsSetThere, IsSourceThere};
ghost use Rattle.ckr_steps.specs.Writes.{rewrite_first, end_set, room_at, room_of, is_behind, rewrite_of, done_of, longer, grown_in, grown, Shows, put_one, put_all, ChangesKeeping};

use crate::files::{Files, RecordSource};
use ckr_base::{DsName, Output, Rec, Write, fitted};
use ckr_library::{DataSet, Library};
use ckr_outside::{Disk, Failed};
use ckr_volumes::{Layout, write_record};

/// Writes the record behind the last one of a data set that has space for it.
fn write_next<D: Disk>(
    disk: &mut D,
    layout: &Layout,
    set: &DataSet,
    image: &Rec,
) -> Result<(), Failed>
    requires layout { IsTrue (is_laid_out layout.now) }
    requires fits { disk_needed layout.now ≤ D.size disk.old }
    requires stands { StandsIn layout.now set.now }
    requires space { set.now.length < set.now.space }
    ensures written { D.told → OnOk result (records_on (D.content disk.new) layout.now set.now (set.now.length + 1)
        ≡ records_on (D.content disk.old) layout.now set.now set.now.length ++ fitted set.now.lrecl image.now ∷ []) }
    ensures others { D.told → (other : OneSet) → StandsIn layout.now other → IsTrue (lie_apart set.now other)
        → (n : ℕ) → n ≤ other.space
        → records_on (D.content disk.new) layout.now other n ≡ records_on (D.content disk.old) layout.now other n }
    ensures changes { ChangesWithin D.told D.content D.may_leave D.moment D.left_since
        (address_of layout.now set.now set.now.length) set.now.lrecl disk.old disk.new }
    ensures size { D.size disk.new ≡ D.size disk.old }
    ensures cause { HasCause (D.faults disk.old) (D.faults disk.new) result }
{
    write_record(disk, layout, set, set.length, &fitted(image, set.lrecl))
}

/// Puts a record behind the last one of a data set. False where the data set has no space for it; then nothing is written.
fn append<D: Disk>(
    disk: &mut D,
    layout: &Layout,
    library: &mut Library,
    name: &DsName,
    image: &Rec,
) -> Result<bool, Failed>
    requires layout { IsTrue (is_laid_out layout.now) }
    requires fits { disk_needed layout.now ≤ D.size disk.old }
    requires stored { AreStored layout.now library.old }
    requires there { HasSet library.old name.now (λ _. Unit {0}) }
    ensures fits { IfOk result (λ fits. fits ≡ nat_lt 0 (room_at library.old (Some name.now))) }
    ensures sets { IfOk result (λ fits. library.new.sets ≡ (if fits then with_changed name.now longer library.old.sets else library.old.sets)) }
    ensures shows { (names : List Name) (model : Model) → Shows D.told (D.content disk.old) layout.now names model library.old
        → IfOk result (λ fits. Shows D.told (D.content disk.new) layout.now names (if fits then with_changed name.now (extended image.now) model else model) library.new) }
    ensures stored { AreStored layout.now library.new }
    ensures there { (other : Name) → HasSet library.old other (λ _. Unit {0}) → HasSet library.new other (λ _. Unit {0}) }
    ensures keeps { ChangesKeeping D.told D.content D.may_leave D.moment D.left_since layout.now library.old disk.old disk.new }
    ensures size { D.size disk.new ≡ D.size disk.old }
    ensures cause { HasCause (D.faults disk.old) (D.faults disk.new) result }
{
    let set = match library.get(name) {
        Some(set) => set,
        None => unreachable!(),
    };
    if set.length >= set.space {
        return Ok(false);
    }
    let length = set.length + 1;
    write_next(disk, layout, set, image)?;
    library.set_length(name, length);
    Ok(true)
}

/// The same for an output that a program may have. One that it hasn't has no space.
fn put_in<D: Disk>(
    disk: &mut D,
    layout: &Layout,
    library: &mut Library,
    name: &Option<DsName>,
    image: &Rec,
) -> Result<bool, Failed>
    requires layout { IsTrue (is_laid_out layout.now) }
    requires fits { disk_needed layout.now ≤ D.size disk.old }
    requires stored { AreStored layout.now library.old }
    requires there { IsSetThere library.old name.now }
    ensures fits { IfOk result (λ fits. fits ≡ nat_lt 0 (room_at library.old name.now)) }
    ensures sets { IfOk result (λ fits. library.new.sets ≡ (if fits then grown_in name.now library.old.sets else library.old.sets)) }
    ensures shows { (names : List Name) (model : Model) → Shows D.told (D.content disk.old) layout.now names model library.old
        → IfOk result (λ fits. Shows D.told (D.content disk.new) layout.now names (if fits then changed_in name.now (extended image.now) model else model) library.new) }
    ensures stored { AreStored layout.now library.new }
    ensures there { (other : Name) → HasSet library.old other (λ _. Unit {0}) → HasSet library.new other (λ _. Unit {0}) }
    ensures keeps { ChangesKeeping D.told D.content D.may_leave D.moment D.left_since layout.now library.old disk.old disk.new }
    ensures size { D.size disk.new ≡ D.size disk.old }
    ensures cause { HasCause (D.faults disk.old) (D.faults disk.new) result }
{
    match name {
        Some(name) => append(disk, layout, library, name, image),
        None => Ok(false),
    }
}

/// Does a write of a unit. False where it has no space; then nothing is written. A rewrite isn't done here.
fn put_one<D: Disk>(
    disk: &mut D,
    layout: &Layout,
    library: &mut Library,
    files: &Files,
    write: &Write,
) -> Result<bool, Failed>
    requires layout { IsTrue (is_laid_out layout.now) }
    requires fits { disk_needed layout.now ≤ D.size disk.old }
    requires stored { AreStored layout.now library.old }
    requires there { AreThere files.now library.old }
    ensures fits { IfOk result (λ fits. fits ≡ is_some (room_behind write.now.output (room_of library.old files.now))) }
    ensures left { IfOk result (λ fits. IsTrue fits → room_behind write.now.output (room_of library.old files.now) ≡ Some (room_of library.new files.now)) }
    ensures sets { IfOk result (λ fits. library.new.sets ≡ (if fits then grown_in (end_set files.now write.now.output) library.old.sets else library.old.sets)) }
    ensures shows { (names : List Name) (model : Model) → Shows D.told (D.content disk.old) layout.now names model library.old
        → IfOk result (λ fits. Shows D.told (D.content disk.new) layout.now names (if fits then put_one files.now write.now model else model) library.new) }
    ensures stored { AreStored layout.now library.new }
    ensures there { AreThere files.now library.new }
    ensures keeps { ChangesKeeping D.told D.content D.may_leave D.moment D.left_since layout.now library.old disk.old disk.new }
    ensures size { D.size disk.new ≡ D.size disk.old }
    ensures cause { HasCause (D.faults disk.old) (D.faults disk.new) result }
{
    match write.output {
        Output::Main => put_in(disk, layout, library, &files.main, &write.image),
        Output::Rejects => put_in(disk, layout, library, &files.rejects, &write.image),
        Output::InPlace(_) => Ok(true),
    }
}

/// Whether a write goes behind a last record.
fn is_behind(write: &Write) -> bool
    ensures { result ≡ is_behind write.now }
{
    match write.output {
        Output::Main | Output::Rejects => true,
        Output::InPlace(_) => false,
    }
}

/// Does the writes of a unit up to the first one that has no space.
pub(crate) fn put_all<D: Disk>(
    disk: &mut D,
    layout: &Layout,
    library: &mut Library,
    files: &Files,
    writes: &[Write],
) -> Result<(), Failed>
    requires layout { IsTrue (is_laid_out layout.now) }
    requires fits { disk_needed layout.now ≤ D.size disk.old }
    requires stored { AreStored layout.now library.old }
    requires there { AreThere files.now library.old }
    ensures sets { OnOk result (library.new.sets ≡ grown files.now (fitting writes.now (room_of library.old files.now)) library.old.sets) }
    ensures shows { (names : List Name) (model : Model) → Shows D.told (D.content disk.old) layout.now names model library.old
        → OnOk result (Shows D.told (D.content disk.new) layout.now names (put_all files.now (fitting writes.now (room_of library.old files.now)) model) library.new) }
    ensures stored { AreStored layout.now library.new }
    ensures there { AreThere files.now library.new }
    ensures keeps { ChangesKeeping D.told D.content D.may_leave D.moment D.left_since layout.now library.old disk.old disk.new }
    ensures size { D.size disk.new ≡ D.size disk.old }
    ensures cause { HasCause (D.faults disk.old) (D.faults disk.new) result }
{
    let Some((first, rest)) = writes.split_first() else {
        return Ok(());
    };
    if !put_one(disk, layout, library, files, first)? {
        return Ok(());
    }
    put_all(disk, layout, library, files, rest)
}

/// How many writes go behind a last record.
pub(crate) fn count_behind(writes: &[Write]) -> u32
    requires few { length writes.now ≤ 4 }
    ensures count { result ≡ length (filter is_behind writes.now) }
    ensures few { result ≤ length writes.now }
{
    let Some((first, rest)) = writes.split_first() else {
        return 0;
    };
    count_behind(rest) + u32::from(is_behind(first))
}

/// The rewrite that a unit's writes begin with, of a data set.
fn rewrite_in(set: &DataSet, writes: &[Write]) -> Option<(u32, Rec)>
    requires { set.now.lrecl ≤ 256 }
    ensures { result ≡ rewrite_first (Some set.now) writes.now }
{
    let first = writes.first()?;
    let Output::InPlace(place) = first.output else {
        return None;
    };
    if place < set.length {
        Some((place, fitted(&first.image, set.lrecl)))
    } else {
        None
    }
}

/// The rewrite that a unit's writes begin with, if they do, in the data set that is updated. A place beyond its records has none.
#[tactic(auto, unfolding(crate::specs::Writes::rewrite_of))]
pub(crate) fn rewrite_of(library: &Library, files: &Files, writes: &[Write]) -> Option<(u32, Rec)>
    requires short { (name : Name) (set : OneSet) → set_of library.now name ≡ Some set → set.lrecl ≤ 256 }
    ensures { result ≡ rewrite_of library.now files.now writes.now }
{
    let RecordSource::InSet(name) = &files.first else {
        return None;
    };
    match library.get(name) {
        Some(set) => rewrite_in(set, writes),
        None => None,
    }
}

/// The space that is left in a data set, in records.
fn room_at(library: &Library, name: &Option<DsName>) -> u32
    ensures { result ≡ room_at library.now name.now }
{
    match name {
        Some(name) => match library.get(name) {
            Some(set) => set.space.saturating_sub(set.length),
            None => 0,
        },
        None => 0,
    }
}

/// Whether the writes have space, where the outputs have this much.
fn have_space(writes: &[Write], main: u32, rejects: u32) -> bool
    ensures { result ≡ is_some (room_after writes.now (record { main = main; rejects = rejects })) }
{
    let Some((first, rest)) = writes.split_first() else {
        return true;
    };
    match first.output {
        Output::Main => main > 0 && have_space(rest, main - 1, rejects),
        Output::Rejects => rejects > 0 && have_space(rest, main, rejects - 1),
        Output::InPlace(_) => have_space(rest, main, rejects),
    }
}

/// Whether the writes of a unit have space.
#[tactic(auto, unfolding(crate::specs::Writes::room_of))]
pub(crate) fn fit(library: &Library, files: &Files, writes: &[Write]) -> bool
    ensures { result ≡ is_some (room_after writes.now (room_of library.now files.now)) }
{
    have_space(
        writes,
        room_at(library, &files.main),
        room_at(library, &files.rejects),
    )
}

/// How many of the writes come before the first one that has no space, where the outputs have this much.
fn count_fitting(writes: &[Write], main: u32, rejects: u32) -> usize
    ensures count { result ≡ length (fitting writes.now (record { main = main; rejects = rejects })) }
    ensures few { result ≤ length writes.now }
{
    let Some((first, rest)) = writes.split_first() else {
        return 0;
    };
    match first.output {
        Output::Main if main > 0 => 1 + count_fitting(rest, main - 1, rejects),
        Output::Rejects if rejects > 0 => 1 + count_fitting(rest, main, rejects - 1),
        Output::InPlace(_) => 1 + count_fitting(rest, main, rejects),
        Output::Main | Output::Rejects => 0,
    }
}

/// How many of a unit's writes are done: where they begin with a rewrite none, and else those before the first one that has no space.
#[tactic(auto, unfolding(crate::specs::Writes::done_of, crate::specs::Writes::room_of))]
pub(crate) fn count_done(
    library: &Library,
    files: &Files,
    writes: &[Write],
    rewrites: bool,
) -> usize
    requires rewrites { rewrites ≡ is_some (rewrite_of library.now files.now writes.now) }
    ensures { take result writes.now ≡ done_of library.now files.now writes.now }
{
    if rewrites {
        return 0;
    }
    count_fitting(
        writes,
        room_at(library, &files.main),
        room_at(library, &files.rejects),
    )
}
